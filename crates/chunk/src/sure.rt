// Whether a chunk is sure to be laid out, so that no chunk before it need wait to be written.
ghost use Rattle.std.specs.Prelude.{◌≡◌, drop};
ghost use Rattle.spec.specs.Decode.{chunk_of};
ghost use Rattle.chunk.specs.Checked.{ShapedChunk};
ghost use Rattle.chunk.specs.Sure.{sure};

use crate::find::find_spans;
use crate::lengths::any_length;
use merge::source::glyph_span;

// The chunk at `at` can meet neither 7 nor 8, since there is nothing to be merged, nor 9, since nothing is stretched.
pub fn is_sure(s: &[u8], at: usize) -> bool
    requires { ShapedChunk s.now at }
    ensures { result ≡ sure (chunk_of (drop at s.now)) }
{
    let mut places = [0; 32];
    let n = find_spans(s, at, &mut places);
    let spans = &places[..n];
    let own = glyph_span(s, spans, 0);
    if glyph_span(s, spans, own + 1) < n {
        return false;
    }
    !any_length(s, spans, true)
}

// Where a chunk's spans stand.
ghost use Rattle.std.specs.Prelude.{◌≡◌, length};
ghost use Rattle.spec.specs.Job.{limits};
ghost use Rattle.chunk.specs.Checked.{ShapedChunk, SpansFound};

use job_rows::numbered::span_places;
use job_rows::sizes::{SPAN_COUNT_BYTES, span_count, spans_at};
use wire::slice::tail;

// The places of the spans of the chunk at `at` are put first among `places`; the result is how many there are.
pub fn find_spans(s: &[u8], at: usize, places: &mut [usize]) -> usize
    requires { ShapedChunk s.now at × (length places.old ≡ limits.spans) }
    ensures { SpansFound s.now at places.new result }
{
    let chunk = tail(s, at);
    let n = span_count(chunk);
    let first = at + spans_at(chunk) + SPAN_COUNT_BYTES;
    span_places(s, first, &mut places[..n]);
    n
}

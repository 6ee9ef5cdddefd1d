// Which spans of a chunk have glyphs. Where only one of them has, there is nothing to be merged: its own glyphs are the merged list.
ghost use Rattle.std.specs.Prelude.{◌≡◌, ◌≤◌, length};
ghost use Rattle.job_rows.specs.Rows.{parts_in};
ghost use Rattle.spec.specs.Job.{limits};
ghost use Rattle.merge.specs.Merged.{glyphs_in};
ghost use Rattle.merge.specs.Source.{glyph_span, span_glyphs};

use crate::chunk::list_span;
use job_rows::sizes::glyph_count;
use wire::slice::tail;

// The number of the first span from number `k` on that has glyphs. Where none has, the number of spans, or `k` where that is past it.
// A number and no Option, as the definition has it: it is compared with the number of spans.
pub fn glyph_span(s: &[u8], spans: &[usize], k: usize) -> usize
    ensures { result ≡ glyph_span (parts_in s.now spans.now) k }
{
    let rest = spans.len().saturating_sub(k);
    k + spans
        .iter()
        .skip(k)
        .position(|at| 0 < glyph_count(tail(s, *at)))
        .unwrap_or(rest)
}

// How many glyphs span number `k` has; none past the last span.
pub fn own_count(s: &[u8], spans: &[usize], k: usize) -> usize
    ensures { result ≡ length (span_glyphs (parts_in s.now spans.now) k) }
{
    if k < spans.len() {
        return glyph_count(tail(s, spans[k]));
    }
    0
}

// The list is the glyphs of span number `k`, for which there is room, or empty past the last span; the result is how many they are.
pub fn list_own(s: &[u8], spans: &[usize], k: usize, rows: &mut [u32]) -> usize
    requires { (length s.now ≤ 1_048_576) × (length (span_glyphs (parts_in s.now spans.now) k) ≤ limits.glyphs)
        × (length (span_glyphs (parts_in s.now spans.now) k) ≤ length rows.old) }
    ensures { (length rows.new ≡ length rows.old)
        × (result ≡ length (span_glyphs (parts_in s.now spans.now) k))
        × (glyphs_in s.now rows.new result ≡ span_glyphs (parts_in s.now spans.now) k) }
{
    if k < spans.len() {
        return list_span(s, spans[k], rows);
    }
    0
}

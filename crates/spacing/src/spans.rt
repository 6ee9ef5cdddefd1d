// Letter and word spacing: those of a chunk's spans, of which only the float that is asked for is read.
ghost use Rattle.std.specs.Prelude.{◌≡◌, not, drop};
ghost use Rattle.spec.specs.Lists.{any};
ghost use Rattle.spec.specs.Single.{is_zero};
ghost use Rattle.spec.specs.declared.Span.{Span};
ghost use Rattle.spec.specs.Job.{span_at};
ghost use Rattle.spec.specs.Decode.{span_of};
ghost use Rattle.job_rows.specs.Rows.{spans_in};
ghost use Rattle.spacing.specs.Spans.{spacing_of};

use job_rows::rows::span_float;
use job_rows::sizes::{SPAN_LETTER_AT, SPAN_WORD_AT};

// Which of the two. An enum and no closure: one function reads either float of a row, and the definition tells them apart by these names.
#[derive(Clone, Copy)]
pub enum Spacing {
    Letter,
    Word,
}

// The spacing of the span with which `row` begins.
#[tactic(auto, unfolding(spec::specs::Decode::span_of))]
fn spacing_of(row: &[u8], spacing: Spacing) -> f32
    ensures { result ≡ spacing_of spacing (span_of row.now) }
{
    match spacing {
        Spacing::Letter => span_float(row, SPAN_LETTER_AT),
        Spacing::Word => span_float(row, SPAN_WORD_AT),
    }
}

// The spacing of the span that begins at `at`.
pub fn spacing_at(s: &[u8], at: usize, spacing: Spacing) -> f32
    ensures { result ≡ spacing_of spacing (span_of (drop at s.now)) }
{
    spacing_of(wire::slice::tail(s, at), spacing)
}

// The spacing of the span of place `k` in the chunk, as `size_in` of `job_rows` reads a size: each has its own definition.
#[tactic(auto, unfolding(job_rows::specs::Rows::spans_in))]
pub fn spacing_in(s: &[u8], spans: &[usize], k: u32, spacing: Spacing) -> f32
    ensures { result ≡ spacing_of spacing (span_at (spans_in s.now spans.now) k) }
{
    match spans.get(k as usize) {
        Some(at) => spacing_at(s, *at, spacing),
        None => 0.0,
    }
}

// Any span's spacing is not zero.
pub fn any_spacing(s: &[u8], spans: &[usize], spacing: Spacing) -> bool
    ensures { result ≡ any (λ (p : Span). not (is_zero (spacing_of spacing p))) (spans_in s.now spans.now) }
{
    spans.iter().any(|at| spacing_at(s, *at, spacing) != 0.0)
}

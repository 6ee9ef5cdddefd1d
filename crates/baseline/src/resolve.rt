// How far a span's baseline is shifted.
ghost use Rattle.std.specs.Prelude.{◌≡◌, drop};
ghost use Rattle.spec.specs.Decode.{span_of, parts_of};
ghost use Rattle.spec.specs.Baseline.{resolve_baseline};

use crate::LEFT_TO_RIGHT;
use crate::alignment::{alignment_baseline_shift, span_alignment};
use crate::shift::resolve_baseline_shift;
use job_rows::sizes::{SHIFTS_AT, shift_count};
use spec::{Font, Span};
use wire::slice::tail;

// The span and its record, which stands at `at`. Top to bottom nothing is added to its own shifts.
#[tactic(auto, unfolding(spec::specs::Baseline::resolve_baseline, spec::specs::Decode::parts_of))]
pub fn resolve_baseline(mode: u8, font: Font, span: Span, s: &[u8], at: usize) -> f32
    requires { span ≡ span_of (drop at s.now) }
    ensures { result ≡ resolve_baseline mode font (parts_of (drop at s.now)) }
{
    let row = tail(s, at);
    let shift = -resolve_baseline_shift(row, SHIFTS_AT, shift_count(row), font, span.size);
    if mode == LEFT_TO_RIGHT {
        shift + alignment_baseline_shift(font, span.size, span_alignment(span))
    } else {
        shift
    }
}

// The baseline shifts of a span, and their sum.
ghost use Rattle.std.specs.Prelude.{◌≡◌, ◌<◌, drop};
ghost use Rattle.spec.specs.Bytes.{rows};
ghost use Rattle.spec.specs.Decode.{shift_bytes, shift_of};
ghost use Rattle.spec.specs.Baseline.{baseline_shift_of, add_baseline_shift, resolve_baseline_shift};

use font_metrics::{subscript_offset, superscript_offset};
use job_rows::rows::{shift_kind_at, shift_number_at};
use job_rows::sizes::SHIFT_BYTES;
use spec::{BaselineShift, Font};
use wire::slice::tail;

#[tactic(auto, unfolding(spec::specs::Baseline::baseline_shift_of))]
pub fn baseline_shift_at(s: &[u8], at: usize) -> BaselineShift
    ensures { result ≡ baseline_shift_of (shift_of (drop at s.now)) }
{
    match shift_kind_at(s, at) {
        0 => BaselineShift::Baseline,
        1 => BaselineShift::Subscript,
        2 => BaselineShift::Superscript,
        _ => BaselineShift::Number(shift_number_at(s, at)),
    }
}

#[tactic(auto, unfolding(spec::specs::Baseline::add_baseline_shift))]
pub fn add_baseline_shift(font: Font, size: f32, shift: BaselineShift, sum: f32) -> f32
    ensures { result ≡ add_baseline_shift font size shift sum }
{
    match shift {
        BaselineShift::Baseline => sum,
        BaselineShift::Subscript => sum - subscript_offset(font, size),
        BaselineShift::Superscript => sum + superscript_offset(font, size),
        BaselineShift::Number(n) => sum + n,
    }
}

// The sum of the `n` shifts that stand one after the other from `at` on, taken from the last to the first.
pub fn resolve_baseline_shift(s: &[u8], at: usize, n: usize, font: Font, size: f32) -> f32
    requires { n < 256 }
    ensures { result ≡ resolve_baseline_shift font size (rows (λ r. shift_bytes) shift_of n (drop at s.now)) }
{
    let shifts = tail(s, at);
    let mut sum: f32 = 0.0;
    for k in (0..n).rev() {
        sum = add_baseline_shift(font, size, baseline_shift_at(shifts, k * SHIFT_BYTES), sum);
    }
    sum
}

// Whether a chunk has a text length, and its step 6.
ghost use Rattle.std.specs.Prelude.{◌≡◌, drop};
ghost use Rattle.spec.specs.Lists.{any};
ghost use Rattle.spec.specs.Decode.{span_of};
ghost use Rattle.spec.specs.LengthAdjust.{apply_length_adjust};
ghost use Rattle.job_rows.specs.Rows.{spans_in};
ghost use Rattle.length_adjust.specs.Answer.{adjusted_of};
ghost use Rattle.chunk.specs.Placing.{Unadjusted};
ghost use Rattle.chunk.specs.Sure.{length_asked};

use job_rows::sizes::{SPAN_ADJUST_AT, SPAN_FIXED_AT};
use length_adjust::apply_length_adjust;
use spec::{Cluster, Refusal};
use text_order::logical_order;
use wire::read::u8_at;
use wire::slice::tail;

// The span at `at` has a text length, and where `stretched` is asked for, its glyphs are stretched to it. A flag, as in the definition.
fn length_at(s: &[u8], at: usize, stretched: bool) -> bool
    ensures { result ≡ length_asked stretched (span_of (drop at s.now)) }
{
    let row = tail(s, at);
    let fixed = u8_at(row, SPAN_FIXED_AT) == 1;
    if stretched {
        return fixed & (u8_at(row, SPAN_ADJUST_AT) == 1);
    }
    fixed
}

// That is so of any span.
pub fn any_length(s: &[u8], spans: &[usize], stretched: bool) -> bool
    ensures { result ≡ any (length_asked stretched) (spans_in s.now spans.now) }
{
    spans.iter().any(|at| length_at(s, *at, stretched))
}

// In most chunks no span has a text length: then nothing is done, and the clusters are not put in text order. What `order` and `spare` hold before
// and after is of no account.
pub fn adjust_lengths(
    s: &[u8],
    spans: &[usize],
    order: &mut [u32],
    spare: &mut [u32],
    clusters: &mut [Cluster],
) -> Result<(), Refusal>
    requires { Unadjusted spans.now order.old spare.old clusters.old }
    ensures { adjusted_of result clusters.new ≡ apply_length_adjust (spans_in s.now spans.now) clusters.old }
{
    if any_length(s, spans, false) {
        logical_order(clusters, order);
        let lengths = apply_length_adjust(s, spans, order, spare, clusters);
        return lengths.adjusted;
    }
    Ok(())
}

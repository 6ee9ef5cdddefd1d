// Step 6: the clusters of a span with a text length are brought to that length, by spacing or by scaling.
#![tactic(auto)]

pub mod find;
pub mod glyphs;
pub mod keys;
pub mod marked;
pub mod range;
pub mod spacing;
pub mod walk;

ghost use Rattle.std.specs.Prelude.{◌≡◌, ◌<◌, length};
ghost use Rattle.spec.specs.Outcome.{given};
ghost use Rattle.spec.specs.LengthAdjust.{adjust_span, apply_length_adjust};
ghost use Rattle.spec.specs.Looked.{span_looked, spans_looked};
ghost use Rattle.job_rows.specs.Rows.{spans_in};
ghost use Rattle.length_adjust.specs.Given.{Adjustable};
ghost use Rattle.length_adjust.specs.Answer.{adjusted_of};

use crate::find::mark_span;
use crate::glyphs::adjust_glyphs;
use crate::marked::Marked;
use crate::spacing::adjust_spacing;
use job_rows::rows::span_at;
use spec::{Cluster, Refusal, Span};

// What came of a span, or of all, and how many bytes were looked at, also where one was refused.
#[derive(Clone, Copy)]
pub struct LengthAdjusted {
    pub adjusted: Result<(), Refusal>,
    pub looked: u32,
}

// By SpacingAndGlyphs (adjust 1), or by what the others take. `keys` is the text order, and `marks` is lent
// since there is no heap; what it holds before and after is of no account.
pub fn adjust_span(
    span: Span,
    keys: &[u32],
    marks: &mut [u32],
    clusters: &mut [Cluster],
) -> LengthAdjusted
    requires { (length keys.now ≡ length clusters.old) × (length marks.old ≡ length clusters.old)
        × Adjustable keys.now marks.old clusters.old }
    ensures { (adjusted_of result.adjusted clusters.new ≡ adjust_span (given clusters.old) span)
        × (result.looked ≡ span_looked (given clusters.old) span) × (result.looked < 65_536) }
{
    if span.fixed != 1 {
        return LengthAdjusted {
            adjusted: Ok(()),
            looked: 0,
        };
    }
    let search = mark_span(span, keys, marks);
    let marked = Marked {
        marks,
        within: search.within,
    };
    let adjusted = if span.adjust == 1 {
        adjust_glyphs(span, clusters, marked)
    } else {
        adjust_spacing(span, clusters, marked);
        Ok(())
    };
    LengthAdjusted {
        adjusted,
        looked: search.looked,
    }
}

fn adjust_spans(
    s: &[u8],
    spans: &[usize],
    keys: &[u32],
    marks: &mut [u32],
    clusters: &mut [Cluster],
) -> LengthAdjusted
    requires { (length spans.now < 256) × (length keys.now ≡ length clusters.old) × (length marks.old ≡ length clusters.old)
        × Adjustable keys.now marks.old clusters.old }
    ensures { (adjusted_of result.adjusted clusters.new ≡ apply_length_adjust (spans_in s.now spans.now) clusters.old)
        × (result.looked ≡ spans_looked (given clusters.old) (spans_in s.now spans.now)) }
{
    let mut looked: u32 = 0;
    for at in spans {
        let one = adjust_span(span_at(s, *at), keys, marks, clusters);
        looked += one.looked;
        if one.adjusted.is_err() {
            return LengthAdjusted { looked, ..one };
        }
    }
    LengthAdjusted {
        adjusted: Ok(()),
        looked,
    }
}

// `order` has the clusters' keys in text order; what `taking` holds before and after is of no account.
pub fn apply_length_adjust(
    s: &[u8],
    spans: &[usize],
    order: &[u32],
    taking: &mut [u32],
    clusters: &mut [Cluster],
) -> LengthAdjusted
    requires { (length spans.now < 256) × Adjustable order.now taking.old clusters.old }
    ensures { (adjusted_of result.adjusted clusters.new ≡ apply_length_adjust (spans_in s.now spans.now) clusters.old)
        × (result.looked ≡ spans_looked (given clusters.old) (spans_in s.now spans.now)) }
{
    let n = clusters.len();
    adjust_spans(s, spans, &order[..n], &mut taking[..n], clusters)
}

// Text length by SpacingAndGlyphs.
ghost use Rattle.std.specs.Prelude.{◌≡◌, ◌≤◌, length};
ghost use Rattle.spec.specs.Job.{adjust_spacing_and_glyphs};
ghost use Rattle.spec.specs.ClusterParts.{with_scale};
ghost use Rattle.spec.specs.LengthAdjust.{adjust_glyphs_of};
ghost use Rattle.length_adjust.specs.Marked.{places};
ghost use Rattle.length_adjust.specs.Answer.{adjusted_of};

use crate::marked::Marked;
use spec::{Cluster, Refusal, Span};

// The cluster is scaled; its width and advance stay.
fn with_scale(c: Cluster, factor: f32) -> Cluster
    ensures { result ≡ with_scale factor c }
{
    Cluster {
        scale: factor,
        scaled: true,
        ..c
    }
}

// Of the marked clusters.
pub fn adjust_glyphs(span: Span, clusters: &mut [Cluster], marked: Marked) -> Result<(), Refusal>
    requires { (span.adjust ≡ adjust_spacing_and_glyphs) × (length marked.marks.now ≤ length clusters.old) }
    ensures { adjusted_of result clusters.new ≡ adjust_glyphs_of span clusters.old (places marked.entry) }
{
    let widths = marked.taken(span, clusters);
    if widths.count == 0 {
        return Ok(());
    }
    let flat = marked.all_zero(clusters);
    if flat {
        return Err(Refusal::NoWidth);
    }
    let factor = span.length / widths.sum;
    if factor < 0.001 {
        return Ok(());
    }
    marked.change(clusters, |c| with_scale(c, factor));
    Ok(())
}

// Text length by Spacing, and by the natural length.
ghost use Rattle.std.specs.Prelude.{◌≡◌, ◌≤◌, length};
ghost use Rattle.spec.specs.LengthAdjust.{cluster_indexes, spacing_factor, stretched_by, adjust_spacing_of};
ghost use Rattle.spec.specs.Cluster.{rounded};
ghost use Rattle.length_adjust.specs.Marked.{places};

use crate::marked::Marked;
use crate::walk::taken_of;
use spec::{Cluster, Span};

// What each of `count` clusters gets of the target. A cast is taken only of a number that is a float.
#[tactic(auto, unfolding(spec::specs::LengthAdjust::spacing_factor))]
fn spacing_factor(target: f32, sum: f32, count: usize) -> f32
    requires { count ≤ 65_536 }
    ensures { result ≡ spacing_factor rounded target sum count }
{
    if 1 < count {
        return (target - sum) / (count - 1) as f32;
    }
    0.0
}

// The advance becomes what is taken and the factor, which is kept as length spacing.
fn stretched_by(span: Span, c: Cluster, factor: f32) -> Cluster
    ensures { result ≡ stretched_by rounded span factor c }
{
    Cluster {
        advance: taken_of(span, c) + factor,
        spacing: factor,
        ..c
    }
}

// Of the marked clusters, which are those that take part.
pub fn adjust_spacing(span: Span, clusters: &mut [Cluster], marked: Marked)
    requires { (length marked.marks.now ≤ length clusters.old) × (length marked.marks.now ≤ 65_536)
        × (places marked ≡ cluster_indexes rounded span clusters.old) }
    ensures { clusters.new ≡ adjust_spacing_of rounded span clusters.old }
{
    let total = marked.taken(span, clusters);
    let factor = spacing_factor(span.length, total.sum, total.count);
    marked.change(clusters, |c| stretched_by(span, c, factor));
}

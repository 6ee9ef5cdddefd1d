// Walks over the marked clusters, in the order of the list.
ghost use Rattle.std.specs.Prelude.{◌≡◌, ◌≤◌, ℕ, length};
ghost use mathlib.Core.List.{foldl};
ghost use Rattle.spec.specs.Lists.{all, modify, get_map_or};
ghost use Rattle.spec.specs.Single.{+0, is_zero};
ghost use Rattle.spec.specs.LengthAdjust.{taken_of, width_of};
ghost use Rattle.spec.specs.Cluster.{rounded};
ghost use Rattle.length_adjust.specs.Marked.{places};
ghost use Rattle.length_adjust.specs.Sums.{taken_at};

use crate::marked::Marked;
use spec::{Cluster, Span};

// The number of a cluster that is brought to the span's text length: by the natural length (adjust 2) its advance, and else its width.
pub fn taken_of(span: Span, c: Cluster) -> f32
    ensures { result ≡ taken_of rounded span c }
{
    if span.adjust == 2 {
        return c.advance;
    }
    c.width
}

// The sum of what is taken, and of how many clusters.
#[derive(Clone, Copy)]
pub struct Total {
    pub sum: f32,
    pub count: usize,
}

impl Marked<'_> {
    // Two numbers at once: a fold of pairs is no plainer.
    pub fn taken(self, span: Span, clusters: &[Cluster]) -> Total
        requires { length self.marks.now ≤ length clusters.now }
        ensures { result ≡ taken_at span clusters.now (places self.entry) }
    {
        let mut sum: f32 = 0.0;
        let mut count: usize = 0;
        for i in self.within.from..self.within.to {
            if self.marks[i] == 1 {
                sum += taken_of(span, clusters[i]);
                count += 1;
            }
        }
        Total { sum, count }
    }

    // Whether each width is zero.
    pub fn all_zero(self, clusters: &[Cluster]) -> bool
        requires { length self.marks.now ≤ length clusters.now }
        ensures { result ≡ all (λ (k : ℕ). is_zero (get_map_or +0 width_of clusters.now k)) (places self.entry) }
    {
        (self.within.from..self.within.to).all(|i| self.marks[i] != 1 || clusters[i].width == 0.0)
    }

    // Each of them becomes what `f` makes of it. By index, since an empty range may start past its end, and is no part of a slice then.
    pub fn change<F: Fn(Cluster) -> Cluster>(self, clusters: &mut [Cluster], f: F)
        requires { F.IsAlwaysCallable f × (length self.marks.now ≤ length clusters.old) }
        ensures { (g : Cluster → Cluster) → ((c r : Cluster) → F.post f c r → r ≡ g c)
            → clusters.new ≡ foldl (modify g) clusters.old (places self.entry) }
    {
        for i in self.within.from..self.within.to {
            if self.marks[i] == 1 {
                clusters[i] = f(clusters[i]);
            }
        }
    }
}

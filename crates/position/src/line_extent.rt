// How far the clusters reach, with their shifts and before they are placed.
ghost use Rattle.std.specs.Prelude.{◌≡◌, ◌<◌, length};
ghost use Rattle.spec.specs.Arithmetic.{least, greatest};
ghost use Rattle.spec.specs.Position.{extent_next, extent_of};
ghost use Rattle.spec.specs.Cluster.{rounded};
ghost use Rattle.position.specs.Given.{extent_in};

use crate::Extent;
use spec::Cluster;

// Not `f32::min` and `f32::max`: the definitions say which of two zeros stays, and what a NaN does.
fn least(a: f32, b: f32) -> f32
    ensures { result ≡ least rounded a b }
{
    if b < a { b } else { a }
}

fn greatest(a: f32, b: f32) -> f32
    ensures { result ≡ greatest rounded a b }
{
    if a < b { b } else { a }
}

#[tactic(auto, unfolding(spec::specs::Position::extent_next))]
fn extent_next(e: Extent, c: Cluster) -> Extent
    ensures { extent_in result ≡ extent_next rounded (extent_in e) c }
{
    let start = e.advance + c.x;
    let end = start + c.advance - c.spacing;
    Extent {
        left: least(least(e.left, start), end),
        right: greatest(greatest(e.right, start), end),
        advance: e.advance + c.advance,
    }
}

// Left and right begin at the first cluster's start, where the Rust's infinities come to after one comparison.
pub fn extent_of(clusters: &[Cluster]) -> Extent
    requires { 0 < length clusters.now }
    ensures { extent_in result ≡ extent_of rounded clusters.now }
{
    let start = 0.0 + clusters[0].x;
    let mut e = Extent {
        left: start,
        right: start,
        advance: 0.0,
    };
    for c in clusters {
        e = extent_next(e, *c);
    }
    e
}

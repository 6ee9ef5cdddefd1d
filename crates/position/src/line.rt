// The clusters placed along the line.
ghost use Rattle.std.specs.Prelude.{◌≡◌, ◌<◌, length};
ghost use mathlib.Core.List.{foldl};
ghost use Rattle.spec.specs.Position.{process_anchor, past_advance, placed_from, positioned};
ghost use Rattle.spec.specs.Cluster.{rounded};
ghost use Rattle.job_rows.specs.Rows.{job_at};
ghost use Rattle.text_order.specs.Ordered.{Ordered};
ghost use Rattle.position.specs.Given.{EndsKnown, Placeable, Placed, PlacedChunk};

use crate::Positioned;
use crate::line_extent::extent_of;
use crate::relative::mark_relative_shifts;
use crate::shifts::{resolve_relative_shifts, rotate_shifts};
use spec::{Cluster, Job};
use text_order::place_of;

// `anchor` stays a number: the definition speaks of the job's.
#[tactic(auto, unfolding(spec::specs::Position::process_anchor))]
pub fn process_anchor(anchor: u8, width: f32) -> f32
    ensures { result ≡ process_anchor rounded anchor width }
{
    match anchor {
        0 => 0.0,
        1 => -width / 2.0,
        _ => -width,
    }
}

// Each cluster at its shift and the advances before it, from `start` on. Where the last one ends is returned.
pub fn place_from(start: f32, clusters: &mut [Cluster]) -> f32
    ensures { (clusters.new ≡ placed_from rounded start clusters.old)
        × (result ≡ foldl (past_advance rounded) start clusters.old) }
{
    let mut x = start;
    for c in clusters.iter_mut() {
        c.x = x + c.x;
        x += c.advance;
    }
    x
}

// The clusters have their shifts. `first` and `last` have those of the first and the last in text order.
pub fn positioned_between(
    anchor: u8,
    first: Cluster,
    last: Cluster,
    clusters: &mut [Cluster],
) -> Positioned
    requires { EndsKnown first last clusters.old }
    ensures { Placed (positioned rounded anchor clusters.old) clusters.new result }
{
    let e = extent_of(clusters);
    let extent = e.right - e.left;
    let start = first.x - e.left + process_anchor(anchor, extent);
    let x = place_from(start, clusters);
    Positioned {
        extent,
        end_x: x + last.x,
        end_y: last.y,
    }
}

// First and last are those in text order, found by its keys.
pub fn positioned(anchor: u8, order: &[u32], clusters: &mut [Cluster]) -> Positioned
    requires { (0 < length clusters.old) × Ordered order.now clusters.old }
    ensures { Placed (positioned rounded anchor clusters.old) clusters.new result }
{
    let first = clusters[place_of(order[0])];
    let last = clusters[place_of(order[clusters.len() - 1])];
    positioned_between(anchor, first, last, clusters)
}

// Of a chunk that has clusters. The record, the job and the lists go by parameters and no struct: each step below takes another part of them.
pub fn resolve_clusters_positions_horizontal(
    s: &[u8],
    job: Job,
    anchor: u8,
    order: &[u32],
    numbers: &[u32],
    clusters: &mut [Cluster],
) -> Positioned
    requires { Placeable numbers.now clusters.old × Ordered order.now clusters.old }
    ensures { PlacedChunk (job_at s.now job) anchor numbers.now clusters.old clusters.new result }
{
    resolve_relative_shifts(s, job, order, numbers, clusters);
    rotate_shifts(job.mode, clusters);
    mark_relative_shifts(s, job, numbers, clusters);
    positioned(anchor, order, clusters)
}

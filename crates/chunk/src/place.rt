// Step 7 of a chunk.
ghost use Rattle.std.specs.Prelude.{◌≡◌};
ghost use Rattle.spec.specs.Layout.{resolve_clusters_positions_horizontal};
ghost use Rattle.job_rows.specs.Rows.{job_at};
ghost use Rattle.position.specs.Given.{Placed};
ghost use Rattle.chunk.specs.Steps.{job_in, chunk_in};
ghost use Rattle.chunk.specs.Placing.{is_still, Unplaced};

use crate::progress::NextChunk;
use job_rows::rows::anchor_at;
use position::Positioned;
use position::line::{positioned_between, resolve_clusters_positions_horizontal};
use position::shifts::rotate_shifts;
use spec::{Cluster, Job};
use text_order::{character_numbers, logical_order};
use wire::read::u16_at;

// The lists dx, dy and rotate are empty: no character is shifted or rotated.
fn is_still(s: &[u8], job: Job) -> bool
    ensures { result ≡ is_still (job_at s.now job) }
{
    (u16_at(s, job.dx) == 0) & (u16_at(s, job.dy) == 0) & (u16_at(s, job.rotate) == 0)
}

// Of a chunk that has clusters. In most jobs nothing is shifted or rotated: then all clusters have one shift, so that any is as good as the first and
// the last in text order, and no character is numbered. Else `order` takes the text order, anew even where step 6 made it, which is rare, and `spare`
// takes the numbers.
pub fn place_clusters(
    s: &[u8],
    next: NextChunk,
    text: &[u8],
    order: &mut [u32],
    spare: &mut [u32],
    clusters: &mut [Cluster],
) -> Positioned
    requires { Unplaced s.now next text.now order.old spare.old clusters.old }
    ensures { Placed (resolve_clusters_positions_horizontal (job_in s.now next) next.before.offset (chunk_in s.now next) clusters.old)
        clusters.new result }
{
    let job = next.job;
    let before = next.before;
    let anchor = anchor_at(s, next.at);
    if is_still(s, job) {
        rotate_shifts(job.mode, clusters);
        let any = clusters[0];
        return positioned_between(anchor, any, any, clusters);
    }
    logical_order(clusters, order);
    character_numbers(text, before.offset, clusters, order, spare);
    resolve_clusters_positions_horizontal(s, job, anchor, order, spare, clusters)
}

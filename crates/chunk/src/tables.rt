// The tables of a chunk's clusters. A short label is the usual one: the tables are chosen by how many clusters, or glyphs, there are, so that few
// rows are cleared. There can be fewer clusters than glyphs: a letter and its accents are one cluster, and glyphs that no span covers make none.
ghost use Rattle.std.specs.Prelude.{◌≤◌};
ghost use Rattle.clustering.specs.Groups.{clusters_in};
ghost use Rattle.chunk.specs.Steps.{ChunkWritten, merged_outcome};

use crate::merged::Merged;
use crate::progress::Progress;
use crate::steps::layout_merged;
use clustering::few::clusters_at_most;
use spec::{Cluster, Refusal};

// For at most `N` clusters. `order` and `spare` stand beside them: they hold other numbers from step to step, and there is no heap.
pub fn chunk_of<const N: usize>(chunk: Merged, out: &mut [u8]) -> Result<Progress, Refusal>
    requires { (N ≤ 1_024) × (clusters_in chunk.s.now chunk.spans.now chunk.glyphs.now ≤ N) }
    ensures { ChunkWritten chunk.entry.next.before result out.old out.new
        (merged_outcome chunk.entry.s.now chunk.entry.next chunk.entry.glyphs.now) }
{
    let mut clusters = [Cluster::BLANK; N];
    let mut order = [0; N];
    let mut spare = [0; N];
    layout_merged(chunk, &mut clusters, &mut order, &mut spare, out)
}

// For more than 64 clusters. Its callers have tables of their own for fewer, and so no share in these tables' stack. From 257 glyphs to 512 nothing
// more is counted: 512 rows are cleared sooner than 257 clusters are counted.
pub fn long_chunk(chunk: Merged, out: &mut [u8]) -> Result<Progress, Refusal>
    ensures { ChunkWritten chunk.entry.next.before result out.old out.new
        (merged_outcome chunk.entry.s.now chunk.entry.next chunk.entry.glyphs.now) }
{
    let count = chunk.glyphs.len();
    if 256 < count && count <= 512 {
        return chunk_of::<512>(chunk, out);
    }
    if clusters_at_most(chunk.s, chunk.spans, chunk.glyphs, 256) {
        return chunk_of::<256>(chunk, out);
    }
    chunk_of::<1024>(chunk, out)
}

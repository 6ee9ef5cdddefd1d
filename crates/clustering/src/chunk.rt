// All clusters of a chunk.
ghost use Rattle.clustering.specs.Groups.{ClustersFormable, FormedInto};

use crate::form::form_glyph_clusters;
use crate::measures::{measures_of, next_measures};
use crate::runs::{index_in, place_in, run_end};
use crate::spans::chunk_span_at;
use job_rows::rows::glyph_at;
use spec::Cluster;

// Stores a cluster for each run that a span covers, from the first row on; the result is how many.
pub fn form_clusters(
    s: &[u8],
    fonts: usize,
    spans: &[usize],
    merged: &[u32],
    clusters: &mut [Cluster],
) -> usize
    requires { ClustersFormable s.now spans.now merged.now clusters.old }
    ensures { FormedInto s.now fonts spans.now merged.now clusters.new result }
{
    // Those of the first span and the first font, which the first cluster nearly always has. No `Option`: each cluster would store it anew.
    let mut kept = measures_of(s, fonts, spans, 0, 0);
    let mut n: usize = 0;
    let mut i: usize = 0;
    // Not `chunk_by`, which is no plainer: it compares neighbours, so that each byte index is read twice, and a cluster keeps the place of its run.
    while i < merged.len() {
        let index = index_in(s, merged, i);
        let end = run_end(s, merged, i);
        if let Some(k) = chunk_span_at(s, spans, index as usize) {
            let first = glyph_at(s, place_in(merged, i));
            kept = next_measures(s, fonts, spans, k, first.font, Some(kept));
            clusters[n] = form_glyph_clusters(s, fonts, merged, i, end, first, kept);
            n += 1;
        }
        i = end;
    }
    n
}

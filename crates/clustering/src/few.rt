// Whether a chunk has few clusters, told before they are formed.
ghost use Rattle.std.specs.Prelude.{◌≡◌, leb};
ghost use Rattle.clustering.specs.Groups.{clusters_in};

use crate::runs::{index_in, run_end};
use crate::spans::chunk_span_at;

// Whether there are at most `most` clusters. There are no more of them than glyphs, so that few glyphs need no walk; and the walk ends as
// soon as there are more than `most`, so that a long label costs little.
pub fn clusters_at_most(s: &[u8], spans: &[usize], merged: &[u32], most: usize) -> bool
    ensures { result ≡ leb (clusters_in s.now spans.now merged.now) most }
{
    if merged.len() <= most {
        return true;
    }
    let mut n: usize = 0;
    let mut i: usize = 0;
    // Not `chunk_by`, as in `form_clusters`.
    while i < merged.len() {
        let index = index_in(s, merged, i);
        let end = run_end(s, merged, i);
        if chunk_span_at(s, spans, index as usize).is_some() {
            if n == most {
                return false;
            }
            n += 1;
        }
        i = end;
    }
    true
}

// A chunk of a checked job: its spans are found and merged, and tables are chosen for its clusters.
ghost use Rattle.chunk.specs.Steps.{chunk_outcome, ChunkWritten};
ghost use Rattle.chunk.specs.Checked.{CheckedChunk, SpannedChunk, OwnMerged};

use crate::find::find_spans;
use crate::merged::Merged;
use crate::progress::{NextChunk, Progress};
use crate::tables::{chunk_of, long_chunk};
use clustering::few::clusters_at_most;
use merge::chunk::process_chunk;
use merge::source::{glyph_span, list_own, own_count};
use spec::Refusal;

// So many glyphs are few: tables of 32 rows do for their clusters, and their list has no more rows.
const SHORT: usize = 32;

// The chunk's spans, which stand at the places `spans`, are merged; and then steps 2 to 8 on tables for as many clusters as the merged glyphs make.
fn merged_chunk(
    s: &[u8],
    next: NextChunk,
    spans: &[usize],
    out: &mut [u8],
) -> Result<Progress, Refusal>
    requires { SpannedChunk s.now next spans.now }
    ensures { ChunkWritten next.before result out.old out.new (chunk_outcome s.now next) }
{
    let mut rows = [0; 1024];
    let count = process_chunk(s, spans, &mut rows)?;
    let glyphs = &rows[..count];
    let chunk = Merged {
        s,
        next,
        spans,
        glyphs,
    };
    if count <= SHORT {
        return chunk_of::<SHORT>(chunk, out);
    }
    if clusters_at_most(s, spans, glyphs, 64) {
        return chunk_of::<64>(chunk, out);
    }
    long_chunk(chunk, out)
}

// The same where the glyphs of span number `own` are the merged list as they stand. A function of its own: it has no share in the merge's stack.
fn listed_chunk(
    s: &[u8],
    next: NextChunk,
    spans: &[usize],
    own: usize,
    out: &mut [u8],
) -> Result<Progress, Refusal>
    requires { SpannedChunk s.now next spans.now × OwnMerged s.now spans.now own }
    ensures { ChunkWritten next.before result out.old out.new (chunk_outcome s.now next) }
{
    let mut rows = [0; 1024];
    let count = list_own(s, spans, own, &mut rows);
    let glyphs = &rows[..count];
    let chunk = Merged {
        s,
        next,
        spans,
        glyphs,
    };
    if clusters_at_most(s, spans, glyphs, 64) {
        return chunk_of::<64>(chunk, out);
    }
    long_chunk(chunk, out)
}

// The row is put behind the bytes that the answer has, if it ends within `out`; a refusal leaves `out` as it was. Where only one span has glyphs, as
// in most chunks, there is nothing to be merged: its own glyphs are the merged list. So a short label, the usual one, is laid out with neither the
// merged list's 1,024 rows nor the stack of a long label.
pub fn layout_chunk(s: &[u8], next: NextChunk, out: &mut [u8]) -> Result<Progress, Refusal>
    requires { CheckedChunk s.now next }
    ensures { ChunkWritten next.before result out.old out.new (chunk_outcome s.now next) }
{
    let mut places = [0; 32];
    let n = find_spans(s, next.at, &mut places);
    let spans = &places[..n];
    let own = glyph_span(s, spans, 0);
    if glyph_span(s, spans, own + 1) < n {
        return merged_chunk(s, next, spans, out);
    }
    if SHORT < own_count(s, spans, own) {
        return listed_chunk(s, next, spans, own, out);
    }
    let mut rows = [0; SHORT];
    let count = list_own(s, spans, own, &mut rows);
    let glyphs = &rows[..count];
    let chunk = Merged {
        s,
        next,
        spans,
        glyphs,
    };
    chunk_of::<SHORT>(chunk, out)
}

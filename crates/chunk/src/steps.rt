// The steps of document 01, one after the other, on tables that have rows for all clusters.
ghost use Rattle.std.specs.Prelude.{◌≡◌, ◌+◌, ◌≤◌, length};
ghost use Rattle.spec.specs.Utf8.{characters};
ghost use Rattle.clustering.specs.Groups.{clusters_in};
ghost use Rattle.chunk.specs.Steps.{ChunkWritten, merged_outcome};
ghost use Rattle.chunk.specs.Checked.{TablesFor};

use crate::lengths::adjust_lengths;
use crate::merged::Merged;
use crate::pen::{origin_of, pen_after};
use crate::place::place_clusters;
use crate::progress::Progress;
use answer_rows::chunk::{Frame, write_chunk_row, write_empty_row};
use clustering::chunk::form_clusters;
use job_rows::sizes::text_of;
use spacing::letter::apply_letter_spacing;
use spacing::mode::apply_writing_mode;
use spacing::word::apply_word_spacing;
use spec::{Cluster, Point, Refusal};
use text_order::character_count;
use wire::slice::tail;

// Behind a chunk with this text, whose row has `row` bytes.
fn progress_behind(before: Progress, text: &[u8], pen: Point, extent: f32, row: usize) -> Progress
    requires { (before.offset + length text.now ≤ 4_294_967_296) × (before.length + row ≤ 4_294_967_296) }
    ensures { result ≡ record { pen = pen; offset = before.offset + characters text.now; length = before.length + row; extent = extent } }
{
    let offset = before.offset + character_count(text);
    let length = before.length + row;
    Progress {
        pen,
        offset,
        length,
        extent,
    }
}

// Steps 2 to 8 of a chunk whose glyphs are merged: its row is put behind the bytes that the answer has, if it ends within `out`. The tables are
// overwritten.
pub fn layout_merged(
    chunk: Merged,
    table: &mut [Cluster],
    order: &mut [u32],
    spare: &mut [u32],
    out: &mut [u8],
) -> Result<Progress, Refusal>
    requires { TablesFor (clusters_in chunk.s.now chunk.spans.now chunk.glyphs.now) table.old order.old spare.old }
    ensures { ChunkWritten chunk.entry.next.before result out.old out.new
        (merged_outcome chunk.entry.s.now chunk.entry.next chunk.entry.glyphs.now) }
{
    let Merged {
        s,
        next,
        spans,
        glyphs,
    } = chunk;
    let job = next.job;
    let before = next.before;
    let text = text_of(tail(s, next.at));
    let n = form_clusters(s, job.fonts, spans, glyphs, table);
    let clusters = &mut table[..n];
    apply_writing_mode(job.mode, clusters);
    apply_letter_spacing(s, spans, clusters);
    apply_word_spacing(s, text, spans, clusters);
    adjust_lengths(s, spans, order, spare, clusters)?;
    // A chunk that has no cluster keeps the pen and has no span rows.
    if n == 0 {
        let row = write_empty_row(out, before.length, before.pen);
        return Ok(progress_behind(before, text, before.pen, 0.0, row));
    }
    let placed = place_clusters(s, next, text, order, spare, clusters);
    let origin = origin_of(before.pen, s, next.at);
    let pen = pen_after(job.mode, origin, placed.end_x, placed.end_y);
    let frame = Frame { origin, pen };
    let row = write_chunk_row(out, before.length, s, job, spans, glyphs, frame, clusters);
    Ok(progress_behind(before, text, pen, placed.extent, row))
}

// A chunk's row: its head, its clusters' rows, its spans' rows.
ghost use Rattle.std.specs.Prelude.{◌≡◌, ◌+◌, ◌≤◌, length};
ghost use Rattle.spec.specs.Answer.{chunk_head_size, chunk_row_bytes};
ghost use Rattle.job_rows.specs.Rows.{parts_in};
ghost use Rattle.wire.specs.Splice.{splice};
ghost use Rattle.answer_rows.specs.Chunks.{row_at, RowLength, chunk_row_max, chunk_head_bytes, Writable, RowWritten, empty_row};

use crate::cluster::{cluster_rows_length, put_cluster_rows};
use crate::spans::{put_span_rows, span_row_count, span_rows_length};
use answer_format::{
    CHUNK_HEAD_BYTES, CLUSTER_COUNT_BYTES, CLUSTER_ROW_BYTES, GLYPH_ROW_BYTES, PEN_X_AT, PEN_Y_AT,
    RUN_BYTES, RUNS_AT, SPAN_COUNT_AT, SPAN_COUNT_BYTES,
};
use spec::{Cluster, Job, Point};
use wire::write::{put_f32, put_number};

// Where a chunk begins, and where it leaves the pen.
#[derive(Clone, Copy)]
pub struct Frame {
    pub origin: Point,
    pub pen: Point,
}

// With so many cluster rows and span rows, and the pen as it is after the chunk.
fn put_chunk_head(out: &mut [u8], at: usize, clusters: usize, spans: usize, pen: Point)
    requires { at + chunk_head_size ≤ length out.old }
    ensures { out.new ≡ splice out.old at (chunk_head_bytes clusters spans pen) }
{
    put_number(out, at, CLUSTER_COUNT_BYTES, clusters as u64);
    put_number(out, at + SPAN_COUNT_AT, SPAN_COUNT_BYTES, spans as u64);
    put_f32(out, at + PEN_X_AT, pen.x);
    put_f32(out, at + PEN_Y_AT, pen.y);
}

// How many bytes the row has: in any job, wherever origin and pen are.
fn chunk_row_length(s: &[u8], spans: &[usize], count: usize, clusters: &[Cluster]) -> usize
    requires { (length clusters.now ≤ 65_535) × (length spans.now ≤ 255) × (count ≤ 65_536) }
    ensures { RowLength result count clusters.now (parts_in s.now spans.now) }
{
    let cluster_rows = cluster_rows_length(count, clusters);
    CHUNK_HEAD_BYTES + cluster_rows + span_rows_length(s, spans, clusters)
}

// No row is longer: its `n` clusters share the `count` merged glyphs, and no two of its `spans` spans cover one byte, so that all spans together
// have no more runs than there are clusters.
fn chunk_row_max(spans: usize, count: usize, n: usize) -> usize
    requires { (n ≤ 65_535) × (spans ≤ 255) × (count ≤ 65_536) }
    ensures { result ≡ chunk_row_max spans count n }
{
    let clusters = (CLUSTER_ROW_BYTES + RUN_BYTES) * n;
    CHUNK_HEAD_BYTES + clusters + GLYPH_ROW_BYTES * count + RUNS_AT * spans
}

// The chunk's row at `at`, where there is room for it. How long the row is.
#[tactic(auto, using(crate::proofs::ChunkRows::row_size))]
fn put_chunk_row(
    out: &mut [u8],
    at: usize,
    s: &[u8],
    job: Job,
    spans: &[usize],
    merged: &[u32],
    frame: Frame,
    clusters: &[Cluster],
) -> usize
    requires { Writable s.now spans.now merged.now clusters.now
        × (at + length (chunk_row_bytes (row_at s.now job spans.now merged.now frame clusters.now))
        ≤ length out.old) }
    ensures { RowWritten at result out.old out.new
        (row_at s.now job spans.now merged.now frame clusters.now) }
{
    put_chunk_head(out, at, clusters.len(), span_row_count(s, spans), frame.pen);
    let rows_at = at + CHUNK_HEAD_BYTES;
    let behind = put_cluster_rows(out, rows_at, job.mode, s, merged, clusters);
    put_span_rows(out, behind, s, job, spans, frame.origin, clusters) - at
}

// The chunk's row at `at`, if it ends within `out`; else `out` stays as it was. How long the row is.
pub fn write_chunk_row(
    out: &mut [u8],
    at: usize,
    s: &[u8],
    job: Job,
    spans: &[usize],
    merged: &[u32],
    frame: Frame,
    clusters: &[Cluster],
) -> usize
    requires { Writable s.now spans.now merged.now clusters.now × (at ≤ 4_294_967_296)
        × (length (chunk_row_bytes (row_at s.now job spans.now merged.now frame clusters.now))
        ≤ chunk_row_max (length spans.now) (length merged.now) (length clusters.now)) }
    ensures { RowWritten at result out.old out.new
        (row_at s.now job spans.now merged.now frame clusters.now) }
{
    // A row need not be measured if the longest that it can be ends within `out`.
    if out.len() < at + chunk_row_max(spans.len(), merged.len(), clusters.len()) {
        let length = chunk_row_length(s, spans, merged.len(), clusters);
        if out.len() < at + length {
            return length;
        }
    }
    put_chunk_row(out, at, s, job, spans, merged, frame, clusters)
}

// The row of a chunk that has no cluster, and so no span rows: as `write_chunk_row`.
pub fn write_empty_row(out: &mut [u8], at: usize, pen: Point) -> usize
    requires { at ≤ 4_294_967_296 }
    ensures { RowWritten at result out.old out.new (empty_row pen) }
{
    if at + CHUNK_HEAD_BYTES <= out.len() {
        put_chunk_head(out, at, 0, 0, pen);
    }
    CHUNK_HEAD_BYTES
}

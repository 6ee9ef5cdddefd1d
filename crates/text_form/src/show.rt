// An answer's lines: each chunk, its clusters, then each span followed by its runs.
ghost use Rattle.std.specs.Prelude.{ℕ, ◌≡◌, List, drop};
ghost use Rattle.spec.specs.Answer.{run_size, cluster_row_size_of, span_row_size_of, chunk_row_size_of};
ghost use Rattle.text_form.specs.Walk.{behind};

use crate::line;
use crate::line::{ChunkLine, ClusterLine, RunLine, SpanLine};
use answer_format::{
    ANSWER_HEAD_BYTES, CHUNK_COUNT_AT, CHUNK_HEAD_BYTES, CLUSTER_COUNT_AT, RUN_BYTES, RUN_COUNT_AT,
    RUNS_AT, SPAN_COUNT_AT, SPAN_INDEX_AT, cluster_size, span_size,
};
use wire::read::{u8_at, u16_at};
use wire::slice::{offset_after, tail};

// Rows of one kind, one behind the other.
trait Rows {
    // The bytes of the row that a list starts with.
    ghost size_of: { List ℕ → ℕ };

    // Shows the row that `row` starts with, the i-th of them, and answers where it ends.
    fn show(&self, rt: &impl Print, i: usize, row: &[u8]) -> usize
        ensures { drop result row.now ≡ drop (size_of row.now) row.now };
}

// Shows as many rows, the first of which stands at `first`, and answers where they end.
fn show_rows<R: Rows>(rt: &impl Print, rows: &R, bytes: &[u8], first: usize, count: usize) -> usize
    ensures { drop result bytes.now ≡ behind R.size_of count (drop first bytes.now) }
{
    let mut at = first;
    for i in 0..count {
        let size = rows.show(rt, i, tail(bytes, at));
        at = offset_after(bytes, at, size);
    }
    at
}

// Of the span with this index.
#[derive(Clone, Copy)]
struct Runs {
    span: u8,
}

impl Rows for Runs {
    ghost size_of = { λ _. run_size };

    fn show(&self, rt: &impl Print, _i: usize, row: &[u8]) -> usize {
        let span = self.span;
        line::show(rt, RunLine { span, run: row });
        RUN_BYTES
    }
}

#[derive(Clone, Copy)]
struct Spans;

impl Rows for Spans {
    ghost size_of = { span_row_size_of };

    fn show(&self, rt: &impl Print, _i: usize, row: &[u8]) -> usize {
        line::show(rt, SpanLine { row });
        let span = u8_at(row, SPAN_INDEX_AT);
        let count = usize::from(u16_at(row, RUN_COUNT_AT));
        show_rows(rt, &Runs { span }, row, RUNS_AT, count);
        span_size(row)
    }
}

#[derive(Clone, Copy)]
struct Clusters;

impl Rows for Clusters {
    ghost size_of = { cluster_row_size_of };

    fn show(&self, rt: &impl Print, i: usize, row: &[u8]) -> usize {
        line::show(rt, ClusterLine { place: i, row });
        cluster_size(row)
    }
}

#[derive(Clone, Copy)]
struct Chunks;

impl Rows for Chunks {
    ghost size_of = { chunk_row_size_of };

    fn show(&self, rt: &impl Print, i: usize, chunk: &[u8]) -> usize {
        line::show(rt, ChunkLine { place: i, chunk });
        let clusters = usize::from(u16_at(chunk, CLUSTER_COUNT_AT));
        let spans = usize::from(u8_at(chunk, SPAN_COUNT_AT));
        let first_span = show_rows(rt, &Clusters, chunk, CHUNK_HEAD_BYTES, clusters);
        show_rows(rt, &Spans, chunk, first_span, spans)
    }
}

pub fn show_answer(rt: &impl Print, answer: &[u8]) {
    let count = usize::from(u8_at(answer, CHUNK_COUNT_AT));
    show_rows(rt, &Chunks, answer, ANSWER_HEAD_BYTES, count);
}

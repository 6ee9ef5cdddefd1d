// The lines of the text form: a word, then numbers, each after a space. A float is printed as its pattern, in eight digits.
use answer_format::{
    ADVANCE_AT, BASELINE_SHIFT_AT, CLUSTER_COUNT_AT, CLUSTER_FLAGS_AT, CLUSTER_FLOATS_AT,
    CLUSTER_INDEX_AT, PEN_X_AT, PEN_Y_AT, RUN_FIRST_AT, RUN_WIDTH_AT, SHIFT_X_AT, SPAN_INDEX_AT,
    THICKNESS_AT, UNDER_OFFSET_AT,
};
use spec::Refusal;
use std::fmt;
use wire::read::{u8_at, u16_at, u32_at};

// Prints the line. A write that fails is passed over.
pub fn show<D: fmt::Display + Drop>(rt: &impl Print, line: D) {
    let _ = rt.println(line);
}

// The chunk that `chunk` starts with, in its place among the chunks.
#[derive(Clone, Copy)]
pub struct ChunkLine<'a> {
    pub place: usize,
    pub chunk: &'a [u8],
}

impl fmt::Display for ChunkLine<'_> {
    fn fmt<W: fmt::Write>(&self, f: &mut fmt::Formatter<W>) -> fmt::Result {
        let ChunkLine { place, chunk } = *self;
        let clusters = u16_at(chunk, CLUSTER_COUNT_AT);
        let x = u32_at(chunk, PEN_X_AT);
        let y = u32_at(chunk, PEN_Y_AT);
        write!(f, "chunk {place} {clusters} {x:08x} {y:08x}")
    }
}

// The cluster that `row` starts with, in its place in the chunk.
#[derive(Clone, Copy)]
pub struct ClusterLine<'a> {
    pub place: usize,
    pub row: &'a [u8],
}

impl fmt::Display for ClusterLine<'_> {
    fn fmt<W: fmt::Write>(&self, f: &mut fmt::Formatter<W>) -> fmt::Result {
        let ClusterLine { place, row } = *self;
        let index = u16_at(row, CLUSTER_INDEX_AT);
        let flags = u8_at(row, CLUSTER_FLAGS_AT);
        let width = u32_at(row, CLUSTER_FLOATS_AT);
        let advance = u32_at(row, ADVANCE_AT);
        let shift = u32_at(row, SHIFT_X_AT);
        write!(
            f,
            "cluster {place} {index} {flags} {width:08x} {advance:08x} {shift:08x}"
        )
    }
}

// The span that `row` starts with.
#[derive(Clone, Copy)]
pub struct SpanLine<'a> {
    pub row: &'a [u8],
}

impl fmt::Display for SpanLine<'_> {
    fn fmt<W: fmt::Write>(&self, f: &mut fmt::Formatter<W>) -> fmt::Result {
        let index = u8_at(self.row, SPAN_INDEX_AT);
        let shift = u32_at(self.row, BASELINE_SHIFT_AT);
        let thickness = u32_at(self.row, THICKNESS_AT);
        let under = u32_at(self.row, UNDER_OFFSET_AT);
        write!(f, "span {index} {shift:08x} {thickness:08x} {under:08x}")
    }
}

// The decoration run that `run` starts with, of the span with this index.
#[derive(Clone, Copy)]
pub struct RunLine<'a> {
    pub span: u8,
    pub run: &'a [u8],
}

impl fmt::Display for RunLine<'_> {
    fn fmt<W: fmt::Write>(&self, f: &mut fmt::Formatter<W>) -> fmt::Result {
        let RunLine { span, run } = *self;
        let first = u16_at(run, RUN_FIRST_AT);
        let width = u32_at(run, RUN_WIDTH_AT);
        write!(f, "run {span} {first} {width:08x}")
    }
}

// Why the job is refused, by its number.
#[derive(Clone, Copy)]
pub struct RefusalLine(pub Refusal);

impl fmt::Display for RefusalLine {
    fn fmt<W: fmt::Write>(&self, f: &mut fmt::Formatter<W>) -> fmt::Result {
        let number = u8::from(self.0);
        write!(f, "refused {number}")
    }
}

// Where the fields of an answer's rows stand, and how many bytes a row has: for those who write answers and those who read them.
#![tactic(auto)]

ghost use Rattle.std.specs.Prelude.{◌≡◌};
ghost use Rattle.spec.specs.Answer.{cluster_row_size_of, span_row_size_of};

use wire::read::u16_at;

pub const FLOAT_BYTES: usize = 4;

// ---- the answer: the length of what follows that, the version, the chunk count, and then the chunks

pub const LENGTH_BYTES: usize = 4;

pub const VERSION_AT: usize = 4;

pub const CHUNK_COUNT_AT: usize = 5;

pub const ANSWER_HEAD_BYTES: usize = CHUNK_COUNT_AT + 1;

// ---- a chunk: cluster count, span row count, pen x, pen y, and then the cluster rows and the span rows

pub const CLUSTER_COUNT_AT: usize = 0;

pub const CLUSTER_COUNT_BYTES: usize = 2;

pub const SPAN_COUNT_AT: usize = 2;

pub const SPAN_COUNT_BYTES: usize = 1;

pub const PEN_X_AT: usize = 3;

pub const PEN_Y_AT: usize = 7;

pub const CHUNK_HEAD_BYTES: usize = 11;

// ---- a cluster row: byte index, flags, ten floats (of which width is the first), glyph count, and then the glyph rows

pub const CLUSTER_INDEX_AT: usize = 0;

pub const CLUSTER_INDEX_BYTES: usize = 2;

pub const CLUSTER_FLAGS_AT: usize = 2;

pub const CLUSTER_FLOATS_AT: usize = 3;

pub const ADVANCE_AT: usize = 7;

pub const SHIFT_X_AT: usize = 31;

pub const GLYPH_COUNT_AT: usize = 43;

pub const GLYPH_COUNT_BYTES: usize = 2;

// Without its glyphs.
pub const CLUSTER_ROW_BYTES: usize = GLYPH_COUNT_AT + GLYPH_COUNT_BYTES;

// ---- a glyph row: id, font byte, x, y

pub const GLYPH_FONT_AT: usize = 4;

pub const GLYPH_X_AT: usize = 5;

pub const GLYPH_Y_AT: usize = 9;

pub const GLYPH_ROW_BYTES: usize = 13;

// ---- a span row: index, seven floats, run count, and then the runs

pub const SPAN_INDEX_AT: usize = 0;

pub const SPAN_FLOATS_AT: usize = 1;

pub const BASELINE_SHIFT_AT: usize = 9;

pub const THICKNESS_AT: usize = 13;

pub const UNDER_OFFSET_AT: usize = 17;

pub const RUN_COUNT_AT: usize = 29;

pub const RUN_COUNT_BYTES: usize = 2;

pub const RUNS_AT: usize = RUN_COUNT_AT + RUN_COUNT_BYTES;

// ---- a run: the place of its first cluster, its width

pub const RUN_FIRST_AT: usize = 0;

pub const RUN_FIRST_BYTES: usize = 2;

pub const RUN_WIDTH_AT: usize = 2;

pub const RUN_BYTES: usize = 6;

// ---- rows that begin with their counts

// The bytes of the cluster row that `row` starts with.
#[tactic(auto, unfolding(spec::specs::Answer::cluster_row_size_of))]
pub fn cluster_size(row: &[u8]) -> usize
    ensures { result ≡ cluster_row_size_of row.now }
{
    CLUSTER_ROW_BYTES + GLYPH_ROW_BYTES * usize::from(u16_at(row, GLYPH_COUNT_AT))
}

// The bytes of the span row that `row` starts with.
#[tactic(auto, unfolding(spec::specs::Answer::span_row_size_of))]
pub fn span_size(row: &[u8]) -> usize
    ensures { result ≡ span_row_size_of row.now }
{
    RUNS_AT + RUN_BYTES * usize::from(u16_at(row, RUN_COUNT_AT))
}

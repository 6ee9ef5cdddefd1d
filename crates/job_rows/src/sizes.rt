// How many rows a span, a chunk and a job have, and how many bytes they take. Each function is given the bytes from its record on.
ghost use Rattle.std.specs.Prelude.{◌≡◌, ◌<◌};
ghost use Rattle.spec.specs.Decode.{shift_count, glyph_count_at, glyph_count, span_size, text_size, span_count_at, span_count, span_bytes, chunk_size, chunk_of, list_size, font_count};

use crate::records::{SpanRecord, records_size};
use wire::read::{u8_at, u16_at};
use wire::slice::{tail, window};

// ---- sizes and places of a record's parts, in the definitions' words where they have a name for them

// How many bytes a row has.
pub const FONT_BYTES: usize = 18;

pub const GLYPH_BYTES: usize = 25;

// Where a glyph's byte index, cluster length, width and font byte stand in its row.
pub const GLYPH_INDEX_AT: usize = 4;

pub const GLYPH_LENGTH_AT: usize = 6;

pub const GLYPH_WIDTH_AT: usize = 15;

pub const GLYPH_FONT_AT: usize = 19;

pub const SHIFT_BYTES: usize = 5;

pub const FLOAT_SIZE: usize = 4;

// How many bytes a count has: of a list's floats, of the chunks, of a chunk's spans, of a span's glyphs.
pub const LIST_COUNT_BYTES: usize = 2;

pub const CHUNK_COUNT_BYTES: usize = 1;

pub const SPAN_COUNT_BYTES: usize = 1;

pub const GLYPH_COUNT_BYTES: usize = 2;

// Where the font count and the fonts stand, in the bytes after the version.
pub const FONT_COUNT_AT: usize = 1;

pub const FONTS_AT: usize = FONT_COUNT_AT + 1;

// Where a chunk's x, y and anchor stand, its text length and its text.
pub const CHUNK_X_AT: usize = 1;

pub const CHUNK_Y_AT: usize = 5;

pub const ANCHOR_AT: usize = 9;

pub const TEXT_AT: usize = 11;

pub const TEXT_BYTES_AT: usize = TEXT_AT + 2;

// Where a span's end stands, behind its start, its font byte, font size, letter and word spacing, length flag and adjust.
pub const SPAN_END_AT: usize = 2;

pub const SPAN_FONT_AT: usize = 4;

pub const SPAN_SIZE_AT: usize = 5;

pub const SPAN_LETTER_AT: usize = 9;

pub const SPAN_WORD_AT: usize = 13;

pub const SPAN_FIXED_AT: usize = 17;

pub const SPAN_ADJUST_AT: usize = 22;

// How many bytes a span has before its shift count, and where that and the shifts stand.
pub const SPAN_HEAD_BYTES: usize = 26;

pub const SHIFT_COUNT_AT: usize = SPAN_HEAD_BYTES;

pub const SHIFTS_AT: usize = SHIFT_COUNT_AT + 1;

// ---- a span
// Here and elsewhere `as` widens a number where proofs go on with it: its value is then the number itself, and not the result of a call of `from`.

#[tactic(auto, unfolding(spec::specs::Decode::shift_count))]
pub fn shift_count(span: &[u8]) -> usize
    ensures { (result ≡ shift_count span.now) × (result < 256) }
{
    u8_at(span, SHIFT_COUNT_AT) as usize
}

// Where the glyph count stands.
#[tactic(auto, unfolding(spec::specs::Decode::glyph_count_at))]
pub fn glyphs_at(span: &[u8]) -> usize
    ensures { (result ≡ glyph_count_at span.now) × (result < 1_303) }
{
    SHIFTS_AT + shift_count(span) * SHIFT_BYTES
}

#[tactic(auto, unfolding(spec::specs::Decode::glyph_count))]
pub fn glyph_count(span: &[u8]) -> usize
    ensures { (result ≡ glyph_count span.now) × (result < 65_536) }
{
    u16_at(span, glyphs_at(span)) as usize
}

#[tactic(auto, unfolding(spec::specs::Decode::span_size))]
pub fn span_size(span: &[u8]) -> usize
    ensures { (result ≡ span_size span.now) × (result < 2_000_000) }
{
    glyphs_at(span) + GLYPH_COUNT_BYTES + glyph_count(span) * GLYPH_BYTES
}

// ---- a chunk

#[tactic(auto, unfolding(spec::specs::Decode::text_size))]
pub fn text_size(chunk: &[u8]) -> usize
    ensures { (result ≡ text_size chunk.now) × (result < 65_536) }
{
    u16_at(chunk, TEXT_AT) as usize
}

// The text, as far as it is there.
#[tactic(auto, unfolding(spec::specs::Decode::chunk_of))]
pub fn text_of(chunk: &[u8]) -> &[u8]
    ensures { result.now ≡ (chunk_of chunk.now).text }
{
    window(chunk, TEXT_BYTES_AT, text_size(chunk))
}

// Where the span count stands.
#[tactic(auto, unfolding(spec::specs::Decode::span_count_at))]
pub fn spans_at(chunk: &[u8]) -> usize
    ensures { (result ≡ span_count_at chunk.now) × (result < 65_549) }
{
    TEXT_BYTES_AT + text_size(chunk)
}

#[tactic(auto, unfolding(spec::specs::Decode::span_count))]
pub fn span_count(chunk: &[u8]) -> usize
    ensures { (result ≡ span_count chunk.now) × (result < 256) }
{
    u8_at(chunk, spans_at(chunk)) as usize
}

// The bytes from the first span on.
#[tactic(auto, unfolding(spec::specs::Decode::span_bytes))]
pub fn span_bytes(chunk: &[u8]) -> &[u8]
    ensures { result.now ≡ span_bytes chunk.now }
{
    tail(chunk, spans_at(chunk) + SPAN_COUNT_BYTES)
}

#[tactic(auto, unfolding(spec::specs::Decode::chunk_size))]
pub fn chunk_size(chunk: &[u8]) -> usize
    ensures { (result ≡ chunk_size chunk.now) × (result < 600_000_000) }
{
    let spans = records_size::<SpanRecord>(span_bytes(chunk), span_count(chunk));
    spans_at(chunk) + SPAN_COUNT_BYTES + spans
}

// ---- a job, given the bytes after the version

#[tactic(auto, unfolding(spec::specs::Decode::list_size))]
pub fn list_size(list: &[u8]) -> usize
    ensures { (result ≡ list_size list.now) × (result < 262_143) }
{
    LIST_COUNT_BYTES + u16_at(list, 0) as usize * FLOAT_SIZE
}

#[tactic(auto, unfolding(spec::specs::Decode::font_count))]
pub fn font_count(job: &[u8]) -> usize
    ensures { (result ≡ font_count job.now) × (result < 256) }
{
    u8_at(job, FONT_COUNT_AT) as usize
}

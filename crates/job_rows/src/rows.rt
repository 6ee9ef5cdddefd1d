// The rows of a job, each read at its place in the record.
ghost use Rattle.std.specs.Prelude.{◌≡◌, ◌+◌, ◌≤◌, length, drop};
ghost use Rattle.spec.specs.Bytes.{float};
ghost use Rattle.spec.specs.Decode.{font_bytes, font_of, glyph_bytes, glyph_of, span_of, shift_of};
ghost use Rattle.wire.specs.Padded.{padded_of};
ghost use Rattle.job_rows.specs.Head.{head_of};

use crate::sizes::{
    ANCHOR_AT, CHUNK_X_AT, CHUNK_Y_AT, FONT_BYTES, GLYPH_BYTES, GLYPH_FONT_AT, GLYPH_INDEX_AT,
    GLYPH_LENGTH_AT, GLYPH_WIDTH_AT, SPAN_ADJUST_AT, SPAN_END_AT, SPAN_FIXED_AT, SPAN_FONT_AT,
    SPAN_HEAD_BYTES, SPAN_LETTER_AT, SPAN_SIZE_AT, SPAN_WORD_AT,
};
use spec::{Font, Glyph, Span};
use wire::read::{
    f32_at, f32_within, i16_within, i32_within, pad, u8_at, u8_within, u16_at, u16_within,
    u32_within,
};
use wire::slice::tail;

// ---- rows of a fixed size, which are nearly always whole: then no byte is asked whether it is there
// `font_at`, `glyph_at` and `span_at` share their shape; a trait for them, with a law on missing bytes, is longer than they are.

// As many bytes as the longest of them has, a span's, with 0 for each that is missing.
fn padded_row(row: &[u8]) -> [u8; SPAN_HEAD_BYTES]
    ensures { result ≡ padded_of 26 row.now }
{
    let mut padded = [0; SPAN_HEAD_BYTES];
    pad(&mut padded, row);
    padded
}

#[tactic(auto, unfolding(spec::specs::Decode::font_of))]
pub fn font_of(row: &[u8]) -> Font
    requires { font_bytes ≤ length row.now }
    ensures { result ≡ font_of row.now }
{
    Font {
        units: u16_within(row, 0),
        ascent: i16_within(row, 2),
        descent: i16_within(row, 4),
        xheight: u16_within(row, 6),
        underline: i16_within(row, 8),
        thickness: u16_within(row, 10),
        through: i16_within(row, 12),
        subscript: i16_within(row, 14),
        superscript: i16_within(row, 16),
    }
}

// Of a row that is cut short.
#[cold]
fn font_padded(row: &[u8]) -> Font
    ensures { result ≡ font_of row.now }
{
    let padded = padded_row(row);
    font_of(&padded)
}

#[inline]
pub fn font_at(s: &[u8], at: usize) -> Font
    ensures { result ≡ font_of (drop at s.now) }
{
    let row = tail(s, at);
    if FONT_BYTES <= row.len() {
        return font_of(row);
    }
    font_padded(row)
}

#[tactic(auto, unfolding(spec::specs::Decode::glyph_of))]
pub fn glyph_of(row: &[u8]) -> Glyph
    requires { glyph_bytes ≤ length row.now }
    ensures { result ≡ glyph_of row.now }
{
    Glyph {
        id: u32_within(row, 0),
        index: u16_within(row, GLYPH_INDEX_AT),
        length: u8_within(row, GLYPH_LENGTH_AT),
        dx: i32_within(row, 7),
        dy: i32_within(row, 11),
        width: i32_within(row, GLYPH_WIDTH_AT),
        font: u8_within(row, GLYPH_FONT_AT),
        tag: u32_within(row, 20),
        orientation: u8_within(row, 24),
    }
}

// Of a row that is cut short.
#[cold]
fn glyph_padded(row: &[u8]) -> Glyph
    ensures { result ≡ glyph_of row.now }
{
    let padded = padded_row(row);
    glyph_of(&padded)
}

#[inline]
pub fn glyph_at(s: &[u8], at: usize) -> Glyph
    ensures { result ≡ glyph_of (drop at s.now) }
{
    let row = tail(s, at);
    if GLYPH_BYTES <= row.len() {
        return glyph_of(row);
    }
    glyph_padded(row)
}

// The byte index alone, of a glyph.
#[tactic(auto, unfolding(spec::specs::Decode::glyph_of))]
pub fn glyph_index_at(s: &[u8], at: usize) -> u16
    ensures { result ≡ (glyph_of (drop at s.now)).index }
{
    let row = tail(s, at);
    if row.len() < GLYPH_BYTES {
        return u16_at(row, GLYPH_INDEX_AT);
    }
    u16_within(row, GLYPH_INDEX_AT)
}

#[tactic(auto, unfolding(spec::specs::Decode::span_of))]
fn span_of(row: &[u8]) -> Span
    requires { 26 ≤ length row.now }
    ensures { result ≡ span_of row.now }
{
    Span {
        start: u16_within(row, 0),
        end: u16_within(row, SPAN_END_AT),
        font: u8_within(row, SPAN_FONT_AT),
        size: f32_within(row, SPAN_SIZE_AT),
        letter: f32_within(row, SPAN_LETTER_AT),
        word: f32_within(row, SPAN_WORD_AT),
        fixed: u8_within(row, SPAN_FIXED_AT),
        length: f32_within(row, 18),
        adjust: u8_within(row, SPAN_ADJUST_AT),
        dominant: u8_within(row, 23),
        alignment: u8_within(row, 24),
        decorations: u8_within(row, 25),
    }
}

// Of a row that is cut short.
#[cold]
fn span_padded(row: &[u8]) -> Span
    ensures { result ≡ span_of row.now }
{
    let padded = padded_row(row);
    span_of(&padded)
}

// A span without its shifts and glyphs.
#[inline]
pub fn span_at(s: &[u8], at: usize) -> Span
    ensures { result ≡ span_of (drop at s.now) }
{
    let row = tail(s, at);
    if SPAN_HEAD_BYTES <= row.len() {
        return span_of(row);
    }
    span_padded(row)
}

// The float at `at` of a span's head, which is nearly always whole: then one test tells that the float is there.
pub fn span_float(row: &[u8], at: usize) -> f32
    requires { at + 4 ≤ 26 }
    ensures { result ≡ float (drop at row.now) }
{
    if SPAN_HEAD_BYTES <= row.len() {
        return f32_within(row, at);
    }
    f32_at(row, at)
}

// ---- a chunk and a shift

// A chunk's own fields; `text` is how long its text is, and `spans` how many spans it has.
#[derive(Clone, Copy)]
pub struct ChunkHead {
    pub flags: u8,
    pub x: f32,
    pub y: f32,
    pub anchor: u8,
    pub flow: u8,
    pub text: usize,
    pub spans: usize,
}

#[tactic(auto, unfolding(crate::specs::Head::head_of))]
pub fn head_at(s: &[u8], at: usize) -> ChunkHead
    ensures { result ≡ head_of (drop at s.now) }
{
    let row = tail(s, at);
    ChunkHead {
        flags: u8_at(row, 0),
        x: f32_at(row, CHUNK_X_AT),
        y: f32_at(row, CHUNK_Y_AT),
        anchor: u8_at(row, ANCHOR_AT),
        flow: u8_at(row, 10),
        text: crate::sizes::text_size(row),
        spans: crate::sizes::span_count(row),
    }
}

// The anchor alone, of a chunk.
#[tactic(auto, unfolding(crate::specs::Head::head_of))]
pub fn anchor_at(s: &[u8], at: usize) -> u8
    ensures { result ≡ (head_of (drop at s.now)).anchor }
{
    u8_at(tail(s, at), ANCHOR_AT)
}

// A shift row's kind, and its float.
#[tactic(auto, unfolding(spec::specs::Decode::shift_of))]
pub fn shift_kind_at(s: &[u8], at: usize) -> u8
    ensures { result ≡ (shift_of (drop at s.now)).kind }
{
    u8_at(s, at)
}

#[tactic(auto, unfolding(spec::specs::Decode::shift_of))]
pub fn shift_number_at(s: &[u8], at: usize) -> f32
    ensures { result ≡ (shift_of (drop at s.now)).number }
{
    let row = tail(s, at);
    f32_at(row, 1)
}

// Check 4: each field has one of its values.
ghost use Rattle.std.specs.Prelude.{◌≡◌};
ghost use Rattle.spec.specs.Lists.{all};
ghost use Rattle.spec.specs.Decode.{glyph_of, shift_of, parts_of, chunk_of, list_of, job_of};
ghost use Rattle.spec.specs.Check.{after_version, float_ok, glyph_ok, shift_ok, parts_ok, chunk_ok, values_ok};
ghost use Rattle.job_checks.specs.Walk.{lists_ok};

use crate::check::{AFTER_VERSION, JobParts};
use crate::walk::all_pass;
use field_checks::{flagged_ok, float_ok, font_ok, glyph_ok, shift_ok, span_ok};
use job_rows::records::{ChunkRecord, Row, SpanRecord};
use job_rows::rows::{
    font_at, glyph_at, glyph_of, head_at, shift_kind_at, shift_number_at, span_at,
};
use job_rows::sizes::{
    FLOAT_SIZE, FONT_BYTES, FONTS_AT, GLYPH_BYTES, GLYPH_COUNT_BYTES, LIST_COUNT_BYTES,
    SHIFT_BYTES, SHIFTS_AT, glyph_count, glyphs_at, shift_count, span_bytes,
};
use spec::Span;
use wire::read::{f32_at, u16_at};
use wire::slice::tail;

// The row of a glyph; `fonts` is the font count. A row that is whole, as nearly every one is, is read in place.
fn glyph_row_ok(fonts: usize, row: &[u8]) -> bool
    ensures { result ≡ glyph_ok fonts (glyph_of row.now) }
{
    if GLYPH_BYTES <= row.len() {
        return glyph_ok(fonts, glyph_of(row));
    }
    glyph_ok(fonts, glyph_at(row, 0))
}

fn shift_row_ok(row: &[u8]) -> bool
    ensures { result ≡ shift_ok (shift_of row.now) }
{
    shift_ok(shift_kind_at(row, 0), shift_number_at(row, 0))
}

// A span with its shifts and glyphs. A span with no font has no glyphs.
pub fn parts_ok(fonts: usize, span: &[u8]) -> bool
    ensures { result ≡ parts_ok fonts (parts_of span.now) }
{
    let head = span_at(span, 0);
    let n = glyph_count(span);
    let shifts = tail(span, SHIFTS_AT);
    let glyphs = tail(span, glyphs_at(span) + GLYPH_COUNT_BYTES);
    span_ok(fonts, head)
        & (!(head.font == Span::NO_FONT) | (n == 0))
        & all_pass::<Row<SHIFT_BYTES>, _>(shifts, shift_count(span), shift_row_ok)
        & all_pass::<Row<GLYPH_BYTES>, _>(glyphs, n, |row| glyph_row_ok(fonts, row))
}

pub fn chunk_ok(fonts: usize, chunk: &[u8]) -> bool
    ensures { result ≡ chunk_ok fonts (chunk_of chunk.now) }
{
    let head = head_at(chunk, 0);
    (head.flags <= 3)
        & flagged_ok(head.flags % 2 == 1, head.x)
        & flagged_ok(head.flags / 2 % 2 == 1, head.y)
        & (head.anchor <= 2)
        & (head.flow == 0)
        & all_pass::<SpanRecord, _>(span_bytes(chunk), head.spans, |span| parts_ok(fonts, span))
}

pub fn list_ok(list: &[u8]) -> bool
    ensures { result ≡ all float_ok (list_of list.now) }
{
    let n = u16_at(list, 0) as usize;
    all_pass::<Row<FLOAT_SIZE>, _>(tail(list, LIST_COUNT_BYTES), n, |row| {
        float_ok(f32_at(row, 0))
    })
}

impl<'a> JobParts<'a> {
    // The lists dx, dy and rotate.
    pub fn lists_ok(&self) -> bool
        ensures { result ≡ lists_ok (job_of (after_version self.now.bytes.now)) }
    {
        list_ok(tail(self.bytes, self.job.dx))
            & list_ok(tail(self.bytes, self.job.dy))
            & list_ok(tail(self.bytes, self.job.rotate))
    }

    pub fn values_ok(&self) -> bool
        ensures { result ≡ values_ok (job_of (after_version self.now.bytes.now)) }
    {
        let fonts = self.job.fonts;
        let rows = tail(self.bytes, AFTER_VERSION + FONTS_AT);
        (self.job.mode <= 1)
            & all_pass::<Row<FONT_BYTES>, _>(rows, fonts, |row| font_ok(font_at(row, 0)))
            & self.lists_ok()
            & all_pass::<ChunkRecord, _>(self.chunks, self.count, |chunk| chunk_ok(fonts, chunk))
    }
}

// Check 5: the text is UTF-8, and each glyph's byte index is the start of a character.
ghost use Rattle.std.specs.Prelude.{◌≡◌};
ghost use Rattle.spec.specs.Lists.{all};
ghost use Rattle.spec.specs.Decode.{parts_of, chunk_of, job_of};
ghost use Rattle.spec.specs.Check.{after_version, text_ok};
ghost use Rattle.job_checks.specs.Walk.{index_ok};

use crate::check::JobParts;
use crate::walk::all_pass;
use field_checks::utf8::{is_utf8, starts_at};
use job_rows::records::{ChunkRecord, Row, SpanRecord};
use job_rows::rows::glyph_index_at;
use job_rows::sizes::{
    GLYPH_BYTES, GLYPH_COUNT_BYTES, glyph_count, glyphs_at, span_bytes, span_count, text_of,
};
use wire::slice::tail;

// Of a span's glyphs.
pub fn indexes_ok(text: &[u8], span: &[u8]) -> bool
    ensures { result ≡ all (index_ok text.now) (parts_of span.now).glyphs }
{
    let glyphs = tail(span, glyphs_at(span) + GLYPH_COUNT_BYTES);
    all_pass::<Row<GLYPH_BYTES>, _>(glyphs, glyph_count(span), |row| {
        starts_at(text, glyph_index_at(row, 0) as usize)
    })
}

pub fn text_ok(chunk: &[u8]) -> bool
    ensures { result ≡ text_ok (chunk_of chunk.now) }
{
    let text = text_of(chunk);
    is_utf8(text)
        & all_pass::<SpanRecord, _>(span_bytes(chunk), span_count(chunk), |span| {
            indexes_ok(text, span)
        })
}

impl<'a> JobParts<'a> {
    pub fn texts_ok(&self) -> bool
        ensures { result ≡ all text_ok (job_of (after_version self.now.bytes.now)).chunks }
    {
        all_pass::<ChunkRecord, _>(self.chunks, self.count, text_ok)
    }
}

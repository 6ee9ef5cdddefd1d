// Check 3: every count is within its limit, and the counted fields end with the record.
ghost use Rattle.std.specs.Prelude.{◌≡◌};
ghost use Rattle.spec.specs.Decode.{span_fits, chunk_fits, list_fits, shaped};
ghost use Rattle.spec.specs.Check.{after_version};
ghost use Rattle.job_checks.specs.Walk.{counts_fit};

use crate::check::JobParts;
use crate::walk::all_pass;
use job_rows::records::{ChunkRecord, SpanRecord, records_size};
use job_rows::sizes::{
    SPAN_COUNT_BYTES, glyph_count, list_size, shift_count, span_bytes, span_count, span_size,
    spans_at, text_size,
};
use spec::Job;
use wire::read::u16_at;
use wire::slice::tail;

#[tactic(auto, unfolding(spec::specs::Decode::span_fits, spec::specs::Lists::every))]
pub fn span_fits(span: &[u8]) -> bool
    ensures { result ≡ span_fits span.now }
{
    (shift_count(span) <= Job::SHIFTS)
        & (glyph_count(span) <= Job::GLYPHS)
        & (span_size(span) <= span.len())
}

pub fn chunk_fits(chunk: &[u8]) -> bool
    ensures { result ≡ chunk_fits chunk.now }
{
    let n = span_count(chunk);
    let fit = all_pass::<SpanRecord, _>(span_bytes(chunk), n, span_fits);
    (text_size(chunk) <= Job::TEXT)
        & (n <= Job::SPANS)
        & (spans_at(chunk) + SPAN_COUNT_BYTES <= chunk.len())
        & fit
}

#[tactic(auto, unfolding(spec::specs::Decode::list_fits, spec::specs::Lists::every))]
pub fn list_fits(list: &[u8]) -> bool
    ensures { result ≡ list_fits list.now }
{
    let n = u16_at(list, 0) as usize;
    (n <= Job::LIST) & (list_size(list) <= list.len())
}

impl<'a> JobParts<'a> {
    pub fn counts_fit(&self) -> bool
        ensures { result ≡ counts_fit (after_version self.now.bytes.now) }
    {
        (self.job.fonts <= Job::FONTS)
            & list_fits(tail(self.bytes, self.job.dx))
            & list_fits(tail(self.bytes, self.job.dy))
            & list_fits(tail(self.bytes, self.job.rotate))
            & (self.count <= Job::CHUNKS)
    }

    // The chunk count has to be there, and the chunks to end with the record.
    pub fn is_shaped(&self) -> bool
        ensures { result ≡ shaped (after_version self.now.bytes.now) }
    {
        let n = self.count;
        if !self.counts_fit() {
            return false;
        }
        if !all_pass::<ChunkRecord, _>(self.chunks, n, chunk_fits) {
            return false;
        }
        (self.job.chunks < self.bytes.len())
            & (records_size::<ChunkRecord>(self.chunks, n) == self.chunks.len())
    }
}

// Check 6: the spans of a chunk stand in order inside its text.
ghost use Rattle.std.specs.Prelude.{◌≡◌};
ghost use Rattle.spec.specs.Lists.{all};
ghost use Rattle.spec.specs.Bytes.{rows};
ghost use Rattle.spec.specs.Decode.{span_size, span_of, chunk_of, job_of};
ghost use Rattle.spec.specs.Check.{after_version, ordered, spans_ok};

use crate::check::JobParts;
use crate::walk::all_pass;
use job_rows::records::ChunkRecord;
use job_rows::sizes::{SPAN_END_AT, span_bytes, span_count, span_size, text_of};
use wire::read::u16_at;
use wire::slice::tail;

// `n` spans, in a text of `length` bytes. A loop of its own: a walk that carries a value on, here the previous end, would serve this alone.
pub fn spans_ordered(spans: &[u8], n: usize, length: usize) -> bool
    ensures { result ≡ ordered length 0 (rows span_size span_of n spans.now) }
{
    let mut previous: usize = 0;
    let mut span = spans;
    for left in (0..n).rev() {
        let start = u16_at(span, 0) as usize;
        let end = u16_at(span, SPAN_END_AT) as usize;
        if !((previous <= start) & (start <= end) & (end <= length)) {
            return false;
        }
        previous = end;
        if 0 < left {
            span = tail(span, span_size(span));
        }
    }
    true
}

pub fn spans_ok(chunk: &[u8]) -> bool
    ensures { result ≡ spans_ok (chunk_of chunk.now) }
{
    let text = text_of(chunk);
    spans_ordered(span_bytes(chunk), span_count(chunk), text.len())
}

impl<'a> JobParts<'a> {
    pub fn orders_ok(&self) -> bool
        ensures { result ≡ all spans_ok (job_of (after_version self.now.bytes.now)).chunks }
    {
        all_pass::<ChunkRecord, _>(self.chunks, self.count, spans_ok)
    }
}

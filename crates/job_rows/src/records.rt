// Records that stand one after the other, each as long as its own bytes say.
ghost use Rattle.std.specs.Prelude.{◌≡◌, ◌<◌, ◌≤◌, ◌*◌, ◌^◌, ℕ, List};
ghost use Rattle.spec.specs.Bytes.{sizes};
ghost use Rattle.spec.specs.Decode.{span_size, chunk_size};

use crate::sizes;
use wire::slice::tail;

// A kind of record: how many bytes one takes, and the most that one can take.
pub trait Record {
    ghost size: { List ℕ → ℕ };

    ghost most: { ℕ };

    // `bytes` are those from the record on.
    fn size(bytes: &[u8]) -> usize
        ensures { (result ≡ size bytes.now) × (result ≤ most) };
}

// A row of so many bytes.
pub struct Row<const BYTES: usize>;

impl<const BYTES: usize> Record for Row<BYTES> {
    ghost size = { λ bytes. BYTES };

    ghost most = { BYTES };

    fn size(_bytes: &[u8]) -> usize {
        BYTES
    }
}

// A span with its shifts and glyphs.
pub struct SpanRecord;

impl Record for SpanRecord {
    ghost size = { span_size };

    ghost most = { 2_000_000 };

    fn size(span: &[u8]) -> usize {
        sizes::span_size(span)
    }
}

// A chunk with its text and spans.
pub struct ChunkRecord;

impl Record for ChunkRecord {
    ghost size = { chunk_size };

    ghost most = { 600_000_000 };

    fn size(chunk: &[u8]) -> usize {
        sizes::chunk_size(chunk)
    }
}

// How many bytes `n` records take. No iterator over records serves the walks of this repository: each carries other values along, and where a record
// ends is found by its kind's `size`.
pub fn records_size<R: Record>(records: &[u8], n: usize) -> usize
    requires { n * R.most < 2 ^ 64 }
    ensures { (result ≡ sizes R.size n records.now) × (result ≤ n * R.most) }
{
    let mut size: usize = 0;
    let mut rest = records;
    for _ in 0..n {
        let k = R::size(rest);
        size += k;
        rest = tail(rest, k);
    }
    size
}

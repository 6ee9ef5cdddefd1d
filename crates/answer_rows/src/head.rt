// The answer before its chunks.
ghost use Rattle.std.specs.Prelude.{◌≡◌, ◌++◌, ◌-◌, ◌≤◌, length};
ghost use Rattle.spec.specs.Bytes.{bytes};
ghost use Rattle.spec.specs.Answer.{answer_version, answer_count_bytes, answer_head_size};
ghost use Rattle.wire.specs.Splice.{splice};

use answer_format::{CHUNK_COUNT_AT, LENGTH_BYTES, VERSION_AT};
use wire::write::{put_number, put_u8};

// The record version that is written.
pub const VERSION: u8 = 1;

// Of an answer of `size` bytes and `count` chunks.
pub fn put_answer_head(out: &mut [u8], size: usize, count: u8)
    requires { (answer_head_size ≤ length out.old) × (4 ≤ size) }
    ensures { out.new ≡ splice out.old 0
        (bytes 4 (size - 4) ++ (bytes 1 answer_version ++ bytes answer_count_bytes count)) }
{
    put_number(out, 0, LENGTH_BYTES, (size - LENGTH_BYTES) as u64);
    put_u8(out, VERSION_AT, VERSION);
    put_u8(out, CHUNK_COUNT_AT, count);
}

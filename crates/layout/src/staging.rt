// The rows of a job's chunks. Nothing may be written into the answer before it is known that no chunk is refused and that the whole answer fits. A
// single chunk sees to that by itself, and goes straight into the answer. So do several, if each is sure to be laid out and the longest answer that
// the job can have fits. All others are laid out in a staging buffer, and their rows are copied; only an answer that is longer than that buffer is laid
// out a second time, straight into its place. So memory does not grow with the number of chunks.
ghost use Rattle.std.specs.Prelude.{◌≡◌, ◌+◌, ◌*◌, ◌≤◌, length, ltb};
ghost use Rattle.spec.specs.Job.{limits};
ghost use Rattle.wire.specs.Splice.{splice};
ghost use Rattle.layout.specs.Steps.{job_outcome, ChunksWritten};

use crate::checked::Checked;
use crate::chunks::{all_sure, beginning, count_of, layout_chunks};
use answer_format::ANSWER_HEAD_BYTES;
use chunk::chunk::layout_chunk;
use chunk::progress::{NextChunk, Progress};
use job_rows::sizes::CHUNK_COUNT_BYTES;
use spec::Refusal;

// The size of the staging buffer.
const STAGING_BYTES: usize = 8_192;

// Copies `bytes` to `out`, from `at` on.
fn copy_into(out: &mut [u8], at: usize, bytes: &[u8])
    requires { at + length bytes.now ≤ length out.old }
    ensures { out.new ≡ splice out.old at bytes.now }
{
    out[at..at + bytes.len()].copy_from_slice(bytes);
}

// Lays out several chunks in the staging buffer; else as `layout_all`.
fn layout_staged(checked: Checked, answer: &mut [u8]) -> Result<Progress, Refusal>
    ensures { ChunksWritten (job_outcome checked.entry.bytes.now checked.entry.job) result answer.old answer.new }
{
    let mut staged = [0; STAGING_BYTES];
    let end = layout_chunks(checked, &mut staged)?;
    if answer.len() < end.length {
        return Ok(end);
    }
    if STAGING_BYTES < end.length {
        return layout_chunks(checked, answer);
    }
    let rows = &staged[ANSWER_HEAD_BYTES..end.length];
    copy_into(answer, ANSWER_HEAD_BYTES, rows);
    Ok(end)
}

// Whether a buffer of so many bytes has room for any answer to a job of so many: an answer has at most 64 / 25 of its job's bytes.
fn has_room(job: usize, answer: usize) -> bool
    requires { job ≤ limits.bytes }
    ensures { result ≡ ltb (64 * job) (answer * 25) }
{
    64 * job / 25 < answer
}

// Lays out all chunks. Their rows stand in `answer` if none is refused and the whole answer fits; else it is as it was.
pub fn layout_all(checked: Checked, answer: &mut [u8]) -> Result<Progress, Refusal>
    ensures { ChunksWritten (job_outcome checked.entry.bytes.now checked.entry.job) result answer.old answer.new }
{
    if count_of(checked) == 1 {
        let Checked { bytes, job } = checked;
        let at = job.chunks + CHUNK_COUNT_BYTES;
        let before = beginning();
        return layout_chunk(bytes, NextChunk { job, at, before }, answer);
    }
    if has_room(checked.bytes.len(), answer.len()) && all_sure(checked) {
        return layout_chunks(checked, answer);
    }
    layout_staged(checked, answer)
}

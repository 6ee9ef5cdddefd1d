// The chunks of a checked job, laid out in order.
ghost use Rattle.std.specs.Prelude.{◌≡◌, true, ◌<◌, length};
ghost use Rattle.spec.specs.Answer.{answer_head_size};
ghost use Rattle.spec.specs.Layout.{beginning};
ghost use Rattle.spec.specs.Lists.{all};
ghost use Rattle.spec.specs.Refusal.{outcome_of};
ghost use Rattle.job_rows.specs.Rows.{job_at};
ghost use Rattle.chunk.specs.Sure.{sure};
ghost use Rattle.chunk.specs.Steps.{progress_after, result_of, buffer_after_chunks};
ghost use Rattle.layout.specs.Steps.{job_outcome, fits_in};
ghost use Rattle.layout.specs.Checked.{chunk_count_in};

use crate::checked::Checked;
use answer_format::ANSWER_HEAD_BYTES;
use chunk::chunk::layout_chunk;
use chunk::progress::{NextChunk, Progress};
use chunk::sure::is_sure;
use job_rows::sizes::{CHUNK_COUNT_BYTES, chunk_size};
use spec::{Point, Refusal};
use wire::read::u8_at;
use wire::slice::{offset_after, tail};

// Before the first chunk.
pub fn beginning() -> Progress
    ensures { result ≡ progress_after answer_head_size beginning }
{
    Progress {
        pen: Point { x: 0.0, y: 0.0 },
        offset: 0,
        length: ANSWER_HEAD_BYTES,
        extent: 0.0,
    }
}

// How many chunks the job has.
pub fn count_of(checked: Checked) -> usize
    ensures { (result ≡ chunk_count_in checked.entry.bytes.now checked.entry.job) × (result < 256) }
{
    usize::from(u8_at(checked.bytes, checked.job.chunks))
}

// Lays out the chunks one after the other. Returns the progress after the last, or why the job is refused. A chunk's row is written
// if it ends within `out`, so all rows stand there if the whole answer fits; otherwise the contents of `out` are unspecified.
pub fn layout_chunks(checked: Checked, out: &mut [u8]) -> Result<Progress, Refusal>
    ensures { (outcome_of result ≡ result_of answer_head_size (job_outcome checked.entry.bytes.now checked.entry.job))
        × (fits_in (length out.old) (job_outcome checked.entry.bytes.now checked.entry.job) ≡ true
        → out.new ≡ buffer_after_chunks out.old answer_head_size (job_outcome checked.entry.bytes.now checked.entry.job)) }
{
    let Checked { bytes: s, job } = checked;
    let mut before = beginning();
    let mut at = job.chunks + CHUNK_COUNT_BYTES;
    for _ in 0..count_of(checked) {
        before = layout_chunk(s, NextChunk { job, at, before }, out)?;
        let size = chunk_size(tail(s, at));
        at = offset_after(s, at, size);
    }
    Ok(before)
}

// Whether every chunk is sure to be laid out.
pub fn all_sure(checked: Checked) -> bool
    ensures { result ≡ all sure (job_at checked.entry.bytes.now checked.entry.job).chunks }
{
    let s = checked.bytes;
    let mut at = checked.job.chunks + CHUNK_COUNT_BYTES;
    for _ in 0..count_of(checked) {
        if !is_sure(s, at) {
            return false;
        }
        at = offset_after(s, at, chunk_size(tail(s, at)));
    }
    true
}

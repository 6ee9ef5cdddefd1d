// The call: a job in, an answer or a refusal out.
#![tactic(auto)]

mod checked;
mod chunks;
mod staging;

ghost use Rattle.layout.specs.Returned.{returned_number, returned_length};
ghost use Rattle.layout.specs.Called.{LayoutPromise};

use answer_rows::head::put_answer_head;
use checked::Checked;
use chunks::count_of;
use job_checks::check::check;
use spec::Refusal;
use staging::layout_all;

// The whole call: the answer's whole length, or why the job is refused. What it promises, of any bytes and any buffer, is in specs/Called: the number,
// the length, the buffer's bytes, how much to lend, and demand 3. The answer's head comes last.
pub fn layout_text(job: &[u8], answer: &mut [u8]) -> Result<usize, Refusal>
    ensures { LayoutPromise job.now answer.old (returned_number result) (returned_length result) answer.new }
{
    let checked = Checked {
        bytes: job,
        job: check(job)?,
    };
    let end = layout_all(checked, answer)?;
    if answer.len() < end.length {
        return Err(Refusal::NoRoom);
    }
    put_answer_head(answer, end.length, count_of(checked) as u8);
    Ok(end.length)
}

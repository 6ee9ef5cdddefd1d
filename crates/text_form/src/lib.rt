// A job is laid out, and the answer or the refusal is printed in document 01's text form.
#![tactic(auto)]

mod line;
mod show;

use line::RefusalLine;
use wire::slice::window;

// One byte more than a job may have, so that a longer one is seen to be longer.
pub const JOB_ROOM: usize = 65_537;

const ANSWER_ROOM: usize = 65_536;

// A job's layout. A refused job has one line.
pub fn show_job(rt: &impl Print, job: &[u8]) {
    let mut answer = [0; ANSWER_ROOM];
    match layout::layout_text(job, &mut answer) {
        Ok(n) => show::show_answer(rt, window(&answer, 0, n)),
        Err(refusal) => line::show(rt, RefusalLine(refusal)),
    }
}

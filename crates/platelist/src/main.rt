// Lays out the job on standard input and prints the answer, or the refusal, in document 01's text form.
#![tactic(auto)]

use named_files::read_full;
use text_form::{JOB_ROOM, show_job};

fn main(rt: HostRuntime) {
    let mut job = [0; JOB_ROOM];
    let n = read_full(&mut rt.stdin(), &mut job);
    show_job(&rt, &job[..n]);
}

// Lays out the job in each file that an argument names, and prints the file's name and then the layout in document 01's text form.
#![tactic(auto)]

use text_form::{JOB_ROOM, show_job};

fn main(rt: HostRuntime) -> std::io::Result<()> {
    let mut job = [0; JOB_ROOM];
    named_files::show_each(&rt, "\n", &mut job, |job| show_job(&rt, job))
}

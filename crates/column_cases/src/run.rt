// A run of equal answers, one after the other.
use column_window::Width;
use std::fmt;
use wire::write::bits_of;

// The width is kept and printed as its pattern, in eight digits.
#[derive(Clone, Copy, PartialEq, Eq)]
struct Answer {
    number: u32,
    bits: u32,
}

impl From<Width> for Answer {
    fn from(width: Width) -> Answer {
        Answer {
            number: width.number,
            bits: bits_of(width.width),
        }
    }
}

#[derive(Clone, Copy)]
pub struct Run {
    times: u64,
    answer: Answer,
}

// How often, the number and the width.
impl fmt::Display for Run {
    fn fmt<W: fmt::Write>(&self, f: &mut fmt::Formatter<W>) -> fmt::Result {
        let Answer { number, bits } = self.answer;
        let times = self.times;
        write!(f, "{times} {number} {bits:08x}")
    }
}

// Prints the run, if there is one. A write that fails is passed over.
pub fn show(rt: &impl Print, run: Option<Run>) {
    if let Some(run) = run {
        let _ = rt.println(run);
    }
}

// The run with one answer more. Where that is another, the run is printed and a new one starts.
pub fn with(rt: &impl Print, run: Option<Run>, width: Width) -> Run {
    let answer = Answer::from(width);
    match run {
        Some(run) if run.answer == answer => Run {
            times: run.times.wrapping_add(1),
            answer,
        },
        _ => {
            show(rt, run);
            Run { times: 1, answer }
        }
    }
}

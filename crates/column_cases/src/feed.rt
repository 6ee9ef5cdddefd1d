// Rows of labels, fed to a window. A row has how many, the pattern of the first, and by how much each later pattern is higher.
use crate::run;
use crate::run::Run;
use column_window::add_extent;
use wire::read::{f32_of, u16_at, u32_at};

const ROW_SIZE: usize = 10;

const COUNT_AT: usize = 0;

const PATTERN_AT: usize = 2;

const STEP_AT: usize = 6;

fn feed_row(rt: &impl Print, window: &mut [u32], row: &[u8], before: Option<Run>) -> Option<Run> {
    let count = u16_at(row, COUNT_AT);
    let step = u32_at(row, STEP_AT);
    let mut bits = u32_at(row, PATTERN_AT);
    let mut answers = before;
    for _ in 0..count {
        answers = Some(run::with(rt, answers, add_extent(window, f32_of(bits))));
        bits = bits.wrapping_add(step);
    }
    answers
}

// Feeds the rows and prints the runs of answers but the last, which is returned. A row that is cut off is left out.
pub fn feed_rows(rt: &impl Print, window: &mut [u32], rows: &[u8]) -> Option<Run> {
    let mut answers = None;
    for row in rows.chunks_exact(ROW_SIZE) {
        answers = feed_row(rt, window, row, answers);
    }
    answers
}

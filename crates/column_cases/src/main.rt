// Feeds the labels in each file that an argument names to a window. A file has how many words are lent, the span, and rows of labels.
// Prints the file's name and the number that the opening gave; then each run of equal answers; and last whether the words past the window
// are as they were.
#![tactic(auto)]

mod feed;
mod run;

ghost use Rattle.std.specs.Prelude.{◌≤◌};

use column_window::{WINDOW_WORDS, open_window};
use wire::read::{u8_at, u32_at};
use wire::slice::tail;

// Of a longer file no more is read.
const ROOM: usize = 4_096;

const WORDS: usize = 80;

// What each word holds before the opening: as a count one that is not full, as a span none.
const PATTERN: u32 = 0xff00;

const LENT_AT: usize = 0;

const SPAN_AT: usize = 1;

const ROWS_AT: usize = 5;

// How many words are lent; no more than there are.
fn lent_words(file: &[u8]) -> usize
    ensures { result ≤ 80 }
{
    usize::from(u8_at(file, LENT_AT)).min(WORDS)
}

// A write that fails is passed over.
fn show_window(rt: &impl Print, window: &mut [u32], file: &[u8]) {
    let opened = open_window(window, u32_at(file, SPAN_AT));
    let _ = println!(rt; " {}", opened.number);
    run::show(rt, feed::feed_rows(rt, window, tail(file, ROWS_AT)));
}

// Whether each word past the window is as it was before the opening.
fn past_kept(words: &[u32; WORDS]) -> bool {
    words[WINDOW_WORDS..].iter().all(|word| *word == PATTERN)
}

fn show_case(rt: &impl Print, file: &[u8]) {
    let mut words = [PATTERN; WORDS];
    let lent = lent_words(file);
    show_window(rt, &mut words[..lent], file);
    let past = if past_kept(&words) { "kept" } else { "changed" };
    let _ = println!(rt; "past {past}");
}

fn main(rt: HostRuntime) -> std::io::Result<()> {
    let mut file = [0; ROOM];
    named_files::show_each(&rt, "", &mut file, |file| show_case(&rt, file))
}

// Replays stored jobs: for each file that an argument names, prints its name, of how many of its records the call gives what is stored, and
// of how many it does not.
#![tactic(auto)]

mod record;
mod same;

use layout::layout_text;
use record::Record;
use same::{PATTERN, holds, same_outcome};
use wire::read::u32_at;
use wire::slice::{offset_after, tail};

// Of a longer file no more is read: a record that is cut off differs.
const FILE_ROOM: usize = 131_072;

const ANSWER_ROOM: usize = 65_536;

// The first record's place in a file; before it stands how many there are.
const FIRST_AT: usize = 4;

// Whether the call gives what the record says.
fn agrees(record: Record<'_>) -> bool {
    let mut buffer = [PATTERN; ANSWER_ROOM];
    let Some(lent) = buffer.get_mut(..record.lent_length()) else {
        return false;
    };
    let answered = layout_text(record.job(), lent);
    let answer = record.answer();
    same_outcome(answered, record.number(), answer.len()) && holds(&buffer, answer)
}

// A write that fails is passed over.
fn replay_records(rt: &impl Print, file: &[u8]) {
    let count = u32_at(file, 0) as usize;
    let mut at = FIRST_AT;
    let mut agree: usize = 0;
    for _ in 0..count {
        let bytes = tail(file, at);
        let record = Record { bytes };
        let size = record.size();
        if size <= bytes.len() && agrees(record) {
            agree += 1;
        }
        at = offset_after(file, at, size);
    }
    let differ = count - agree;
    let _ = println!(rt; " {agree} agree, {differ} differ");
}

fn main(rt: HostRuntime) -> std::io::Result<()> {
    let mut file = [0; FILE_ROOM];
    named_files::show_each(&rt, "", &mut file, |file| replay_records(&rt, file))
}

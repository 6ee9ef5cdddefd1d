// The running block: labels are put into it, and its tails made when it is full.
ghost use Rattle.std.specs.Prelude.{◌≡◌, ◌+◌, ◌<◌, length};
ghost use Rattle.column_window.specs.Words.{place_word, tails, added_words, width_pattern, Ready};

use crate::words::{BEST, BLOCK, COUNT, PLACE, SPAN};

// Each place takes the highest from there on.
fn make_tails(block: &mut [u32])
    ensures { block.new ≡ tails block.old }
{
    let mut best = 0;
    // By place: no law of the library says what a reversed `iter_mut` has written.
    for i in (0..block.len()).rev() {
        best = block[i].max(best);
        block[i] = best;
    }
}

// A label's pattern is put at the running place. Where it fills the block, the block's tails take its place.
pub fn put_label(window: &mut [u32], x: u32)
    requires { Ready window.old }
    ensures { window.new ≡ added_words window.old x }
{
    let span = window[SPAN] as usize;
    let at = window[PLACE] as usize;
    let count = window[COUNT];
    let best = window[BEST];
    window[BLOCK + at] = x;
    window[COUNT] = count + 1;
    if at + 1 < span {
        window[PLACE] = (at + 1) as u32;
        window[BEST] = best.max(x);
        return;
    }
    window[PLACE] = 0;
    window[BEST] = 0;
    let end = BLOCK + span;
    make_tails(&mut window[BLOCK..end]);
}

// The pattern of the width.
#[tactic(auto, unfolding(crate::specs::Words::width_pattern))]
pub fn width_pattern(window: &[u32]) -> u32
    requires { 4 + place_word window.now < length window.now }
    ensures { result ≡ width_pattern window.now }
{
    let at = window[PLACE] as usize;
    window[BLOCK + at].max(window[BEST])
}

// The words of a window, and what stands where.
ghost use Rattle.std.specs.Prelude.{◌≡◌, ◌≤◌, length, get_or};
ghost use Rattle.column_window.specs.Words.{window_words, opened_words};

// How many labels the window's span has.
pub const SPAN: usize = 0;

// How many labels were accepted.
pub const COUNT: usize = 1;

// How many labels stand in the running block, which is the place of the next.
pub const PLACE: usize = 2;

// The highest pattern of the running block.
pub const BEST: usize = 3;

// The block: as many words as the span has labels.
pub const BLOCK: usize = 4;

pub const SPAN_MAX: u32 = 64;

pub const WORDS: usize = BLOCK + SPAN_MAX as usize;

// The word at a place, 0 where so few are lent.
pub fn word_at(window: &[u32], at: usize) -> u32
    ensures { result ≡ get_or window.now at 0 }
{
    window.get(at).copied().unwrap_or(0)
}

// The words of an empty window.
pub fn clear(window: &mut [u32], span: u32)
    requires { window_words ≤ length window.old }
    ensures { window.new ≡ opened_words window.old span }
{
    window[COUNT..WORDS].fill(0);
    window[SPAN] = span;
}

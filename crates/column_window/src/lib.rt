// The width of a column down a row of labels: the largest of the last labels within a span, label by label. The window stands in words
// that the caller lends. No label is looked at a second time when another comes: labels go into a block of as many places as the span;
// when the block is full, each of its places takes the largest from there on, and the next block is written over these from the first
// place. So the width is the larger of two numbers: what stands at the running place, and the running block's largest. (This is the
// running maximum of van Herk and of Gil and Werman, in one block.)
#![tactic(auto)]

mod block;
mod extent;
mod refusal;
mod words;

ghost use Rattle.std.specs.Prelude.{◌≡◌};
ghost use Rattle.column_window.specs.Refusal.{number_of, width_given};
ghost use Rattle.column_window.specs.Called.{WindowOpened, ExtentAdded};

use block::{put_label, width_pattern};
use extent::pattern;
use refusal::{ColumnRefusal, check_label, check_opening};
use wire::read::f32_of;
use words::clear;

// How many words a window takes.
pub const WINDOW_WORDS: usize = words::WORDS;

// What a call answers, in the form that C takes: the number of a refusal or 0, and the width, which is 0 where the call is refused.
#[repr(C)]
#[derive(Clone, Copy)]
pub struct Width {
    pub number: u32,
    pub width: f32,
}

impl From<Result<f32, ColumnRefusal>> for Width {
    ghost from_gives = { λ answer width. (width.number ≡ number_of answer) × (width.width ≡ width_given answer) };

    fn from(answer: Result<f32, ColumnRefusal>) -> Width {
        match answer {
            Ok(width) => Width { number: 0, width },
            Err(refusal) => Width {
                number: refusal.into(),
                width: 0.0,
            },
        }
    }
}

fn opened(window: &mut [u32], span: u32) -> Result<f32, ColumnRefusal>
    ensures { WindowOpened window.old span (number_of result) (width_given result) window.new }
{
    check_opening(window, span)?;
    clear(window, span);
    Ok(0.0)
}

fn added(window: &mut [u32], extent: f32) -> Result<f32, ColumnRefusal>
    ensures { ExtentAdded window.old extent (number_of result) (width_given result) window.new }
{
    check_label(window, extent)?;
    put_label(window, pattern(extent));
    Ok(f32_of(width_pattern(window)))
}

// An empty window of `span` labels. Refused: 19, a span of 0 or above 64; 10, too few words.
pub fn open_window(window: &mut [u32], span: u32) -> Width
    ensures { WindowOpened window.old span result.number result.width window.new }
{
    opened(window, span).into()
}

// One label more, and the width after it. Refused: 4, an extent that is not finite or is below zero; 3, one label too many; 10, too few
// words; 19, words that no call has left.
pub fn add_extent(window: &mut [u32], extent: f32) -> Width
    ensures { ExtentAdded window.old extent result.number result.width window.new }
{
    added(window, extent).into()
}

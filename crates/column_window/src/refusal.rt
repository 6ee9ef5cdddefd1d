// Why a call is refused: the first cause.
ghost use Rattle.std.specs.Prelude.{◌≡◌};
ghost use Rattle.column_window.specs.Window.{span_ok};
ghost use Rattle.column_window.specs.Refusal.{refusal_number, number_of};
ghost use Rattle.column_window.specs.Called.{open_number, is_window, words_number, add_number};

use crate::extent::extent_ok;
use crate::words;
use crate::words::word_at;

const LABELS_MOST: u32 = 65_535;

#[derive(Clone, Copy, PartialEq, Eq, Debug)]
pub enum ColumnRefusal {
    // One label too many.
    TooManyLabels,
    // An extent that is not finite or is below zero.
    BadExtent,
    // Too few words.
    NoRoom,
    // A span that no window has, or words that no call has left.
    BadWindow,
}

// Its number.
impl From<ColumnRefusal> for u32 {
    ghost from_gives = { λ refusal number. number ≡ refusal_number refusal };

    fn from(refusal: ColumnRefusal) -> u32 {
        match refusal {
            ColumnRefusal::TooManyLabels => 3,
            ColumnRefusal::BadExtent => 4,
            ColumnRefusal::NoRoom => 10,
            ColumnRefusal::BadWindow => 19,
        }
    }
}

#[tactic(auto, unfolding(crate::specs::Window::span_ok))]
fn span_ok(span: u32) -> bool
    ensures { result ≡ span_ok span }
{
    (1..=words::SPAN_MAX).contains(&span)
}

// Whether a window of `span` labels can be opened in the words.
#[tactic(auto, unfolding(crate::specs::Called::open_number))]
pub fn check_opening(window: &[u32], span: u32) -> Result<(), ColumnRefusal>
    ensures { number_of result ≡ open_number window.now span }
{
    if !span_ok(span) {
        return Err(ColumnRefusal::BadWindow);
    }
    if window.len() < words::WORDS {
        return Err(ColumnRefusal::NoRoom);
    }
    Ok(())
}

// Whether the words can be a window's.
#[tactic(auto, unfolding(crate::specs::Called::is_window))]
fn is_window(window: &[u32]) -> bool
    ensures { result ≡ is_window window.now }
{
    let span = word_at(window, words::SPAN);
    span_ok(span) && word_at(window, words::PLACE) < span
}

#[tactic(auto, unfolding(crate::specs::Called::words_number))]
fn check_words(window: &[u32]) -> Result<(), ColumnRefusal>
    ensures { number_of result ≡ words_number window.now }
{
    if window.len() < words::WORDS {
        return Err(ColumnRefusal::NoRoom);
    }
    if !is_window(window) {
        return Err(ColumnRefusal::BadWindow);
    }
    Ok(())
}

// Whether a label of this extent can be put into the words.
#[tactic(auto, unfolding(crate::specs::Called::add_number))]
pub fn check_label(window: &[u32], extent: f32) -> Result<(), ColumnRefusal>
    ensures { number_of result ≡ add_number window.now extent }
{
    if !extent_ok(extent) {
        return Err(ColumnRefusal::BadExtent);
    }
    if LABELS_MOST <= word_at(window, words::COUNT) {
        return Err(ColumnRefusal::TooManyLabels);
    }
    check_words(window)
}

// Step 8: how far a span's baseline is shifted, and the offsets of its decorations.
#![tactic(auto)]

pub mod alignment;
pub mod offset;
pub mod resolve;
pub mod shift;

// The writing mode of a horizontal text.
pub const LEFT_TO_RIGHT: u8 = 0;

// Step 1: the glyph lists of a chunk's spans merged into one, or refused with 7 or 8.
#![tactic(auto)]

pub mod chunk;
pub mod glyph;
pub mod index;
pub mod moves;
pub mod progress;
pub mod search;
pub mod source;
pub mod step;

// An answer's rows as bytes, put into a lent buffer from a place on.
#![tactic(auto)]

pub mod chunk;
pub mod cluster;
pub mod flags;
pub mod floats;
pub mod glyphs;
pub mod head;
pub mod span;
pub mod spans;

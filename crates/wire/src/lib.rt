// Numbers in bytes, the highest byte first: read from a slice at a place, and written into one.
#![tactic(auto)]

pub mod read;
pub mod slice;
pub mod write;

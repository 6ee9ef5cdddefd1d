// Steps 3, 4 and 5: writing mode, letter spacing and word spacing, each a function of one cluster and a loop over all.
#![tactic(auto)]

pub mod character;
pub mod letter;
pub mod mode;
pub mod spans;
pub mod word;

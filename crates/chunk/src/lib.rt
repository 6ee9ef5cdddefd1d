// A chunk of a checked job: its spans found and merged, laid out on rows for its clusters, and its row put into the answer.
#![tactic(auto)]

pub mod chunk;
mod find;
mod lengths;
mod merged;
mod pen;
mod place;
pub mod progress;
mod steps;
pub mod sure;
mod tables;

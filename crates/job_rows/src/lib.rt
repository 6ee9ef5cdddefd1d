// The parts of a job by their places in its record: rows read, and how many there are and how many bytes they take.
#![tactic(auto)]

pub mod numbered;
pub mod records;
pub mod rows;
pub mod sizes;

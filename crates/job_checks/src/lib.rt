// Checks 1 to 6 of a job, which refuse its record under the first number that it meets.
#![tactic(auto)]

pub mod check;
pub mod order;
pub mod shape;
pub mod text;
pub mod values;
pub mod walk;

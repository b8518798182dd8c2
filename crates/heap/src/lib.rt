//! An indexed binary heap of numbered records, in memory that is lent to it.

#![tactic(auto)]

pub mod indexed;
pub mod node;
pub mod refusal;
mod rows;
mod sift;
mod steps;

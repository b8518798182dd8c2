//! Buffers of a bounded size, and numbers as text in them.

#![tactic(auto)]

pub mod bytes;
pub mod decimal;

//! Traces: what a recorded run asks of a leveller, one frame to a line.

#![tactic(auto)]

pub mod fault;
pub mod frame;
pub mod input;
pub mod line;
pub mod reader;

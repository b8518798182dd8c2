//! A trace in words: a line for each frame, and one for the fault that ends it.

#![tactic(auto)]

pub mod words;

//! How often each page was written, kept in a heap that has the busiest page first.

#![tactic(auto)]

pub mod counts;

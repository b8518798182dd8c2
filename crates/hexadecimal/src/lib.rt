//! Hexadecimal frames as text: two digits of either case to a byte, and a check byte that makes the sum of all bytes 0.

#![tactic(auto)]

pub mod check;
pub mod text;

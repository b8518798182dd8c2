//! Tests of the chips and of the tools over them, on the emulated chip and on pairs.

#![tactic(auto)]

#[cfg(test)]
mod chips;
#[cfg(test)]
mod known;
pub mod lent;
#[cfg(test)]
mod pairs;
#[cfg(test)]
mod steps;

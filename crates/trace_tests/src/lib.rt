//! Examples of traces, good and faulty.

#![tactic(auto)]

#[cfg(test)]
mod bounds;
#[cfg(test)]
mod frames;
#[cfg(test)]
mod inputs;
#[cfg(test)]
mod lines;

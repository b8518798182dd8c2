//! Tests of the orders, the heap and the ranking, and of structs that hold heaps.

#![tactic(auto)]

#[cfg(test)]
mod heap_tests;
#[cfg(test)]
mod holders;
#[cfg(test)]
mod order_tests;
#[cfg(test)]
mod pools;
#[cfg(test)]
mod ranking_tests;
#[cfg(test)]
mod records;

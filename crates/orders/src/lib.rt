//! Records of blocks and pages, and the orders that rank them.

#![tactic(auto)]

pub mod block;
pub mod block_orders;
pub mod order;
pub mod page;
pub mod page_orders;
pub mod record;
pub mod victim;
pub mod worked;

//! The orders that choose a victim to clean.
ghost use Rattle.std.specs.Prelude.{◌≡◌};
ghost use Rattle.std.proofs.Common.{rules};
ghost use Rattle.orders.specs.Victims.{FullLast};
ghost use Rattle.orders.specs.Figures.{cost_benefit_full_last};

use crate::block::BlockRecord;
use crate::block_orders::{CostBenefit, FewestLive};
use crate::order::Order;

/// An order in which full blocks come last, so that cleaning its first block frees a page
/// wherever cleaning any block does.
pub trait VictimOrder: Order<BlockRecord> {
    /// Whether `a` is the better victim.
    fn better_victim(a: &BlockRecord, b: &BlockRecord) -> bool
        ensures answer { result ≡ Self.Order.before a.now b.now }
        ensures full_last { FullLast Self.Order.before }
    {
        Self::goes_before(a, b)
    }

    ghost full_last: { FullLast Self.Order.before };
}

impl VictimOrder for FewestLive {
    ghost full_last = { Prim.search rules };
}

impl VictimOrder for CostBenefit {
    ghost full_last = { cost_benefit_full_last };
}

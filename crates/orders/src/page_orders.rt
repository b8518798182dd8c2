//! The order of page records.
ghost use Rattle.std.specs.Prelude.{Bool};
ghost use Rattle.orders.specs.Ranks.{busiest};
ghost use Rattle.std.proofs.Common.{rules};

use crate::order::Order;
use crate::page::PageRecord;

/// More writes, then the lower number.
#[derive(Clone, Copy)]
pub struct BusiestPage;

impl Order<PageRecord> for BusiestPage {
    ghost before = { busiest };

    ghost total = { Prim.search rules };

    ghost transitive = { Prim.search rules };

    fn goes_before(a: &PageRecord, b: &PageRecord) -> bool {
        (b.writes, a.number) < (a.writes, b.number)
    }
}

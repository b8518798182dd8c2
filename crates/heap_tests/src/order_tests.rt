use orders::block::BlockRecord;
use orders::block_orders::{CostBenefit, FewestLive, LeastErased};
use orders::order::Order;
use orders::page::PageRecord;
use orders::page_orders::BusiestPage;
use orders::victim::VictimOrder;

// Block 9 with 5 erases against block 1 with none, of 4 pages.
const LATE: BlockRecord = BlockRecord {
    number: 9,
    erases: 5,
    live: 2,
    pages: 4,
    age: 7,
};

const EARLY: BlockRecord = BlockRecord {
    number: 1,
    erases: 0,
    live: 1,
    pages: 4,
    age: 2,
};

#[test]
fn larger_figure_first(rt: HostRuntime) {
    assert!(rt; CostBenefit::goes_before(&LATE, &EARLY));
    assert!(rt; !CostBenefit::goes_before(&EARLY, &LATE));
}

#[test]
fn no_live_pages_above_all(rt: HostRuntime) {
    let none = BlockRecord {
        number: 9,
        erases: 5,
        live: 0,
        pages: 4,
        age: 1,
    };
    let some = BlockRecord {
        number: 1,
        erases: 0,
        live: 1,
        pages: 4,
        age: 100,
    };
    let other = BlockRecord {
        number: 2,
        erases: 6,
        live: 0,
        pages: 4,
        age: 100,
    };
    assert!(rt; CostBenefit::goes_before(&none, &some));
    assert!(rt; !CostBenefit::goes_before(&some, &none));
    assert!(rt; CostBenefit::goes_before(&none, &other));
}

#[test]
fn equal_figures_by_erases_then_number(rt: HostRuntime) {
    let three = BlockRecord {
        number: 9,
        erases: 0,
        live: 2,
        pages: 4,
        age: 6,
    };
    let same = BlockRecord {
        number: 1,
        erases: 5,
        live: 1,
        pages: 4,
        age: 2,
    };
    let lower = BlockRecord {
        number: 3,
        erases: 0,
        live: 1,
        pages: 4,
        age: 2,
    };
    assert!(rt; CostBenefit::goes_before(&three, &same));
    assert!(rt; CostBenefit::goes_before(&lower, &three));
    assert!(rt; !CostBenefit::goes_before(&three, &lower));
}

#[test]
fn largest_values(rt: HostRuntime) {
    let old = BlockRecord {
        number: 65535,
        erases: 4294967295,
        live: 1,
        pages: 64,
        age: 4294967295,
    };
    let young = BlockRecord {
        number: 0,
        erases: 0,
        live: 1,
        pages: 64,
        age: 4294967294,
    };
    let full = BlockRecord {
        number: 0,
        erases: 0,
        live: 64,
        pages: 64,
        age: 4294967295,
    };
    assert!(rt; CostBenefit::goes_before(&old, &young));
    assert!(rt; !CostBenefit::goes_before(&young, &old));
    assert!(rt; CostBenefit::goes_before(&old, &full));
}

#[test]
fn fewest_live_and_least_erased(rt: HostRuntime) {
    assert!(rt; FewestLive::goes_before(&EARLY, &LATE));
    assert!(rt; !FewestLive::goes_before(&LATE, &EARLY));
    assert!(rt; LeastErased::goes_before(&EARLY, &LATE));
    assert!(rt; !LeastErased::goes_before(&LATE, &EARLY));
}

#[test]
fn busiest_page_first(rt: HostRuntime) {
    let busy = PageRecord {
        number: 7,
        writes: 13,
    };
    let calm = PageRecord {
        number: 1,
        writes: 12,
    };
    let tied = PageRecord {
        number: 6,
        writes: 13,
    };
    assert!(rt; BusiestPage::goes_before(&busy, &calm));
    assert!(rt; BusiestPage::goes_before(&tied, &busy));
    assert!(rt; !BusiestPage::goes_before(&busy, &tied));
}

#[test]
fn full_blocks_are_the_last_victims(rt: HostRuntime) {
    let full = BlockRecord {
        number: 0,
        erases: 0,
        live: 4,
        pages: 4,
        age: 1000,
    };
    assert!(rt; FewestLive::better_victim(&LATE, &full));
    assert!(rt; CostBenefit::better_victim(&LATE, &full));
    assert!(rt; !CostBenefit::better_victim(&full, &LATE));
}

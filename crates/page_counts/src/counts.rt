//! Counting writes.
ghost use Rattle.std.specs.Prelude.{◌≡◌};
ghost use Rattle.orders.specs.Ranks.{busiest};
ghost use Rattle.heap.specs.Heaps.{held, Sound};
ghost use Rattle.page_counts.specs.Counts.{Counted};

use heap::indexed::Heap;
use orders::page::PageRecord;
use orders::page_orders::BusiestPage;

/// Counts one write more for the page. A page for which the heap's memory has no place is passed over.
pub fn count_write(counts: &mut Heap<PageRecord, BusiestPage>, page: u16)
    ensures { Sound (λ p. p.number) busiest counts.old → Counted (λ p. p.number) busiest counts.old counts.new page }
{
    let before = counts.get(page).map_or(0, |old| old.writes);
    let record = PageRecord {
        number: page,
        writes: before.saturating_add(1),
    };
    // a page without a record gets one
    if counts.replace(record).is_err() {
        let _ = counts.add(record);
    }
}

//! A free pool and the closed blocks, held by value in one struct over lent nodes.
ghost use Rattle.std.specs.Prelude.{◌≡◌, ℕ, Bool, true, is_some, IfOk, MatchResult};
ghost use Rattle.orders.specs.declared.block.BlockRecord.{BlockRecord};
ghost use Rattle.orders.specs.Ranks.{least_erased};
ghost use Rattle.heap.specs.Heaps.{held, Sound, Empty, Added};
ghost use Rattle.heap_tests.specs.Victims.{Frees};

use heap::indexed::Heap;
use heap::node::Node;
use heap::refusal::HeapRefusal;
use orders::block::BlockRecord;
use orders::block_orders::LeastErased;
use orders::victim::VictimOrder;

/// Blocks that are free, least erased first, and blocks that are closed, best victim first.
#[derive(Drop)]
pub struct Pools<'m, V> {
    pub free: Heap<'m, BlockRecord, LeastErased>,
    pub closed: Heap<'m, BlockRecord, V>,
}

impl<'m, V: VictimOrder> Pools<'m, V> {
    /// No block is free, and none is closed.
    pub fn new(
        free: &'m mut [Node<BlockRecord>],
        closed: &'m mut [Node<BlockRecord>],
        order: V,
    ) -> Pools<'m, V>
        ensures free { Sound (λ b. b.number) least_erased result.free × Empty (held result.free) }
        ensures closed { Sound (λ b. b.number) V.Order.before result.closed × Empty (held result.closed) }
    {
        Pools {
            free: Heap::new(free, LeastErased),
            closed: Heap::new(closed, order),
        }
    }

    /// Adds a free block.
    pub fn offer(&mut self, block: BlockRecord) -> Result<(), HeapRefusal>
        ensures free { Sound (λ b. b.number) least_erased self.old.free → Added (λ b. b.number) least_erased self.old.free self.new.free block result }
        ensures closed { self.new.closed ≡ self.old.closed }
    {
        self.free.add(block)
    }

    /// Closes the free block that is first, and says how many are left.
    pub fn close_first(&mut self) -> Result<usize, HeapRefusal>
        ensures sound { Sound (λ b. b.number) least_erased self.old.free → Sound (λ b. b.number) least_erased self.new.free }
        ensures left { IfOk result (λ left. left ≡ self.new.free.len) }
    {
        let (first, left) = self.free.pop()?;
        self.closed.add(first)?;
        Ok(left)
    }

    /// The best victim goes back to the pool; its number.
    pub fn clean(&mut self) -> Result<u16, HeapRefusal>
        ensures sound { Sound (λ b. b.number) V.Order.before self.old.closed → Sound (λ b. b.number) V.Order.before self.new.closed }
        ensures number { Sound (λ b. b.number) V.Order.before self.old.closed → IfOk result (λ number. is_some (held self.old.closed number) ≡ true) }
    {
        let (victim, _) = self.closed.pop()?;
        self.free.add(victim)?;
        Ok(victim.number)
    }

    /// The best victim. Where a closed block with as many pages has one to give back, so has this.
    pub fn victim(&self) -> Result<BlockRecord, HeapRefusal>
        ensures { Sound (λ b. b.number) V.Order.before self.now.closed → MatchResult result (λ x. Frees (held self.now.closed) x) (λ _. Empty (held self.now.closed)) }
    {
        self.closed.first()
    }
}

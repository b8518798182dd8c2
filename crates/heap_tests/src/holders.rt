//! Structs that hold heaps: over any record and any order, under an order and the same turned round, and over keys of any type.
ghost use Rattle.std.specs.Prelude.{◌≡◌, ℕ, ◌≤◌, Bool, nat_lt, IfOk};
ghost use Rattle.std.proofs.Common.{sym, rules};
ghost use Rattle.heap.specs.Heaps.{held, Sound, Empty, First, Added};

use crate::records::{block, page};
use heap::indexed::Heap;
use heap::node::Node;
use heap::refusal::HeapRefusal;
use orders::block::BlockRecord;
use orders::block_orders::LeastErased;
use orders::order::Order;
use orders::page_orders::BusiestPage;
use orders::record::Numbered;
use std::cmp::Ord;

/// A heap, and the most records that it has had. Its declaration has no bounds: only the calls ask for them.
#[derive(Drop)]
struct Marked<'m, R, O> {
    heap: Heap<'m, R, O>,
    most: usize,
}

impl<'m, R: Numbered + Copy, O: Order<R>> Marked<'m, R, O> {
    fn new(nodes: &'m mut [Node<R>], order: O) -> Marked<'m, R, O>
        ensures sound { Sound R.Numbered.num O.Order.before result.heap }
        ensures empty { Empty (held result.heap) }
    {
        Marked {
            heap: Heap::new(nodes, order),
            most: 0,
        }
    }

    fn add(&mut self, item: R) -> Result<(), HeapRefusal>
        ensures added { Sound R.Numbered.num O.Order.before self.old.heap → Added R.Numbered.num O.Order.before self.old.heap self.new.heap item result }
        ensures most { IfOk result (λ _. self.new.heap.len ≤ self.new.most) }
    {
        self.heap.add(item)?;
        self.most = self.most.max(self.heap.len());
        Ok(())
    }
}

/// The order `O` turned round.
#[derive(Clone, Copy)]
struct Flipped<O> {
    order: O,
}

impl<O: Order<BlockRecord>> Order<BlockRecord> for Flipped<O> {
    ghost before = { λ a b. O.Order.before b a };

    ghost total = { λ a b apart. O.Order.total b a (λ e. apart (sym e)) };

    ghost transitive = { λ a b c ab bc ac p q. O.Order.transitive c b a (λ e. bc (sym e)) (λ e. ab (sym e)) (λ e. ac (sym e)) q p };

    fn goes_before(a: &BlockRecord, b: &BlockRecord) -> bool {
        O::goes_before(b, a)
    }
}

/// The same blocks twice: the first is shown by one heap, the last by the other.
#[derive(Drop)]
struct Ends<'m, O: Order<BlockRecord>> {
    first: Heap<'m, BlockRecord, O>,
    last: Heap<'m, BlockRecord, Flipped<O>>,
}

impl<'m, O: Order<BlockRecord> + Copy> Ends<'m, O> {
    fn new(
        first: &'m mut [Node<BlockRecord>],
        last: &'m mut [Node<BlockRecord>],
        order: O,
    ) -> Ends<'m, O>
        ensures first { Sound (λ b. b.number) O.Order.before result.first }
        ensures last { Sound (λ b. b.number) (λ a b. O.Order.before b a) result.last }
    {
        Ends {
            first: Heap::new(first, order),
            last: Heap::new(last, Flipped { order }),
        }
    }

    fn add(&mut self, block: BlockRecord) -> Result<(), HeapRefusal>
        ensures first { Sound (λ b. b.number) O.Order.before self.old.first → Sound (λ b. b.number) O.Order.before self.new.first }
        ensures last { Sound (λ b. b.number) (λ a b. O.Order.before b a) self.old.last → Sound (λ b. b.number) (λ a b. O.Order.before b a) self.new.last }
    {
        self.first.add(block)?;
        self.last.add(block)
    }

    fn ends(&self) -> Result<(BlockRecord, BlockRecord), HeapRefusal>
        ensures first { Sound (λ b. b.number) O.Order.before self.now.first → IfOk result (λ p. First (λ b. b.number) O.Order.before (held self.now.first) p.0) }
        ensures last { Sound (λ b. b.number) (λ a b. O.Order.before b a) self.now.last → IfOk result (λ p. First (λ b. b.number) (λ a b. O.Order.before b a) (held self.now.last) p.1) }
    {
        Ok((self.first.first()?, self.last.first()?))
    }
}

/// A value of any type behind a number.
#[derive(Clone, Copy, PartialEq, Eq, Debug)]
struct Keyed<T> {
    number: u16,
    what: T,
}

impl<T> Numbered for Keyed<T> {
    ghost num = { λ k. k.number };

    fn number(&self) -> u16 {
        self.number
    }
}

/// The lower number first.
#[derive(Clone, Copy)]
struct Lowest;

impl<T> Order<Keyed<T>> for Lowest {
    ghost before = { λ a b. nat_lt a.number b.number };

    ghost total = { Prim.search rules };

    ghost transitive = { Prim.search rules };

    fn goes_before(a: &Keyed<T>, b: &Keyed<T>) -> bool {
        a.number < b.number
    }
}

/// Values of any type, taken out in an order of their keys.
#[derive(Drop)]
struct Queue<'m, T, O: Order<Keyed<T>>> {
    heap: Heap<'m, Keyed<T>, O>,
}

impl<'m, T: Copy, O: Order<Keyed<T>>> Queue<'m, T, O> {
    fn next(&mut self) -> Result<T, HeapRefusal>
        ensures { Sound (λ k. k.number) O.Order.before self.old.heap → Sound (λ k. k.number) O.Order.before self.new.heap }
    {
        let (first, _) = self.heap.pop()?;
        Ok(first.what)
    }
}

#[test]
fn the_most_records(rt: HostRuntime) {
    let mut nodes = [Node::new(page(0, 0)); 4];
    let mut marked = Marked::new(&mut nodes, BusiestPage);
    assert_eq!(rt; marked.add(page(3, 5)), Ok(()));
    assert_eq!(rt; marked.add(page(1, 8)), Ok(()));
    assert_eq!(rt; marked.add(page(4, 1)), Err(HeapRefusal::NoPlace));
    assert_eq!(rt; marked.heap.pop(), Ok((page(1, 8), 1)));
    assert_eq!(rt; marked.heap.first(), Ok(page(3, 5)));
    assert_eq!(rt; marked.most, 2);
}

#[test]
fn both_ends_of_an_order(rt: HostRuntime) {
    let mut first = [Node::new(block(0, 0, 0)); 4];
    let mut last = [Node::new(block(0, 0, 0)); 4];
    let mut ends = Ends::new(&mut first, &mut last, LeastErased);
    assert_eq!(rt; ends.ends(), Err(HeapRefusal::NotThere));
    assert_eq!(rt; ends.add(block(2, 5, 1)), Ok(()));
    assert_eq!(rt; ends.add(block(0, 9, 2)), Ok(()));
    assert_eq!(rt; ends.add(block(3, 1, 0)), Ok(()));
    assert_eq!(rt; ends.ends(), Ok((block(3, 1, 0), block(0, 9, 2))));
}

#[test]
fn values_of_any_type(rt: HostRuntime) {
    let mut nodes = [Node::new(Keyed {
        number: 0,
        what: false,
    }); 4];
    let mut queue = Queue {
        heap: Heap::new(&mut nodes, Lowest),
    };
    assert_eq!(rt;
        queue.heap.add(Keyed {
            number: 3,
            what: true
        }),
        Ok(())
    );
    assert_eq!(rt;
        queue.heap.add(Keyed {
            number: 1,
            what: false
        }),
        Ok(())
    );
    assert_eq!(rt; queue.next(), Ok(false));
    assert_eq!(rt; queue.next(), Ok(true));
    assert_eq!(rt; queue.next(), Err(HeapRefusal::NotThere));
}

use crate::pools::Pools;
use crate::records::{block, page};
use heap::indexed::Heap;
use heap::node::Node;
use heap::refusal::HeapRefusal;
use orders::block::BlockRecord;
use orders::block_orders::{CostBenefit, FewestLive, LeastErased};
use orders::order::Order;
use orders::page::PageRecord;
use orders::page_orders::BusiestPage;
use orders::record::Numbered;

#[test]
fn refusals_have_their_numbers(rt: HostRuntime) {
    assert_eq!(rt; HeapRefusal::NoPlace.number(), 16);
    assert_eq!(rt; HeapRefusal::NotThere.number(), 17);
}

#[test]
fn no_memory_holds_nothing(rt: HostRuntime) {
    let mut nodes: [Node<PageRecord>; 0] = [];
    let mut heap = Heap::new(&mut nodes, BusiestPage);
    assert_eq!(rt; heap.add(page(0, 1)), Err(HeapRefusal::NoPlace));
    assert_eq!(rt; heap.first(), Err(HeapRefusal::NotThere));
    assert_eq!(rt; heap.pop(), Err(HeapRefusal::NotThere));
    assert_eq!(rt; heap.len(), 0);
}

#[test]
fn memory_for_one(rt: HostRuntime) {
    let mut nodes = [Node::new(page(3, 3)); 1];
    let mut heap = Heap::new(&mut nodes, BusiestPage);
    assert_eq!(rt; heap.contains(0), false);
    assert_eq!(rt; heap.add(page(1, 5)), Err(HeapRefusal::NoPlace));
    assert_eq!(rt; heap.add(page(0, 5)), Ok(()));
    assert_eq!(rt; heap.add(page(0, 6)), Err(HeapRefusal::NoPlace));
    assert_eq!(rt; heap.get(0), Some(page(0, 5)));
    assert_eq!(rt; heap.pop(), Ok((page(0, 5), 0)));
    assert_eq!(rt; heap.get(0), None);
}

#[test]
fn pops_the_busiest_first(rt: HostRuntime) {
    let mut nodes = [Node::new(page(0, 0)); 4];
    let mut heap = Heap::new(&mut nodes, BusiestPage);
    assert_eq!(rt; heap.add(page(2, 7)), Ok(()));
    assert_eq!(rt; heap.add(page(0, 9)), Ok(()));
    assert_eq!(rt; heap.add(page(3, 9)), Ok(()));
    assert_eq!(rt; heap.first(), Ok(page(0, 9)));
    assert_eq!(rt; heap.pop(), Ok((page(0, 9), 2)));
    assert_eq!(rt; heap.pop(), Ok((page(3, 9), 1)));
    assert_eq!(rt; heap.pop(), Ok((page(2, 7), 0)));
    assert_eq!(rt; heap.pop(), Err(HeapRefusal::NotThere));
}

#[test]
fn replaces_up_and_down(rt: HostRuntime) {
    let mut nodes = [Node::new(page(0, 0)); 4];
    let mut heap = Heap::new(&mut nodes, BusiestPage);
    assert_eq!(rt; heap.add(page(0, 1)), Ok(()));
    assert_eq!(rt; heap.add(page(1, 2)), Ok(()));
    assert_eq!(rt; heap.add(page(2, 3)), Ok(()));
    assert_eq!(rt; heap.replace(page(0, 4)), Ok(page(0, 1)));
    assert_eq!(rt; heap.first(), Ok(page(0, 4)));
    assert_eq!(rt; heap.replace(page(0, 0)), Ok(page(0, 4)));
    assert_eq!(rt; heap.first(), Ok(page(2, 3)));
    assert_eq!(rt; heap.replace(page(3, 5)), Err(HeapRefusal::NotThere));
    assert_eq!(rt; heap.len(), 3);
}

#[test]
fn removes_in_the_middle(rt: HostRuntime) {
    let mut nodes = [Node::new(page(0, 0)); 8];
    let mut heap = Heap::new(&mut nodes, BusiestPage);
    for n in 0..8u16 {
        assert_eq!(rt; heap.add(page(n, 10 + u64::from(n))), Ok(()));
    }
    assert_eq!(rt; heap.remove(6), Ok(page(6, 16)));
    assert_eq!(rt; heap.remove(6), Err(HeapRefusal::NotThere));
    assert_eq!(rt; heap.remove(0), Ok(page(0, 10)));
    assert_eq!(rt; heap.contains(5), true);
    assert_eq!(rt; heap.pop(), Ok((page(7, 17), 5)));
    assert_eq!(rt; heap.pop(), Ok((page(5, 15), 4)));
    assert_eq!(rt; heap.pop(), Ok((page(4, 14), 3)));
}

#[test]
fn memory_in_use_before_does_not_matter(rt: HostRuntime) {
    let mut nodes = [Node::new(page(0, 0)); 2];
    let mut used = Heap::new(&mut nodes, BusiestPage);
    assert_eq!(rt; used.add(page(1, 8)), Ok(()));
    assert_eq!(rt; used.add(page(0, 9)), Ok(()));
    drop(used);
    let mut heap = Heap::new(&mut nodes, BusiestPage);
    assert_eq!(rt; heap.contains(0), false);
    assert_eq!(rt; heap.contains(1), false);
    assert_eq!(rt; heap.add(page(1, 2)), Ok(()));
    assert_eq!(rt; heap.pop(), Ok((page(1, 2), 0)));
}

/// What comes of adding two blocks to a heap in an order, and the block that is first then.
fn first_of<O: Order<BlockRecord> + Drop>(
    nodes: &mut [Node<BlockRecord>],
    order: O,
    one: BlockRecord,
    other: BlockRecord,
) -> Result<BlockRecord, HeapRefusal> {
    let mut heap = Heap::new(nodes, order);
    heap.add(one)?;
    heap.add(other)?;
    heap.first()
}

// One memory serves the three heaps, one after another.
#[test]
fn blocks_by_each_order(rt: HostRuntime) {
    let young = block(0, 1, 3);
    let worn = block(1, 9, 1);
    let mut nodes = [Node::new(young); 2];
    assert_eq!(rt; first_of(&mut nodes, LeastErased, young, worn), Ok(young));
    assert_eq!(rt; first_of(&mut nodes, FewestLive, young, worn), Ok(worn));
    assert_eq!(rt; first_of(&mut nodes, CostBenefit, young, worn), Ok(worn));
}

#[test]
fn two_heaps_in_one_struct(rt: HostRuntime) {
    let mut free = [Node::new(block(0, 0, 0)); 4];
    let mut closed = [Node::new(block(0, 0, 0)); 4];
    let mut pools = Pools::new(&mut free, &mut closed, FewestLive);
    assert_eq!(rt; pools.offer(block(2, 1, 0)), Ok(()));
    assert_eq!(rt; pools.offer(block(3, 0, 2)), Ok(()));
    assert_eq!(rt; pools.close_first(), Ok(1));
    assert_eq!(rt; pools.close_first(), Ok(0));
    assert_eq!(rt; pools.close_first(), Err(HeapRefusal::NotThere));
    assert_eq!(rt; pools.victim(), Ok(block(2, 1, 0)));
    assert_eq!(rt; pools.clean(), Ok(2));
}

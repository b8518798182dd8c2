use crate::records::page;
use heap::indexed::Heap;
use heap::node::Node;
use heap::refusal::HeapRefusal;
use orders::page_orders::BusiestPage;
use ranking::{drain_ranked, leaders};
use std::test::Fail;

#[test]
fn drains_in_order(rt: HostRuntime) -> Result<(), Fail> {
    let mut nodes = [Node::new(page(0, 0)); 4];
    let mut heap = Heap::new(&mut nodes, BusiestPage);
    assert_eq!(rt; heap.add(page(0, 1)), Ok(()));
    assert_eq!(rt; heap.add(page(3, 13)), Ok(()));
    assert_eq!(rt; heap.add(page(2, 1)), Ok(()));
    let ranked = drain_ranked(&mut heap, rt.alloc())?;
    assert_eq!(rt;
        ranked.as_slice(),
        [page(3, 13), page(0, 1), page(2, 1)].as_slice()
    );
    assert_eq!(rt; heap.len(), 0);
    Ok(())
}

#[test]
fn leaders_stop_at_the_most(rt: HostRuntime) -> Result<(), Fail> {
    let mut nodes = [Node::new(page(0, 0)); 16];
    let mut heap = Heap::new(&mut nodes, BusiestPage);
    for n in 0..12u16 {
        assert_eq!(rt; heap.add(page(n, u64::from(n) / 2)), Ok(()));
    }
    let busiest = leaders(&mut heap, 8, rt.alloc())?;
    assert!(rt; busiest.len() == 8);
    assert_eq!(rt; busiest[0], page(10, 5));
    assert_eq!(rt; busiest[1], page(11, 5));
    assert_eq!(rt; busiest[7], page(5, 2));
    assert_eq!(rt; heap.len(), 4);
    assert_eq!(rt; heap.first(), Ok(page(2, 1)));
    Ok(())
}

#[test]
fn leaders_of_an_empty_heap(rt: HostRuntime) -> Result<(), Fail> {
    let mut nodes = [Node::new(page(0, 0)); 1];
    let mut heap = Heap::new(&mut nodes, BusiestPage);
    assert_eq!(rt; leaders(&mut heap, 8, rt.alloc())?.len(), 0);
    assert_eq!(rt; heap.pop(), Err(HeapRefusal::NotThere));
    Ok(())
}

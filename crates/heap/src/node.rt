//! The memory of a heap.
ghost use Rattle.std.specs.Prelude.{◌≡◌};

/// One node of a heap's memory. Node `i` has the record of the number `i`, that number's place in the
/// tree, and the number that stands at the place `i`.
#[derive(Clone, Copy)]
pub struct Node<R> {
    pub(crate) record: R,
    pub(crate) place: usize,
    pub(crate) named: usize,
}

impl<R> Node<R> {
    /// A node to hand to a new heap. What it holds does not matter there.
    pub fn new(item: R) -> Node<R>
        ensures { (result.record ≡ item) × (result.place ≡ 0) × (result.named ≡ 0) }
    {
        Node {
            record: item,
            place: 0,
            named: 0,
        }
    }
}

//! Why a heap refuses.
ghost use Rattle.std.specs.Prelude.{◌≡◌};
ghost use Rattle.heap.specs.Refusals.{number_of};

/// Why a heap refuses a call.
#[derive(Clone, Copy, PartialEq, Eq, Debug)]
pub enum HeapRefusal {
    /// An added number is in the heap already, or is not below the number of records that the memory holds.
    NoPlace = 16,
    /// A number is not in the heap, or the heap is empty where its first is asked for.
    NotThere = 17,
}

impl HeapRefusal {
    /// The refusal's number.
    pub fn number(self) -> u8
        ensures { result ≡ number_of self }
    {
        // one trait for all refusals would need a crate below all five, and hold this line
        self as u8
    }
}

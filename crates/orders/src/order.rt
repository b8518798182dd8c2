//! What an order of records is.
ghost use Rattle.std.specs.Prelude.{◌≡◌, Bool};
ghost use Rattle.orders.specs.Laws.{Total, Transitive};

use crate::record::Numbered;

/// An order: `before a b` says whether `a` goes before `b`, by the two records alone.
/// Nothing is owed of two records with the same number.
pub trait Order<R: Numbered> {
    ghost before: { R → R → Bool };

    /// Whether `a` goes before `b`.
    fn goes_before(a: &R, b: &R) -> bool
        ensures { result ≡ before a.now b.now };

    ghost total: { Total R.Numbered.num before };

    ghost transitive: { Transitive R.Numbered.num before };
}

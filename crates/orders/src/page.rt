//! The record of a page.
ghost use Rattle.std.specs.Prelude.{ℕ};

use crate::record::Numbered;

/// How often one logical page was written.
#[derive(Clone, Copy, PartialEq, Eq, Debug)]
pub struct PageRecord {
    pub number: u16,
    pub writes: u64,
}

impl Numbered for PageRecord {
    ghost num = { λ p. p.number };

    fn number(&self) -> u16 {
        self.number
    }
}

//! The record of a block.
ghost use Rattle.std.specs.Prelude.{ℕ, ◌≤◌};

use crate::record::Numbered;

/// What is known of one block: `live` of its `pages` hold live data, and `age` says for how many
/// rounds nothing was written into it. Its bounds hold of every value.
#[derive(Clone, Copy, PartialEq, Eq, Debug)]
pub struct BlockRecord {
    pub number: u16,
    pub erases: u32,
    pub live: u8,
    pub pages: u8,
    pub age: u32,
    ghost live_few: { live ≤ pages },
    ghost pages_some: { 1 ≤ pages },
    ghost pages_few: { pages ≤ 64 },
    ghost age_some: { 1 ≤ age },
}

impl Numbered for BlockRecord {
    ghost num = { λ b. b.number };

    fn number(&self) -> u16 {
        self.number
    }
}

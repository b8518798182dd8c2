//! The leveller's rules: the words of its tables and answers, and promises about the rules themselves.
//!
//! What start, write, read and discard do is defined in this crate's `specs/`, by definitions that compute.
//! The functions here carry facts about those definitions into the check.

#![tactic(auto)]

ghost use Rattle.std.specs.Prelude.{◌≡◌};
ghost use Rattle.rules.specs.Refusals.{number_of};

pub mod laws;
pub mod worked;

/// What a leveller is started with: block sets of 2^k neighbouring blocks, T erases to a flag before
/// levelling moves on, and L logical pages.
#[derive(Clone, Copy, PartialEq, Eq, Debug)]
pub struct Settings {
    pub k: u8,
    pub threshold: u16,
    pub logical: u16,
}

/// Where a page lies: a block, and a page of that block.
#[derive(Clone, Copy, PartialEq, Eq, Debug)]
pub struct Place {
    pub block: u16,
    pub page: u8,
}

/// What a block is used for.
#[derive(Clone, Copy, PartialEq, Eq, Debug)]
pub enum Use {
    /// Blank, and in the free pool.
    Free,
    /// The block that takes the next pages; there is at most one.
    Open,
    /// It holds pages and takes no more.
    Closed,
}

/// What a write did beside storing its page: erases, and live pages copied to another block.
#[derive(Clone, Copy, PartialEq, Eq, Debug)]
pub struct Written {
    pub erases: u32,
    pub copied: u32,
}

/// Why a leveller refuses a call. A refusal leaves leveller, chip and buffer as they were.
#[derive(Clone, Copy, PartialEq, Eq, Debug)]
pub enum Refusal {
    /// A start of a leveller that is started.
    AlreadyStarted = 1,
    /// The chip has more or fewer blocks, pages, bytes or rated erases than are served.
    OutsideLimits = 2,
    /// 2^k is too large for a block set, or the block sets do not make up the chip.
    UnevenSets = 3,
    /// T is 0 or too large.
    WrongThreshold = 4,
    /// L is 0, or the chip has too little room for that many logical pages.
    WrongLogical = 5,
    /// The chip has a written page.
    NotBlank = 6,
    /// A call of a leveller that is not started.
    NotStarted = 7,
    /// The page is not below L.
    NoSuchPage = 8,
    /// The bytes or the buffer are not D long.
    WrongLength = 9,
    /// A write while some block was erased as often as it is rated for.
    WornOut = 10,
    /// A read or discard of a page that holds nothing.
    Empty = 11,
}

impl Refusal {
    /// The number by which the refusal is reported, 1 to 11.
    pub fn number(self) -> u8
        ensures { result ≡ number_of self }
    {
        // one trait for all refusals would need a crate below all five, and hold this line
        self as u8
    }
}

//! A raw flash chip as a trait, and tools that work on any chip.
//!
//! What a chip holds is its ghost `meaning`: N blocks of P pages of D bytes, each block rated for E erases. Every
//! contract below names the one outcome of its call for all arguments, by equations over that meaning.

#![tactic(auto)]

ghost use Rattle.std.specs.Prelude.{◌≡◌, List, [], ◌∷◌, length, Some, MatchResult};
ghost use Rattle.flash.specs.Limits.{within};
ghost use Rattle.flash.specs.Refusals.{number_of, words_of};
ghost use Rattle.flash.specs.Meaning.{Flash, Op, program as programs, erase as erases, page_of, geometry_of, no_geometry, Lawful};
ghost use Rattle.flash.specs.Calls.{count_answer, written_answer, tag_answer, read_answer, read_buffer, program_answer, program_chip, erase_answer, erase_chip};

use std::error::Error;
use std::fmt;

pub mod tools;

/// The fewest blocks of a chip that is served.
pub const MIN_BLOCKS: u16 = 2;
/// The most blocks of a chip that is served.
pub const MAX_BLOCKS: u16 = 256;
/// The most pages of a block that is served; the fewest is 1.
pub const MAX_PAGES: u32 = 64;
/// The most bytes of a page that is served; the fewest is 1.
pub const MAX_SIZE: usize = 512;
/// The most erases that a block is rated for; the fewest is 1.
pub const MAX_RATED: u32 = 1_000_000;

/// The four numbers of a chip: N blocks of P pages of D bytes, each block rated for E erases.
#[derive(Clone, Copy, PartialEq, Eq, Debug, Default)]
pub struct Geometry {
    pub blocks: u16,
    pub pages: u32,
    pub size: usize,
    pub rated: u32,
}

impl Geometry {
    /// The geometry of a chip that is not there. Not an `Option`: by the rules of a chip, N, P, D and E are then all 0.
    pub fn none() -> Geometry
        ensures { result ≡ no_geometry }
    {
        Geometry::default()
    }

    /// Whether all four numbers lie within the limits above.
    pub fn within_limits(&self) -> bool
        ensures { result ≡ within self.now }
    {
        (MIN_BLOCKS..=MAX_BLOCKS).contains(&self.blocks)
            && (1..=MAX_PAGES).contains(&self.pages)
            && (1..=MAX_SIZE).contains(&self.size)
            && (1..=MAX_RATED).contains(&self.rated)
    }
}

/// Why a chip refuses a call. A refusal leaves the chip and every buffer as they were.
#[derive(Clone, Copy, PartialEq, Eq, Debug)]
pub enum Refusal {
    /// The block is not below N, or the page not below P.
    Outside = 12,
    /// A page programmed out of turn, or an unwritten page read or asked for its tag.
    OutOfTurn = 13,
    /// Bytes or a buffer that are not D long.
    WrongLength = 14,
    /// An erase of a block whose count is E.
    WornOut = 15,
}

impl Refusal {
    /// The number by which the refusal is reported, 12 to 15.
    pub fn number(self) -> u8
        ensures { result ≡ number_of self }
    {
        // one trait for all refusals would need a crate below all five, and hold this line
        self as u8
    }
}

impl fmt::Display for Refusal {
    ghost output = { λ refusal. Some (words_of refusal) };

    fn fmt<W: fmt::Write>(&self, f: &mut fmt::Formatter<W>) -> fmt::Result {
        match self {
            Refusal::Outside => f.write_str("no such block or page"),
            Refusal::OutOfTurn => f.write_str("a page out of turn or unwritten"),
            Refusal::WrongLength => f.write_str("not as long as a page"),
            Refusal::WornOut => f.write_str("the block is worn out"),
        }
    }
}

impl Error for Refusal {}

/// A flash chip. Refusals are tried in rising number.
pub trait Chip {
    /// What the chip holds.
    ghost meaning: { Self → Flash };

    /// Which operations, in which order, led from one state of the chip to another.
    ghost ran: { Self → List Op → Self → Type 0 };

    /// What each chip shows of the two: the meaning is well formed, and follows the operations.
    ghost laws: { Lawful meaning ran };

    /// N, P, D and E.
    fn geometry(&self) -> Geometry
        ensures { result ≡ geometry_of (meaning self.now) };

    /// N, the number of blocks.
    fn blocks(&self) -> u16
        ensures { result ≡ length (meaning self.now).blocks }
    {
        self.geometry().blocks
    }

    /// P, the pages of a block.
    fn pages(&self) -> u32
        ensures { result ≡ (meaning self.now).p }
    {
        self.geometry().pages
    }

    /// D, the bytes of a page.
    fn page_size(&self) -> usize
        ensures { result ≡ (meaning self.now).d }
    {
        self.geometry().size
    }

    /// E, the erases that a block is rated for.
    fn rated(&self) -> u32
        ensures { result ≡ (meaning self.now).e }
    {
        self.geometry().rated
    }

    /// How often the block was erased.
    fn count(&self, block: u16) -> Result<u32, Refusal>
        ensures { result ≡ count_answer (meaning self.now) block };

    /// How many pages of the block are written.
    fn written(&self, block: u16) -> Result<u32, Refusal>
        ensures { result ≡ written_answer (meaning self.now) block };

    /// The tag of a written page. Block and page are two arguments here and below: a block goes alone in as many calls, and
    /// in a copy without its page.
    fn tag(&self, block: u16, page: u32) -> Result<u16, Refusal>
        ensures { result ≡ tag_answer (meaning self.now) block page };

    /// Copies a written page's bytes into the buffer.
    fn read(&self, block: u16, page: u32, buf: &mut [u8]) -> Result<(), Refusal>
        ensures answer { result ≡ read_answer (meaning self.now) block page (length buf.old) }
        ensures buffer { buf.new ≡ read_buffer (meaning self.now) block page buf.old };

    /// Programs the block's next unwritten page, which has to be `page`.
    fn program(&mut self, block: u16, page: u32, tag: u16, bytes: &[u8]) -> Result<(), Refusal>
        ensures answer { result ≡ program_answer (meaning self.old) block page (length bytes.now) }
        ensures chip { meaning self.new ≡ program_chip (meaning self.old) block page (page_of tag bytes.now) }
        ensures order { MatchResult result (λ _. ran self.old (programs block (page_of tag bytes.now) ∷ []) self.new) (λ _. self.new ≡ self.old) };

    /// Empties the block and adds 1 to its count.
    fn erase(&mut self, block: u16) -> Result<(), Refusal>
        ensures answer { result ≡ erase_answer (meaning self.old) block }
        ensures chip { meaning self.new ≡ erase_chip (meaning self.old) block }
        ensures order { MatchResult result (λ _. ran self.old (erases block ∷ []) self.new) (λ _. self.new ≡ self.old) };
}

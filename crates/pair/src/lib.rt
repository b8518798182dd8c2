//! Two chips as one. A pair holds its chips by value, so pairs of pairs are chips as well.

#![tactic(auto)]

ghost use Rattle.std.specs.Prelude.{◌≡◌};
ghost use Rattle.flash.specs.Meaning.{ByMeaning, lawful_by_meaning, geometry_of};
ghost use Rattle.pair.specs.Joined.{joins, joined, half_of};
ghost use Rattle.pair.specs.Laws.{joined_formed};

use flash::{Chip, Geometry, Refusal};

/// The most blocks that a chip can have.
const MOST_BLOCKS: u32 = 65_535;

/// Two chips as one: the first's blocks, then the second's, with their common P, D and E. Where these differ, or the
/// blocks are more than 65,535, N, P, D and E of the pair are all 0.
#[derive(Drop)]
pub struct Pair<A, B> {
    first: A,
    second: B,
}

/// Which of two chips has a block, and the block's number there. Each call matches on it: one function that takes a closure for
/// either chip is no shorter, and calls that change the chip need a second one.
enum Half {
    First(u16),
    Second(u16),
}

impl<A: Chip, B: Chip> Pair<A, B> {
    /// The pair of two chips.
    pub fn new(first: A, second: B) -> Pair<A, B>
        ensures first { result.first ≡ first }
        ensures second { result.second ≡ second }
        ensures chip { joined (A.Chip.meaning result.first) (B.Chip.meaning result.second) ≡ joined (A.Chip.meaning first) (B.Chip.meaning second) }
    {
        Pair { first, second }
    }

    /// The half that has a block; every block is outside where the two do not join.
    fn half(&self, block: u16) -> Result<Half, Refusal>
        ensures { result ≡ half_of (geometry_of (A.Chip.meaning self.now.first)) (geometry_of (B.Chip.meaning self.now.second)) block }
    {
        let a = self.first.geometry();
        let b = self.second.geometry();
        if !joins(&a, &b) {
            return Err(Refusal::Outside);
        }
        if block < a.blocks {
            Ok(Half::First(block))
        } else {
            Ok(Half::Second(block - a.blocks))
        }
    }
}

impl<A, B> Pair<A, B> {
    /// The first chip, lent to look at. What its type tells a caller that is lent one can be asked of it.
    pub fn first(&self) -> &A
        ensures { result.now ≡ self.now.first }
    {
        &self.first
    }

    /// The second chip, lent to look at.
    pub fn second(&self) -> &B
        ensures { result.now ≡ self.now.second }
    {
        &self.second
    }
}

/// Whether two chips have the same P, D and E, and not too many blocks together.
fn joins(a: &Geometry, b: &Geometry) -> bool
    ensures { result ≡ joins a.now b.now }
{
    a.pages == b.pages
        && a.size == b.size
        && a.rated == b.rated
        && u32::from(a.blocks) + u32::from(b.blocks) <= MOST_BLOCKS
}

impl<A: Chip, B: Chip> Chip for Pair<A, B> {
    ghost meaning = { λ s. joined (A.Chip.meaning s.first) (B.Chip.meaning s.second) };

    ghost ran = { ByMeaning (λ s. joined (A.Chip.meaning s.first) (B.Chip.meaning s.second)) };

    ghost laws = { lawful_by_meaning (λ s. joined (A.Chip.meaning s.first) (B.Chip.meaning s.second)) (λ s. joined_formed (A.Chip.meaning s.first) (B.Chip.meaning s.second) (A.Chip.laws.formed s.first) (B.Chip.laws.formed s.second)) };

    fn geometry(&self) -> Geometry {
        // as in `half`: an option of both geometries would need a definition of its own, and save two lines
        let a = self.first.geometry();
        let b = self.second.geometry();
        if joins(&a, &b) {
            Geometry {
                blocks: a.blocks + b.blocks,
                ..a
            }
        } else {
            Geometry::none()
        }
    }

    fn count(&self, block: u16) -> Result<u32, Refusal> {
        match self.half(block)? {
            Half::First(block) => self.first.count(block),
            Half::Second(block) => self.second.count(block),
        }
    }

    fn written(&self, block: u16) -> Result<u32, Refusal> {
        match self.half(block)? {
            Half::First(block) => self.first.written(block),
            Half::Second(block) => self.second.written(block),
        }
    }

    fn tag(&self, block: u16, page: u32) -> Result<u16, Refusal> {
        match self.half(block)? {
            Half::First(block) => self.first.tag(block, page),
            Half::Second(block) => self.second.tag(block, page),
        }
    }

    fn read(&self, block: u16, page: u32, buf: &mut [u8]) -> Result<(), Refusal> {
        match self.half(block)? {
            Half::First(block) => self.first.read(block, page, buf),
            Half::Second(block) => self.second.read(block, page, buf),
        }
    }

    fn program(&mut self, block: u16, page: u32, tag: u16, bytes: &[u8]) -> Result<(), Refusal> {
        match self.half(block)? {
            Half::First(block) => self.first.program(block, page, tag, bytes),
            Half::Second(block) => self.second.program(block, page, tag, bytes),
        }
    }

    fn erase(&mut self, block: u16) -> Result<(), Refusal> {
        match self.half(block)? {
            Half::First(block) => self.first.erase(block),
            Half::Second(block) => self.second.erase(block),
        }
    }
}

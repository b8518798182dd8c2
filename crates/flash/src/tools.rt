//! Tools over any chip. Each tests all that could refuse it before it touches the chip or the buffer.
ghost use Rattle.std.specs.Prelude.{◌≡◌, List, [], ◌∷◌, length, MatchResult};
ghost use Rattle.flash.specs.Meaning.{program as programs, page as held};
ghost use Rattle.flash.specs.Tools.{copy_answer, copy_chip, copy_buffer, moves, relocation, relocate_answer, relocate_chip, relocate_buffer};

use crate::{Chip, Refusal};

/// Copies a written page, its tag and its bytes, to the next unwritten page of the block `to`, through the buffer.
pub fn copy_page<C: Chip>(
    chip: &mut C,
    block: u16,
    page: u32,
    to: u16,
    buf: &mut [u8],
) -> Result<(), Refusal>
    ensures answer { result ≡ copy_answer (C.meaning chip.old) block page to (length buf.old) }
    ensures chip { C.meaning chip.new ≡ copy_chip (C.meaning chip.old) block page to (length buf.old) }
    ensures buffer { buf.new ≡ copy_buffer (C.meaning chip.old) block page to buf.old }
    ensures order { MatchResult result (λ _. C.ran chip.old (programs to (held (C.meaning chip.old) block page) ∷ []) chip.new) (λ _. chip.new ≡ chip.old) }
{
    let next = chip.written(to)?;
    if next >= chip.pages() {
        return Err(Refusal::Outside);
    }
    let tag = chip.tag(block, page)?;
    chip.read(block, page, buf)?;
    chip.program(to, next, tag, buf)
}

/// How many pages moving `block` into the blank block `to` copies, or why it is refused.
fn pages_to_move<C: Chip>(chip: &C, block: u16, to: u16, len: usize) -> Result<u32, Refusal>
    ensures { result ≡ relocation (C.meaning chip.now) block to len }
{
    let pages = chip.written(block)?;
    if chip.written(to)? != 0 {
        return Err(Refusal::OutOfTurn);
    }
    if len != chip.page_size() {
        return Err(Refusal::WrongLength);
    }
    if chip.count(block)? >= chip.rated() {
        return Err(Refusal::WornOut);
    }
    Ok(pages)
}

/// Moves a block into the blank block `to`: copies its pages in rising order, then erases it.
pub fn relocate<C: Chip>(chip: &mut C, block: u16, to: u16, buf: &mut [u8]) -> Result<(), Refusal>
    ensures answer { result ≡ relocate_answer (C.meaning chip.old) block to (length buf.old) }
    ensures chip { C.meaning chip.new ≡ relocate_chip (C.meaning chip.old) block to (length buf.old) }
    ensures buffer { buf.new ≡ relocate_buffer (C.meaning chip.old) block to buf.old }
    ensures order { MatchResult result (λ _. C.ran chip.old (moves (C.meaning chip.old) block to) chip.new) (λ _. chip.new ≡ chip.old) }
{
    let pages = pages_to_move(chip, block, to, buf.len())?;
    for page in 0..pages {
        copy_page(chip, block, page, to, buf)?;
    }
    chip.erase(block)
}

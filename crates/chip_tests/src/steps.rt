//! Calls and what comes of them, as tables.
use flash::tools::{copy_page, relocate};
use flash::{Chip, Refusal};
use std::process::Abort;

/// A call with its arguments: the block first, then the page. `len` bytes are handed in, or a buffer of that length, at most eight.
/// A value and not a closure: a row of closures is longer than the call that it names, and its type names the chip.
#[derive(Clone, Copy)]
pub enum Call {
    Count(u16),
    Written(u16),
    Tag(u16, u32),
    /// `len`
    Read(u16, u32, usize),
    /// A tag, the first of the bytes, of which each next one is larger by 1, and `len`.
    Program(u16, u32, u16, u8, usize),
    Erase(u16),
    /// To a block, through a buffer of `len`.
    Copy(u16, u32, u16, usize),
    /// To a block, through a buffer of `len`.
    Move(u16, u16, usize),
}

/// What an obeyed call told.
#[derive(Clone, Copy, PartialEq, Eq, Debug)]
pub enum Told {
    Done,
    Is(u32),
    /// The buffer holds bytes from this one on, each next one larger by 1.
    Holds(u8),
    /// The buffer holds anything else, or a refused call wrote to it. No row asks for it; `Err` is the chip's own refusal.
    Spoilt,
}

/// What came of a call; a refused one left its buffer as it was.
pub type Outcome = Result<Told, Refusal>;

/// What a buffer holds before a call.
const UNTOUCHED: u8 = 9;

/// Eight bytes, each one larger by 1 than the one before.
fn rising(first: u8) -> [u8; 8] {
    [0, 1, 2, 3, 4, 5, 6, 7].map(|i| first.wrapping_add(i))
}

/// The outcome of a call that is to fill a buffer of `len`.
fn filled<F: FnOnce(&mut [u8]) -> Result<(), Refusal>>(len: usize, call: F) -> Outcome
    requires { F.IsAlwaysCallable call }
{
    let mut memory = [UNTOUCHED; 8];
    let len = len.min(8);
    let answer = call(&mut memory[..len]);
    let (buf, past) = memory.split_at(len);
    let first = buf.first().copied().unwrap_or(UNTOUCHED);
    let right = match answer {
        Ok(()) => rising(first).starts_with(buf),
        Err(_) => buf.iter().all(|byte| *byte == UNTOUCHED),
    };
    if right && past.iter().all(|byte| *byte == UNTOUCHED) {
        answer.map(|()| Told::Holds(first))
    } else {
        Ok(Told::Spoilt)
    }
}

fn answer_to<C: Chip>(chip: &mut C, call: Call) -> Outcome {
    match call {
        Call::Count(block) => chip.count(block).map(Told::Is),
        Call::Written(block) => chip.written(block).map(Told::Is),
        Call::Tag(block, page) => chip.tag(block, page).map(|tag| Told::Is(u32::from(tag))),
        Call::Read(block, page, len) => filled(len, |buf| chip.read(block, page, buf)),
        Call::Program(block, page, tag, first, len) => {
            let bytes = rising(first);
            let answer = chip.program(block, page, tag, &bytes[..len.min(8)]);
            answer.map(|()| Told::Done)
        }
        Call::Erase(block) => chip.erase(block).map(|()| Told::Done),
        Call::Copy(block, page, to, len) => {
            filled(len, |buf| copy_page(chip, block, page, to, buf))
        }
        Call::Move(block, to, len) => filled(len, |buf| relocate(chip, block, to, buf)),
    }
}

/// Makes the calls of a table in turn, and compares what comes of each.
pub fn run<C: Chip>(rt: &impl Abort, chip: &mut C, table: &[(Call, Outcome)]) {
    for (call, outcome) in table {
        assert_eq!(rt; answer_to(chip, *call), *outcome);
    }
}

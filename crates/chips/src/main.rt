//! A short exercise on an emulated chip and on a pair of two: each action, and its answer or the number of its refusal.

#![tactic(auto)]

use emulated::Emulated;
use flash::tools::{copy_page, relocate};
use flash::{Chip, Geometry, Refusal};
use pair::Pair;
use std::io;

/// Two blocks of two pages of four bytes, rated for two erases.
const SMALL: Geometry = Geometry {
    blocks: 2,
    pages: 2,
    size: 4,
    rated: 2,
};

/// A chip that is exercised, and where its answers are printed.
#[derive(Drop)]
struct Exercise<'a, C> {
    rt: &'a HostRuntime,
    chip: &'a mut C,
}

impl<C: Chip> Exercise<'_, C> {
    /// Ends the line of an action by its outcome.
    fn outcome(&self, answer: Result<(), Refusal>) -> io::Result<()> {
        match answer {
            Ok(()) => println!(self.rt; "done"),
            Err(refusal) => {
                let number = refusal.number();
                println!(self.rt; "refused by {number}, {refusal}")
            }
        }
    }

    fn program(&mut self, block: u16, page: u32, tag: u16, bytes: &[u8]) -> io::Result<()> {
        print!(self.rt; "program block {block} page {page} with tag {tag}: ")?;
        let answer = self.chip.program(block, page, tag, bytes);
        self.outcome(answer)
    }

    /// Reads a page into a buffer of `len` bytes, at most eight, and shows its tag and bytes.
    fn read(&self, block: u16, page: u32, len: usize) -> io::Result<()> {
        print!(self.rt; "read block {block} page {page} into {len} bytes: ")?;
        let mut memory = [0u8; 8];
        let buf = &mut memory[..len.min(8)];
        let answer = self.chip.read(block, page, buf);
        match answer.and_then(|()| self.chip.tag(block, page)) {
            Ok(tag) => println!(self.rt; "tag {tag}, bytes {buf:?}"),
            Err(refusal) => self.outcome(Err(refusal)),
        }
    }

    fn erase(&mut self, block: u16) -> io::Result<()> {
        print!(self.rt; "erase block {block}: ")?;
        let answer = self.chip.erase(block);
        self.outcome(answer)
    }

    /// How often a block was erased, and how many of its pages are written.
    fn held(&self, block: u16) -> Result<(u32, u32), Refusal> {
        Ok((self.chip.count(block)?, self.chip.written(block)?))
    }

    fn ask(&self, block: u16) -> io::Result<()> {
        print!(self.rt; "ask block {block}: ")?;
        match self.held(block) {
            Ok((count, written)) => println!(self.rt; "{count} erases, {written} pages written"),
            Err(refusal) => self.outcome(Err(refusal)),
        }
    }

    /// Programs and reads pages of the first and the last block, in turn and out of turn.
    fn pages(&mut self, last: u16) -> io::Result<()> {
        self.program(0, 0, 7, &[1, 2, 3, 4])?;
        self.read(0, 0, 4)?;
        self.program(0, 0, 8, &[5, 6, 7, 8])?;
        self.program(0, 1, 65535, &[255, 0, 255, 0])?;
        self.read(0, 1, 4)?;
        self.program(0, 2, 9, &[9, 9, 9, 9])?;
        self.read(0, 0, 3)?;
        self.read(last, 0, 4)?;
        self.ask(0)
    }

    /// Moves a block into another, through a buffer of a page.
    fn relocate(&mut self, block: u16, to: u16) -> io::Result<()> {
        print!(self.rt; "move block {block} to block {to}: ")?;
        let answer = relocate(self.chip, block, to, &mut [0; 4]);
        self.outcome(answer)
    }

    /// Copies a page, moves a block, and erases the last block until it is worn out.
    fn wear(&mut self, last: u16) -> io::Result<()> {
        print!(self.rt; "copy block 0 page 1 to block {last}: ")?;
        let answer = copy_page(self.chip, 0, 1, last, &mut [0; 4]);
        self.outcome(answer)?;
        self.relocate(0, last)?;
        self.erase(last)?;
        self.relocate(0, last)?;
        self.ask(0)?;
        self.read(last, 1, 4)?;
        self.erase(last)?;
        self.erase(last)?;
        self.ask(last)?;
        self.ask(last.saturating_add(1))
    }

    fn run(&mut self) -> io::Result<()> {
        let Geometry {
            blocks,
            pages,
            size,
            rated,
        } = self.chip.geometry();
        println!(self.rt;
            "{blocks} blocks of {pages} pages of {size} bytes, rated for {rated} erases"
        )?;
        let last = blocks.saturating_sub(1);
        self.pages(last)?;
        self.wear(last)
    }
}

// Built here and not in `main`, where the check does not follow the lifetimes of a struct over a chip over lent memory.
fn exercise_on<C: Chip>(rt: &HostRuntime, chip: &mut C) -> io::Result<()> {
    let mut exercise = Exercise { rt, chip };
    exercise.run()
}

fn ask_on<C: Chip>(rt: &HostRuntime, chip: &mut C, block: u16) -> io::Result<()> {
    let exercise = Exercise { rt, chip };
    exercise.ask(block)
}

fn main(rt: HostRuntime) -> io::Result<()> {
    println!(rt; "an emulated chip")?;
    let mut tags = [0u16; 4];
    let mut bytes = [0u8; 16];
    exercise_on(&rt, &mut Emulated::new(SMALL, &mut tags, &mut bytes))?;

    println!(rt; "a pair of two")?;
    let mut more_tags = [0u16; 4];
    let mut more_bytes = [0u8; 16];
    let first = Emulated::new(SMALL, &mut tags, &mut bytes);
    let second = Emulated::new(SMALL, &mut more_tags, &mut more_bytes);
    exercise_on(&rt, &mut Pair::new(first, second))?;

    println!(rt; "a chip that is a byte short of memory")?;
    let mut short = [0u8; 15];
    ask_on(&rt, &mut Emulated::new(SMALL, &mut tags, &mut short), 0)
}

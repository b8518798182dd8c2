//! A flash chip that lies in memory lent by its maker, for tests and for programs that run without a device.

#![tactic(auto)]

ghost use Rattle.std.specs.Prelude.{◌≡◌, ◌+◌, ◌-◌, ◌*◌, ◌^◌, ◌<◌, ◌≤◌, length, slice_set, Ok, IfOk, OnOk};
ghost use Rattle.std.specs.List.{All};
ghost use Rattle.std.proofs.Math.Seq.{paste};
ghost use Rattle.flash.specs.declared.Refusal.TheVariants.{OutOfTurn};
ghost use Rattle.flash.specs.Meaning.{ByMeaning, blank, block as held_block, page as held_page};
ghost use Rattle.flash.specs.Calls.{below, in_block, in_page};
ghost use Rattle.emulated.specs.Held.{served, Room, LineFits, Kept, line, place, page_in, line_of, held};
ghost use Rattle.emulated.specs.Meaning.{emulated, emulated_laws};

use flash::{Chip, Geometry, MAX_BLOCKS, Refusal};
use std::marker::Model;

/// A line of the tables for each block that a chip may have.
const LINES: usize = MAX_BLOCKS as usize; // a constant calls no `From`

/// How often a block was erased, and how many of its pages are written.
#[derive(Clone, Copy)]
struct Line {
    erases: u32,
    written: u32,
}

/// The line of a blank block that was never erased.
const BLANK: Line = Line {
    erases: 0,
    written: 0,
};

/// A chip in N × P × D bytes and N × P tags. What its maker measures is its invariant. Ghost fields would state it as well, but code
/// with an array of chips gets no proof where they stand beside the `&mut`s.
#[derive(Drop)]
pub struct Emulated<'a> {
    geometry: Geometry,
    lines: [Line; LINES],
    tags: &'a mut [u16],
    bytes: &'a mut [u8],
}

impl<'a> Model for Emulated<'a> {
    ghost use Rattle.emulated.specs.Held.{Tables, Kept};

    ghost Value = { Tables };

    ghost view = { λ s. record { geometry = s.geometry; lines = s.lines; tags = s.tags.now; bytes = s.bytes.now } };

    ghost invariant = { λ s. Kept (record { geometry = s.geometry; lines = s.lines; tags = s.tags.now; bytes = s.bytes.now }) };
}

impl<'a> Emulated<'a> {
    /// A blank chip, every count 0. Its N, P, D and E are all 0 where the geometry is outside the limits or the
    /// memory is too short.
    pub fn new(geometry: Geometry, tags: &'a mut [u16], bytes: &'a mut [u8]) -> Emulated<'a>
        ensures { emulated result ≡ blank (served geometry (length tags.old) (length bytes.old)) }
    {
        Emulated {
            geometry: served(geometry, tags, bytes),
            lines: [BLANK; LINES],
            tags,
            bytes,
        }
    }

    /// Does nothing. A model's invariant is closed to callers: whoever is lent a chip learns by this call what every chip keeps of its
    /// tables and its memory, and that the chip is that of its tables as they are.
    #[tactic(auto, using(crate::specs::Meaning::emulated_is))]
    pub fn kept(&self)
        ensures kept { Kept self.now }
        ensures room { Room self.now.geometry (length self.now.tags) (length self.now.bytes) }
        ensures lines_fit { All (LineFits self.now.geometry) self.now.lines }
        ensures tags_fit { All (λ tag. tag < 65536) self.now.tags }
        ensures meaning { emulated self.now ≡ held self.now.geometry self.now.lines self.now.tags self.now.bytes }
    {
        let _ = &self.geometry; // a read of a field, by which the check takes the invariant
    }

    /// The line of a block.
    fn line(&self, block: u16) -> Result<Line, Refusal>
        ensures kept { Kept self.now }
        ensures answer { result ≡ in_block (emulated self.now) block (Ok (line_of (held_block (emulated self.now) block))) }
        ensures inside { OnOk result (block < self.now.geometry.blocks) }
    {
        if block < self.geometry.blocks {
            Ok(self.lines[usize::from(block)])
        } else {
            Err(Refusal::Outside)
        }
    }

    /// The line of a block, and the place of one of its pages in the memory.
    fn locate(&self, block: u16, page: u32) -> Result<(Line, usize), Refusal>
        ensures kept { Kept self.now }
        ensures answer { result ≡ in_page (emulated self.now) block page (Ok (line_of (held_block (emulated self.now) block), place self.now.geometry.pages block page)) }
        ensures inside { OnOk result ((block < self.now.geometry.blocks) × (page < self.now.geometry.pages)) }
        ensures tag { IfOk result (λ found. found.1 < length self.now.tags) }
        ensures bytes { IfOk result (λ found. found.1 * self.now.geometry.size + self.now.geometry.size ≤ length self.now.bytes) }
    {
        let line = self.line(block)?;
        if page >= self.geometry.pages {
            return Err(Refusal::Outside);
        }
        // `u32` has no `From` to `usize`
        let place = usize::from(block) * self.geometry.pages as usize + page as usize;
        Ok((line, place))
    }

    /// The place of a written page.
    fn written_place(&self, block: u16, page: u32) -> Result<usize, Refusal>
        ensures answer { result ≡ in_page (emulated self.now) block page (below page (length (held_block (emulated self.now) block).pages) OutOfTurn (Ok (place self.now.geometry.pages block page))) }
        ensures page { IfOk result (λ at. held_page (emulated self.now) block page ≡ page_in self.now.geometry.size self.now.tags self.now.bytes at) }
        ensures tag { IfOk result (λ at. at < length self.now.tags) }
        ensures bytes { IfOk result (λ at. at * self.now.geometry.size + self.now.geometry.size ≤ length self.now.bytes) }
    {
        let (line, place) = self.locate(block, page)?;
        if page < line.written {
            Ok(place)
        } else {
            Err(Refusal::OutOfTurn)
        }
    }

    /// Writes a page's tag and bytes at its place, and counts it. The rest of the lent memory stays as it is.
    fn put(&mut self, block: u16, place: usize, tag: u16, bytes: &[u8], written: u32)
        requires block { block < 256 }
        requires written { written ≤ self.old.geometry.pages }
        requires tag { place < length self.old.tags }
        requires bytes { place * length bytes.now + length bytes.now ≤ length self.old.bytes }
        ensures geometry { self.new.geometry ≡ self.old.geometry }
        ensures lines { self.new.lines ≡ slice_set self.old.lines block (record { erases = (line self.old.lines block).erases; written = written }) }
        ensures tags { self.new.tags ≡ slice_set self.old.tags place tag }
        ensures bytes { self.new.bytes ≡ paste self.old.bytes (place * length bytes.now) bytes.now (length bytes.now) }
    {
        store(self.bytes, place * bytes.len(), bytes);
        self.tags[place] = tag;
        self.lines[usize::from(block)].written = written;
    }

    /// Empties a block and counts an erase more. The lent memory stays as it is, also where the chip no longer shows it.
    fn wipe(&mut self, block: u16, erases: u32)
        requires block { block < 256 }
        requires erases { erases < 2 ^ 32 - 1 }
        requires rated { erases < self.old.geometry.rated }
        ensures geometry { self.new.geometry ≡ self.old.geometry }
        ensures lines { self.new.lines ≡ slice_set self.old.lines block (record { erases = erases + 1; written = 0 }) }
        ensures tags { self.new.tags ≡ self.old.tags }
        ensures bytes { self.new.bytes ≡ self.old.bytes }
    {
        self.lines[usize::from(block)] = Line {
            erases: erases + 1,
            written: 0,
        };
    }
}

/// The geometry handed in, or all 0 where it is outside the limits or the memory is too short.
fn served(geometry: Geometry, tags: &[u16], bytes: &[u8]) -> Geometry
    ensures is { result ≡ served geometry (length tags.now) (length bytes.now) }
    ensures room { Room result (length tags.now) (length bytes.now) }
    ensures tags_fit { All (λ tag. tag < 65536) tags.now }
{
    if !geometry.within_limits() {
        return Geometry::none();
    }
    let places = usize::from(geometry.blocks) * geometry.pages as usize; // no `From` for `u32` either
    if places <= tags.len() && places * geometry.size <= bytes.len() {
        geometry
    } else {
        Geometry::none()
    }
}

/// Overwrites the memory from `start` on.
fn store(memory: &mut [u8], start: usize, bytes: &[u8])
    requires { start + length bytes.now ≤ length memory.old }
    ensures { memory.new ≡ paste memory.old start bytes.now (length bytes.now) }
{
    memory[start..start + bytes.len()].copy_from_slice(bytes);
}

impl Chip for Emulated<'_> {
    ghost meaning = { emulated };

    ghost ran = { ByMeaning emulated };

    ghost laws = { emulated_laws };

    fn geometry(&self) -> Geometry {
        self.geometry
    }

    fn count(&self, block: u16) -> Result<u32, Refusal> {
        Ok(self.line(block)?.erases)
    }

    fn written(&self, block: u16) -> Result<u32, Refusal> {
        Ok(self.line(block)?.written)
    }

    fn tag(&self, block: u16, page: u32) -> Result<u16, Refusal> {
        let place = self.written_place(block, page)?;
        Ok(self.tags[place])
    }

    fn read(&self, block: u16, page: u32, buf: &mut [u8]) -> Result<(), Refusal> {
        let place = self.written_place(block, page)?;
        let size = self.geometry.size;
        if buf.len() != size {
            return Err(Refusal::WrongLength);
        }
        buf.copy_from_slice(&self.bytes[place * size..place * size + size]);
        Ok(())
    }

    fn program(&mut self, block: u16, page: u32, tag: u16, bytes: &[u8]) -> Result<(), Refusal> {
        let (line, place) = self.locate(block, page)?;
        if page != line.written {
            return Err(Refusal::OutOfTurn);
        }
        if bytes.len() != self.geometry.size {
            return Err(Refusal::WrongLength);
        }
        self.put(block, place, tag, bytes, page + 1);
        Ok(())
    }

    fn erase(&mut self, block: u16) -> Result<(), Refusal> {
        let line = self.line(block)?;
        if line.erases >= self.geometry.rated {
            return Err(Refusal::WornOut);
        }
        self.wipe(block, line.erases);
        Ok(())
    }
}

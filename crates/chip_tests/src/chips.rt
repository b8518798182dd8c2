//! The emulated chip and the tools over it: answers, refusals, limits and memory.
use crate::lent::{page_of, pages_of};
use crate::steps::{Call, Outcome, Told, run};
use emulated::Emulated;
use flash::{Chip, Geometry, Refusal};
use std::process::Abort;

/// Runs a table on a blank chip of three blocks of two pages of four bytes, rated for two erases, in memory of so many tags and bytes, that held something else before.
fn on_a_chip(rt: &impl Abort, table: &[(Call, Outcome)], tags: usize, bytes: usize) {
    let mut tag_memory = [3u16; 6];
    let mut byte_memory = [3u8; 24];
    let tags = tags.min(6);
    let bytes = bytes.min(24);
    let geometry = Geometry {
        blocks: 3,
        pages: 2,
        size: 4,
        rated: 2,
    };
    let mut chip = Emulated::new(geometry, &mut tag_memory[..tags], &mut byte_memory[..bytes]);
    run(rt, &mut chip, table);
}

#[test]
fn numbers(rt: HostRuntime) {
    assert_eq!(rt; Refusal::Outside.number(), 12);
    assert_eq!(rt; Refusal::OutOfTurn.number(), 13);
    assert_eq!(rt; Refusal::WrongLength.number(), 14);
    assert_eq!(rt; Refusal::WornOut.number(), 15);
}

#[test]
fn questions(rt: HostRuntime) {
    let mut tags = [0u16; 6];
    let mut bytes = [0u8; 24];
    let geometry = Geometry {
        blocks: 3,
        pages: 2,
        size: 4,
        rated: 7,
    };
    let chip = Emulated::new(geometry, &mut tags, &mut bytes);
    assert_eq!(rt; chip.geometry(), geometry);
    assert_eq!(rt; chip.blocks(), 3);
    assert_eq!(rt; chip.pages(), 2);
    assert_eq!(rt; chip.page_size(), 4);
    assert_eq!(rt; chip.rated(), 7);
}

#[test]
fn begins_blank(rt: HostRuntime) {
    let table = [
        (Call::Count(0), Ok(Told::Is(0))),
        (Call::Written(0), Ok(Told::Is(0))),
        (Call::Tag(0, 0), Err(Refusal::OutOfTurn)),
        (Call::Read(0, 0, 4), Err(Refusal::OutOfTurn)),
        (Call::Count(2), Ok(Told::Is(0))),
        (Call::Written(2), Ok(Told::Is(0))),
        (Call::Tag(2, 1), Err(Refusal::OutOfTurn)),
    ];
    on_a_chip(&rt, &table, 6, 24);
}

#[test]
fn keeps_what_is_programmed(rt: HostRuntime) {
    let table = [
        (Call::Program(1, 0, 65535, 1, 4), Ok(Told::Done)),
        (Call::Program(1, 1, 0, 250, 4), Ok(Told::Done)),
        (Call::Read(1, 0, 4), Ok(Told::Holds(1))),
        (Call::Read(1, 1, 4), Ok(Told::Holds(250))),
        (Call::Tag(1, 0), Ok(Told::Is(65535))),
        (Call::Tag(1, 1), Ok(Told::Is(0))),
        (Call::Written(0), Ok(Told::Is(0))),
        (Call::Written(2), Ok(Told::Is(0))),
    ];
    on_a_chip(&rt, &table, 6, 24);
}

#[test]
fn full_block(rt: HostRuntime) {
    let table = [
        (Call::Program(0, 1, 5, 5, 4), Err(Refusal::OutOfTurn)),
        (Call::Program(0, 0, 5, 5, 4), Ok(Told::Done)),
        (Call::Program(0, 0, 6, 6, 4), Err(Refusal::OutOfTurn)),
        (Call::Program(0, 1, 7, 7, 4), Ok(Told::Done)),
        (Call::Program(0, 2, 8, 8, 4), Err(Refusal::Outside)),
        (Call::Program(0, 1, 8, 8, 4), Err(Refusal::OutOfTurn)),
        (Call::Tag(0, 0), Ok(Told::Is(5))),
        (Call::Tag(0, 1), Ok(Told::Is(7))),
        (Call::Written(0), Ok(Told::Is(2))),
    ];
    on_a_chip(&rt, &table, 6, 24);
}

#[test]
fn worn_block(rt: HostRuntime) {
    // a worn block is still programmed and read
    let table = [
        (Call::Erase(2), Ok(Told::Done)),
        (Call::Erase(2), Ok(Told::Done)),
        (Call::Program(2, 0, 4, 4, 4), Ok(Told::Done)),
        (Call::Erase(2), Err(Refusal::WornOut)),
        (Call::Count(2), Ok(Told::Is(2))),
        (Call::Written(2), Ok(Told::Is(1))),
        (Call::Read(2, 0, 4), Ok(Told::Holds(4))),
        (Call::Erase(1), Ok(Told::Done)),
    ];
    on_a_chip(&rt, &table, 6, 24);
}

#[test]
fn an_erase_leaves_the_neighbours(rt: HostRuntime) {
    let table = [
        (Call::Program(0, 0, 10, 10, 4), Ok(Told::Done)),
        (Call::Program(1, 0, 20, 20, 4), Ok(Told::Done)),
        (Call::Program(2, 0, 30, 30, 4), Ok(Told::Done)),
        (Call::Erase(1), Ok(Told::Done)),
        (Call::Count(0), Ok(Told::Is(0))),
        (Call::Count(1), Ok(Told::Is(1))),
        (Call::Count(2), Ok(Told::Is(0))),
        (Call::Read(0, 0, 4), Ok(Told::Holds(10))),
        (Call::Read(1, 0, 4), Err(Refusal::OutOfTurn)),
        (Call::Read(2, 0, 4), Ok(Told::Holds(30))),
        (Call::Tag(2, 0), Ok(Told::Is(30))),
    ];
    on_a_chip(&rt, &table, 6, 24);
}

#[test]
fn the_last_page_of_the_last_block(rt: HostRuntime) {
    let table = [
        (Call::Program(2, 0, 1, 1, 4), Ok(Told::Done)),
        (Call::Program(2, 1, 2, 2, 4), Ok(Told::Done)),
        (Call::Tag(2, 1), Ok(Told::Is(2))),
        (Call::Read(2, 1, 4), Ok(Told::Holds(2))),
        (Call::Tag(2, 2), Err(Refusal::Outside)),
        (Call::Read(2, 2, 4), Err(Refusal::Outside)),
        (Call::Count(3), Err(Refusal::Outside)),
        (Call::Written(3), Err(Refusal::Outside)),
        (Call::Tag(3, 0), Err(Refusal::Outside)),
        (Call::Read(3, 0, 4), Err(Refusal::Outside)),
        (Call::Program(3, 0, 3, 3, 4), Err(Refusal::Outside)),
        (Call::Erase(3), Err(Refusal::Outside)),
    ];
    on_a_chip(&rt, &table, 6, 24);
}

#[test]
fn lengths(rt: HostRuntime) {
    let table = [
        (Call::Program(0, 0, 1, 1, 3), Err(Refusal::WrongLength)),
        (Call::Program(0, 0, 1, 1, 5), Err(Refusal::WrongLength)),
        (Call::Written(0), Ok(Told::Is(0))),
        (Call::Program(0, 0, 1, 1, 4), Ok(Told::Done)),
        (Call::Read(0, 0, 3), Err(Refusal::WrongLength)),
        (Call::Read(0, 0, 5), Err(Refusal::WrongLength)),
        // the lowest number is answered
        (Call::Read(3, 0, 3), Err(Refusal::Outside)),
        (Call::Read(0, 1, 3), Err(Refusal::OutOfTurn)),
        (Call::Program(0, 2, 1, 1, 3), Err(Refusal::Outside)),
        (Call::Program(0, 0, 1, 1, 3), Err(Refusal::OutOfTurn)),
    ];
    on_a_chip(&rt, &table, 6, 24);
}

#[test]
fn a_byte_or_a_tag_short(rt: HostRuntime) {
    let table = [
        (Call::Count(0), Err(Refusal::Outside)),
        (Call::Written(0), Err(Refusal::Outside)),
        (Call::Tag(0, 0), Err(Refusal::Outside)),
        (Call::Read(0, 0, 4), Err(Refusal::Outside)),
        (Call::Program(0, 0, 1, 1, 4), Err(Refusal::Outside)),
        (Call::Erase(0), Err(Refusal::Outside)),
    ];
    on_a_chip(&rt, &table, 6, 23);
    on_a_chip(&rt, &table, 5, 24);
}

#[test]
fn copies(rt: HostRuntime) {
    let table = [
        (Call::Program(0, 0, 70, 70, 4), Ok(Told::Done)),
        (Call::Program(0, 1, 71, 75, 4), Ok(Told::Done)),
        (Call::Copy(0, 1, 2, 4), Ok(Told::Holds(75))),
        (Call::Copy(0, 0, 2, 4), Ok(Told::Holds(70))),
        (Call::Tag(2, 0), Ok(Told::Is(71))),
        (Call::Tag(2, 1), Ok(Told::Is(70))),
        (Call::Read(2, 1, 4), Ok(Told::Holds(70))),
        // full, no such block, no such page, unwritten, too short
        (Call::Copy(0, 0, 2, 4), Err(Refusal::Outside)),
        (Call::Copy(0, 0, 3, 4), Err(Refusal::Outside)),
        (Call::Copy(3, 0, 1, 4), Err(Refusal::Outside)),
        (Call::Copy(0, 2, 1, 4), Err(Refusal::Outside)),
        (Call::Copy(1, 0, 1, 4), Err(Refusal::OutOfTurn)),
        (Call::Copy(0, 0, 1, 3), Err(Refusal::WrongLength)),
        (Call::Written(1), Ok(Told::Is(0))),
    ];
    on_a_chip(&rt, &table, 6, 24);
}

#[test]
fn moves(rt: HostRuntime) {
    let table = [
        (Call::Program(2, 0, 70, 70, 4), Ok(Told::Done)),
        (Call::Program(2, 1, 71, 75, 4), Ok(Told::Done)),
        (Call::Move(2, 0, 4), Ok(Told::Holds(75))),
        (Call::Tag(0, 0), Ok(Told::Is(70))),
        (Call::Tag(0, 1), Ok(Told::Is(71))),
        (Call::Written(2), Ok(Told::Is(0))),
        (Call::Count(2), Ok(Told::Is(1))),
        (Call::Count(0), Ok(Told::Is(0))),
        // no such block, not blank, itself, too short, worn out
        (Call::Move(3, 2, 4), Err(Refusal::Outside)),
        (Call::Move(0, 3, 4), Err(Refusal::Outside)),
        (Call::Move(2, 0, 4), Err(Refusal::OutOfTurn)),
        (Call::Move(0, 0, 4), Err(Refusal::OutOfTurn)),
        (Call::Move(0, 1, 3), Err(Refusal::WrongLength)),
        (Call::Erase(2), Ok(Told::Done)),
        (Call::Move(2, 1, 4), Err(Refusal::WornOut)),
        (Call::Written(1), Ok(Told::Is(0))),
    ];
    on_a_chip(&rt, &table, 6, 24);
}

#[test]
fn two_chips_in_an_array(rt: HostRuntime) {
    let mut first_tags = [0u16; 4];
    let mut first_bytes = [0u8; 8];
    let mut second_tags = [0u16; 6];
    let mut second_bytes = [0u8; 12];
    let three = Geometry { blocks: 3, ..SMALL };
    let mut chips = [
        Emulated::new(SMALL, &mut first_tags, &mut first_bytes),
        Emulated::new(three, &mut second_tags, &mut second_bytes),
    ];
    assert_eq!(rt; chips[0].erase(1), Ok(()));
    assert_eq!(rt; chips[1].erase(2), Ok(()));
    assert_eq!(rt; chips[1].erase(2), Ok(()));
    assert_eq!(rt; chips[0].erase(2), Err(Refusal::Outside));
    assert_eq!(rt; chips[0].count(1), Ok(1));
    assert_eq!(rt; chips[0].count(0), Ok(0));
    assert_eq!(rt; chips[1].count(2), Ok(2));
    assert_eq!(rt; chips[1].count(1), Ok(0));
}

/// A page, in a buffer that holds any page that is served.
fn page_in(chip: &Emulated<'_>, block: u16, page: u32) -> Result<[u8; 512], Refusal> {
    let mut buf = [0u8; 512];
    chip.read(block, page, &mut buf[..page_of(chip)])?;
    Ok(buf)
}

#[test]
fn lent_chips(rt: HostRuntime) {
    let mut tags = [0u16; 4];
    let mut bytes = [0u8; 8];
    let mut chip = Emulated::new(SMALL, &mut tags, &mut bytes);
    assert_eq!(rt; chip.program(1, 0, 7, &[5, 6]), Ok(()));
    assert_eq!(rt; page_of(&chip), 2);
    assert_eq!(rt; pages_of(&chip), 2);
    let page = page_in(&chip, 1, 0).unwrap_or([9; 512]);
    assert_eq!(rt; page[0], 5);
    assert_eq!(rt; page[1], 6);
    assert_eq!(rt; page[2], 0);
    assert!(rt; page_in(&chip, 0, 0) == Err(Refusal::OutOfTurn));
}

/// Two blocks of two pages of two bytes, rated for nine erases.
pub const SMALL: Geometry = Geometry {
    blocks: 2,
    pages: 2,
    size: 2,
    rated: 9,
};

/// N, P, D and E of a chip that has memory enough.
fn made(geometry: Geometry) -> Geometry {
    let mut tags = [0u16; 600];
    let mut bytes = [0u8; 2100];
    Emulated::new(geometry, &mut tags, &mut bytes).geometry()
}

#[test]
fn limits_of_blocks_and_pages(rt: HostRuntime) {
    let of_blocks = |blocks| made(Geometry { blocks, ..SMALL });
    assert_eq!(rt; of_blocks(1), Geometry::none());
    assert_eq!(rt; of_blocks(2).blocks, 2);
    assert_eq!(rt; of_blocks(256).blocks, 256);
    assert_eq!(rt; of_blocks(257), Geometry::none());
    let of_pages = |pages| made(Geometry { pages, ..SMALL });
    assert_eq!(rt; of_pages(0), Geometry::none());
    assert_eq!(rt; of_pages(1).pages, 1);
    assert_eq!(rt; of_pages(64).pages, 64);
    assert_eq!(rt; of_pages(65), Geometry::none());
}

#[test]
fn limits_of_bytes_and_erases(rt: HostRuntime) {
    let of_bytes = |size| made(Geometry { size, ..SMALL });
    assert_eq!(rt; of_bytes(0), Geometry::none());
    assert_eq!(rt; of_bytes(1).size, 1);
    assert_eq!(rt; of_bytes(512).size, 512);
    assert_eq!(rt; of_bytes(513), Geometry::none());
    let of_erases = |rated| made(Geometry { rated, ..SMALL });
    assert_eq!(rt; of_erases(0), Geometry::none());
    assert_eq!(rt; of_erases(1).rated, 1);
    assert_eq!(rt; of_erases(1_000_000).rated, 1_000_000);
    assert_eq!(rt; of_erases(1_000_001), Geometry::none());
}

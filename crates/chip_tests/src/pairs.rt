//! Pairs, and pairs of pairs.
use crate::lent::{first_has_room, second_tags_fit};
use crate::steps::{Call, Outcome, Told, run};
use emulated::Emulated;
use flash::{Chip, Geometry, Refusal};
use pair::Pair;
use std::process::Abort;

/// Two blocks of two pages of one byte, rated for three erases.
const TINY: Geometry = Geometry {
    blocks: 2,
    pages: 2,
    size: 1,
    rated: 3,
};

/// Three blocks, and otherwise the same.
const LARGER: Geometry = Geometry { blocks: 3, ..TINY };

/// What a call tells of the pair of a chip of two blocks and one of the geometry handed in.
fn with_pair<T, F: FnOnce(&mut Pair<Emulated<'_>, Emulated<'_>>) -> T>(
    other: Geometry,
    call: F,
) -> T
    requires { F.IsAlwaysCallable call }
{
    let mut tags = [0u16; 4];
    let mut bytes = [0u8; 4];
    let mut more_tags = [0u16; 40];
    let mut more_bytes = [0u8; 40];
    let first = Emulated::new(TINY, &mut tags, &mut bytes);
    let second = Emulated::new(other, &mut more_tags, &mut more_bytes);
    call(&mut Pair::new(first, second))
}

/// N, P, D and E of that pair.
fn joined_with(other: Geometry) -> Geometry {
    with_pair(other, |pair| pair.geometry())
}

#[test]
fn common_numbers(rt: HostRuntime) {
    assert_eq!(rt;
        joined_with(LARGER),
        Geometry {
            blocks: 5,
            ..LARGER
        }
    );
    assert_eq!(rt;
        joined_with(Geometry { pages: 3, ..LARGER }),
        Geometry::none()
    );
    assert_eq!(rt;
        joined_with(Geometry { size: 2, ..LARGER }),
        Geometry::none()
    );
    assert_eq!(rt;
        joined_with(Geometry { rated: 4, ..LARGER }),
        Geometry::none()
    );
    // a chip that is not there has another P, D and E
    assert_eq!(rt; joined_with(Geometry::none()), Geometry::none());
}

/// Runs a table on it.
fn on_a_pair(rt: &impl Abort, other: Geometry, table: &[(Call, Outcome)]) {
    with_pair(other, |pair| run(rt, pair, table));
}

#[test]
fn chips_that_do_not_join(rt: HostRuntime) {
    let table = [
        (Call::Count(0), Err(Refusal::Outside)),
        (Call::Written(0), Err(Refusal::Outside)),
        (Call::Tag(0, 0), Err(Refusal::Outside)),
        (Call::Read(0, 0, 1), Err(Refusal::Outside)),
        (Call::Program(0, 0, 1, 1, 1), Err(Refusal::Outside)),
        (Call::Erase(0), Err(Refusal::Outside)),
    ];
    on_a_pair(&rt, Geometry { size: 2, ..LARGER }, &table);
}

#[test]
fn the_first_and_then_the_second(rt: HostRuntime) {
    let table = [
        (Call::Program(1, 0, 10, 10, 1), Ok(Told::Done)),
        (Call::Program(2, 0, 20, 20, 1), Ok(Told::Done)),
        (Call::Erase(4), Ok(Told::Done)),
        (Call::Tag(1, 0), Ok(Told::Is(10))),
        (Call::Read(2, 0, 1), Ok(Told::Holds(20))),
        (Call::Read(2, 0, 2), Err(Refusal::WrongLength)),
        (Call::Written(0), Ok(Told::Is(0))),
        (Call::Written(3), Ok(Told::Is(0))),
        (Call::Count(4), Ok(Told::Is(1))),
        (Call::Count(2), Ok(Told::Is(0))),
        (Call::Count(5), Err(Refusal::Outside)),
        (Call::Program(4, 1, 21, 21, 1), Err(Refusal::OutOfTurn)),
        (Call::Copy(1, 0, 4, 1), Ok(Told::Holds(10))),
        (Call::Tag(4, 0), Ok(Told::Is(10))),
        (Call::Move(2, 0, 1), Ok(Told::Holds(20))),
        (Call::Tag(0, 0), Ok(Told::Is(20))),
    ];
    on_a_pair(&rt, LARGER, &table);
}

#[test]
fn a_pair_of_a_pair(rt: HostRuntime) {
    let table = [
        (Call::Program(4, 0, 40, 4, 1), Ok(Told::Done)),
        (Call::Program(4, 1, 41, 5, 1), Ok(Told::Done)),
        (Call::Move(4, 6, 1), Ok(Told::Holds(5))),
        (Call::Tag(6, 0), Ok(Told::Is(40))),
        (Call::Tag(6, 1), Ok(Told::Is(41))),
        (Call::Count(4), Ok(Told::Is(1))),
        (Call::Written(4), Ok(Told::Is(0))),
        (Call::Erase(7), Err(Refusal::Outside)),
    ];
    let mut tags = [0u16; 4];
    let mut bytes = [0u8; 4];
    let mut more_tags = [0u16; 6];
    let mut more_bytes = [0u8; 6];
    let mut last_tags = [0u16; 4];
    let mut last_bytes = [0u8; 4];
    let first = Emulated::new(TINY, &mut tags, &mut bytes);
    let second = Emulated::new(LARGER, &mut more_tags, &mut more_bytes);
    let third = Emulated::new(TINY, &mut last_tags, &mut last_bytes);
    let mut all = Pair::new(Pair::new(first, second), third);
    assert_eq!(rt; all.blocks(), 7);
    run(&rt, &mut all, &table);
}

#[test]
fn the_chips_of_a_pair(rt: HostRuntime) {
    with_pair(LARGER, |both| {
        assert_eq!(rt; both.erase(1), Ok(()));
        assert_eq!(rt; both.program(3, 0, 65535, &[8]), Ok(()));
        first_has_room(both);
        second_tags_fit(both);
        assert_eq!(rt; both.first().blocks(), 2);
        assert_eq!(rt; both.first().count(1), Ok(1));
        assert_eq!(rt; both.second().blocks(), 3);
        assert_eq!(rt; both.second().count(1), Ok(0));
        assert_eq!(rt; both.second().tag(1, 0), Ok(65535));
    });
}

//! What whoever is lent an emulated chip knows of its tables and its memory by a call that does nothing.
ghost use Rattle.std.specs.Prelude.{◌≡◌, ◌<◌, length};
ghost use Rattle.std.specs.List.{All};
ghost use Rattle.emulated.specs.Held.{Room, LineFits, held};
ghost use Rattle.emulated.specs.Meaning.{emulated};

use crate::chips::SMALL;
use emulated::Emulated;
use flash::{Chip, Refusal};

/// There is a line for each block, and room in the memory for each page.
fn has_room(chip: &Emulated<'_>)
    ensures { Room chip.now.geometry (length chip.now.tags) (length chip.now.bytes) }
{
    chip.kept();
}

/// No block is erased more often than it is rated for, or has more written pages than there are.
fn lines_fit(chip: &Emulated<'_>)
    ensures { All (LineFits chip.now.geometry) chip.now.lines }
{
    chip.kept();
}

/// A tag has 16 bits.
fn tags_fit(chip: &Emulated<'_>)
    ensures { All (λ tag. tag < 65536) chip.now.tags }
{
    chip.kept();
}

/// The chip is that of its tables as they are.
fn read_as_they_are(chip: &Emulated<'_>)
    ensures { emulated chip.now ≡ held chip.now.geometry chip.now.lines chip.now.tags chip.now.bytes }
{
    chip.kept();
}

#[test]
fn known_of_a_lent_chip(rt: HostRuntime) {
    let mut tags = [0u16; 4];
    let mut bytes = [0u8; 8];
    let mut chip = Emulated::new(SMALL, &mut tags, &mut bytes);
    assert_eq!(rt; chip.erase(1), Ok(()));
    assert_eq!(rt; chip.program(1, 0, 65535, &[5, 6]), Ok(()));
    has_room(&chip);
    lines_fit(&chip);
    tags_fit(&chip);
    read_as_they_are(&chip);
    assert_eq!(rt; chip.count(1), Ok(1));
    assert_eq!(rt; chip.written(1), Ok(1));
    assert_eq!(rt; chip.tag(1, 0), Ok(65535));
    assert_eq!(rt; chip.tag(1, 1), Err(Refusal::OutOfTurn));
}

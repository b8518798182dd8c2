//! Callers that are lent an emulated chip, or a pair of them, whoever made it.
ghost use Rattle.std.specs.Prelude.{◌≡◌, ◌<◌, ◌≤◌, length};
ghost use Rattle.std.specs.List.{All};
ghost use Rattle.emulated.specs.Held.{Room};
ghost use Rattle.emulated.specs.Meaning.{emulated};

use emulated::Emulated;
use flash::Chip;
use pair::Pair;

/// The bytes of a page.
pub fn page_of(chip: &Emulated<'_>) -> usize
    ensures size { result ≡ (emulated chip.now).d }
    ensures few { result ≤ 512 }
{
    chip.page_size()
}

/// The pages of a block.
pub fn pages_of(chip: &Emulated<'_>) -> u32
    ensures pages { result ≡ (emulated chip.now).p }
    ensures few { result ≤ 64 }
{
    chip.pages()
}

/// The memory of a pair's first chip has room for each page.
pub fn first_has_room(pair: &Pair<Emulated<'_>, Emulated<'_>>)
    ensures { Room pair.now.first.geometry (length pair.now.first.tags) (length pair.now.first.bytes) }
{
    pair.first().kept();
}

/// The tags of a pair's second chip have 16 bits.
pub fn second_tags_fit(pair: &Pair<Emulated<'_>, Emulated<'_>>)
    ensures { All (λ tag. tag < 65536) pair.now.second.tags }
{
    pair.second().kept();
}

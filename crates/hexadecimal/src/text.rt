//! A line of hexadecimal digits to bytes.
ghost use Rattle.std.specs.Prelude.{◌≡◌, Some, None, MatchResult};
ghost use Rattle.bounded.specs.Buffer.{held};
ghost use Rattle.hexadecimal.specs.Refusals.{text_number};
ghost use Rattle.hexadecimal.specs.Text.{digit_value, pair_value, line_bytes, Spells, Unspelled};

use bounded::bytes::Bytes;

/// Why a text is refused.
#[derive(Clone, Copy, PartialEq, Eq, Debug)]
pub enum TextFault {
    /// It is empty, odd in length, too long, or not hexadecimal digits throughout.
    NotHexadecimal = 18,
}

impl TextFault {
    /// The number of the refusal.
    pub fn number(self) -> u8
        ensures { result ≡ text_number self }
    {
        // one trait for all refusals would need a crate below all five, and hold this line
        self as u8
    }
}

/// The value of a hexadecimal digit of either case.
pub fn digit(c: u8) -> Option<u8>
    ensures { result ≡ digit_value c }
{
    // by its ranges: `char::to_digit` reads the same digits, but its `u32` would have to be narrowed again
    match c {
        b'0'..=b'9' => Some(c - b'0'),
        b'A'..=b'F' => Some(c - b'A' + 10),
        b'a'..=b'f' => Some(c - b'a' + 10),
        _ => None,
    }
}

/// The byte that two digits spell, the high one first.
pub fn pair(high: u8, low: u8) -> Option<u8>
    ensures { result ≡ pair_value high low }
{
    Some(digit(high)? * 16 + digit(low)?)
}

/// The bytes of a line of two to `2 * N` hexadecimal digits: those that it spells, in digits of either case. A line that spells
/// no such bytes is refused.
pub fn decode<const N: usize>(line: &[u8]) -> Result<Bytes<N>, TextFault>
    ensures answer { MatchResult result (λ b. line_bytes N line.now ≡ Some (held b)) (λ _. line_bytes N line.now ≡ None) }
    ensures spelled { MatchResult result (λ b. Spells line.now (held b)) (λ _. Unspelled N line.now) }
{
    if line.is_empty() || line.len() % 2 != 0 || line.len() / 2 > N {
        return Err(TextFault::NotHexadecimal);
    }
    let mut bytes = Bytes::new();
    for digits in line.chunks_exact(2) {
        let byte = pair(digits[0], digits[1]).ok_or(TextFault::NotHexadecimal)?;
        bytes.push(byte).unwrap();
    }
    Ok(bytes)
}

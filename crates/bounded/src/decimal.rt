//! Numbers as decimal text.
ghost use Rattle.std.specs.Prelude.{◌≡◌, ◌++◌, take, decimal};
ghost use Rattle.bounded.specs.Buffer.{held};

use crate::bytes::Bytes;
use itoa::Buffer;

/// Appends the digits of `n`, without leading zeros, as far as there is room.
pub fn append_decimal<const N: usize>(out: &mut Bytes<N>, n: u64)
    ensures { held out.new ≡ take N (held out.old ++ decimal n) }
{
    out.append(Buffer::new().format(n).as_bytes());
}

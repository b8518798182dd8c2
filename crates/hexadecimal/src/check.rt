//! The running check over a frame's bytes.
ghost use Rattle.std.specs.Prelude.{◌≡◌, ◌%◌, sum};

/// The sum of all bytes modulo 256; it is 0 where the last byte is the right check byte.
pub fn check_sum(bytes: &[u8]) -> u8
    ensures { result ≡ sum bytes.now % 256 }
{
    bytes
        .iter()
        .fold(0u8, |total, byte| total.wrapping_add(*byte))
}

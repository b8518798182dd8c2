//! One line of a trace, from its text to its frame.
ghost use Rattle.std.specs.Prelude.{◌≡◌};
ghost use Rattle.trace.specs.Lines.{line_frame, Accepts};

use crate::fault::Cause;
use crate::frame::Frame;
use hexadecimal::text::decode;

/// The bytes of the longest frame, a setup.
pub const LONGEST_FRAME: usize = 17;

/// The frame of one line, which is given without its line feed.
#[tactic(auto, using(crate::proofs::Wire::accepts_as))]
pub fn read_line(line: &[u8]) -> Result<Frame, Cause>
    ensures answer { result ≡ line_frame line.now }
    ensures accepts { Accepts line.now result }
{
    let bytes = decode::<LONGEST_FRAME>(line)?;
    Ok(Frame::try_from(bytes.as_slice())?)
}

//! The frames of a trace, and which frame a line's bytes are.
ghost use Rattle.std.specs.Prelude.{◌≡◌, cond, Err};
ghost use Rattle.trace.specs.declared.fault.FrameFault.TheVariants.{WrongForm};
ghost use Rattle.trace.specs.Frames.{order_of, shaped, setup_of, frame_of};

use crate::fault::FrameFault;
use hexadecimal::check::check_sum;

/// Which order chooses the victim of a cleaning.
#[derive(Clone, Copy, PartialEq, Eq, Debug)]
pub enum OrderKind {
    FewestLive,
    CostBenefit,
}

impl TryFrom<u8> for OrderKind {
    type Error = FrameFault;

    ghost try_from_gives = { λ byte r. r ≡ order_of byte };

    /// The order that a setup's order byte chooses.
    fn try_from(byte: u8) -> Result<OrderKind, FrameFault> {
        match byte {
            0 => Ok(OrderKind::FewestLive),
            1 => Ok(OrderKind::CostBenefit),
            _ => Err(FrameFault::WrongForm),
        }
    }
}

/// What a trace sets up: the chip, and how its leveller is started.
#[derive(Clone, Copy, PartialEq, Eq, Debug)]
pub struct Settings {
    /// N, the blocks of the chip.
    pub blocks: u16,
    /// P, the pages of a block.
    pub pages: u8,
    /// D, the bytes of a page.
    pub bytes: u16,
    /// E, the erases that a block is rated for.
    pub erases: u32,
    /// A block set has 2^k blocks.
    pub k: u8,
    /// T, the threshold at which levelling sets in.
    pub threshold: u16,
    pub order: OrderKind,
    /// L, the number of logical pages.
    pub logical: u16,
}

/// What one line of a trace asks.
#[derive(Clone, Copy, PartialEq, Eq, Debug)]
pub enum Frame {
    Setup(Settings),
    /// Writes a page that is filled with one byte.
    Write { page: u16, fill: u8 },
    Discard { page: u16 },
    Read { page: u16 },
}

/// The frame that a setup's bytes are.
fn setup_frame(bytes: &[u8]) -> Result<Frame, FrameFault>
    ensures { result ≡ cond (shaped 1 17 bytes.now) (setup_of bytes.now) (Err WrongForm) }
{
    match *bytes {
        [
            1,
            n1,
            n0,
            pages,
            d1,
            d0,
            e3,
            e2,
            e1,
            e0,
            k,
            t1,
            t0,
            order,
            l1,
            l0,
            _,
        ] => Ok(Frame::Setup(Settings {
            blocks: u16::from_be_bytes([n1, n0]),
            pages,
            bytes: u16::from_be_bytes([d1, d0]),
            erases: u32::from_be_bytes([e3, e2, e1, e0]),
            k,
            threshold: u16::from_be_bytes([t1, t0]),
            order: OrderKind::try_from(order)?,
            logical: u16::from_be_bytes([l1, l0]),
        })),
        _ => Err(FrameFault::WrongForm),
    }
}

impl<'a> TryFrom<&'a [u8]> for Frame {
    type Error = FrameFault;

    ghost try_from_gives = { λ bytes r. r ≡ frame_of bytes.now };

    /// The frame that a line's bytes are.
    fn try_from(bytes: &'a [u8]) -> Result<Frame, FrameFault> {
        if check_sum(bytes) != 0 {
            return Err(FrameFault::WrongCheck);
        }
        match *bytes {
            [1, ..] => setup_frame(bytes),
            [2, high, low, fill, _] => Ok(Frame::Write {
                page: u16::from_be_bytes([high, low]),
                fill,
            }),
            [3, high, low, _] => Ok(Frame::Discard {
                page: u16::from_be_bytes([high, low]),
            }),
            [4, high, low, _] => Ok(Frame::Read {
                page: u16::from_be_bytes([high, low]),
            }),
            _ => Err(FrameFault::WrongForm),
        }
    }
}

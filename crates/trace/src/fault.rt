//! Why a trace is faulty: the cause, its number, its layer and its line.
ghost use Rattle.std.specs.Prelude.{◌≡◌};
ghost use Rattle.trace.specs.declared.fault.Cause.TheVariants.{Text, Frame};
ghost use Rattle.trace.specs.Faults.{frame_number, cause_number, layer_of};

use hexadecimal::text::TextFault;

/// Why the bytes of a line are no frame, or none that may stand there.
#[derive(Clone, Copy, PartialEq, Eq, Debug)]
pub enum FrameFault {
    /// The sum of all bytes is not 0 modulo 256.
    WrongCheck = 19,
    /// The kind is unknown, the length is not that of the kind, or the order byte is above 1.
    WrongForm = 20,
    /// A setup that is not the first frame, another frame before the setup, or an input that ends without a setup.
    WrongPlace = 21,
}

/// Why a line is faulty.
#[derive(Clone, Copy, PartialEq, Eq, Debug)]
pub enum Cause {
    Text(TextFault),
    Frame(FrameFault),
}

/// The layer that found a fault.
#[derive(Clone, Copy, PartialEq, Eq, Debug)]
pub enum Layer {
    Text,
    Frame,
}

/// A faulty line: why, and where, counted from 1.
#[derive(Clone, Copy, PartialEq, Eq, Debug)]
pub struct Fault {
    pub cause: Cause,
    pub line: u64,
}

impl FrameFault {
    /// The number of the refusal.
    pub fn number(self) -> u8
        ensures { result ≡ frame_number self }
    {
        // one trait for all refusals would need a crate below all five, and hold this line
        self as u8
    }
}

impl Cause {
    /// The number of the refusal.
    pub fn number(self) -> u8
        ensures { result ≡ cause_number self }
    {
        // a match and no discriminants, since each layer numbers its own refusals
        match self {
            Cause::Text(fault) => fault.number(),
            Cause::Frame(fault) => fault.number(),
        }
    }

    /// The layer that found it.
    pub fn layer(self) -> Layer
        ensures { result ≡ layer_of self }
    {
        match self {
            Cause::Text(_) => Layer::Text,
            Cause::Frame(_) => Layer::Frame,
        }
    }
}

// The two are by hand, since clauses read what `?` gives, and a derived one says nothing of it.
impl From<TextFault> for Cause {
    ghost from_gives = { λ e r. r ≡ Text e };

    fn from(text: TextFault) -> Cause {
        Cause::Text(text)
    }
}

impl From<FrameFault> for Cause {
    ghost from_gives = { λ e r. r ≡ Frame e };

    fn from(frame: FrameFault) -> Cause {
        Cause::Frame(frame)
    }
}

//! The reader of a whole input, which arrives byte by byte.
ghost use Rattle.std.specs.Prelude.{◌≡◌, ℕ, ◌≤◌, List, length, Ok, Err};
ghost use Rattle.bounded.specs.Buffer.{held};
ghost use Rattle.trace.specs.Reading.{faulty, in_place, placed, read_all};
ghost use Rattle.trace.specs.Lines.{line_frame};
ghost use Rattle.trace.specs.Steps.{view, beginning, step, line_end, stopped, ending, after_all, heard, concluded};

use crate::fault::{Cause, Fault, FrameFault};
use crate::frame::Frame;
use crate::line::{LONGEST_FRAME, read_line};
use bounded::bytes::{Bytes, Full};
use hexadecimal::text::TextFault;

/// The longest line of a trace, in characters.
pub const LONGEST_LINE: usize = 2 * LONGEST_FRAME;

const LINE_FEED: u8 = b'\n';

/// Reads a trace byte by byte. It keeps at most one line of `LONGEST_LINE` characters, whatever the input.
#[derive(Drop)]
pub struct Reader {
    line: u64,
    // beside `fault`, since a fault comes before or after the setup, and the state that clauses see has both
    started: bool,
    rest: Bytes<LONGEST_LINE>,
    fault: Option<Fault>,
}

/// Whether a frame may stand there: the one setup comes before all others.
fn fits_place(started: bool, frame: Frame) -> bool
    ensures { result ≡ in_place started frame }
{
    match frame {
        Frame::Setup(_) => !started,
        _ => started,
    }
}

/// The frame of a line, if it may stand there.
fn read_placed(line: &[u8], started: bool) -> Result<Frame, Cause>
    ensures { result ≡ placed started (line_frame line.now) }
{
    let frame = read_line(line)?;
    if fits_place(started, frame) {
        Ok(frame)
    } else {
        Err(FrameFault::WrongPlace.into())
    }
}

impl Reader {
    /// A reader before the first byte of an input.
    pub fn new() -> Reader
        ensures { view result ≡ beginning }
    {
        Reader {
            line: 1,
            started: false,
            rest: Bytes::new(),
            fault: None,
        }
    }

    /// Takes one byte more: answers the frame of a line that ends with it, nothing yet, or the fault. After a fault it changes
    /// nothing and answers the same fault again.
    pub fn push(&mut self, byte: u8) -> Result<Option<Frame>, Fault>
        ensures after { view self.new ≡ (step (view self.old) byte).after }
        ensures answer { result ≡ (step (view self.old) byte).answer }
        ensures one_line { length (held self.new.rest) ≤ 34 }
    {
        if let Some(fault) = self.fault {
            return Err(fault);
        }
        if byte == LINE_FEED {
            return self.end_line();
        }
        match self.rest.push(byte) {
            Ok(()) => Ok(None),
            Err(Full) => Err(self.stop(Cause::Text(TextFault::NotHexadecimal))),
        }
    }

    /// Ends the input: answers the frame of a last line that lacks its line feed, nothing more, or the fault. If the reader was
    /// given the bytes of `input` since it was made, then the frames that it answered on the way and this last answer are what
    /// the whole input tells.
    #[tactic(auto, using(crate::proofs::Whole::whole_from))]
    pub fn finish(mut self) -> Result<Option<Frame>, Fault>
        ensures answer { result ≡ ending (view self) }
        ensures whole { (input : List ℕ) → view self ≡ after_all beginning input → read_all input ≡ concluded (heard beginning input) result }
    {
        if let Some(fault) = self.fault {
            return Err(fault);
        }
        if !self.rest.as_slice().is_empty() {
            return self.end_line();
        }
        if self.started {
            Ok(None)
        } else {
            Err(self.stop(Cause::Frame(FrameFault::WrongPlace)))
        }
    }

    /// The frame of the line that has ended, or the fault.
    fn end_line(&mut self) -> Result<Option<Frame>, Fault>
        ensures after { view self.new ≡ (line_end (view self.old)).after }
        ensures answer { result ≡ (line_end (view self.old)).answer }
        ensures one_line { length (held self.new.rest) ≤ 34 }
    {
        match read_placed(self.rest.as_slice(), self.started) {
            Ok(frame) => {
                self.line = self.line.saturating_add(1);
                self.started = true;
                self.rest.clear();
                Ok(Some(frame))
            }
            Err(cause) => Err(self.stop(cause)),
        }
    }

    /// Stops at a fault in the line that is being read.
    fn stop(&mut self, cause: Cause) -> Fault
        ensures after { view self.new ≡ (stopped (view self.old) result).after }
        ensures value { result ≡ faulty cause self.old.line }
    {
        let fault = Fault {
            cause,
            line: self.line,
        };
        self.fault = Some(fault);
        fault
    }
}

//! Whole inputs: what is done with each of their frames.
ghost use Rattle.std.specs.Prelude.{◌≡◌, Ok, Some, None, IfOk, OnOk, IfSome};
ghost use Rattle.trace.specs.Inputs.{Called};
ghost use Rattle.trace.specs.Reading.{read_all};
ghost use Rattle.trace.specs.Steps.{view, ending, after_all, news, heard, fault_in};

use crate::fault::Fault;
use crate::frame::Frame;
use crate::reader::Reader;
use std::io;
use std::io::Read;

/// How many bytes are read at a time.
const PIECE: usize = 65536;

/// Calls `on_frame` with each frame that ends within a piece of an input; answers a fault as soon as there is one.
fn each_frame_within<F: FnMut(Frame) -> io::Result<()>>(
    reader: &mut Reader,
    piece: &[u8],
    on_frame: &mut F,
) -> io::Result<Option<Fault>>
    requires { F.IsAlwaysCallable on_frame.old }
    ensures callable { OnOk result (F.IsAlwaysCallable on_frame.new) }
    ensures frames { OnOk result (Called F.step on_frame.old (heard (view reader.old) piece.now) on_frame.new) }
    ensures fault { IfOk result (λ fault. IfSome fault (λ e. (after_all (view reader.old) piece.now).fault ≡ Some e)) }
    ensures after { result ≡ Ok None → view reader.new ≡ after_all (view reader.old) piece.now }
{
    for byte in piece {
        match reader.push(*byte) {
            Ok(None) => continue,
            Ok(Some(frame)) => on_frame(frame)?,
            Err(fault) => return Ok(Some(fault)),
        }
    }
    Ok(None)
}

/// Calls `on_frame` with the frame of a last line that lacks its line feed; answers the fault of an input that ends there.
fn last_frame<F: FnMut(Frame) -> io::Result<()>>(
    reader: Reader,
    on_frame: &mut F,
) -> io::Result<Option<Fault>>
    requires { F.IsAlwaysCallable on_frame.old }
    ensures fault { IfOk result (λ fault. fault ≡ fault_in (ending (view reader))) }
    ensures frames { OnOk result (Called F.step on_frame.old (news (ending (view reader))) on_frame.new) }
{
    match reader.finish() {
        Ok(Some(frame)) => {
            on_frame(frame)?;
            Ok(None)
        }
        Ok(None) => Ok(None),
        Err(fault) => Ok(Some(fault)),
    }
}

/// Reads a whole input and calls `on_frame` with each of its frames, in order. The answer is the fault that ends them, if one does:
/// an answer and no error, since programs go on after it.
pub fn each_frame<R: Read, F: FnMut(Frame) -> io::Result<()>>(
    input: &mut R,
    on_frame: &mut F,
) -> io::Result<Option<Fault>>
    requires { F.IsAlwaysCallable on_frame.old }
    ensures fault { IfOk result (λ fault. IfSome (R.remaining input.old) (λ bytes. fault ≡ (read_all bytes).fault)) }
    ensures frames { OnOk result (IfSome (R.remaining input.old) (λ bytes. Called F.step on_frame.old (read_all bytes).frames on_frame.new)) }
{
    let mut reader = Reader::new();
    let mut piece = [0u8; PIECE];
    // by pieces, as `bytes()` takes a fifth more instructions; with the library's own bound for a reader that may not end
    for _ in 0..u64::MAX {
        let n = input.read(&mut piece)?;
        if n == 0 {
            return last_frame(reader, on_frame);
        }
        if let Some(fault) = each_frame_within(&mut reader, &piece[..n], on_frame)? {
            return Ok(Some(fault));
        }
    }
    Err(io::Error::other("an input without an end"))
}

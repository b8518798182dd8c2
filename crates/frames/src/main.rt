//! Lists the frames of the trace on standard input in words, a line each, and last the fault, where there is one.

#![tactic(auto)]

use listing::words::{fault_line, frame_line};
use std::io;
use std::io::{BufWriter, Read, Write};
use trace::input::each_frame;

/// Lists a whole input. Where it cannot be read on, what was read before is listed first.
fn list<R: Read, W: Write>(input: &mut R, out: &mut W) -> io::Result<()> {
    let fault = each_frame(
        input,
        &mut |frame| { out.write_all(frame_line(&frame).as_slice()) },
    )?;
    match fault {
        Some(fault) => out.write_all(fault_line(&fault).as_slice()),
        None => Ok(()),
    }
}

fn main(rt: HostRuntime) -> io::Result<()> {
    let mut out = BufWriter::new(rt.alloc(), rt.stdout())?;
    let listed = list(&mut rt.stdin(), &mut out);
    let written = out.flush();
    listed?;
    written
}

//! Tells the busiest pages of the trace on standard input: up to eight, busiest first. Where the trace is faulty, the fault comes first,
//! and the pages are those of what was read before it.

#![tactic(auto)]

use heap::indexed::Heap;
use heap::node::Node;
use listing::words::{busy_line, fault_line};
use orders::page::PageRecord;
use orders::page_orders::BusiestPage;
use page_counts::counts::count_write;
use ranking::leaders;
use std::io;
use std::io::{BufWriter, Read, Write};
use trace::fault::Fault;
use trace::frame::Frame;
use trace::input::each_frame;

/// A place for every page that a frame can name.
const PAGES: usize = 65536;

/// How many pages are told.
const MOST: usize = 8;

/// Counts the writes of a whole input, and answers its fault, if it has one.
fn count<R: Read>(
    input: &mut R,
    counts: &mut Heap<PageRecord, BusiestPage>,
) -> io::Result<Option<Fault>> {
    each_frame(
        input,
        &mut |frame| {
            if let Frame::Write { page, .. } = frame {
                count_write(counts, page);
            }
            Ok(())
        },
    )
}

/// Tells the busiest pages of standard input.
fn run(rt: &HostRuntime) -> io::Result<()> {
    let mut nodes = vec![in rt.alloc(); Node::new(PageRecord {
        number: 0,
        writes: 0
    }); PAGES]?;
    let mut counts = Heap::new(nodes.as_mut_slice(), BusiestPage);
    let fault = count(&mut rt.stdin(), &mut counts)?;
    let mut out = BufWriter::new(rt.alloc(), rt.stdout())?;
    if let Some(fault) = fault {
        out.write_all(fault_line(&fault).as_slice())?;
    }
    for record in leaders(&mut counts, MOST, rt.alloc())? {
        out.write_all(busy_line(record.number, record.writes).as_slice())?;
    }
    out.flush()
}

fn main(rt: HostRuntime) -> io::Result<()> {
    run(&rt)
}

//! Frames, faults and page counts in words, one blank apart, each on a line of its own.
//!
//! Not by `Display`: that promises its text only where `fmt` answers `Ok`, and these lines are promised for every frame and fault.
ghost use Rattle.std.specs.Prelude.{◌≡◌, [], ◌∷◌, ◌++◌};
ghost use Rattle.bounded.specs.Buffer.{held};
ghost use Rattle.listing.specs.Words.{fitted, labelled, order_word, layer_word, setup_words, frame_words, fault_words, busy_words, line_of};

use bounded::bytes::Bytes;
use bounded::decimal::append_decimal;
use trace::fault::{Fault, Layer};
use trace::frame::{Frame, OrderKind, Settings};

/// No line of words is longer, its line feed counted.
pub const LONGEST_WORDS: usize = 128;

/// A line of words.
pub type Words = Bytes<LONGEST_WORDS>;

/// Appends a label and a number, as far as there is room.
#[tactic(auto, using(crate::proofs::Lines::two_pieces))]
fn append_labelled(out: &mut Words, label: &[u8], n: u64)
    ensures { held out.new ≡ fitted (held out.old) (labelled label.now n) }
{
    out.append(label);
    append_decimal(out, n);
}

/// Appends a label and a word, as far as there is room.
#[tactic(auto, using(crate::proofs::Lines::two_pieces))]
fn append_named(out: &mut Words, label: &[u8], word: &[u8])
    ensures { held out.new ≡ fitted (held out.old) (label.now ++ word.now) }
{
    out.append(label);
    out.append(word);
}

/// Ends the line, as far as there is room.
#[tactic(auto, unfolding(crate::specs::Words::fitted))]
fn end_line(out: &mut Words)
    ensures { held out.new ≡ fitted (held out.old) (10 ∷ []) }
{
    out.append(b"\n");
}

/// The word for an order.
fn order_name(order: OrderKind) -> &'static [u8]
    ensures { result.now ≡ order_word order }
{
    match order {
        OrderKind::FewestLive => b"fewest-live",
        OrderKind::CostBenefit => b"cost-benefit",
    }
}

/// The word for a layer.
fn layer_name(layer: Layer) -> &'static [u8]
    ensures { result.now ≡ layer_word layer }
{
    match layer {
        Layer::Text => b"text",
        Layer::Frame => b"frame",
    }
}

/// The line of words for a setup.
fn setup_line(settings: &Settings) -> Words
    ensures { held result ≡ line_of (setup_words settings.now) }
{
    let Settings {
        blocks,
        pages,
        bytes,
        erases,
        k,
        threshold,
        order,
        logical,
    } = *settings;
    let mut out = Words::new();
    append_labelled(&mut out, b"setup blocks ", u64::from(blocks));
    append_labelled(&mut out, b" pages ", u64::from(pages));
    append_labelled(&mut out, b" bytes ", u64::from(bytes));
    append_labelled(&mut out, b" erases ", u64::from(erases));
    append_labelled(&mut out, b" k ", u64::from(k));
    append_labelled(&mut out, b" threshold ", u64::from(threshold));
    append_named(&mut out, b" order ", order_name(order));
    append_labelled(&mut out, b" logical ", u64::from(logical));
    end_line(&mut out);
    out
}

/// The line of words for a frame.
pub fn frame_line(frame: &Frame) -> Words
    ensures { held result ≡ line_of (frame_words frame.now) }
{
    let mut out = Words::new();
    match *frame {
        Frame::Setup(settings) => return setup_line(&settings),
        Frame::Write { page, fill } => {
            append_labelled(&mut out, b"write page ", u64::from(page));
            append_labelled(&mut out, b" fill ", u64::from(fill));
        }
        Frame::Discard { page } => append_labelled(&mut out, b"discard page ", u64::from(page)),
        Frame::Read { page } => append_labelled(&mut out, b"read page ", u64::from(page)),
    }
    end_line(&mut out);
    out
}

/// The line of words for a fault.
pub fn fault_line(fault: &Fault) -> Words
    ensures { held result ≡ line_of (fault_words fault.now) }
{
    let Fault { cause, line } = *fault;
    let mut out = Words::new();
    append_labelled(&mut out, b"fault ", u64::from(cause.number()));
    append_labelled(&mut out, b" line ", line);
    append_named(&mut out, b" ", layer_name(cause.layer()));
    end_line(&mut out);
    out
}

/// The line of words for a page and how often it was written.
pub fn busy_line(page: u16, writes: u64) -> Words
    ensures { held result ≡ line_of (busy_words page writes) }
{
    let mut out = Words::new();
    append_labelled(&mut out, b"busy ", u64::from(page));
    append_labelled(&mut out, b" ", writes);
    end_line(&mut out);
    out
}

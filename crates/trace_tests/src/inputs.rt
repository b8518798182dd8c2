//! Whole inputs: how many frames they tell, and which fault ends them.
use crate::lines::{CHECK, NOT_HEX};
use std::io;
use std::test::Fail;
use trace::fault::{Cause, Fault, FrameFault};
use trace::frame::Frame;
use trace::input::each_frame;
use trace::reader::Reader;

const PLACE: Cause = Cause::Frame(FrameFault::WrongPlace);

/// Reads an input that comes byte by byte, and counts the frames that it tells, those before a fault too.
fn count(input: &[u8], frames: &mut u32) -> Result<(), Fault> {
    let mut reader = Reader::new();
    for byte in input {
        if reader.push(*byte)?.is_some() {
            *frames = frames.saturating_add(1);
        }
    }
    if reader.finish()?.is_some() {
        *frames = frames.saturating_add(1);
    }
    Ok(())
}

/// How many frames an input tells, and the fault.
fn read(input: &[u8]) -> (u32, Option<Fault>) {
    let mut frames = 0;
    let fault = count(input, &mut frames).err();
    (frames, fault)
}

fn at(cause: Cause, line: u64) -> Option<Fault> {
    Some(Fault { cause, line })
}

#[test]
fn without_setup(rt: HostRuntime) {
    assert_eq!(rt; read(b""), (0, at(PLACE, 1)), "empty input");
    assert_eq!(rt;
        read(b"\n"),
        (0, at(NOT_HEX, 1)),
        "a lone line feed is an empty line"
    );
    assert_eq!(rt; read(b"02000041BD\n"), (0, at(PLACE, 1)), "a write first");
    assert_eq!(rt; read(b"031234B7"), (0, at(PLACE, 1)), "a discard first");
    assert_eq!(rt; read(b"04ABCD84\n"), (0, at(PLACE, 1)), "a read first");
}

#[test]
fn with_setup(rt: HostRuntime) {
    assert_eq!(rt;
        read(b"010004020001000000640000020000048E"),
        (1, None),
        "no last line feed"
    );
    assert_eq!(rt;
        read(b"010004020001000000640000020000048E\n"),
        (1, None),
        "a last line feed starts no line"
    );
    assert_eq!(rt;
        read(b"010004020001000000640000020000048E\n02000041BD"),
        (2, None),
        "no last line feed"
    );
    assert_eq!(rt;
        read(b"010004020001000000640000020000048e\n02000041bd\n031234b7\n"),
        (3, None),
        "lower case"
    );
}

#[test]
fn setup_twice(rt: HostRuntime) {
    let twice = b"010004020001000000640000020000048E\n010004020001000000640000020000048E\n";
    assert_eq!(rt; read(twice), (1, at(PLACE, 2)));
    let later =
        b"010004020001000000640000020000048E\n02000041BD\n010004020001000000640000020000048E";
    assert_eq!(rt; read(later), (2, at(PLACE, 3)));
}

#[test]
fn first_fault_decides(rt: HostRuntime) {
    assert_eq!(rt;
        read(b"010004020001000000640000020000048E\n02000041BC\n0\n"),
        (1, at(CHECK, 2))
    );
    assert_eq!(rt;
        read(b"010004020001000000640000020000048E\n\n02000041BC\n"),
        (1, at(NOT_HEX, 2))
    );
    assert_eq!(rt;
        read(b"010004020001000000640000020000048E\r\n"),
        (0, at(NOT_HEX, 1)),
        "carriage return"
    );
    assert_eq!(rt;
        read(b"010004020001000000640000020000048E\n02000041B"),
        (1, at(NOT_HEX, 2)),
        "cut last line"
    );
}

#[test]
fn long_line(rt: HostRuntime) {
    let mut reader = Reader::new();
    for _ in 0..34 {
        assert_eq!(rt; reader.push(b'0'), Ok(None));
    }
    let fault = Fault {
        cause: NOT_HEX,
        line: 1,
    };
    assert_eq!(rt; reader.push(b'0'), Err(fault), "the 35th character");
    assert_eq!(rt; reader.push(b'\n'), Err(fault), "nothing more is read");
    assert_eq!(rt; reader.finish(), Err(fault));
}

#[test]
fn each_frame_in_order(rt: HostRuntime) -> Result<(), Fail> {
    let mut input: &[u8] = b"010004020001000000640000020000048E\n02000041BD\n031234B7\n\n04ABCD84";
    let mut frames = 0u32;
    let mut last = None;
    let fault = each_frame(
        &mut input,
        &mut |frame| {
            frames = frames.saturating_add(1);
            last = Some(frame);
            Ok(())
        },
    )?;
    assert_eq!(rt; fault, at(NOT_HEX, 4));
    assert_eq!(rt; frames, 3, "none after the fault");
    assert_eq!(rt; last, Some(Frame::Discard { page: 0x1234 }));
    Ok(())
}

#[test]
fn each_frame_with_the_last(rt: HostRuntime) -> Result<(), Fail> {
    let mut input: &[u8] = b"010004020001000000640000020000048E\n02000041BD";
    let mut frames = 0u32;
    let fault = each_frame(
        &mut input,
        &mut |_| {
            frames = frames.saturating_add(1);
            Ok(())
        },
    )?;
    assert_eq!(rt; fault, None);
    assert_eq!(rt; frames, 2, "the last line lacks its line feed");
    Ok(())
}

#[test]
fn each_frame_until_an_error(rt: HostRuntime) {
    let mut input: &[u8] = b"010004020001000000640000020000048E\n02000041BD\n0\n";
    let mut frames = 0u32;
    let ended = each_frame(
        &mut input,
        &mut |_| {
            frames = frames.saturating_add(1);
            Err(io::Error::other("no more"))
        },
    );
    assert!(rt; ended.is_err());
    assert_eq!(rt; frames, 1);
}

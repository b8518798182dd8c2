//! One line: each fault of the text and of the frame at its edges.
use bounded::bytes::{Bytes, Full};
use hexadecimal::text::{TextFault, digit};
use trace::fault::{Cause, FrameFault};
use trace::frame::Frame;
use trace::line::read_line;

pub const NOT_HEX: Cause = Cause::Text(TextFault::NotHexadecimal);

pub const CHECK: Cause = Cause::Frame(FrameFault::WrongCheck);

const FORM: Cause = Cause::Frame(FrameFault::WrongForm);

#[test]
fn text_length(rt: HostRuntime) {
    assert_eq!(rt; read_line(b""), Err(NOT_HEX), "empty");
    assert_eq!(rt; read_line(b"0"), Err(NOT_HEX), "odd");
    assert_eq!(rt; read_line(b"02000041BD0"), Err(NOT_HEX), "odd at the end");
    assert_eq!(rt;
        read_line(b"010004020001000000640000020000048E0"),
        Err(NOT_HEX),
        "35 digits"
    );
    assert_eq!(rt;
        read_line(b"010004020001000000640000020000048E00"),
        Err(NOT_HEX),
        "36 digits"
    );
    assert!(rt;
        read_line(b"010004020001000000640000020000048E").is_ok(),
        "34 digits"
    );
}

#[test]
fn text_digits(rt: HostRuntime) {
    assert_eq!(rt; read_line(b"0200004/BD"), Err(NOT_HEX), "before 0");
    assert_eq!(rt; read_line(b"0200004:BD"), Err(NOT_HEX), "after 9");
    assert_eq!(rt; read_line(b"0200004@BD"), Err(NOT_HEX), "before A");
    assert_eq!(rt; read_line(b"0200004GBD"), Err(NOT_HEX), "after F");
    assert_eq!(rt; read_line(b"0200004`BD"), Err(NOT_HEX), "before a");
    assert_eq!(rt; read_line(b"0200004gBD"), Err(NOT_HEX), "after f");
    assert_eq!(rt; read_line(b"02000041BD\r"), Err(NOT_HEX), "carriage return");
    assert_eq!(rt;
        read_line(b"02000041B\r"),
        Err(NOT_HEX),
        "carriage return at an even place"
    );
    assert_eq!(rt; read_line(b"02000041 D"), Err(NOT_HEX), "blank");
    assert_eq!(rt;
        read_line(b"\x0200004100"),
        Err(NOT_HEX),
        "a byte that is no character"
    );
    assert_eq!(rt;
        read_line(b"02000041B\xff"),
        Err(NOT_HEX),
        "the largest byte"
    );
}

#[test]
fn digit_values(rt: HostRuntime) {
    assert_eq!(rt; digit(b'0'), Some(0));
    assert_eq!(rt; digit(b'9'), Some(9));
    assert_eq!(rt; digit(b'A'), Some(10));
    assert_eq!(rt; digit(b'F'), Some(15));
    assert_eq!(rt; digit(b'a'), Some(10));
    assert_eq!(rt; digit(b'f'), Some(15));
    assert_eq!(rt; digit(b'g'), None);
}

#[test]
fn check_byte(rt: HostRuntime) {
    assert_eq!(rt; read_line(b"02000041BC"), Err(CHECK), "one below");
    assert_eq!(rt; read_line(b"02000041BE"), Err(CHECK), "one above");
    assert_eq!(rt; read_line(b"0500"), Err(CHECK), "before the unknown kind");
    assert_eq!(rt; read_line(b"02"), Err(CHECK), "a kind alone");
    assert_eq!(rt;
        read_line(b"02000041B/"),
        Err(NOT_HEX),
        "the text comes first"
    );
}

#[test]
fn kind(rt: HostRuntime) {
    assert_eq!(rt; read_line(b"00"), Err(FORM), "no kind");
    assert_eq!(rt; read_line(b"050000FB"), Err(FORM), "kind 05");
    assert_eq!(rt; read_line(b"100000F0"), Err(FORM), "kind 10");
    assert_eq!(rt; read_line(b"FF01"), Err(FORM), "kind FF");
}

#[test]
fn length(rt: HostRuntime) {
    assert_eq!(rt;
        read_line(b"010000000000000000000000000000FF"),
        Err(FORM),
        "setup a byte short"
    );
    assert_eq!(rt; read_line(b"01FF"), Err(FORM), "setup of nothing");
    assert_eq!(rt; read_line(b"020000FE"), Err(FORM), "write a byte short");
    assert_eq!(rt; read_line(b"0200004100BD"), Err(FORM), "write a byte long");
    assert_eq!(rt; read_line(b"0300FD"), Err(FORM), "discard a byte short");
    assert_eq!(rt; read_line(b"03000000FD"), Err(FORM), "discard a byte long");
    assert_eq!(rt; read_line(b"0400FC"), Err(FORM), "read a byte short");
    assert_eq!(rt; read_line(b"04000000FC"), Err(FORM), "read a byte long");
}

#[test]
fn order_byte(rt: HostRuntime) {
    assert_eq!(rt;
        read_line(b"010004020001000000640000020200048C"),
        Err(FORM),
        "order 2"
    );
    assert!(rt;
        read_line(b"010004020001000000640000020100048D").is_ok(),
        "order 1"
    );
}

#[test]
fn letter_case(rt: HostRuntime) {
    let frame = Frame::Read { page: 0xabcd };
    assert_eq!(rt; read_line(b"04ABCD84"), Ok(frame), "upper");
    assert_eq!(rt; read_line(b"04abcd84"), Ok(frame), "lower");
    assert_eq!(rt; read_line(b"04aBCd84"), Ok(frame), "mixed");
}

#[test]
fn numbers(rt: HostRuntime) {
    assert_eq!(rt; NOT_HEX.number(), 18);
    assert_eq!(rt; CHECK.number(), 19);
    assert_eq!(rt; FORM.number(), 20);
    assert_eq!(rt; Cause::Frame(FrameFault::WrongPlace).number(), 21);
}

#[test]
fn full_buffer(rt: HostRuntime) {
    let mut bytes: Bytes<2> = Bytes::new();
    assert_eq!(rt; bytes.push(1), Ok(()));
    bytes.append(&[2, 3]);
    assert_eq!(rt; bytes.push(4), Err(Full), "there is no room");
    assert!(rt; bytes.as_slice() == [1, 2].as_slice());
    bytes.clear();
    assert!(rt; bytes.as_slice().is_empty());
}

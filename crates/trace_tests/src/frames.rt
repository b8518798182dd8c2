//! The frames that lines are, and their words.
use hexadecimal::text::TextFault;
use listing::words::{fault_line, frame_line};
use trace::fault::{Cause, Fault, FrameFault};
use trace::frame::{Frame, OrderKind, Settings};
use trace::line::read_line;

const FOUR_BLOCKS: Frame = Frame::Setup(Settings {
    blocks: 4,
    pages: 2,
    bytes: 1,
    erases: 100,
    k: 0,
    threshold: 2,
    order: OrderKind::FewestLive,
    logical: 4,
});

const LARGEST: Frame = Frame::Setup(Settings {
    blocks: 65535,
    pages: 255,
    bytes: 65535,
    erases: 4294967295,
    k: 255,
    threshold: 65535,
    order: OrderKind::CostBenefit,
    logical: 65535,
});

#[test]
fn setups(rt: HostRuntime) {
    assert_eq!(rt;
        read_line(b"010004020001000000640000020000048E"),
        Ok(FOUR_BLOCKS)
    );
    assert_eq!(rt;
        read_line(b"01FFFFFFFFFFFFFFFFFFFFFFFF01FFFF0C"),
        Ok(LARGEST)
    );
}

#[test]
fn requests(rt: HostRuntime) {
    assert_eq!(rt;
        read_line(b"02000041BD"),
        Ok(Frame::Write {
            page: 0,
            fill: 0x41,
        })
    );
    assert_eq!(rt;
        read_line(b"02FFFFFF01"),
        Ok(Frame::Write {
            page: 65535,
            fill: 255,
        })
    );
    assert_eq!(rt; read_line(b"031234B7"), Ok(Frame::Discard { page: 0x1234 }));
    assert_eq!(rt; read_line(b"04ABCD84"), Ok(Frame::Read { page: 0xabcd }));
}

#[test]
fn setup_words(rt: HostRuntime) {
    assert!(rt;
        frame_line(&FOUR_BLOCKS).as_slice()
            == b"setup blocks 4 pages 2 bytes 1 erases 100 k 0 threshold 2 order fewest-live logical 4\n".as_slice()
    );
    assert!(rt;
        frame_line(&LARGEST).as_slice()
            == b"setup blocks 65535 pages 255 bytes 65535 erases 4294967295 k 255 threshold 65535 order cost-benefit logical 65535\n".as_slice()
    );
}

#[test]
fn request_words(rt: HostRuntime) {
    assert!(rt;
        frame_line(&Frame::Write { page: 10, fill: 0 }).as_slice()
            == b"write page 10 fill 0\n".as_slice()
    );
    assert!(rt;
        frame_line(&Frame::Discard { page: 65535 }).as_slice() == b"discard page 65535\n".as_slice()
    );
    assert!(rt; frame_line(&Frame::Read { page: 7 }).as_slice() == b"read page 7\n".as_slice());
}

#[test]
fn fault_words(rt: HostRuntime) {
    let first = Fault {
        cause: Cause::Frame(FrameFault::WrongPlace),
        line: 1,
    };
    assert!(rt; fault_line(&first).as_slice() == b"fault 21 line 1 frame\n".as_slice());
    let second = Fault {
        cause: Cause::Text(TextFault::NotHexadecimal),
        line: 20,
    };
    assert!(rt; fault_line(&second).as_slice() == b"fault 18 line 20 text\n".as_slice());
    let last = Fault {
        cause: Cause::Frame(FrameFault::WrongCheck),
        line: 18446744073709551615,
    };
    assert!(rt;
        fault_line(&last).as_slice() == b"fault 19 line 18446744073709551615 frame\n".as_slice()
    );
}

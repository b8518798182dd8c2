//! What whoever is handed a buffer or a reader knows of it by its type, with no call.
ghost use Rattle.std.specs.Prelude.{◌≡◌, ◌≤◌, length, take};
ghost use Rattle.bounded.specs.Buffer.{held};

use bounded::bytes::Bytes;
use trace::frame::Frame;
use trace::reader::Reader;

/// A buffer keeps no more than it has room for.
fn has_room<const N: usize>(_buffer: &Bytes<N>)
    ensures { length (held _buffer.now) ≤ N }
{}

/// A reader keeps no more than one line.
fn keeps_one_line(_reader: &Reader)
    ensures { length (held _reader.now.rest) ≤ 34 }
{}

/// What a buffer kept stays where it was.
fn keep_more<const N: usize>(buffer: &mut Bytes<N>, more: &[u8])
    ensures { take (length (held buffer.old)) (held buffer.new) ≡ held buffer.old }
{
    buffer.append(more);
}

#[test]
fn known_by_type(rt: HostRuntime) {
    let mut buffer: Bytes<4> = Bytes::new();
    keep_more(&mut buffer, b"abc");
    keep_more(&mut buffer, b"def");
    has_room(&buffer);
    assert_eq!(rt; buffer.as_slice(), b"abcd".as_slice());
    let mut reader = Reader::new();
    assert_eq!(rt; reader.push(b'0'), Ok(None::<Frame>));
    keeps_one_line(&reader);
}

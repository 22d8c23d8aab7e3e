//! Texts that grow line by line.
use byte_streams::Word::{Bytes, Decimal, Large, Number};
use byte_streams::{Lines, ShortLine};
use std::alloc::Global;

fn grow(alloc: Global) -> bool {
    let mut lines = Lines::make(alloc);
    let words = [Decimal(-12), Large(4_294_967_296), Bytes(b"x?")];
    lines.hex_line(b"data", &[0, 31, 255]).is_ok()
        && lines.line(b"? to ?: ??", &words).is_ok()
        && lines.bytes() == b"data 00 1F FF\n-12 to 4294967296: x??\n".as_slice()
}

fn grow_past_their_room(alloc: Global) -> bool {
    match Lines::with_room(alloc, 3) {
        Ok(mut lines) => {
            lines.bytes().is_empty()
                && lines.line(b"longer", &[]).is_ok()
                && lines.bytes() == b"longer\n".as_slice()
        }
        Err(_) => false,
    }
}

#[test]
fn texts(rt: HostRuntime) {
    assert!(rt; grow(rt.alloc()));
    assert!(rt; grow_past_their_room(rt.alloc()));
}

// A line has at most 160 bytes, with its line feed.
#[test]
fn short_lines(rt: HostRuntime) {
    let line = ShortLine::of(
        b"at ? ? ?",
        &[Decimal(-12), Number(4_294_967_295), Bytes(b"x")],
    );
    assert!(rt; line.bytes() == b"at -12 4294967295 x\n".as_slice());
    assert!(rt; ShortLine::of(&[b'x'; 159], &[]).bytes().len() == 160);
}

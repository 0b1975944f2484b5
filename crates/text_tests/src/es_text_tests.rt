//! Texts whose units, lines and places are known.

use es_text::{Lines, Place, TextFault, units_of};
use std::test::Fail;

fn at(line: u64, column: u64) -> Option<Place> {
    Some(Place { line, column })
}

#[test]
fn units_of_a_text(rt: HostRuntime) -> Result<(), Fail> {
    let face = units_of(rt.alloc(), "\u{1F600}".as_bytes())?;
    assert_eq!(rt; face.as_slice(), [0xD83D, 0xDE00].as_slice());
    let mixed = units_of(rt.alloc(), "a\u{E9}\u{FFFD}\u{10000}".as_bytes())?;
    assert_eq!(rt;
        mixed.as_slice(),
        [0x61, 0xE9, 0xFFFD, 0xD800, 0xDC00].as_slice()
    );
    Ok(())
}

#[test]
fn bytes_that_are_no_text(rt: HostRuntime) -> Result<(), Fail> {
    // A lone surrogate, and a front of two bytes that is cut within a character.
    assert_eq!(rt;
        units_of(rt.alloc(), b"ab\xED\xA0\x80").err(),
        Some(TextFault::NotUtf8 { at: 2 })
    );
    assert_eq!(rt;
        Lines::of(rt.alloc(), b"\xC3\xA9\xF0\x9F").err(),
        Some(TextFault::NotUtf8 { at: 2 })
    );
    Ok(())
}

#[test]
fn carriage_return_and_line_feed(rt: HostRuntime) -> Result<(), Fail> {
    let lines = Lines::of(rt.alloc(), b"a\r\nb")?;
    assert_eq!(rt; lines.place(2), at(0, 2));
    assert_eq!(rt; lines.place(3), at(1, 0));
    assert_eq!(rt; lines.place(4), at(1, 1));
    assert_eq!(rt; lines.place(5), None);
    assert_eq!(rt; lines.offset(Place { line: 1, column: 0 }), Some(3));
    assert_eq!(rt; lines.offset(Place { line: 0, column: 3 }), None);
    let returns = Lines::of(rt.alloc(), b"\r\r\n")?;
    assert_eq!(rt; returns.place(1), at(1, 0));
    assert_eq!(rt; returns.place(3), at(2, 0));
    Ok(())
}

#[test]
fn columns_are_units(rt: HostRuntime) -> Result<(), Fail> {
    // e acute, a face, a line separator, x: 2, 4, 3 and 1 bytes.
    let lines = Lines::of(rt.alloc(), "\u{E9}\u{1F600}\u{2028}x".as_bytes())?;
    assert_eq!(rt; lines.place(1), None);
    assert_eq!(rt; lines.place(2), at(0, 1));
    assert_eq!(rt; lines.place(6), at(0, 3));
    assert_eq!(rt; lines.place(9), at(1, 0));
    assert_eq!(rt; lines.offset(Place { line: 0, column: 2 }), None);
    assert_eq!(rt; lines.offset(Place { line: 1, column: 1 }), Some(10));
    Ok(())
}

#[test]
fn far_places(rt: HostRuntime) -> Result<(), Fail> {
    // Longer than what is counted between two marks.
    let mut text = vec![in rt.alloc(); b' '; 1000]?;
    text.extend_from_slice(b"\n\xC3\xA9z")?;
    let lines = Lines::of(rt.alloc(), &text)?;
    assert_eq!(rt; lines.place(777), at(0, 777));
    assert_eq!(rt; lines.place(1003), at(1, 1));
    assert_eq!(rt; lines.offset(Place { line: 1, column: 1 }), Some(1003));
    assert_eq!(rt;
        lines.offset(Place {
            line: 0,
            column: 999
        }),
        Some(999)
    );
    Ok(())
}

//! Where bytes come from and where they go (`io_edge`).

use base_types::{Bytes, Memory};
use io_edge::{CallNumbers, MemSink, MemSource, ReadRefused, read_all, write_all};
use std::alloc::Global;

/// What is read of a text by pieces, at most so many bytes, where one read fails, the first being 1.
fn read(
    alloc: Global,
    text: &str,
    piece: usize,
    failing: u64,
    most: usize,
) -> Result<Bytes, ReadRefused> {
    if piece == 0 || most > 9 {
        return Err(ReadRefused::Failed);
    }
    let bytes = Bytes::from_slice(alloc, text.as_bytes())?;
    let plan = CallNumbers::from_slice(alloc, &[failing])?;
    let mut source = MemSource::new(bytes, piece, plan);
    read_all(alloc, &mut source, most)
}

/// The same, whether all of the text is read.
fn reads(
    alloc: Global,
    text: &str,
    piece: usize,
    failing: u64,
    most: usize,
) -> Result<bool, ReadRefused> {
    let bytes = read(alloc, text, piece, failing, most)?;
    Ok(bytes.as_slice() == text.as_bytes())
}

#[test]
fn reads_all_or_tells_why_not(rt: HostRuntime) {
    for (text, piece, failing, most, all) in [
        ("abc", 8, 0, 3, Ok(true)),
        ("abc", 2, 0, 4, Ok(true)),
        ("abc", 1, 5, 3, Ok(true)),
        ("", 1, 0, 0, Ok(true)),
        ("abc", 1, 4, 3, Err(ReadRefused::Failed)),
        ("abc", 8, 1, 3, Err(ReadRefused::Failed)),
        ("abc", 2, 2, 2, Err(ReadRefused::Failed)),
        ("abc", 2, 0, 2, Err(ReadRefused::TooLong)),
        ("a", 1, 2, 0, Err(ReadRefused::TooLong)),
    ] {
        assert!(rt;
            reads(rt.alloc(), text, piece, failing, most) == all,
            "{piece} {failing} {most}"
        );
    }
}

/// Whether a sink with so much room holds this much of a text that is written by pieces while one write fails, and all of it
/// where no fault is told.
fn holds(
    alloc: Global,
    text: &str,
    room: usize,
    piece: usize,
    failing: u64,
    held: &str,
) -> Result<bool, Memory> {
    if piece == 0 {
        return Err(Memory);
    }
    let plan = CallNumbers::from_slice(alloc, &[failing])?;
    let mut sink = MemSink::new(alloc, room, piece, plan)?;
    let is_whole = write_all(&mut sink, text.as_bytes()).is_ok();
    Ok(is_whole == (text == held) && sink.bytes() == held.as_bytes())
}

#[test]
fn writes_all_or_a_front(rt: HostRuntime) {
    for (text, room, piece, failing, held) in [
        ("abcdef", 6, 4, 0, "abcdef"),
        ("abcdef", 9, 1, 7, "abcdef"),
        ("", 0, 1, 1, ""),
        ("abcdef", 5, 4, 0, "abcde"),
        ("abcdef", 9, 4, 2, "abcd"),
        ("abcdef", 9, 4, 1, ""),
        ("a", 0, 4, 0, ""),
    ] {
        assert!(rt;
            holds(rt.alloc(), text, room, piece, failing, held) == Ok(true),
            "{room} {piece} {failing}"
        );
    }
}

//! Tests of the line that a reader keeps, and of a watched reader and a watched writer: their calls of the reader or
//! writer inside, and what they record.
use crate::tests::compared::{expect_same, expect_text};
use crate::tests::streams::{Filling, Given, Then};
use line_text::last_line::LineKeeper;
use line_text::reader::{ReadFailed, WatchedReader};
use line_text::writer::{WatchedWriter, WriteFailed};
use std::io::Read;
use std::test::Fail;

// Texts, and how the last line of each is shown after the text was read.
const LAST_LINES: &[(&[u8], &str)] = &[
    (b"", "     1 | "),
    (b"one", "     1 | one"),
    (b"one\n", "     1 | one"),
    (b"one\ntwo", "     2 | two"),
    (b"one\n\n", "     2 | "),
    (b"one\n\tt\xc3\xa4\r\n", "     2 | \\tt\\xc3\\xa4\\r"),
];

#[test]
fn the_last_line_is_kept(rt: HostRuntime) -> Result<(), Fail> {
    for (text, shown) in LAST_LINES {
        let mut keeper = LineKeeper::new(*text);
        let mut read = Vec::new(rt.alloc());
        let _count = keeper.read_to_end(&mut read)?;
        expect_same(&rt, read.as_slice(), *text);
        expect_text(&rt, keeper.last_line(), *shown);
    }
    Ok(())
}

#[test]
fn eighty_bytes_are_kept(rt: HostRuntime) -> Result<(), Fail> {
    let long = [b'x'; 81];
    let mut keeper = LineKeeper::new(long.as_slice());
    let mut read = Vec::new(rt.alloc());
    let _count = keeper.read_to_end(&mut read)?;
    expect_same(&rt, read.as_slice(), long.as_slice());
    expect_same(&rt, keeper.last_line().bytes(), &long[..80]);
    Ok(())
}

// Each call of the watched reader makes one call of the reader inside, and the mark is set if that call failed.
#[test]
fn reads_are_made_and_counted(rt: HostRuntime) {
    for (then, end, fails) in [
        (Then::Ends, Ok(None), false),
        (Then::Fails, Err(ReadFailed), true),
    ] {
        let mut reader = Given::new(b"ab", then);
        let mut watched = WatchedReader::new(&mut reader);
        let (first, second) = (watched.read_byte(), watched.read_byte());
        let mark = watched.has_failed();
        let reads = [first, second, watched.read_byte()];
        let marks = [mark, watched.has_failed()];
        let counts = [watched.calls(), watched.bytes(), reader.calls];
        expect_same(
            &rt,
            (reads, marks, counts),
            (
                [Ok(Some(b'a')), Ok(Some(b'b')), end],
                [false, fails],
                [3, 2, 3],
            ),
        );
    }
}

// The last of the nine bytes finds no room, and the mark is set.
#[test]
fn writes_are_whole_or_marked(rt: HostRuntime) {
    for fails in [false, true] {
        let mut writer = Filling::new(8, fails);
        let mut watched = WatchedWriter::new(&mut writer);
        let first = watched.write_whole(b"abcde");
        expect_same(&rt, (first, watched.has_failed()), (Ok(()), false));
        let second = watched.write_whole(b"fghi");
        expect_same(
            &rt,
            (second, watched.has_failed()),
            (Err(WriteFailed), true),
        );
        expect_same(
            &rt,
            (writer.taken.as_slice(), writer.calls),
            (b"abcdefgh".as_slice(), 9),
        );
    }
}

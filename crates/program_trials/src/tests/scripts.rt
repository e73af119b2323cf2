//! Tests of a script that is cut off, a reader that fails and writers that fail, at each byte; and readers that never
//! end. What scripts answer, and their faults, are rows of tests/script_rows.
use crate::tests::compared::expect_same;
use crate::tests::streams::{Filling, Given, Then};
use hoare_script::{ScriptFault, run, run_watched};
use line_text::reader::WatchedReader;
use line_text::writer::WatchedWriter;
use std::process::Abort;
use std::test::Fail;

const SCRIPT: &[u8] = b"monitor 2 1\nenter 0\nwait 0 0 0\nenter 1\nsignal 1 0\nleave 0\nleave 1\n";

const ANSWERS: &[u8] =
    b"enter 0 -> 0\nwait 0 0 0 -> free\nenter 1 -> 1\nsignal 1 0 -> 0\nleave 0 -> 1\nleave 1 -> free\n";

// Returns the answers to the first `lines` lines after the header.
fn answers_to(lines: usize) -> &'static [u8] {
    let end = match lines {
        0 => 0,
        1 => 13,
        2 => 32,
        3 => 45,
        4 => 61,
        5 => 74,
        _ => 90,
    };
    ANSWERS.get(..end).unwrap_or(ANSWERS)
}

// Returns how a run of the first `length` bytes of the script ends, and how many of their lines get an answer.
fn at_cut(length: usize) -> (Result<(), ScriptFault>, usize) {
    match length {
        0 => (Err(ScriptFault::NoHeader), 0),
        1..=10 => (Err(ScriptFault::BadHeader(1)), 0),
        11..=12 => (Ok(()), 0),
        13..=18 => (Err(ScriptFault::BadLine(2)), 0),
        19..=20 => (Ok(()), 1),
        21..=29 => (Err(ScriptFault::BadLine(3)), 1),
        30..=31 => (Ok(()), 2),
        32..=37 => (Err(ScriptFault::BadLine(4)), 2),
        38..=39 => (Ok(()), 3),
        40..=48 => (Err(ScriptFault::BadLine(5)), 3),
        49..=50 => (Ok(()), 4),
        51..=56 => (Err(ScriptFault::BadLine(6)), 4),
        57..=58 => (Ok(()), 5),
        59..=64 => (Err(ScriptFault::BadLine(7)), 5),
        _ => (Ok(()), 6),
    }
}

// Runs a script, and fails if the end or the answers differ.
fn check_run<R: Abort + AllocGlobal>(
    rt: &R,
    script: &[u8],
    then: Then,
    wanted: Result<(), ScriptFault>,
    answers: &[u8],
) {
    let mut written = Vec::new(rt.alloc());
    let result = run(rt.alloc(), &mut Given::new(script, then), &mut written);
    let found = (script.len(), result, written.as_slice());
    expect_same(rt, found, (script.len(), wanted, answers));
}

#[test]
fn script_cut_at_each_byte(rt: HostRuntime) -> Result<(), Fail> {
    for length in 0..=66usize {
        let script = SCRIPT.get(..length).ok_or("a shorter script")?;
        let (wanted, lines) = at_cut(length);
        check_run(&rt, script, Then::Ends, wanted, answers_to(lines));
    }
    Ok(())
}

#[test]
fn script_reader_fails(rt: HostRuntime) -> Result<(), Fail> {
    for length in 0..=66usize {
        let script = SCRIPT.get(..length).ok_or("a shorter script")?;
        let wanted = Err(ScriptFault::ReadFault);
        let ended = script.iter().filter(|byte| **byte == b'\n').count();
        let answers = answers_to(ended.saturating_sub(1));
        check_run(&rt, script, Then::Fails, wanted, answers);
    }
    Ok(())
}

// Runs the script with a writer of this room, and fails if the end or the bytes taken differ.
fn check_written<R: Abort + AllocGlobal>(
    rt: &R,
    room: usize,
    fails: bool,
    wanted: (Result<(), ScriptFault>, &[u8]),
) {
    let mut writer = Filling::new(room, fails);
    let mut reader = SCRIPT;
    let result = run(rt.alloc(), &mut reader, &mut writer);
    let found = (result, writer.taken.as_slice());
    expect_same(rt, (room, fails, found), (room, fails, wanted));
}

#[test]
fn script_writer_fails(rt: HostRuntime) -> Result<(), Fail> {
    for room in 0..90usize {
        let prefix = ANSWERS.get(..room).ok_or("shorter answers")?;
        let wanted = (Err(ScriptFault::WriteFault), prefix);
        check_written(&rt, room, true, wanted);
        check_written(&rt, room, false, wanted);
    }
    check_written(&rt, 90, true, (Ok(()), ANSWERS));
    check_written(&rt, 90, false, (Ok(()), ANSWERS));
    Ok(())
}

// The 257th byte makes the line too long.
#[test]
fn endless_line(rt: HostRuntime) {
    let wanted = Err(ScriptFault::LineTooLong(1));
    check_run(&rt, b"", Then::Repeats(b"e"), wanted, b"");
}

// One byte more than a script may have is read, and none after it.
#[test]
fn endless_script(rt: HostRuntime) {
    let mut reader = Given::new(b"monitor 1 1\n", Then::Repeats(b"leave 0\n"));
    let mut written = Vec::new(rt.alloc());
    let mut watched = WatchedReader::new(&mut reader);
    let mut writer = WatchedWriter::new(&mut written);
    let result = run_watched(rt.alloc(), &mut watched, &mut writer);
    let found = (result, watched.calls(), watched.bytes());
    expect_same(
        &rt,
        found,
        (Err(ScriptFault::TooMuch), 1_048_577, 1_048_577),
    );
}

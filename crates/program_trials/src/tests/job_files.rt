//! Whole job files, on both kinds of doors: what `run` writes, or why it writes nothing. A job file that is cut off, a
//! reader that fails, and writers that fail, at each byte; and a reader that never ends.
use crate::tests::compared::expect_same;
use crate::tests::streams::{Filling, Given, Then};
use disk_service::{Done, Kind, Report, ServiceFault, read_jobs, run, write_report};
use std::process::Abort;
use std::sync::Wait;
use std::test::Fail;
use std::thread::Threads;

const FILE: &[u8] = b"disk 400 1\nread 0\nread 3\nread 300\n";

const THREE_READS: &[u8] = b"job 0 cylinder 0 block 17\n\
    job 1 cylinder 3 block 26\n\
    job 2 cylinder 300 block 24481\n\
    total jobs 3 sum 24524\n";

// Job files, how a run of each ends, and what it writes.
const FILES: &[(&[u8], Result<(), ServiceFault>, &[u8])] = &[
    (FILE, Ok(()), THREE_READS),
    (
        b"disk 400 4\nread 0\nread 3\nread 300\n",
        Ok(()),
        THREE_READS,
    ),
    (
        b"disk 65535 1\nread 65535\n",
        Ok(()),
        b"job 0 cylinder 65535 block 18\ntotal jobs 1 sum 18\n",
    ),
    (b"disk 0 1\n", Ok(()), b"total jobs 0 sum 0\n"),
    (b"", Err(ServiceFault::NoHeader), b""),
    (b"disk 10 1\nread 11\n", Err(ServiceFault::BadLine(2)), b""),
    (b"disk 10 17\n", Err(ServiceFault::BadLine(1)), b""),
];

// Runs a job file on both kinds of doors, and fails if the end or the bytes written differ.
fn check<R: Threads + Wait + Abort + AllocGlobal + Sync>(
    rt: &R,
    file: &[u8],
    wanted: Result<(), ServiceFault>,
    report: &[u8],
) {
    for kind in [Kind::Baton, Kind::Ticket] {
        let mut reader = file;
        let mut written = Vec::new(rt.alloc());
        let result = run(rt, rt.alloc(), kind, &mut reader, &mut written);
        let found = (kind, result, written.as_slice());
        expect_same(rt, found, (kind, wanted, report));
    }
}

#[test]
fn job_files(rt: HostRuntime) {
    for (file, wanted, report) in FILES {
        check(&rt, *file, *wanted, *report);
    }
}

#[test]
fn one_job_too_many(rt: HostRuntime) -> Result<(), Fail> {
    let mut file = Vec::from_slice(rt.alloc(), b"disk 1 1\n")?;
    for _ in 0..4097 {
        file.extend_from_slice(b"read 1\n")?;
    }
    let wanted = Err(ServiceFault::BadLine(4098));
    check(&rt, file.as_slice(), wanted, b"");
    Ok(())
}

// Reads a job file, and fails if its cylinders or its fault differ.
fn check_read<R: Abort + AllocGlobal>(
    rt: &R,
    file: &[u8],
    then: Then,
    wanted: Result<&[u16], ServiceFault>,
) {
    let result = read_jobs(rt.alloc(), &mut Given::new(file, then));
    let found = match &result {
        Ok(jobs) => Ok(jobs.cylinders()),
        Err(fault) => Err(*fault),
    };
    expect_same(rt, (file.len(), found), (file.len(), wanted));
}

// Returns the cylinders that the first `length` bytes of the file spell, or their fault.
fn at_cut(length: usize) -> Result<&'static [u16], ServiceFault> {
    match length {
        0 => Err(ServiceFault::NoHeader),
        1..=9 => Err(ServiceFault::BadLine(1)),
        10..=11 => Ok(&[]),
        12..=16 => Err(ServiceFault::BadLine(2)),
        17..=18 => Ok(&[0]),
        19..=23 => Err(ServiceFault::BadLine(3)),
        24..=25 => Ok(&[0, 3]),
        26..=30 => Err(ServiceFault::BadLine(4)),
        31 => Ok(&[0, 3, 3]),
        32 => Ok(&[0, 3, 30]),
        _ => Ok(&[0, 3, 300]),
    }
}

#[test]
fn reads_each_beginning(rt: HostRuntime) -> Result<(), Fail> {
    for length in 0..=34usize {
        let file = FILE.get(..length).ok_or("a shorter file")?;
        check_read(&rt, file, Then::Ends, at_cut(length));
        check_read(&rt, file, Then::Fails, Err(ServiceFault::ReadFault));
    }
    Ok(())
}

#[test]
fn no_letters(rt: HostRuntime) {
    let file = b"disk 65535 1\nread \xff\n";
    check_read(&rt, file, Then::Ends, Err(ServiceFault::BadLine(2)));
    check_read(&rt, b"", Then::Repeats(b"e"), Err(ServiceFault::BadLine(1)));
}

// Writes the report while there is room for it, and fails if the end or the bytes taken differ.
fn check_written<R: Abort>(
    rt: &R,
    report: &Report,
    room: usize,
    fails: bool,
    wanted: (Result<(), ServiceFault>, &[u8]),
) {
    let mut writer = Filling::new(room, fails);
    let result = write_report(report, &mut writer);
    expect_same(rt, (result, writer.taken.as_slice()), wanted);
}

#[test]
fn writes_each_beginning(rt: HostRuntime) -> Result<(), Fail> {
    let report = Report {
        lines: vec![in rt.alloc(); Done::of(0, 0), Done::of(1, 3), Done::of(2, 300)]?,
        jobs: 3,
        sum: 24524,
    };
    for room in 0..106usize {
        let prefix = THREE_READS.get(..room).ok_or("a shorter report")?;
        let wanted = (Err(ServiceFault::WriteFault), prefix);
        check_written(&rt, &report, room, true, wanted);
        check_written(&rt, &report, room, false, wanted);
    }
    check_written(&rt, &report, 106, true, (Ok(()), THREE_READS));
    check_written(&rt, &report, 106, false, (Ok(()), THREE_READS));
    Ok(())
}

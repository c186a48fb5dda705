//! Readers that give a byte at a time, that fail, and that are interrupted.
use crate::compared::{check_bytes, check_text};
use occ_files::{CountedReader, InputFault, Reason, read_input};
use std::alloc::Global;
use std::io;
use std::io::{ErrorKind, Read};
use std::process::Abort;

const TEXT: &[u8] = b"abcdef";

/// Gives a byte a read. The read with the one number fails, and each second one, from the first on, may be interrupted.
#[derive(Drop)]
pub(crate) struct Halting {
    rest: &'static [u8],
    reads: u32,
    fails_at: u32,
    is_interrupted: bool,
}

impl Halting {
    /// These bytes; the read with this number fails.
    pub(crate) fn failing(rest: &'static [u8], fails_at: u32) -> Halting {
        Halting {
            rest,
            reads: 0,
            fails_at,
            is_interrupted: false,
        }
    }

    /// How many reads there were.
    pub(crate) fn reads(&self) -> u32 {
        self.reads
    }
}

impl Read for Halting {
    fn read(&mut self, bytes: &mut [u8]) -> io::Result<usize> {
        let number = self.reads;
        self.reads = number.wrapping_add(1);
        if number == self.fails_at {
            return Err(io::Error::from(ErrorKind::Other));
        }
        if self.is_interrupted && number % 2 == 0 {
            return Err(io::Error::from(ErrorKind::Interrupted));
        }
        if bytes.is_empty() || self.rest.is_empty() {
            return Ok(0);
        }
        bytes[0] = self.rest[0];
        self.rest = &self.rest[1..];
        Ok(1)
    }
}

const NEVER: u32 = 1_000;

/// The number of the read that fails, whether reads are interrupted, and how much is asked for; then what comes of that: the bytes or
/// the fault, how many reads failed, how many of these were interrupted, and what the reader has left.
#[derive(Clone, Copy)]
struct Row(
    u32,
    bool,
    usize,
    Result<&'static [u8], InputFault>,
    u64,
    u64,
    &'static [u8],
);

const FAILED: InputFault = InputFault::Read(Reason::Other(0));

static ROWS: [Row; 9] = [
    Row(NEVER, false, usize::MAX, Ok(TEXT), 0, 0, b""),
    // none are asked for
    Row(0, false, 0, Ok(b""), 0, 0, TEXT),
    // one fewer than there are, as many, and one more
    Row(NEVER, false, 5, Ok(b"abcde"), 0, 0, b"f"),
    Row(6, false, 6, Ok(TEXT), 0, 0, b""),
    Row(NEVER, false, 7, Ok(TEXT), 0, 0, b""),
    // the end itself can't be read
    Row(6, false, 7, Err(FAILED), 1, 0, b""),
    // before each byte, and before the end, a read is interrupted
    Row(NEVER, true, usize::MAX, Ok(TEXT), 7, 7, b""),
    Row(5, true, usize::MAX, Err(FAILED), 4, 3, b"cdef"),
    Row(NEVER, true, 2, Ok(b"ab"), 2, 2, b"cdef"),
];

fn check_read(
    rt: &impl Abort,
    read: Result<Vec<u8>, InputFault>,
    wanted: Result<&'static [u8], InputFault>,
) {
    match (read, wanted) {
        (Ok(bytes), Ok(text)) => check_bytes(rt, "the input", bytes.as_slice(), text),
        (Err(fault), Err(other)) => assert!(rt; fault == other),
        _ => assert!(rt; false, "another answer"),
    }
}

fn check_row(rt: &impl Abort, alloc: Global, row: &Row) {
    let mut halting = Halting {
        rest: TEXT,
        reads: 0,
        fails_at: row.0,
        is_interrupted: row.1,
    };
    let mut reader = CountedReader::new(&mut halting);
    let read = read_input(alloc, &mut reader, row.2);
    let (failures, interruptions) = (reader.failures(), reader.interruptions());
    drop(reader);
    check_read(rt, read, row.3);
    assert!(rt; failures == row.4);
    assert!(rt; interruptions == row.5);
    check_bytes(rt, "the rest", halting.rest, row.6);
}

#[test]
fn inputs_are_read_whole(rt: HostRuntime) {
    for row in &ROWS {
        check_row(&rt, rt.alloc(), row);
    }
}

/// Wherever a read fails, the input is refused, and what the reader has left is what it had then.
#[test]
fn each_failed_read_is_told(rt: HostRuntime) {
    for k in 0..6usize {
        let row = Row(k as u32, false, usize::MAX, Err(FAILED), 1, 0, &TEXT[k..]);
        check_row(&rt, rt.alloc(), &row);
    }
}

/// A source that has no end is read to one byte more than it may have.
#[test]
fn an_endless_source_is_cut(rt: HostRuntime) {
    let mut reader = CountedReader::new(io::repeat(b' '));
    let read = read_input(rt.alloc(), &mut reader, 1_048_577);
    let length = read.map(|bytes| bytes.len());
    assert!(rt; matches!(length, Ok(1_048_577)));
    assert!(rt; reader.failures() == 0);
}

fn check_fault(rt: &impl Abort, alloc: Global, fault: &InputFault, wanted: &str) {
    let told = format!(in alloc; "{fault}").expect(rt, "memory");
    check_text(rt, wanted, told.as_str(), wanted);
}

#[test]
fn faults_of_reading_have_their_lines(rt: HostRuntime) {
    let folder = InputFault::Read(Reason::Folder);
    check_fault(&rt, rt.alloc(), &folder, "read failed");
    check_fault(&rt, rt.alloc(), &InputFault::Memory, "memory");
}

//! Checking tracked readers and writers: they pass each call on, and remember failures.

use crate::checks::Checks;
use crate::scripted::{Answer, Scripted};
use anyhow::Result;
use std::alloc::Global;
use std::io;
use std::io::{ErrorKind, Read, Write};
use vga_bits::{Fault, Tracked, flush, read_prefix, write_whole};

const BROKEN: ErrorKind = ErrorKind::BrokenPipe;

const FULL: ErrorKind = ErrorKind::StorageFull;

/// The kind of a call's error, if it fails.
fn kind_of<T: Drop>(answer: io::Result<T>) -> Option<ErrorKind> {
    match answer {
        Ok(_) => None,
        Err(error) => Some(error.kind()),
    }
}

/// How many bytes a read gives, unless it fails.
fn read_len(reader: &mut Tracked<Scripted>, buffer: &mut [u8]) -> Option<usize> {
    reader.read(buffer).ok()
}

/// How many bytes a write takes, unless it fails.
fn written_len(writer: &mut Tracked<Scripted>, bytes: &[u8]) -> Option<usize> {
    writer.write(bytes).ok()
}

/// Checks that each read is passed on and counted.
fn check_reads(alloc: Global, checks: &mut Checks) {
    let answers = [
        Answer::Bytes(3),
        Answer::Bytes(0),
        Answer::Error(BROKEN),
        Answer::Bytes(2),
    ];
    let mut reader = Scripted::of(alloc, &answers);
    let mut buffer = *b"....";
    let some = read_len(&mut reader, &mut buffer) == Some(3) && buffer == *b"***.";
    checks.note("a read of some bytes", some);
    let end = read_len(&mut reader, &mut buffer) == Some(0) && !reader.failed();
    checks.note("a read at the end", end && reader.read_count() == 3);
    let kind = kind_of(reader.read(&mut buffer));
    checks.note("a read that fails", kind == Some(BROKEN) && reader.failed());
    let again = read_len(&mut reader, &mut buffer) == Some(2) && reader.failed();
    checks.note("a read behind a failure", again && reader.read_count() == 5);
    checks.note("one call for each read", reader.into_inner().has_taken(b""));
}

/// Checks that each write is passed on.
fn check_writes(alloc: Global, checks: &mut Checks) {
    let answers = [
        Answer::Bytes(0),
        Answer::Bytes(2),
        Answer::Bytes(0),
        Answer::Error(FULL),
    ];
    let mut writer = Scripted::of(alloc, &answers);
    let none = written_len(&mut writer, b"") == Some(0);
    checks.note("a write of nothing", none && !writer.failed());
    let some = written_len(&mut writer, b"abc") == Some(2);
    checks.note("a write of some bytes", some && !writer.failed());
    let refused = written_len(&mut writer, b"c") == Some(0);
    checks.note("a write that takes nothing", refused && writer.failed());
    let kind = kind_of(writer.write(b"c"));
    checks.note("a write that fails", kind == Some(FULL));
    checks.note(
        "one call for each write",
        writer.into_inner().has_taken(b"ab"),
    );
}

/// Checks that each flush is passed on.
fn check_flushes(alloc: Global, checks: &mut Checks) {
    let answers = [Answer::Bytes(0), Answer::Error(FULL)];
    let mut writer = Scripted::of(alloc, &answers);
    let flushed = writer.flush().is_ok() && !writer.failed();
    checks.note("a flush", flushed);
    let kind = kind_of(writer.flush());
    checks.note("a flush that fails", kind == Some(FULL) && writer.failed());
    checks.note(
        "one call for each flush",
        writer.into_inner().has_taken(b""),
    );
    let mut writer = Scripted::of(alloc, &answers[1..]);
    let answer = flush(&mut writer);
    checks.note("the fault of a flush", answer == Err(Fault::WriteFault));
}

/// Checks that bytes are written in pieces, as they are taken.
fn check_pieces(alloc: Global, checks: &mut Checks) {
    let answers = [Answer::Bytes(1), Answer::Bytes(3), Answer::Bytes(9)];
    let mut writer = Scripted::of(alloc, &answers);
    let written = write_whole(&mut writer, b"9 55\n").is_ok() && !writer.failed();
    checks.note(
        "bytes in pieces",
        written && writer.into_inner().has_taken(b"9 55\n"),
    );
    let mut writer = Scripted::of(alloc, &answers[..2]);
    let refused = write_whole(&mut writer, b"9 55\n") == Err(Fault::WriteFault) && writer.failed();
    checks.note(
        "a prefix of the bytes",
        refused && writer.into_inner().has_taken(b"9 55"),
    );
}

/// Checks that the prefix of a reader is read, and no more.
fn check_prefix(alloc: Global, checks: &mut Checks) -> Result<()> {
    let mut reader = Tracked::new(b"VGAS".as_slice());
    let none = read_prefix(alloc, &mut reader, 0)?;
    checks.note("no bytes of a reader", none.is_empty());
    let prefix = read_prefix(alloc, &mut reader, 3)?;
    checks.note(
        "the prefix of a reader",
        prefix.as_slice() == b"VGA".as_slice(),
    );
    let rest = read_prefix(alloc, &mut reader, 3)?;
    checks.note("the rest of a reader", rest.as_slice() == b"S".as_slice());
    checks.note(
        "bytes that were read",
        !reader.failed() && reader.read_count() == 4,
    );
    Ok(())
}

/// Checks that a prefix is read in pieces, as they come, and that a failure after it is a fault.
fn check_prefix_in_pieces(alloc: Global, checks: &mut Checks) -> Result<()> {
    let answers = [Answer::Bytes(1), Answer::Bytes(3), Answer::Error(BROKEN)];
    let mut reader = Scripted::of(alloc, &answers);
    let prefix = read_prefix(alloc, &mut reader, 4)?;
    checks.note(
        "a prefix in pieces",
        prefix.as_slice() == b"****".as_slice() && !reader.failed(),
    );
    let fault = read_prefix(alloc, &mut reader, 1).err();
    checks.note(
        "a reader that fails",
        fault == Some(Fault::ReadFault) && reader.failed(),
    );
    Ok(())
}

/// Checks tracked readers and writers.
pub fn check_tracking(alloc: Global) -> Result<Checks> {
    let mut checks = Checks::new();
    check_reads(alloc, &mut checks);
    check_writes(alloc, &mut checks);
    check_flushes(alloc, &mut checks);
    check_pieces(alloc, &mut checks);
    check_prefix(alloc, &mut checks)?;
    check_prefix_in_pieces(alloc, &mut checks)?;
    Ok(checks)
}

//! Checking runs of scripts at hand; and runs with readers and writers that fail, that never end,
//! or that take one byte a call.

use crate::checks::Checks;
use crate::sink::{FULL, Full, Sink};
use crate::source::{Endless, Source};
use anyhow::Result;
use std::alloc::{AllocError, Global};
use std::io::ErrorKind;
use vga_bits::{Fault, Tracked};
use vga_run::{run, run_bytes, run_script};
use vga_script::assemble;

/// The size of a font file.
const FONTS_LEN: usize = 9728;

/// A script of nine steps: a byte is written to plane 0, and read back.
const FIRST_PATH: [u8; 44] = *b"VGAS\x01\
    \x01\xC2\x03\x02\
    \x01\xC4\x03\x04\
    \x01\xC5\x03\x06\
    \x01\xC4\x03\x02\
    \x01\xC5\x03\x01\
    \x01\xCE\x03\x08\
    \x01\xCF\x03\xFF\
    \x05\x00\x00\x0A\x00\x55\
    \x07\x00\x00\x0A\x00";

/// Its report.
const FIRST_REPORT: [u8; 45] = *b"1 ok\n2 ok\n3 ok\n4 ok\n5 ok\n6 ok\n7 ok\n8 ok\n9 55\n";

/// The text of a script with the same steps.
const FIRST_TEXT: &[u8] =
    b"out 3C2 2\nout 3C4 4\nout 3C5 6\nout 3C4 2\nout 3C5 1\nout 3CE 8\nout 3CF FF\n\
    put A0000 55\nget A0000";

/// How readers fail: how many bytes each call gives, and the kind of the error after them. Other
/// code might read again after `Interrupted`.
const READERS: [(usize, ErrorKind); 4] = [
    (1, ErrorKind::Other),
    (1, ErrorKind::Interrupted),
    (7, ErrorKind::Other),
    (7, ErrorKind::Interrupted),
];

/// Whether bytes at hand give this answer with these fonts, and this report.
fn is_bytes_run(
    alloc: Global,
    bytes: &[u8],
    fonts: &[u8],
    answer: Result<(), Fault>,
    report: &[u8],
) -> bool {
    let mut out = Tracked::new(Vec::new(alloc));
    let answered = run_bytes(alloc, bytes, fonts, &mut out, None);
    let written = out.into_inner();
    answered == answer && written.as_slice() == report
}

/// Whether steps at hand give this answer with these fonts, and this report.
fn is_script_run(
    alloc: Global,
    fonts: &[u8],
    answer: Result<(), Fault>,
    report: &[u8],
) -> Result<bool, Fault> {
    let script = assemble(alloc, FIRST_TEXT)?;
    let mut out = Tracked::new(Vec::new(alloc));
    let answered = run_script(alloc, &script, fonts, &mut out, None);
    Ok(answered == answer && out.into_inner().as_slice() == report)
}

/// Checks scripts at hand: their reports, and that the size of the font file is checked before the
/// bytes.
fn check_scripts_at_hand(alloc: Global, fonts: &[u8], checks: &mut Checks) -> Result<(), Fault> {
    let font_size = Err(Fault::FontSize);
    let bad_magic = Err(Fault::BadMagic);
    checks.note(
        "bytes at hand",
        is_bytes_run(alloc, &FIRST_PATH, fonts, Ok(()), &FIRST_REPORT),
    );
    checks.note(
        "steps at hand",
        is_script_run(alloc, fonts, Ok(()), &FIRST_REPORT)?,
    );
    checks.note(
        "bytes that are no script",
        is_bytes_run(alloc, b"VGA", fonts, bad_magic, b""),
    );
    checks.note(
        "fonts before bytes",
        is_bytes_run(alloc, b"VGA", &[], font_size, b""),
    );
    checks.note(
        "fonts before steps",
        is_script_run(alloc, &[], font_size, b"")?,
    );
    Ok(())
}

/// Whether a font file of another size is refused before anything is read or written.
fn is_font_size_first(alloc: Global, fonts: &[u8]) -> bool {
    let mut reader = Tracked::new(Source::of(b"VGAX", 4, ErrorKind::Other));
    let mut out = Sink::new(alloc, 100, Full::Fails);
    let answer = run(alloc, &mut reader, fonts, &mut out, None);
    let is_read = reader.failed() || reader.into_inner().calls() > 0;
    let is_written = out.failed() || out.into_inner().calls() > 0;
    answer == Err(Fault::FontSize) && !is_read && !is_written
}

/// Whether a reader that gives these bytes, `piece` a call, and then fails leaves the writer
/// unchanged.
fn is_writer_left(
    alloc: Global,
    fonts: &[u8],
    prefix: &[u8],
    piece: usize,
    kind: ErrorKind,
) -> bool {
    let mut reader = Tracked::new(Source::of(prefix, piece, kind));
    let mut out = Sink::new(alloc, 100, Full::Fails);
    let answer = run(alloc, &mut reader, fonts, &mut out, None);
    answer == Err(Fault::ReadFault)
        && reader.failed()
        && !out.failed()
        && out.into_inner().calls() == 0
}

/// Whether that holds for each place where the reader may fail, before, in and after the script.
fn are_writers_left(alloc: Global, fonts: &[u8], piece: usize, kind: ErrorKind) -> bool {
    for len in 0..FIRST_PATH.len() + 1 {
        if !is_writer_left(alloc, fonts, &FIRST_PATH[..len], piece, kind) {
            return false;
        }
    }
    true
}

/// Whether a reader that never ends gives one byte more than the longest script has, and no more.
fn is_endless_too_long(alloc: Global, fonts: &[u8]) -> bool {
    let mut reader = Tracked::new(Endless::new());
    let mut out = Sink::new(alloc, 100, Full::Fails);
    let answer = run(alloc, &mut reader, fonts, &mut out, None);
    answer == Err(Fault::TooLong)
        && reader.into_inner().given() == 16_777_217
        && out.into_inner().calls() == 0
}

/// Whether a run into a writer that takes one byte a call, and has room for this prefix, returns
/// this answer; and whether the writer then has the prefix and was flushed this often.
fn takes(
    alloc: Global,
    fonts: &[u8],
    room: usize,
    full: Full,
    answer: Result<(), Fault>,
    prefix: &[u8],
    flushes: usize,
) -> bool {
    let mut reader = Tracked::new(FIRST_PATH.as_slice());
    let mut out = Sink::new(alloc, room, full);
    let answered = run(alloc, &mut reader, fonts, &mut out, None);
    let failed = out.failed();
    let sink = out.into_inner();
    answered == answer
        && failed == answer.is_err()
        && sink.bytes() == prefix
        && sink.flushes() == flushes
}

/// Checks font files of other sizes.
fn check_font_sizes(alloc: Global, checks: &mut Checks) -> Result<(), AllocError> {
    for len in [0, FONTS_LEN - 1, FONTS_LEN + 1] {
        let other = vec![in alloc; 0; len]?;
        checks.note(
            "the size of the fonts",
            is_font_size_first(alloc, other.as_slice()),
        );
    }
    Ok(())
}

/// Checks readers that fail, and readers that never end.
fn check_readers(alloc: Global, fonts: &[u8], checks: &mut Checks) {
    for (piece, kind) in READERS {
        checks.note(
            "a reader that fails",
            are_writers_left(alloc, fonts, piece, kind),
        );
    }
    checks.note("a reader with no end", is_endless_too_long(alloc, fonts));
}

/// Whether each writer with too little room for the report fails, and has a prefix of it.
fn are_prefixes_taken(alloc: Global, fonts: &[u8], full: Full) -> bool {
    let fault = Err(Fault::WriteFault);
    for room in 0..FIRST_REPORT.len() {
        if !takes(alloc, fonts, room, full, fault, &FIRST_REPORT[..room], 0) {
            return false;
        }
    }
    true
}

/// Checks writers that take one byte a call, and writers that fail.
fn check_writers(alloc: Global, fonts: &[u8], checks: &mut Checks) {
    let len = FIRST_REPORT.len();
    let fault = Err(Fault::WriteFault);
    for full in FULL {
        checks.note(
            "a byte a call",
            takes(alloc, fonts, len + 1, full, Ok(()), &FIRST_REPORT, 1),
        );
        checks.note(
            "a flush that fails",
            takes(alloc, fonts, len, full, fault, &FIRST_REPORT, 1),
        );
        checks.note(
            "a writer that fails",
            are_prefixes_taken(alloc, fonts, full),
        );
    }
}

/// Checks runs.
pub fn check_runs(alloc: Global) -> Result<Checks> {
    let mut checks = Checks::new();
    let fonts = vec![in alloc; 0; FONTS_LEN]?;
    check_scripts_at_hand(alloc, fonts.as_slice(), &mut checks)?;
    check_font_sizes(alloc, &mut checks)?;
    check_readers(alloc, fonts.as_slice(), &mut checks);
    check_writers(alloc, fonts.as_slice(), &mut checks);
    Ok(checks)
}

//! Checking texts of scripts: their bytes and their printed text, worked out by hand, and texts
//! with a fault.

use crate::checks::Checks;
use crate::script_bytes::step_count;
use anyhow::Result;
use std::alloc::{AllocError, Global};
use vga_bits::Fault;
use vga_script::{assemble, decode, encode, print};

/// The length of the longest text.
const LIMIT: usize = 16_777_216;

/// A line for each step.
const EVERY_STEP: &[u8] =
    b"out 3c4 2\noutw 3ce ff08\nin 3da\ninw 3C4\nput b8000 41\nputw 1234567 741\n\
    get 0\ngetw FFFFffff\nint bx=1 cx=FfFf block 00fF\nadvance 007\nframe\nshow regs\nSHOW Dac 1f\n\
    show BEAM\nshow latches\nshow plane 2 0 00256\nshow plane 3 ffFf 1\nshow bda\nshow Cells";

/// How those lines are printed.
const EVERY_STEP_PRINTED: &[u8] = b"out 3C4 02\noutw 3CE FF08\nin 3DA\ninw 3C4\nput B8000 41\n\
    putw 1234567 0741\nget 00000\ngetw FFFFFFFF\n\
    int ax=0000 bx=0001 cx=FFFF dx=0000 block 00FF\nadvance 7\nframe\nshow regs\nshow dac 1F\n\
    show beam\nshow latches\nshow plane 2 0000 256\nshow plane 3 FFFF 1\nshow bda\nshow cells\n";

/// Their bytes.
const EVERY_STEP_BYTES: &[u8] =
    b"VGAS\x01\x01\xC4\x03\x02\x02\xCE\x03\x08\xFF\x03\xDA\x03\x04\xC4\x03\
    \x05\x00\x80\x0B\x00\x41\x06\x67\x45\x23\x01\x41\x07\x07\x00\x00\x00\x00\x08\xFF\xFF\xFF\xFF\
    \x09\x00\x00\x01\x00\xFF\xFF\x00\x00\x02\x00\x00\xFF\x0A\x07\x00\x00\x00\x0B\
    \x0C\x00\x0C\x01\x1F\x0C\x02\x0C\x03\x0C\x04\x02\x00\x00\x00\x01\
    \x0C\x04\x03\xFF\xFF\x01\x00\x0C\x05\x0C\x06";

/// Numbers of few digits and of many.
const NUMBERS: &[u8] = b"in 0\nin fff\nin 1000\nget fffff\nget 100000\nget fffffff\nget 10000000\n\
    advance 4294967295\nadvance 000000000000000000000";

/// How they are printed.
const NUMBERS_PRINTED: &[u8] =
    b"in 000\nin FFF\nin 1000\nget FFFFF\nget 100000\nget FFFFFFF\nget 10000000\n\
    advance 4294967295\nadvance 0\n";

/// Lines with missing words, or too many.
const MISCOUNTED_WORDS: &[u8] =
    b"out 3C4\nout\noutw 3C4 1 2\nin\nin 3DA 0\nput A0000\nget\nadvance\nadvance 1 2\nframe 1\n\
    int block\nint block 00 00";

/// Lines with too many digits, or none.
const BAD_DIGITS: &[u8] =
    b"in 003DA\nout 3C4 002\noutw 3C4 00002\nput 0000A0000 1\ngetw 123456789\nint ax=\n\
    int ax=00013\nint block 0\nint block 000\nint block 0G\nint block +0\nin +3DA\nin 0x3DA\n\
    in 3D:\nin 3DG\nadvance 4294967296\nadvance 99999999999999999999\nadvance -1\nadvance A";

/// Lines with registers out of order, twice, or with a blank.
const BAD_REGISTERS: &[u8] =
    b"int bx=1 ax=1\nint ax=1 ax=1\nint dx=1 cx=1\nint ax= 1\nint ax =1\nint ex=1\n\
    int block 00 ax=1";

/// Dumps without a name, with an unknown one, or with too many words or too few.
const BAD_LOOKS: &[u8] =
    b"show\nshow cells 0\nshow reg\nregs\nshow regs x\nshow beam 0\nshow latches 0\nshow bda 0\n\
    show dac\nshow dac 100\nshow dac 1 2\nshow plane 0 0\nshow plane 0 0 1 1";

/// Dumps of a plane that does not exist, with too many digits, of no bytes or too many, or past the
/// end.
const BAD_PLANES: &[u8] =
    b"show plane 4 0 1\nshow plane 10 0 1\nshow plane 2 10000 1\nshow plane 2 0 0\n\
    show plane 2 0 257\nshow plane 2 0 A\nshow plane 2 FFFF 2";

/// Lines with words that are no names.
const BAD_NAMES: &[u8] =
    b"outb 3C4 2\nversion 3\nrepeat 2\n\xC3\xB6ut 3C4 2\nin\x0C3DA\nin 3DA\x00\nin 3DA\x80";

/// The bytes and the printed text of a text's script. The bytes are decoded before they are
/// printed.
fn there_and_back(alloc: Global, text: &[u8]) -> Result<(Vec<u8>, Vec<u8>), Fault> {
    let assembled = assemble(alloc, text)?;
    let bytes = encode(alloc, &assembled)?;
    let script = decode(alloc, bytes.as_slice())?;
    let printed = print(alloc, &script)?;
    Ok((bytes, printed))
}

/// The fault of a text, if it has one.
fn text_fault(alloc: Global, text: &[u8]) -> Option<Fault> {
    assemble(alloc, text).err()
}

/// Whether a text with a line of every step has the right bytes, and is printed in full.
fn is_every_step_spelled(alloc: Global, text: &[u8]) -> Result<bool, Fault> {
    let (bytes, printed) = there_and_back(alloc, text)?;
    let script = assemble(alloc, text)?;
    let count = step_count(&script);
    Ok(
        bytes.as_slice() == EVERY_STEP_BYTES
            && printed.as_slice() == EVERY_STEP_PRINTED
            && count == 19,
    )
}

/// Whether numbers are printed with the right digits.
fn are_numbers_in_full(alloc: Global) -> Result<bool, Fault> {
    let (_bytes, printed) = there_and_back(alloc, NUMBERS)?;
    Ok(printed.as_slice() == NUMBERS_PRINTED)
}

/// Whether a bad line is found by its number, as the first and as the fourth line of a text.
fn is_bad_line(alloc: Global, line: &[u8]) -> Result<bool, AllocError> {
    let mut text = Vec::from_slice(alloc, b"\r\n; in\nframe\n")?;
    text.extend_from_slice(line)?;
    text.extend_from_slice(b" ; bad\r\nnor this\n")?;
    Ok(
        text_fault(alloc, line) == Some(Fault::BadLine(1))
            && text_fault(alloc, text.as_slice()) == Some(Fault::BadLine(4)),
    )
}

/// Texts in which each line is bad.
const BAD_TEXTS: [&[u8]; 6] = [
    MISCOUNTED_WORDS,
    BAD_DIGITS,
    BAD_REGISTERS,
    BAD_LOOKS,
    BAD_PLANES,
    BAD_NAMES,
];

/// Checks that each of these lines is bad.
fn check_bad_lines(alloc: Global, lines: &[u8], checks: &mut Checks) -> Result<()> {
    for line in lines.split(|byte| *byte == b'\n') {
        checks.note("a bad line", is_bad_line(alloc, line)?);
    }
    Ok(())
}

/// The line of a call of the BIOS with a block of `len` bytes.
fn block_line(alloc: Global, len: usize) -> Result<Vec<u8>, AllocError> {
    let mut text = Vec::from_slice(alloc, b"int block ")?;
    for _ in 0..len {
        text.extend_from_slice(b"a5")?;
    }
    Ok(text)
}

/// Whether a block of 65,535 bytes is read and printed, and a longer one is not.
fn is_longest_block_read(alloc: Global) -> Result<bool> {
    let text = block_line(alloc, 65_535)?;
    let (bytes, printed) = there_and_back(alloc, text.as_slice())?;
    let longer = block_line(alloc, 65_536)?;
    Ok(
        bytes.len() == 5 + 11 + 65_535
            && printed.len() == 35 + 7 + 131_070 + 1
            && text_fault(alloc, longer.as_slice()) == Some(Fault::BadLine(1)),
    )
}

/// Whether a text of 16,777,216 bytes is read and a longer one is not, whatever its first line is.
fn is_longest_text_read(alloc: Global) -> Result<bool, AllocError> {
    let mut text = vec![in alloc; b';'; LIMIT]?;
    let longest = text_fault(alloc, text.as_slice());
    text.push(b'\n')?;
    let longer = text_fault(alloc, text.as_slice());
    let bad = vec![in alloc; b'?'; LIMIT + 1]?;
    let too_long = Some(Fault::TooLong);
    Ok(longest.is_none() && longer == too_long && text_fault(alloc, bad.as_slice()) == too_long)
}

/// Checks texts without a fault.
fn check_good_texts(alloc: Global, checks: &mut Checks) -> Result<(), Fault> {
    checks.note("every step", is_every_step_spelled(alloc, EVERY_STEP)?);
    checks.note(
        "every printed step",
        is_every_step_spelled(alloc, EVERY_STEP_PRINTED)?,
    );
    checks.note("numbers in full", are_numbers_in_full(alloc)?);
    Ok(())
}

/// Checks texts in which each line is bad.
fn check_bad_texts(alloc: Global, checks: &mut Checks) -> Result<()> {
    for lines in BAD_TEXTS {
        check_bad_lines(alloc, lines, checks)?;
    }
    Ok(())
}

/// Checks texts of scripts.
pub fn check_script_texts(alloc: Global) -> Result<Checks> {
    let mut checks = Checks::new();
    check_good_texts(alloc, &mut checks)?;
    check_bad_texts(alloc, &mut checks)?;
    checks.note("the longest block", is_longest_block_read(alloc)?);
    checks.note("the longest text", is_longest_text_read(alloc)?);
    Ok(checks)
}

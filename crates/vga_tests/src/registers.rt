//! Checking registers under masks, bytes, and texts with their digits, on values worked out by
//! hand.

use crate::checks::Checks;
use anyhow::Result;
use std::alloc::Global;
use vga_bits::{Bytes, Fault, RegFile, TextBuffer, hex_digit};

/// Checks a register file, in which each register keeps the bits of its mask.
fn check_masks(checks: &mut Checks) {
    let mut registers = RegFile::new([0x0F, 0x3D, 0xFF]);
    checks.note("a register at first", registers.read(1) == 0);
    registers.write(1, 0xFF);
    checks.note("a register under its mask", registers.read(1) == 0x3D);
    checks.note(
        "the others",
        registers.read(0) == 0 && registers.read(2) == 0,
    );
    checks.note("its bits", registers.bit(1, 5) && !registers.bit(1, 1));
    checks.note("a field", registers.field(1, 5, 2) == 0xF);
    checks.note("the lowest field", registers.field(1, 2, 0) == 5);
    checks.note("the widest field", registers.field(1, 7, 0) == 0x3D);
}

/// Whether a byte of a copy is set.
fn is_copy_set(alloc: Global) -> Result<bool, Fault> {
    let mut copy = Bytes::copy(alloc, b"VGA")?;
    copy.set(1, b'C');
    Ok(copy.as_slice() == b"VCA".as_slice())
}

/// Whether there are as many zeros as asked for.
fn are_zeros(alloc: Global, zeros: &[u8]) -> Result<bool, Fault> {
    let bytes = Bytes::zeros(alloc, zeros.len())?;
    Ok(bytes.as_slice() == zeros)
}

/// Whether the bytes of a vector are kept.
fn are_bytes_kept(alloc: Global, items: Vec<u8>, wanted: &[u8]) -> Result<bool, Fault> {
    let kept = Bytes::from_vec(alloc, items)?;
    Ok(kept.as_slice() == wanted)
}

/// Checks bytes that are copied, cleared and set.
fn check_bytes(alloc: Global, checks: &mut Checks) -> Result<()> {
    checks.note("a copy with another byte", is_copy_set(alloc)?);
    checks.note("zeros", are_zeros(alloc, &[0, 0, 0])?);
    checks.note("no bytes", are_zeros(alloc, &[])?);
    let sevens = vec![in alloc; 7; 2]?;
    let is_kept = are_bytes_kept(alloc, sevens, &[7, 7])?;
    checks.note("the bytes of a vector", is_kept);
    let is_empty = are_bytes_kept(alloc, Vec::new(alloc), &[])?;
    checks.note("those of an empty one", is_empty);
    Ok(())
}

/// Checks appending to a text.
fn check_text(checks: &mut Checks) {
    let mut text: TextBuffer<52> = TextBuffer::new();
    checks.note("no text", text.len() == 0);
    text.push(b"port ");
    text.push_hex_word(0x03DA);
    text.push(b":");
    text.push_hex_byte(0x0C);
    checks.note(
        "a text",
        text.as_slice() == b"port 03DA:0C".as_slice() && text.len() == 12,
    );
    text.push(b" dots ");
    text.push_decimal(4294967295);
    text.push(b" at ");
    text.push_decimal_size(18446744073709551615);
    let whole = b"port 03DA:0C dots 4294967295 at 18446744073709551615";
    checks.note(
        "a full text",
        text.as_slice() == whole.as_slice() && text.len() == 52,
    );
    text.truncate(7);
    text.push_hex(0x1C0FE, 4);
    checks.note(
        "a text that was cut",
        text.as_slice() == b"port 03C0FE".as_slice(),
    );
}

/// Checks the digits.
fn check_digits(checks: &mut Checks) {
    let digits = *b"0123456789ABCDEF";
    for n in 0..16u8 {
        checks.note("a digit", hex_digit(n) == digits[n as usize]);
    }
}

/// Checks registers, bytes and texts.
pub fn check_registers_bytes_and_texts(alloc: Global) -> Result<Checks> {
    let mut checks = Checks::new();
    check_masks(&mut checks);
    check_bytes(alloc, &mut checks)?;
    check_text(&mut checks);
    check_digits(&mut checks);
    Ok(checks)
}

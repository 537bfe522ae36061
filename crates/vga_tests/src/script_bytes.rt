//! Checking scripts as bytes: where a bad step, or one that is cut off, is found.

use crate::checks::Checks;
use anyhow::Result;
use std::alloc::{AllocError, Global};
use vga_bits::Fault;
use vga_script::{Script, decode, encode};

/// The length of the longest script.
const LIMIT: usize = 16_777_216;

/// A script of one step, in 8 bytes.
const PREFIX: &[u8] = b"VGAS\x01\x03\xDA\x03";

/// A whole step of each opcode.
const STEPS: [&[u8]; 19] = [
    b"\x01\xC4\x03\x02",
    b"\x02\xC4\x03\x02\x0F",
    b"\x03\xDA\x03",
    b"\x04\xDA\x03",
    b"\x05\x00\x00\x0A\x00\x55",
    b"\x06\x00\x00\x0A\x00\x55\xAA",
    b"\x07\x00\x00\x0A\x00",
    b"\x08\x00\x00\x0A\x00",
    b"\x09\x13\x00\x00\x00\x00\x00\x00\x00\x00\x00",
    b"\x09\x02\x10\x00\x00\x01\x00\x00\x00\x03\x00\xAA\xBB\xCC",
    b"\x0A\x00\x00\x00\x01",
    b"\x0B",
    b"\x0C\x00",
    b"\x0C\x01\xFF",
    b"\x0C\x02",
    b"\x0C\x03",
    b"\x0C\x04\x03\x00\xFF\x00\x01",
    b"\x0C\x04\x00\xFF\xFF\x01\x00",
    b"\x0C\x05",
];

/// How many steps a script means, or 1,000 if there are more.
pub fn step_count(script: &Script) -> usize {
    let mut steps = script.steps();
    for count in 0..1000 {
        if steps.next().is_none() {
            return count;
        }
    }
    1000
}

/// The fault of some bytes, if they have one.
fn byte_fault(alloc: Global, bytes: &[u8]) -> Option<Fault> {
    decode(alloc, bytes).err()
}

/// Whether bytes are a script of two steps, and encode as the same bytes.
fn are_two_steps(alloc: Global, bytes: &[u8]) -> Result<bool, Fault> {
    let script = decode(alloc, bytes)?;
    let again = encode(alloc, &script)?;
    Ok(step_count(&script) == 2 && again.as_slice() == bytes)
}

/// Whether a script of two steps that is cut off in the second has its fault there.
fn is_fault_at_cut_step(alloc: Global, bytes: &[u8]) -> bool {
    for len in PREFIX.len() + 1..bytes.len() {
        if byte_fault(alloc, &bytes[..len]) != Some(Fault::Truncated(8)) {
            return false;
        }
    }
    true
}

/// Whether a zero byte after a script is a fault there.
fn is_fault_at_byte_after_script(alloc: Global, bytes: &[u8]) -> Result<bool, AllocError> {
    let mut longer = Vec::from_slice(alloc, bytes)?;
    longer.push(0x00)?;
    Ok(byte_fault(alloc, longer.as_slice()) == Some(Fault::BadStep(bytes.len())))
}

/// Checks the script whose second step this is.
fn check_step(alloc: Global, step: &[u8], checks: &mut Checks) -> Result<()> {
    let mut bytes = Vec::from_slice(alloc, PREFIX)?;
    bytes.extend_from_slice(step)?;
    let bytes = bytes.as_slice();
    checks.note("a whole step", are_two_steps(alloc, bytes)?);
    checks.note("a cut step", is_fault_at_cut_step(alloc, bytes));
    checks.note(
        "a byte that is no step",
        is_fault_at_byte_after_script(alloc, bytes)?,
    );
    Ok(())
}

/// Whether `TooLong` comes before all other faults.
fn is_too_long_first(alloc: Global) -> Result<bool, AllocError> {
    let mut bytes = vec![in alloc; b'?'; LIMIT]?;
    let longest = byte_fault(alloc, bytes.as_slice());
    bytes.push(b'?')?;
    let longer = byte_fault(alloc, bytes.as_slice());
    Ok(longest == Some(Fault::BadMagic) && longer == Some(Fault::TooLong))
}

/// Checks scripts as bytes.
pub fn check_script_bytes(alloc: Global) -> Result<Checks> {
    let mut checks = Checks::new();
    for step in STEPS {
        check_step(alloc, step, &mut checks)?;
    }
    checks.note("bytes that are too many", is_too_long_first(alloc)?);
    Ok(checks)
}

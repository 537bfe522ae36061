//! Checking pictures on writers that take one byte a call, on writers that fail, and their sizes.

use crate::checks::Checks;
use crate::sink::{FULL, Full, Sink};
use std::alloc::Global;
use vga_bits::{Fault, Tracked};
use vga_show::write_ppm;

/// A picture of two dots.
const TWO_DOTS: [u8; 6] = [0x00, 0x2A, 0x3F, 0x0A, 0x20, 0x15];

/// Its PPM.
const TWO_DOTS_PPM: [u8; 16] = *b"P6\n2 1\n63\n\x00\x2A\x3F\x0A\x20\x15";

/// Widths and heights, and the beginning of a PPM with these.
const SIZES: [(u32, u32, &[u8]); 4] = [
    (0, 0, b"P6\n0 0\n63\n"),
    (720, 400, b"P6\n720 400\n63\n"),
    (2304, 1024, b"P6\n2304 1024\n63\n"),
    (4294967295, 1000000007, b"P6\n4294967295 1000000007\n63\n"),
];

/// Whether a size is written in decimal, without leading zeros.
fn is_size_written(alloc: Global, width: u32, height: u32, wanted: &[u8]) -> bool {
    let mut out = Tracked::new(Vec::new(alloc));
    write_ppm(&mut out, width, height, b"").is_ok() && out.into_inner().as_slice() == wanted
}

/// Whether a writer with room for this prefix returns this answer, and then has the prefix.
fn is_prefix_taken(alloc: Global, prefix: &[u8], full: Full, answer: Result<(), Fault>) -> bool {
    let mut out = Sink::new(alloc, prefix.len(), full);
    write_ppm(&mut out, 2, 1, &TWO_DOTS) == answer
        && out.failed() == answer.is_err()
        && out.into_inner().bytes() == prefix
}

/// Whether each writer with too little room for a picture fails, and has a prefix of it.
fn are_prefixes_taken(alloc: Global, full: Full) -> bool {
    let fault = Err(Fault::WriteFault);
    for room in 0..TWO_DOTS_PPM.len() {
        if !is_prefix_taken(alloc, &TWO_DOTS_PPM[..room], full, fault) {
            return false;
        }
    }
    true
}

/// Checks how pictures are written.
pub fn check_pictures(alloc: Global) -> Checks {
    let mut checks = Checks::new();
    for (width, height, wanted) in SIZES {
        checks.note("a size", is_size_written(alloc, width, height, wanted));
    }
    for full in FULL {
        checks.note(
            "a whole picture",
            is_prefix_taken(alloc, &TWO_DOTS_PPM, full, Ok(())),
        );
        checks.note("a prefix of a picture", are_prefixes_taken(alloc, full));
    }
    checks
}

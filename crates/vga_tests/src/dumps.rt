//! Checking each dump on writers that take one byte a call, and on writers that fail.
ghost use Rattle.std.specs.Prelude.{◌≡◌, false};
ghost use Rattle.vga_bits.specs.Tracked.{has_failed};

use crate::checks::Checks;
use crate::sink::{FULL, Full, Sink};
use anyhow::Result;
use bios_modes::Bda;
use std::alloc::Global;
use std::io::Write;
use vga_bits::{Fault, Tracked};
use vga_card::Card;
use vga_show::{dump_bda, dump_beam, dump_dac, dump_latches, dump_plane, dump_regs};

/// A dump.
#[derive(Clone, Copy)]
enum Dump {
    Regs,
    Dac,
    Beam,
    Latches,
    Plane,
    Bda,
}

const DUMPS: [Dump; 6] = [
    Dump::Regs,
    Dump::Dac,
    Dump::Beam,
    Dump::Latches,
    Dump::Plane,
    Dump::Bda,
];

/// Writes a dump of an adapter and of BIOS data at power-on.
fn write_dump<W: Write>(dump: Dump, out: &mut Tracked<W>, card: &Card) -> Result<(), Fault>
    requires { has_failed out.old ≡ false }
{
    match dump {
        Dump::Regs => dump_regs(out, card),
        Dump::Dac => dump_dac(out, card, 0x0C),
        Dump::Beam => dump_beam(out, card),
        Dump::Latches => dump_latches(out, card),
        Dump::Plane => dump_plane(out, card, 3, 0xFFF0, 16),
        Dump::Bda => dump_bda(out, &Bda::new()),
    }
}

/// The text of a dump.
fn text_of(alloc: Global, dump: Dump, card: &Card) -> Result<Vec<u8>, Fault> {
    let mut out = Tracked::new(Vec::new(alloc));
    write_dump(dump, &mut out, card)?;
    Ok(out.into_inner())
}

/// Whether a writer with room for this prefix returns this answer, and then has the prefix.
fn is_prefix_taken(
    alloc: Global,
    dump: Dump,
    card: &Card,
    prefix: &[u8],
    full: Full,
    answer: Result<(), Fault>,
) -> bool {
    let mut out = Sink::new(alloc, prefix.len(), full);
    write_dump(dump, &mut out, card) == answer
        && out.failed() == answer.is_err()
        && out.into_inner().bytes() == prefix
}

/// Whether each writer with too little room for a dump fails, and has a prefix of its text.
fn are_prefixes_taken(alloc: Global, dump: Dump, card: &Card, text: &[u8], full: Full) -> bool {
    let fault = Err(Fault::WriteFault);
    for room in 0..text.len() {
        if !is_prefix_taken(alloc, dump, card, &text[..room], full, fault) {
            return false;
        }
    }
    true
}

/// Checks writers that take all of a dump, whose text this is, or a prefix.
fn check_writers(alloc: Global, dump: Dump, card: &Card, text: &[u8], checks: &mut Checks) {
    for full in FULL {
        checks.note(
            "a whole dump",
            is_prefix_taken(alloc, dump, card, text, full, Ok(())),
        );
        checks.note(
            "a prefix of a dump",
            are_prefixes_taken(alloc, dump, card, text, full),
        );
    }
}

/// Checks how a dump is written.
fn check_dump(alloc: Global, dump: Dump, card: &Card, checks: &mut Checks) -> Result<(), Fault> {
    let text = text_of(alloc, dump, card)?;
    check_writers(alloc, dump, card, text.as_slice(), checks);
    Ok(())
}

/// Checks how the dumps are written.
pub fn check_dumps(alloc: Global) -> Result<Checks> {
    let mut checks = Checks::new();
    let card = Card::new(alloc)?;
    for dump in DUMPS {
        check_dump(alloc, dump, &card, &mut checks)?;
    }
    Ok(checks)
}

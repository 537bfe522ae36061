//! The dump of cells: how it is refused before a byte is written, and how it fails with the writer.
ghost use Rattle.std.specs.Prelude.{◌≡◌, false};
ghost use Rattle.vga_bits.specs.Tracked.{has_failed};

use crate::checks::Checks;
use crate::sink::{FULL, Full, Sink};
use anyhow::Result;
use bios_modes::{Bda, mode_row};
use std::alloc::Global;
use std::io::Write;
use vga_bits::{Fault, Refusal, Tracked};
use vga_card::Card;
use vga_show::dump_cells;

/// How many bytes the text of a page has, 25 lines of 408.
const TEXT_LEN: usize = 25 * 408;

/// BIOS data of a mode, or of mode 0, before any mode is set.
fn data_of(mode: u8) -> Bda {
    let mut bda = Bda::new();
    if let Some(row) = mode_row(mode) {
        bda.begin_mode(mode, &row);
    }
    bda
}

/// Whether the dump is refused with this reason in a mode, and nothing is written.
fn is_refused(alloc: Global, card: &Card, mode: u8, why: Refusal) -> Result<bool, Fault> {
    let bda = data_of(mode);
    if !bda.valid() {
        return Ok(false);
    }
    let mut out = Tracked::new(Vec::new(alloc));
    let answer = dump_cells(&mut out, card, &bda)?;
    Ok(answer == Err(why) && out.into_inner().is_empty())
}

/// Writes the cells of an adapter in mode 3.
fn write_cells<W: Write>(out: &mut Tracked<W>, card: &Card) -> Result<(), Fault>
    requires { has_failed out.old ≡ false }
{
    let bda = data_of(3);
    if bda.valid() {
        let _ = dump_cells(out, card, &bda)?;
    }
    Ok(())
}

/// The text of the cells.
fn text_of(alloc: Global, card: &Card) -> Result<Vec<u8>, Fault> {
    let mut out = Tracked::new(Vec::new(alloc));
    write_cells(&mut out, card)?;
    Ok(out.into_inner())
}

/// Whether a writer with room for this prefix returns this answer, and then has the prefix.
fn is_prefix_taken(
    alloc: Global,
    card: &Card,
    prefix: &[u8],
    full: Full,
    answer: Result<(), Fault>,
) -> bool {
    let mut out = Sink::new(alloc, prefix.len(), full);
    let answered = write_cells(&mut out, card);
    let failed = out.failed();
    let sink = out.into_inner();
    answered == answer && failed == answer.is_err() && sink.bytes() == prefix
}

/// Whether each writer with too little room for the cells fails, and has a prefix of the text.
fn are_prefixes_taken(alloc: Global, card: &Card, text: &[u8], full: Full) -> bool {
    let fault = Err(Fault::WriteFault);
    for room in 0..text.len() {
        if !is_prefix_taken(alloc, card, &text[..room], full, fault) {
            return false;
        }
    }
    true
}

/// Checks how the dump of cells is refused.
fn check_refusals(alloc: Global, card: &Card, checks: &mut Checks) -> Result<(), Fault> {
    let is_modeless = is_refused(alloc, card, 0, Refusal::NoMode)?;
    checks.note("no mode", is_modeless);
    let is_graphics = is_refused(alloc, card, 0x13, Refusal::WrongKind)?;
    checks.note("graphics", is_graphics);
    Ok(())
}

/// Checks writers that take all of the cells, whose text this is, or a prefix.
fn check_writers(alloc: Global, card: &Card, text: &[u8], checks: &mut Checks) {
    for full in FULL {
        checks.note(
            "whole cells",
            is_prefix_taken(alloc, card, text, full, Ok(())),
        );
        checks.note(
            "a prefix of the cells",
            are_prefixes_taken(alloc, card, text, full),
        );
    }
}

/// Checks how the dump of cells is written.
fn check_text(alloc: Global, card: &Card, checks: &mut Checks) -> Result<(), Fault> {
    let text = text_of(alloc, card)?;
    let text = text.as_slice();
    checks.note("25 lines of 408 bytes", text.len() == TEXT_LEN);
    check_writers(alloc, card, text, checks);
    Ok(())
}

/// Checks how the dump of cells is refused and written.
pub fn check_cells(alloc: Global) -> Result<Checks> {
    let mut checks = Checks::new();
    let card = Card::new(alloc)?;
    check_refusals(alloc, &card, &mut checks)?;
    check_text(alloc, &card, &mut checks)?;
    Ok(checks)
}

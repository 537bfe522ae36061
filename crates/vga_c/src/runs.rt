//! A whole run: a script in, its report out.
ghost use Rattle.std.specs.Prelude.{◌≡◌, IfErr, IfOk};
ghost use Rattle.vga_c.specs.Outcome.{script_output};
ghost use Rattle.vga_c.specs.Runs.{IsFirstFault, IsReport, GivesReport};

use crate::buffer::write_bytes_if_room_and_their_count;
use crate::outcome::status_and_place;
use std::alloc::Global;
use vga_bits::{Fault, Tracked};
use vga_run::run_bytes;

/// The report of a script, or the first fault.
fn report(alloc: Global, script: &[u8], fonts: &[u8]) -> Result<Vec<u8>, Fault>
    ensures ok { IfOk result (λ report. IsReport fonts.now script.now report.items) }
    ensures err { IfErr result (IsFirstFault fonts.now script.now) }
{
    let mut out = Tracked::new(Vec::new(alloc));
    run_bytes(alloc, script, fonts, &mut out, None)?;
    Ok(out.into_inner())
}

/// Runs a script from power-on, and writes its report. If the buffer is too short, `len` says how
/// many bytes the report has.
#[unsafe(no_mangle)]
pub extern "C" fn zak_run(
    alloc: Global,
    script: &[u8],
    fonts: &[u8],
    out: &mut [u8],
    len: &mut usize,
    place: &mut usize,
) -> u32
    ensures { GivesReport fonts.now script.now (script_output out.old len.old place.old)
        (script_output out.new len.new place.new) result }
{
    match report(alloc, script, fonts) {
        Ok(report) => write_bytes_if_room_and_their_count(out, len, report.as_slice()),
        Err(fault) => status_and_place(fault, place),
    }
}

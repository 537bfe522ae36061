//! Rebuilding the state of a machine.
ghost use Rattle.std.specs.Prelude.{◌≡◌, IfOk};
ghost use Rattle.vga_rebuild.specs.Rebuilt.{IsRebuilt};

use crate::attempt::{Attempt, Route, try_route};
use crate::controller::start_address;
use crate::opening::Opened;
use crate::rebuilt::{NotRebuilt, Rebuilt};
use std::alloc::Global;
use vga_crtc::Beam;
use vga_run::machine::Machine;

/// Rebuilds a state in the midst of a frame by registers of its own for the way of the beam.
fn rebuild_by_drive(
    alloc: Global,
    machine: &Machine,
    opened: &Opened,
) -> Result<Rebuilt, NotRebuilt>
    ensures { IfOk result (λ rebuilt. IsRebuilt machine.now rebuilt) }
{
    match try_route(alloc, machine, opened, Route::Driven)? {
        Attempt::There { rebuilt } => Ok(rebuilt),
        Attempt::Elsewhere { .. } => Err(NotRebuilt::NotLedThere),
    }
}

/// Rebuilds a state in the midst of a frame. The start address at the frame's first dot was not
/// that of now, which led to another beam.
fn rebuild_within_frame(
    alloc: Global,
    machine: &Machine,
    opened: &Opened,
    elsewhere: Beam,
) -> Result<Rebuilt, NotRebuilt>
    ensures { IfOk result (λ rebuilt. IsRebuilt machine.now rebuilt) }
{
    let crtc = machine.card.regs().crtc;
    let beam = crtc.beam();
    if beam.is_first_dot_of_frame() {
        return Err(NotRebuilt::NotLedThere);
    }
    let moved = beam.base.wrapping_sub(elsewhere.base);
    let start = start_address(crtc.regs()).wrapping_add(moved);
    match try_route(alloc, machine, opened, Route::Drawn { start })? {
        Attempt::There { rebuilt } => Ok(rebuilt),
        Attempt::Elsewhere { .. } => rebuild_by_drive(alloc, machine, opened),
    }
}

/// A script that leads from power-on to the state of a machine, with the machine's fonts. The
/// machine stays as it is.
///
/// The script is run before it is returned, and the machine that it leads to is compared with this
/// one. So it never leads to another state.
///
/// - At the first dot of a frame it leads to each state that steps lead to, as far as tests show.
/// - In the midst of a frame it leads to the `Same` state if the frame was drawn until now by
///   registers, colours and memory as they are; only the start address may be another. Otherwise
///   the state is the `SameButForDots`.
/// - It does not lead to restored states that no steps lead to: with a bit that the adapter keeps
///   and refuses, with counters that no line leads to, or with BIOS data that no call leaves.
///
/// # Errors
///
/// - `OutOfMemory`: an allocation failed.
/// - `TooLong`: the script would have more than 16,777,216 bytes.
/// - `NotLedThere`: the steps that were tried lead to another state.
pub fn rebuilding_script(alloc: Global, machine: &Machine) -> Result<Rebuilt, NotRebuilt>
    ensures { IfOk result (λ rebuilt. IsRebuilt machine.now rebuilt) }
{
    let opened = Opened::best(alloc, machine)?;
    let start = start_address(machine.card.regs().crtc.regs());
    match try_route(alloc, machine, &opened, Route::Drawn { start })? {
        Attempt::There { rebuilt } => Ok(rebuilt),
        Attempt::Elsewhere { beam } => rebuild_within_frame(alloc, machine, &opened, beam),
    }
}

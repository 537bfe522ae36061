//! One attempt to rebuild a state.
ghost use Rattle.std.specs.Prelude.{◌≡◌, IfOk};
ghost use Rattle.vga_rebuild.specs.Attempt.{IsRebuiltOrElsewhere};

use crate::beam_drive::push_beam_drive;
use crate::likeness::likeness_of;
use crate::memory::push_memory;
use crate::opening::{Opened, push_opening};
use crate::rebuilt::Rebuilt;
use crate::registers::push_state;
use crate::running::machine_after;
use crate::step_list::StepList;
use std::alloc::Global;
use vga_bits::Fault;
use vga_crtc::Beam;
use vga_run::machine::Machine;

/// How the steps lead the beam to its place in the frame.
#[derive(Clone, Copy, PartialEq, Eq, Debug)]
pub(crate) enum Route {
    /// By the registers of the state, from this start address on.
    Drawn { start: u16 },
    /// By registers of its own.
    Driven,
}

/// Where the steps of an attempt lead.
#[derive(Drop)]
pub(crate) enum Attempt {
    /// To the state.
    There { rebuilt: Rebuilt },
    /// To another state, with its beam here.
    Elsewhere { beam: Beam },
}

/// The bytes of a script that may lead to the state of a machine, after these first steps.
fn script_by_route(
    alloc: Global,
    target: &Machine,
    opened: &Opened,
    route: Route,
) -> Result<Vec<u8>, Fault> {
    let mut steps = StepList::new(alloc)?;
    push_opening(&mut steps, &target.card, &target.bda, opened.opening)?;
    let start = match route {
        Route::Drawn { start } => Some(start),
        Route::Driven => {
            push_beam_drive(&mut steps, &target.card)?;
            None
        }
    };
    push_memory(&mut steps, &target.card, &opened.machine.card)?;
    push_state(&mut steps, &target.card, &opened.machine.card, start)?;
    Ok(steps.into_bytes())
}

/// Builds a script, runs it, and compares the machine that it leads to.
pub(crate) fn try_route(
    alloc: Global,
    target: &Machine,
    opened: &Opened,
    route: Route,
) -> Result<Attempt, Fault>
    ensures { IfOk result (λ attempt. IsRebuiltOrElsewhere target.now attempt) }
{
    let script = script_by_route(alloc, target, opened, route)?;
    let reached = machine_after(alloc, script.as_slice(), target)?;
    match likeness_of(alloc, &reached, target)? {
        Some(likeness) => Ok(Attempt::There {
            rebuilt: Rebuilt { script, likeness },
        }),
        None => Ok(Attempt::Elsewhere {
            beam: reached.card.beam().0,
        }),
    }
}

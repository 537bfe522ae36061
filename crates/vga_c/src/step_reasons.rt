//! Why a step of a script is refused.
ghost use Rattle.std.specs.Prelude.{◌≡◌};
ghost use Rattle.bios_modes.specs.Valid.{IsValid};
ghost use Rattle.vga_c.specs.Cards.{OpenCardKeepsMachine, ClosedCardStaysUnchanged, ClosedCardLeavesOutput};
ghost use Rattle.vga_c.specs.Services.{InvalidBiosDataChangeNoCard};
ghost use Rattle.vga_c.specs.StepReasons.{reason_output, placed_output, IsReasonTold, TellsReasonOfStep};
ghost use Rattle.vga_c.specs.StepReasons.{TellsReasonOfFirst, TellsReasonInScript, OpenCardTellsReason};
ghost use Rattle.vga_c.specs.Status.{bad_bios_data_status};
ghost use Rattle.vga_c.specs.StepReasons.{no_reason as no_reason_told, told_of_reason, is_high_of};

use crate::buffer::write_bytes_if_room_and_their_count;
use crate::handle::{Handle, on_open_card};
use crate::outcome::status_and_place;
use crate::reason_numbers::{kind_of_reason, numbers_of_reason};
use crate::sentence::Sentence;
use crate::status::{BAD_ARGUMENT, BAD_CARD, refusal_status};
use std::alloc::Global;
use std::fmt::Write;
use vga_explain::{Reason, why};
use vga_run::machine::Machine;
use vga_script::{Step, Steps};

/// What is told of a step: the status that it would get, and the kind of the reason, with its
/// numbers. All are 0 if the step would be done.
#[repr(C)]
#[derive(Clone, Copy)]
pub struct StepReason {
    pub status: u32,
    pub kind: u32,
    pub numbers: [u32; 5],
    pub is_high: bool,
}

/// What is told of a step that would be done.
fn no_reason() -> StepReason
    ensures { result ≡ no_reason_told }
{
    StepReason {
        status: 0,
        kind: 0,
        numbers: [0, 0, 0, 0, 0],
        is_high: false,
    }
}

/// Whether a reason is one of the high byte of a word.
fn is_of_high_byte(reason: Reason) -> bool
    ensures { result ≡ is_high_of reason }
{
    match reason {
        Reason::Cycle { is_high, .. } => is_high,
        _ => false,
    }
}

/// What is told of a reason.
fn told_reason(reason: Reason) -> StepReason
    ensures { result ≡ told_of_reason reason }
{
    StepReason {
        status: refusal_status(reason.refusal()),
        kind: kind_of_reason(reason),
        numbers: numbers_of_reason(reason),
        is_high: is_of_high_byte(reason),
    }
}

/// Tells a reason, with its sentence.
fn tell_reason(why: Reason, reason: &mut StepReason, text: &mut [u8], len: &mut usize) -> u32
    ensures { IsReasonTold why (reason_output reason.old text.old len.old)
        (reason_output reason.new text.new len.new) result }
{
    let mut sentence = Sentence::new();
    let _ = sentence.write(why);
    *reason = told_reason(why);
    write_bytes_if_room_and_their_count(text, len, sentence.as_bytes())
}

/// Tells why a machine as it is would refuse a step; nothing if it would do it.
fn tell_of_step(
    machine: &Machine,
    step: &Step<'_>,
    reason: &mut StepReason,
    text: &mut [u8],
    len: &mut usize,
) -> u32
    requires { IsValid machine.now.bda }
    ensures { TellsReasonOfStep machine.now step.now (reason_output reason.old text.old len.old)
        (reason_output reason.new text.new len.new) result }
{
    match why(machine, step) {
        Some(found) => tell_reason(found, reason, text, len),
        None => {
            *reason = no_reason();
            write_bytes_if_room_and_their_count(text, len, &[])
        }
    }
}

/// Tells why a machine as it is would refuse the first of some steps.
fn tell_of_first(
    machine: &Machine,
    steps: Steps<'_>,
    reason: &mut StepReason,
    text: &mut [u8],
    len: &mut usize,
) -> u32
    requires { IsValid machine.now.bda }
    ensures { TellsReasonOfFirst machine.now steps.entry (reason_output reason.old text.old len.old)
        (reason_output reason.new text.new len.new) result }
{
    let mut steps = steps;
    match steps.next() {
        Some(step) => tell_of_step(machine, &step, reason, text, len),
        None => BAD_ARGUMENT,
    }
}

/// Tells why a machine with valid BIOS data would refuse a step of a script.
fn tell_with_valid_bios_data(
    machine: &Machine,
    script: &[u8],
    step: u32,
    reason: &mut StepReason,
    text: &mut [u8],
    len: &mut usize,
    place: &mut usize,
) -> u32
    requires { IsValid machine.now.bda }
    ensures { TellsReasonInScript machine.now script.now step
        (placed_output (reason_output reason.old text.old len.old) place.old)
        (placed_output (reason_output reason.new text.new len.new) place.new) result }
{
    match Steps::of(script) {
        Ok(all) => {
            let mut steps = all;
            steps.pass_over(step as usize);
            tell_of_first(machine, steps, reason, text, len)
        }
        Err(fault) => status_and_place(fault, place),
    }
}

/// Tells why a machine would refuse a step of a script, if its BIOS data are valid.
fn explain_step(
    machine: &Machine,
    script: &[u8],
    step: u32,
    reason: &mut StepReason,
    text: &mut [u8],
    len: &mut usize,
    place: &mut usize,
) -> u32
    ensures told { IsValid machine.now.bda → TellsReasonInScript machine.now script.now step
        (placed_output (reason_output reason.old text.old len.old) place.old)
        (placed_output (reason_output reason.new text.new len.new) place.new) result }
    ensures bad { (IsValid machine.now.bda → ⊥) →
        (placed_output (reason_output reason.new text.new len.new) place.new
        ≡ placed_output (reason_output reason.old text.old len.old) place.old)
        × (result ≡ bad_bios_data_status) }
{
    if !machine.bda.valid() {
        return BAD_CARD;
    }
    tell_with_valid_bios_data(machine, script, step, reason, text, len, place)
}

/// Tells why the card as it is would refuse a step of a script: the step after the first `step`.
#[unsafe(no_mangle)]
pub extern "C" fn zak_explain_step(
    alloc: Global,
    card: &mut Handle,
    script: &[u8],
    step: u32,
    reason: &mut StepReason,
    text: &mut [u8],
    len: &mut usize,
    place: &mut usize,
) -> u32
    ensures card { OpenCardKeepsMachine card.old card.new }
    ensures told { OpenCardTellsReason script.now step card.old
        (placed_output (reason_output reason.old text.old len.old) place.old)
        (placed_output (reason_output reason.new text.new len.new) place.new) result }
    ensures bad { InvalidBiosDataChangeNoCard card.old card.new
        (placed_output (reason_output reason.old text.old len.old) place.old)
        (placed_output (reason_output reason.new text.new len.new) place.new) result }
    ensures closed { ClosedCardStaysUnchanged card.old card.new result }
    ensures spared { ClosedCardLeavesOutput card.old
        (placed_output (reason_output reason.old text.old len.old) place.old)
        (placed_output (reason_output reason.new text.new len.new) place.new) }
{
    on_open_card!(alloc, card, machine => {
        explain_step(machine, script, step, reason, text, len, place)
    })
}

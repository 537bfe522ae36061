//! The cycles of a call of interrupt 10, as a script.
ghost use Rattle.std.specs.Prelude.{◌≡◌, ◌≤◌, ℕ, List, length};
ghost use Rattle.bios_modes.specs.Valid.{IsValid};
ghost use Rattle.vga_c.specs.Buffers.{IsCopied};
ghost use Rattle.vga_c.specs.CallCycles.{list_output, AreCyclesListed, OpenCardListsCycles};
ghost use Rattle.vga_c.specs.CallCycles.{unlisted_status as unlisted_status_of};
ghost use Rattle.vga_c.specs.Cards.{OpenCardKeepsMachine, ClosedCardStaysUnchanged, ClosedCardLeavesOutput};
ghost use Rattle.vga_c.specs.Services.{InvalidBiosDataChangeNoCard};
ghost use Rattle.vga_c.specs.Status.{bad_bios_data_status};

use crate::buffer::write_bytes_if_room;
use crate::handle::{Handle, on_open_card};
use crate::services::CallRegisters;
use crate::status::{BAD_CARD, NO_ROOM, OUT_OF_MEMORY, TOO_LONG, refusal_status};
use bios_services::Regs;
use std::alloc::Global;
use vga_run::machine::Machine;
use vga_run::{Unlisted, list_cycles};
use vga_script::ScriptBytes;

/// The status that says why there is no list.
fn unlisted_status(why: Unlisted) -> u32
    ensures { result ≡ unlisted_status_of why }
{
    match why {
        Unlisted::Refused(refusal) => refusal_status(refusal),
        Unlisted::TooLong => TOO_LONG,
        Unlisted::OutOfMemory => OUT_OF_MEMORY,
    }
}

/// Copies the bytes of a script to the caller. The script was listed with as much room as the
/// caller's buffer has.
fn copy_script(script: &ScriptBytes, out: &mut [u8], len: &mut usize) -> u32
    ensures { (bytes : List ℕ) → script.now.len ≡ length bytes →
        (script.now.len ≤ length out.old → script.now.bytes ≡ bytes) →
        IsCopied bytes out.old out.new len.new result }
{
    *len = script.len();
    if out.len() < script.len() {
        return NO_ROOM;
    }
    write_bytes_if_room(out, script.as_slice())
}

/// Lists the cycles of a call on a machine with valid BIOS data.
fn list_cycles_with_valid_bios_data(
    alloc: Global,
    machine: &Machine,
    registers: &CallRegisters,
    block: &[u8],
    out: &mut [u8],
    len: &mut usize,
) -> u32
    requires { IsValid machine.now.bda }
    ensures { AreCyclesListed machine.now registers.now block.now (list_output out.old len.old)
        (list_output out.new len.new) result }
{
    let regs = Regs {
        ax: registers.ax,
        bx: registers.bx,
        cx: registers.cx,
        dx: registers.dx,
    };
    match list_cycles(alloc, machine, regs, block, out.len()) {
        Ok(script) => copy_script(&script, out, len),
        Err(why) => unlisted_status(why),
    }
}

/// Lists the cycles of a call on a machine, if its BIOS data are valid.
fn list(
    alloc: Global,
    machine: &Machine,
    registers: &CallRegisters,
    block: &[u8],
    out: &mut [u8],
    len: &mut usize,
) -> u32
    ensures listed { IsValid machine.now.bda → AreCyclesListed machine.now registers.now block.now
        (list_output out.old len.old) (list_output out.new len.new) result }
    ensures bad { (IsValid machine.now.bda → ⊥) → (list_output out.new len.new ≡ list_output out.old
        len.old)
        × (result ≡ bad_bios_data_status) }
{
    if !machine.bda.valid() {
        return BAD_CARD;
    }
    list_cycles_with_valid_bios_data(alloc, machine, registers, block, out, len)
}

/// Lists the cycles that `zak_int10` with these registers would make on the card as it is, as the
/// bytes of a script. The card stays as it is.
#[unsafe(no_mangle)]
pub extern "C" fn zak_cycles(
    alloc: Global,
    card: &mut Handle,
    registers: &CallRegisters,
    block: &[u8],
    out: &mut [u8],
    len: &mut usize,
) -> u32
    ensures card { OpenCardKeepsMachine card.old card.new }
    ensures listed { OpenCardListsCycles card.old registers.now block.now (list_output out.old len.old)
        (list_output out.new len.new) result }
    ensures bad { InvalidBiosDataChangeNoCard card.old card.new (list_output out.old len.old)
        (list_output out.new len.new)
        result }
    ensures closed { ClosedCardStaysUnchanged card.old card.new result }
    ensures spared { ClosedCardLeavesOutput card.old (list_output out.old len.old) (list_output out.new len.new) }
{
    on_open_card!(alloc, card, machine => list(alloc, machine, registers, block, out, len))
}

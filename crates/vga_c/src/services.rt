//! Interrupt 10.
ghost use Rattle.std.specs.Prelude.{◌≡◌};
ghost use Rattle.bios_modes.specs.Valid.{IsValid};
ghost use Rattle.vga_c.specs.Cards.{ClosedCardStaysUnchanged, ClosedCardLeavesOutput};
ghost use Rattle.vga_c.specs.Services.{call_step, OpenCardTakesCall, HasServiceOutcome, IsCallTaken};
ghost use Rattle.vga_c.specs.Services.{InvalidBiosDataChangeNothing};
ghost use Rattle.vga_c.specs.Services.{InvalidBiosDataChangeNoCard, service_output};

use crate::buffer::write_bytes_if_room_and_their_count;
use crate::handle::{Handle, on_open_card};
use crate::status::{BAD_CARD, OUT_OF_MEMORY, refusal_status};
use bios_services::{Regs, Reply, ServiceError, int10};
use std::alloc::Global;
use vga_run::machine::Machine;

/// The registers of a call.
#[repr(C)]
#[derive(Clone, Copy)]
pub struct CallRegisters {
    pub ax: u16,
    pub bx: u16,
    pub cx: u16,
    pub dx: u16,
}

/// Writes what a BIOS call answers, and returns the status.
fn write_answer(
    outcome: Result<Reply, ServiceError>,
    registers: &mut CallRegisters,
    table: &mut [u8],
    len: &mut usize,
) -> u32
    ensures { HasServiceOutcome outcome (service_output registers.old table.old len.old)
        (service_output registers.new table.new len.new) result }
{
    match outcome {
        Ok(reply) => {
            let Regs { ax, bx, cx, dx } = reply.regs;
            *registers = CallRegisters { ax, bx, cx, dx };
            write_bytes_if_room_and_their_count(table, len, reply.table.as_slice())
        }
        Err(ServiceError::Refused(refusal)) => refusal_status(refusal),
        Err(ServiceError::OutOfMemory) => OUT_OF_MEMORY,
    }
}

/// Calls the video BIOS of a machine with valid BIOS data.
#[tactic(auto, using(crate::proofs::ServiceLemmas::told_service))]
fn call_with_valid_bios_data(
    alloc: Global,
    machine: &mut Machine,
    registers: &mut CallRegisters,
    block: &[u8],
    table: &mut [u8],
    len: &mut usize,
) -> u32
    requires { IsValid machine.old.bda }
    ensures called { IsCallTaken machine.old machine.new (call_step registers.old block.now)
        (service_output registers.old table.old len.old) (service_output registers.new table.new
        len.new) result }
    ensures valid { IsValid machine.new.bda }
{
    let regs = Regs {
        ax: registers.ax,
        bx: registers.bx,
        cx: registers.cx,
        dx: registers.dx,
    };
    let outcome = int10(
        alloc,
        &mut machine.card,
        &mut machine.bda,
        &machine.fonts,
        regs,
        block,
    );
    write_answer(outcome, registers, table, len)
}

/// Calls the video BIOS of a machine, if its BIOS data are valid.
fn call(
    alloc: Global,
    machine: &mut Machine,
    registers: &mut CallRegisters,
    block: &[u8],
    table: &mut [u8],
    len: &mut usize,
) -> u32
    ensures called { IsValid machine.old.bda → IsCallTaken machine.old machine.new
        (call_step registers.old block.now) (service_output registers.old table.old len.old)
        (service_output registers.new table.new len.new) result }
    ensures valid { IsValid machine.old.bda → IsValid machine.new.bda }
    ensures bad { InvalidBiosDataChangeNothing machine.old machine.new (service_output registers.old
        table.old len.old)
        (service_output registers.new table.new len.new) result }
{
    if !machine.bda.valid() {
        return BAD_CARD;
    }
    call_with_valid_bios_data(alloc, machine, registers, block, table, len)
}

/// Calls the video BIOS: AX, BX, CX and DX are those of interrupt 10.
#[unsafe(no_mangle)]
pub extern "C" fn zak_int10(
    alloc: Global,
    card: &mut Handle,
    registers: &mut CallRegisters,
    block: &[u8],
    table: &mut [u8],
    len: &mut usize,
) -> u32
    ensures called { OpenCardTakesCall card.old card.new block.now (service_output registers.old table.old
        len.old)
        (service_output registers.new table.new len.new) result }
    ensures bad { InvalidBiosDataChangeNoCard card.old card.new (service_output registers.old table.old len.old)
        (service_output registers.new table.new len.new) result }
    ensures closed { ClosedCardStaysUnchanged card.old card.new result }
    ensures spared { ClosedCardLeavesOutput card.old (service_output registers.old table.old len.old)
        (service_output registers.new table.new len.new) }
{
    on_open_card!(alloc, card, machine => call(alloc, machine, registers, block, table, len))
}

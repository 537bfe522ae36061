//! What a call of interrupt 10 reads from the caller's memory.
ghost use Rattle.std.specs.Prelude.{◌≡◌};
ghost use Rattle.vga_c.specs.Blocks.{IsBlockPlace, IsBlockEnough, TellsBlock};
ghost use Rattle.vga_c.specs.Cards.{OpenCardKeepsMachine, ClosedCardStaysUnchanged, ClosedCardLeavesOutput};

use crate::handle::{Handle, on_open_card};
use crate::services::CallRegisters;
use crate::status::DONE;
use bios_services::laws::calls_accept_only_blocks_that_fit;
use bios_services::{BlockSpan, Regs};
use std::alloc::Global;
use vga_card::Card;
use vga_run::machine::Machine;

/// The bytes that a call of interrupt 10 reads from the caller's memory: how many, and whether they
/// lie at ES:DX. Otherwise they lie at ES:BP.
#[repr(C)]
#[derive(Clone, Copy)]
pub struct BlockPlace {
    pub len: usize,
    pub is_at_dx: bool,
}

/// What a call with these registers reads. With a block of that length it is never refused for its
/// block.
fn block_of(machine: &Machine, registers: &CallRegisters) -> BlockPlace
    ensures block { IsBlockPlace registers.now result }
    ensures enough { IsBlockEnough machine.now registers.now result.len }
{
    calls_accept_only_blocks_that_fit::<Card>();
    let BlockSpan { len, is_at_dx } = BlockSpan::of_registers(Regs {
        ax: registers.ax,
        bx: registers.bx,
        cx: registers.cx,
        dx: registers.dx,
    });
    BlockPlace { len, is_at_dx }
}

/// Answers how many bytes a call of interrupt 10 with these registers reads from the caller's
/// memory, and where.
#[unsafe(no_mangle)]
pub extern "C" fn zak_block(
    alloc: Global,
    card: &mut Handle,
    registers: &CallRegisters,
    block: &mut BlockPlace,
) -> u32
    ensures card { OpenCardKeepsMachine card.old card.new }
    ensures block { TellsBlock card.old registers.now block.new result }
    ensures closed { ClosedCardStaysUnchanged card.old card.new result }
    ensures spared { ClosedCardLeavesOutput card.old block.old block.new }
{
    on_open_card!(alloc, card, machine => {
        *block = block_of(machine, registers);
        DONE
    })
}

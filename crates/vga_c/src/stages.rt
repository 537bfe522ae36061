//! What a write to the display memory or a read of it does on its way, told and not done.
ghost use Rattle.std.specs.Prelude.{◌≡◌};
ghost use Rattle.vga_c.specs.Cards.{OpenCardKeepsMachine, ClosedCardStaysUnchanged, ClosedCardLeavesOutput};
ghost use Rattle.vga_c.specs.Stages.{bytes_in_plane_order, put_stages_of as put_stages_of_write};
ghost use Rattle.vga_c.specs.Stages.{get_stages_of as get_stages_of_read, TellsPutStages, TellsGetStages};
ghost use Rattle.vga_c.specs.Stages.{OpenCardTellsPutStages, OpenCardTellsGetStages};

use crate::handle::{Handle, on_open_card};
use crate::status::{DONE, NOT_DECODED};
use std::alloc::Global;
use vga_host::{ReadStages, WriteStages};
use vga_planes::Latch;
use vga_run::machine::Machine;

/// The stages of a write. The arrays have the byte of each plane.
#[repr(C)]
#[derive(Clone, Copy)]
pub struct PutStages {
    pub in_window: u16,
    pub offset: u16,
    pub write_mode: u8,
    pub rotated: u8,
    pub data: [u8; 4],
    pub combined: [u8; 4],
    pub mask: u8,
    pub planes: u8,
    pub before: [u8; 4],
    pub written: [u8; 4],
}

/// The stages of a read. `loaded` has the byte of each plane.
#[repr(C)]
#[derive(Clone, Copy)]
pub struct GetStages {
    pub in_window: u16,
    pub offset: u16,
    pub loaded: [u8; 4],
    pub is_compare: u8,
    pub plane: u8,
    pub value: u8,
}

/// The bytes of planes 0 to 3.
fn bytes_of(latch: Latch) -> [u8; 4]
    ensures { result ≡ bytes_in_plane_order latch }
{
    [latch.byte(0), latch.byte(1), latch.byte(2), latch.byte(3)]
}

/// The stages of a write, for the caller.
fn put_stages_of(stages: WriteStages) -> PutStages
    ensures { result ≡ put_stages_of_write stages }
{
    PutStages {
        in_window: stages.in_window,
        offset: stages.offset,
        write_mode: stages.write_mode,
        rotated: stages.rotated,
        data: bytes_of(Latch::from_word(stages.data)),
        combined: bytes_of(Latch::from_word(stages.combined)),
        mask: stages.mask,
        planes: stages.reached,
        before: bytes_of(stages.before),
        written: bytes_of(stages.written),
    }
}

/// The stages of a read, for the caller.
fn get_stages_of(stages: ReadStages) -> GetStages
    ensures { result ≡ get_stages_of_read stages }
{
    GetStages {
        in_window: stages.in_window,
        offset: stages.offset,
        loaded: bytes_of(stages.loaded),
        is_compare: stages.is_compare as u8,
        plane: stages.plane,
        value: stages.value,
    }
}

/// Tells the stages of a write on a machine.
fn tell_put(machine: &Machine, address: u32, value: u8, stages: &mut PutStages) -> u32
    ensures { TellsPutStages machine.now.card address value stages.old stages.new result }
{
    let regs = machine.card.regs();
    match regs.host.stages_of_put(address, value, regs.misc) {
        Some(found) => {
            *stages = put_stages_of(found);
            DONE
        }
        None => NOT_DECODED,
    }
}

/// Tells the stages of a read on a machine.
fn tell_get(machine: &Machine, address: u32, stages: &mut GetStages) -> u32
    ensures { TellsGetStages machine.now.card address stages.old stages.new result }
{
    let regs = machine.card.regs();
    match regs.host.stages_of_get(address, regs.misc) {
        Some(found) => {
            *stages = get_stages_of(found);
            DONE
        }
        None => NOT_DECODED,
    }
}

/// Tells what a write of a byte does on its way to the planes, and does not do it.
#[unsafe(no_mangle)]
pub extern "C" fn zak_explain_put(
    alloc: Global,
    card: &mut Handle,
    address: u32,
    value: u8,
    stages: &mut PutStages,
) -> u32
    ensures card { OpenCardKeepsMachine card.old card.new }
    ensures stages { OpenCardTellsPutStages card.old address value stages.old stages.new result }
    ensures closed { ClosedCardStaysUnchanged card.old card.new result }
    ensures spared { ClosedCardLeavesOutput card.old stages.old stages.new }
{
    on_open_card!(alloc, card, machine => tell_put(machine, address, value, stages))
}

/// Tells what a read of a byte does on its way from the planes, and does not do it.
#[unsafe(no_mangle)]
pub extern "C" fn zak_explain_get(
    alloc: Global,
    card: &mut Handle,
    address: u32,
    stages: &mut GetStages,
) -> u32
    ensures card { OpenCardKeepsMachine card.old card.new }
    ensures stages { OpenCardTellsGetStages card.old address stages.old stages.new result }
    ensures closed { ClosedCardStaysUnchanged card.old card.new result }
    ensures spared { ClosedCardLeavesOutput card.old stages.old stages.new }
{
    on_open_card!(alloc, card, machine => tell_get(machine, address, stages))
}

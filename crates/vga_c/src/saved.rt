//! Saving the state of an open card as bytes, and restoring it.
ghost use Rattle.std.specs.Prelude.{◌≡◌};
ghost use Rattle.vga_run.specs.Saved.{saved_machine};
ghost use Rattle.vga_c.specs.Buffers.{IsCopied};
ghost use Rattle.vga_c.specs.Cards.{OpenCardKeepsMachine, ClosedCardStaysUnchanged, ClosedCardLeavesOutput, OpenCardGivesValue};
ghost use Rattle.vga_c.specs.Saved.{IsRestored, Restores, saved_size, Saves};
ghost use Rattle.vga_c.specs.Saved.{state_status as state_status_of};

use crate::handle::{Handle, on_open_card};
use crate::status::{DONE, NO_ROOM};
use std::alloc::Global;
use vga_bits::StateFault;
use vga_run::machine::Machine;

/// Answers how many bytes the state has now.
#[unsafe(no_mangle)]
pub extern "C" fn zak_save_size(alloc: Global, card: &mut Handle, len: &mut usize) -> u32
    ensures card { OpenCardKeepsMachine card.old card.new }
    ensures len { OpenCardGivesValue saved_size card.old len.new result }
    ensures closed { ClosedCardStaysUnchanged card.old card.new result }
    ensures spared { ClosedCardLeavesOutput card.old len.old len.new }
{
    on_open_card!(alloc, card, machine => {
        *len = machine.saved_len();
        DONE
    })
}

/// Saves a machine to the beginning of the caller's buffer, if there is room.
fn save(machine: &Machine, bytes: &mut [u8], len: &mut usize) -> u32
    ensures { IsCopied (saved_machine machine.now) bytes.old bytes.new len.new result }
{
    let size = machine.saved_len();
    *len = size;
    if bytes.len() < size {
        return NO_ROOM;
    }
    let (prefix, _) = bytes.split_at_mut(size);
    machine.save(prefix);
    DONE
}

/// Writes the state as bytes.
#[unsafe(no_mangle)]
pub extern "C" fn zak_save(
    alloc: Global,
    card: &mut Handle,
    bytes: &mut [u8],
    len: &mut usize,
) -> u32
    ensures card { OpenCardKeepsMachine card.old card.new }
    ensures bytes { Saves card.old bytes.old bytes.new len.new result }
    ensures closed { ClosedCardStaysUnchanged card.old card.new result }
    ensures spared { ClosedCardLeavesOutput card.old bytes.old bytes.new }
    ensures len { ClosedCardLeavesOutput card.old len.old len.new }
{
    on_open_card!(alloc, card, machine => save(machine, bytes, len))
}

/// The status that says why bytes are not a saved state.
fn state_status(why: StateFault) -> u32
    ensures { result ≡ state_status_of why }
{
    match why {
        StateFault::BadMagic => 30,
        StateFault::BadVersion => 31,
        StateFault::BadLength => 32,
        StateFault::BadPart => 33,
    }
}

/// Restores a machine from its state as bytes.
#[tactic(auto, using(crate::proofs::SavedLemmas::restored, crate::proofs::SavedLemmas::left))]
pub(crate) fn restore(machine: &mut Machine, bytes: &[u8]) -> u32
    ensures { IsRestored machine.old machine.new bytes.now result }
{
    match machine.restore(bytes) {
        Ok(()) => DONE,
        Err(why) => state_status(why),
    }
}

/// Restores a saved state. The fonts stay.
#[unsafe(no_mangle)]
pub extern "C" fn zak_restore(alloc: Global, card: &mut Handle, bytes: &[u8]) -> u32
    ensures card { Restores card.old card.new bytes.now result }
    ensures closed { ClosedCardStaysUnchanged card.old card.new result }
{
    on_open_card!(alloc, card, machine => restore(machine, bytes))
}

//! A script that rebuilds the state of a card.
ghost use Rattle.std.specs.Prelude.{◌≡◌};
ghost use Rattle.vga_c.specs.Cards.{OpenCardKeepsMachine, ClosedCardStaysUnchanged, ClosedCardLeavesOutput};
ghost use Rattle.vga_c.specs.Rebuilding.{rebuilding_output, are_dots_other as are_dots_other_of};
ghost use Rattle.vga_c.specs.Rebuilding.{IsHandedOver, GivesRebuilding, OpenCardGivesRebuilding};
ghost use Rattle.vga_c.specs.Rebuilding.{not_rebuilt_status as not_rebuilt_status_of};

use crate::buffer::write_bytes_if_room_and_their_count;
use crate::handle::{Handle, on_open_card};
use crate::status::{NOT_REBUILT, OUT_OF_MEMORY, TOO_LONG};
use std::alloc::Global;
use vga_rebuild::{Likeness, NotRebuilt, Rebuilt, rebuilding_script};
use vga_run::machine::Machine;

/// The status that says why a state is not rebuilt.
fn not_rebuilt_status(why: NotRebuilt) -> u32
    ensures { result ≡ not_rebuilt_status_of why }
{
    match why {
        NotRebuilt::OutOfMemory => OUT_OF_MEMORY,
        NotRebuilt::TooLong => TOO_LONG,
        NotRebuilt::NotLedThere => NOT_REBUILT,
    }
}

/// Whether the frame under way was drawn otherwise in the rebuilt state.
fn are_dots_other(likeness: Likeness) -> bool
    ensures { result ≡ are_dots_other_of likeness }
{
    match likeness {
        Likeness::Same => false,
        Likeness::SameButForDots => true,
    }
}

/// Hands over a script that rebuilds a state.
fn hand_over(rebuilt: Rebuilt, script: &mut [u8], len: &mut usize, dots_other: &mut bool) -> u32
    ensures { IsHandedOver rebuilt (rebuilding_output script.old len.old dots_other.old)
        (rebuilding_output script.new len.new dots_other.new) result }
{
    *dots_other = are_dots_other(rebuilt.likeness);
    write_bytes_if_room_and_their_count(script, len, rebuilt.script.as_slice())
}

/// Gives a script that rebuilds the state of a machine.
fn rebuild(
    alloc: Global,
    machine: &Machine,
    script: &mut [u8],
    len: &mut usize,
    dots_other: &mut bool,
) -> u32
    ensures { GivesRebuilding machine.now (rebuilding_output script.old len.old dots_other.old)
        (rebuilding_output script.new len.new dots_other.new) result }
{
    match rebuilding_script(alloc, machine) {
        Ok(rebuilt) => hand_over(rebuilt, script, len, dots_other),
        Err(why) => not_rebuilt_status(why),
    }
}

/// Gives a script that leads from power-on to the state of the card. The script was run, and the
/// state that it leads to was compared.
#[unsafe(no_mangle)]
pub extern "C" fn zak_rebuild(
    alloc: Global,
    card: &mut Handle,
    script: &mut [u8],
    len: &mut usize,
    dots_other: &mut bool,
) -> u32
    ensures card { OpenCardKeepsMachine card.old card.new }
    ensures rebuilt { OpenCardGivesRebuilding card.old
        (rebuilding_output script.old len.old dots_other.old)
        (rebuilding_output script.new len.new dots_other.new) result }
    ensures closed { ClosedCardStaysUnchanged card.old card.new result }
    ensures spared { ClosedCardLeavesOutput card.old
        (rebuilding_output script.old len.old dots_other.old)
        (rebuilding_output script.new len.new dots_other.new) }
{
    on_open_card!(alloc, card, machine => rebuild(alloc, machine, script, len, dots_other))
}

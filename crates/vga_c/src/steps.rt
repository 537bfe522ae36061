//! Steps of a script on an open card.
ghost use Rattle.std.specs.Prelude.{◌≡◌, ◌+◌, ◌<◌, ◌≤◌, ◌^◌, ℕ, length, take};
ghost use Rattle.bios_modes.specs.Valid.{IsValid};
ghost use Rattle.vga_c.specs.Cards.{ClosedCardStaysUnchanged, ClosedCardLeavesOutput};
ghost use Rattle.vga_c.specs.Services.{InvalidBiosDataChangeNothing, InvalidBiosDataChangeNoCard};
ghost use Rattle.vga_c.specs.Steps.{AreStepsTakenOrAllocationFails, IsScriptRunOrRefused, OpenCardRunsScript, steps_output_from_parts};

use crate::buffer::write_bytes_if_room_and_their_count;
use crate::handle::{Handle, on_open_card};
use crate::outcome::status_and_place;
use crate::status::{BAD_CARD, OUT_OF_MEMORY};
use std::alloc::Global;
use vga_bits::Tracked;
use vga_run::machine::Machine;
use vga_script::Steps;

/// Takes the first `most` steps on a machine, or all if there are fewer, and writes their report to
/// the caller. The first has the number `number`.
fn take_steps(
    alloc: Global,
    machine: &mut Machine,
    steps: Steps<'_>,
    number: usize,
    most: usize,
    out: &mut [u8],
    len: &mut usize,
    taken: &mut usize,
) -> u32
    requires valid { IsValid machine.old.bda }
    requires numbers { number + length steps < 2 ^ 64 }
    ensures taken { (place : ℕ) → AreStepsTakenOrAllocationFails (take most steps.entry) number machine.old
        machine.new (steps_output_from_parts out.old len.old taken.old place) (steps_output_from_parts out.new len.new
        taken.new place)
        result }
    ensures valid { IsValid machine.new.bda }
{
    let mut report = Tracked::new(Vec::new(alloc));
    let mut next = number;
    match machine.take_steps(alloc, steps, most, &mut next, &mut report) {
        Ok(()) => {
            *taken = next - number;
            write_bytes_if_room_and_their_count(out, len, report.into_inner().as_slice())
        }
        Err(_) => OUT_OF_MEMORY, // The report is written into memory.
    }
}

/// Takes steps of a script on a machine with valid BIOS data.
fn run_with_valid_bios_data(
    alloc: Global,
    machine: &mut Machine,
    script: &[u8],
    first: u32,
    most: u32,
    out: &mut [u8],
    len: &mut usize,
    taken: &mut usize,
    place: &mut usize,
) -> u32
    requires { IsValid machine.old.bda }
    ensures run { IsScriptRunOrRefused script.now first most machine.old machine.new
        (steps_output_from_parts out.old len.old taken.old place.old) (steps_output_from_parts out.new len.new taken.new
        place.new)
        result }
    ensures valid { IsValid machine.new.bda }
{
    match Steps::of(script) {
        Ok(all) => {
            let mut steps = all;
            steps.pass_over(first as usize);
            let number = first as usize + 1;
            take_steps(
                alloc,
                machine,
                steps,
                number,
                most as usize,
                out,
                len,
                taken,
            )
        }
        Err(fault) => status_and_place(fault, place),
    }
}

/// Takes steps of a script on a machine, if its BIOS data are valid.
fn run(
    alloc: Global,
    machine: &mut Machine,
    script: &[u8],
    first: u32,
    most: u32,
    out: &mut [u8],
    len: &mut usize,
    taken: &mut usize,
    place: &mut usize,
) -> u32
    ensures run { IsValid machine.old.bda → IsScriptRunOrRefused script.now first most machine.old machine.new
        (steps_output_from_parts out.old len.old taken.old place.old) (steps_output_from_parts out.new len.new taken.new
        place.new)
        result }
    ensures valid { IsValid machine.old.bda → IsValid machine.new.bda }
    ensures bad { InvalidBiosDataChangeNothing machine.old machine.new (steps_output_from_parts out.old len.old
        taken.old place.old)
        (steps_output_from_parts out.new len.new taken.new place.new) result }
{
    if !machine.bda.valid() {
        return BAD_CARD;
    }
    run_with_valid_bios_data(alloc, machine, script, first, most, out, len, taken, place)
}

/// Skips the first `first` steps of a script, takes the next `most`, or all if there are fewer, and
/// writes their report. The numbers in the report count the skipped steps.
#[unsafe(no_mangle)]
pub extern "C" fn zak_run_on(
    alloc: Global,
    card: &mut Handle,
    script: &[u8],
    first: u32,
    most: u32,
    out: &mut [u8],
    len: &mut usize,
    taken: &mut usize,
    place: &mut usize,
) -> u32
    ensures run { OpenCardRunsScript script.now first most card.old card.new
        (steps_output_from_parts out.old len.old taken.old place.old) (steps_output_from_parts out.new len.new taken.new
        place.new)
        result }
    ensures bad { InvalidBiosDataChangeNoCard card.old card.new (steps_output_from_parts out.old len.old taken.old place.old)
        (steps_output_from_parts out.new len.new taken.new place.new) result }
    ensures closed { ClosedCardStaysUnchanged card.old card.new result }
    ensures spared { ClosedCardLeavesOutput card.old (steps_output_from_parts out.old len.old taken.old place.old)
        (steps_output_from_parts out.new len.new taken.new place.new) }
{
    on_open_card!(alloc, card, machine => {
        run(alloc, machine, script, first, most, out, len, taken, place)
    })
}

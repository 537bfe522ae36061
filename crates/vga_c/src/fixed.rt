//! States of a fixed length with a checksum.
ghost use Rattle.std.specs.Prelude.{◌≡◌, ◌+◌, ◌≤◌, length};
ghost use Rattle.vga_bits.specs.Bytes.{zeros};
ghost use Rattle.vga_run.specs.Saved.{number_of_four_bytes as long_of, four_bytes_of_number};
ghost use Rattle.vga_run.specs.Saved.{saved_machine};
ghost use Rattle.vga_c.specs.Cards.{OpenCardKeepsMachine, ClosedCardStaysUnchanged, ClosedCardLeavesOutput};
ghost use Rattle.vga_c.specs.Checksum.{adler_32};
ghost use Rattle.vga_c.specs.Fixed.{IsRestoredFromFixedLengthState, IsSavedFixedLengthState, RestoresFixedLengthState, SavesFixedLengthState};
ghost use Rattle.vga_c.specs.Fixed.{state_without_padding as state_of};
ghost use Rattle.vga_c.specs.Saved.{IsRestored};

use crate::checksum::checksum;
use crate::handle::{Handle, on_open_card};
use crate::saved::restore;
use crate::status::{DONE, NO_ROOM, STATE_CHECKSUM};
use std::alloc::Global;
use vga_bits::{put_word, word_at};
use vga_run::machine::Machine;

/// How many bytes the checksum has.
const SUM_LEN: usize = 4;

/// The number of four bytes at `at`, low byte first.
fn number_of_four_bytes(bytes: &[u8], at: usize) -> u32
    requires { at + 4 ≤ length bytes.now }
    ensures { result ≡ long_of bytes.now at }
{
    word_at(bytes, at) as u32 + 65_536 * word_at(bytes, at + 2) as u32
}

/// Writes the checksum of some bytes into four others.
fn write_checksum(body: &[u8], tail: &mut [u8])
    requires { length tail.old ≡ 4 }
    ensures { tail.new ≡ four_bytes_of_number (adler_32 body.now) }
{
    let sum = checksum(body);
    put_word(tail, 0, (sum % 65_536) as u16);
    put_word(tail, 2, (sum / 65_536) as u16);
}

/// Fills bytes with 0.
fn clear(bytes: &mut [u8])
    ensures { bytes.new ≡ zeros (length bytes.old) }
{
    for i in 0..bytes.len() {
        bytes[i] = 0;
    }
}

/// Saves a machine to the caller's whole buffer, if it is long enough.
fn save_fixed_length_state(machine: &Machine, bytes: &mut [u8]) -> u32
    ensures { IsSavedFixedLengthState (saved_machine machine.now) bytes.old bytes.new result }
{
    let size = machine.saved_len();
    if bytes.len() < SUM_LEN + size {
        return NO_ROOM;
    }
    let (body, tail) = bytes.split_at_mut(bytes.len() - SUM_LEN);
    let (state, rest) = body.split_at_mut(size);
    machine.save(state);
    clear(rest);
    write_checksum(body, tail);
    DONE
}

/// The state at the beginning of the bytes before the checksum.
fn state_without_padding(body: &[u8]) -> &[u8]
    ensures { result.now ≡ state_of body.now }
{
    if body.len() < 9 {
        return body;
    }
    let len = number_of_four_bytes(body, 5) as usize;
    &body[..len.min(body.len())]
}

/// Restores a machine from a state of a fixed length, if its checksum is right.
fn restore_fixed_length_state(machine: &mut Machine, bytes: &[u8]) -> u32
    ensures { IsRestoredFromFixedLengthState machine.old machine.new bytes.now result }
{
    if bytes.len() < SUM_LEN {
        return STATE_CHECKSUM;
    }
    let end = bytes.len() - SUM_LEN;
    let body = &bytes[..end];
    if number_of_four_bytes(bytes, end) != checksum(body) {
        return STATE_CHECKSUM;
    }
    restore(machine, state_without_padding(body))
}

/// Writes the state to the caller's whole buffer: the state, zeros, and a checksum at the end.
#[unsafe(no_mangle)]
pub extern "C" fn zak_save_fixed(alloc: Global, card: &mut Handle, bytes: &mut [u8]) -> u32
    ensures card { OpenCardKeepsMachine card.old card.new }
    ensures bytes { SavesFixedLengthState card.old bytes.old bytes.new result }
    ensures closed { ClosedCardStaysUnchanged card.old card.new result }
    ensures spared { ClosedCardLeavesOutput card.old bytes.old bytes.new }
{
    on_open_card!(alloc, card, machine => save_fixed_length_state(machine, bytes))
}

/// Restores a state of a fixed length. The fonts stay.
#[unsafe(no_mangle)]
pub extern "C" fn zak_restore_fixed(alloc: Global, card: &mut Handle, bytes: &[u8]) -> u32
    ensures card { RestoresFixedLengthState card.old card.new bytes.now result }
    ensures closed { ClosedCardStaysUnchanged card.old card.new result }
{
    on_open_card!(alloc, card, machine => restore_fixed_length_state(machine, bytes))
}

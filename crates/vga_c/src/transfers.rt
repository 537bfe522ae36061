//! Runs of cycles over consecutive addresses, from or to the caller's bytes.
ghost use Rattle.std.specs.Prelude.{◌≡◌, ◌+◌, ◌&&◌, length, slice_index};
ghost use Rattle.vga_card.specs.Transfers.{decoded_count, AreBytesRead};
ghost use Rattle.vga_c.specs.Cards.{ClosedCardStaysUnchanged, ClosedCardLeavesOutput};
ghost use Rattle.vga_c.specs.Transfers.{addresses_fit_32_bits as are_addresses_of, card_after_puts, card_after_gets};
ghost use Rattle.vga_c.specs.Transfers.{card_after_moves, OutputDescribesCardBefore, IsMachineAfterTransferIfAddressesFit, OutputDescribesOpenCardBefore};
ghost use Rattle.vga_c.specs.Transfers.{OpenCardAfterTransfer};

use crate::handle::{Handle, on_open_card};
use crate::status::{BAD_ARGUMENT, DONE};
use std::alloc::Global;
use vga_run::machine::Machine;

/// Whether n addresses from `first` on, and the next one too, have 32 bits.
fn addresses_fit_32_bits(first: u32, n: usize) -> bool
    ensures { result ≡ are_addresses_of first n }
{
    n < 0x1_0000_0000 - first as usize
}

/// Writes bytes to consecutive addresses, and answers how many were decoded.
fn put_bytes(
    machine: &mut Machine,
    address: u32,
    bytes: &[u8],
    down: bool,
    decoded: &mut usize,
) -> u32
    ensures after { IsMachineAfterTransferIfAddressesFit (are_addresses_of address (length bytes.now)) (card_after_puts down
        address (slice_index bytes.now) (length bytes.now)) machine.old machine.new result }
    ensures decoded { OutputDescribesCardBefore (are_addresses_of address (length bytes.now))
        (λ card n. n ≡ decoded_count card address (length bytes.now)) machine.old.card decoded.old
        decoded.new }
{
    if !addresses_fit_32_bits(address, bytes.len()) {
        return BAD_ARGUMENT;
    }
    *decoded = machine.card.decoded_among(address, bytes.len() as u32) as usize;
    if down {
        machine.card.put_slice_last_first(address, bytes);
    } else {
        machine.card.put_slice(address, bytes);
    }
    DONE
}

/// Writes bytes to consecutive addresses, from the first up or from the last down.
#[unsafe(no_mangle)]
pub extern "C" fn zak_put_bytes(
    alloc: Global,
    card: &mut Handle,
    address: u32,
    bytes: &[u8],
    down: bool,
    decoded: &mut usize,
) -> u32
    ensures card { OpenCardAfterTransfer (are_addresses_of address (length bytes.now)) (card_after_puts down address
        (slice_index bytes.now) (length bytes.now)) card.old card.new result }
    ensures decoded { OutputDescribesOpenCardBefore (are_addresses_of address (length bytes.now))
        (λ card n. n ≡ decoded_count card address (length bytes.now)) card.old decoded.old
        decoded.new }
    ensures closed { ClosedCardStaysUnchanged card.old card.new result }
    ensures spared { ClosedCardLeavesOutput card.old decoded.old decoded.new }
{
    on_open_card!(alloc, card, machine => put_bytes(machine, address, bytes, down, decoded))
}

/// Writes one byte to n consecutive addresses, and answers how many were decoded.
fn fill_bytes(
    machine: &mut Machine,
    address: u32,
    value: u8,
    count: usize,
    down: bool,
    decoded: &mut usize,
) -> u32
    ensures after { IsMachineAfterTransferIfAddressesFit (are_addresses_of address count) (card_after_puts down address
        (λ i. value) count) machine.old machine.new result }
    ensures decoded { OutputDescribesCardBefore (are_addresses_of address count)
        (λ card n. n ≡ decoded_count card address count) machine.old.card decoded.old decoded.new }
{
    if !addresses_fit_32_bits(address, count) {
        return BAD_ARGUMENT;
    }
    *decoded = machine.card.decoded_among(address, count as u32) as usize;
    if down {
        machine.card.fill_last_first(address, count as u32, value);
    } else {
        machine.card.fill(address, count as u32, value);
    }
    DONE
}

/// Writes one byte to n consecutive addresses, from the first up or from the last down.
#[unsafe(no_mangle)]
pub extern "C" fn zak_fill_bytes(
    alloc: Global,
    card: &mut Handle,
    address: u32,
    value: u8,
    count: usize,
    down: bool,
    decoded: &mut usize,
) -> u32
    ensures card { OpenCardAfterTransfer (are_addresses_of address count) (card_after_puts down address (λ i. value)
        count) card.old card.new result }
    ensures decoded { OutputDescribesOpenCardBefore (are_addresses_of address count)
        (λ card n. n ≡ decoded_count card address count) card.old decoded.old decoded.new }
    ensures closed { ClosedCardStaysUnchanged card.old card.new result }
    ensures spared { ClosedCardLeavesOutput card.old decoded.old decoded.new }
{
    on_open_card!(alloc, card, machine => {
        fill_bytes(machine, address, value, count, down, decoded)
    })
}

/// Reads consecutive addresses into the caller's bytes, and answers how many were decoded.
fn get_bytes(
    machine: &mut Machine,
    address: u32,
    bytes: &mut [u8],
    down: bool,
    decoded: &mut usize,
) -> u32
    ensures after { IsMachineAfterTransferIfAddressesFit (are_addresses_of address (length bytes.old)) (card_after_gets down
        address (length bytes.old)) machine.old machine.new result }
    ensures bytes { OutputDescribesCardBefore (are_addresses_of address (length bytes.old))
        (λ card new. AreBytesRead card address bytes.old new) machine.old.card bytes.old bytes.new }
    ensures decoded { OutputDescribesCardBefore (are_addresses_of address (length bytes.old))
        (λ card n. n ≡ decoded_count card address (length bytes.old)) machine.old.card decoded.old
        decoded.new }
{
    if !addresses_fit_32_bits(address, bytes.len()) {
        return BAD_ARGUMENT;
    }
    *decoded = machine.card.decoded_among(address, bytes.len() as u32) as usize;
    if down {
        machine.card.get_slice_last_first(address, bytes);
    } else {
        machine.card.get_slice(address, bytes);
    }
    DONE
}

/// Reads consecutive addresses, from the first up or from the last down. A read that is not decoded
/// gives FF.
#[unsafe(no_mangle)]
pub extern "C" fn zak_get_bytes(
    alloc: Global,
    card: &mut Handle,
    address: u32,
    bytes: &mut [u8],
    down: bool,
    decoded: &mut usize,
) -> u32
    ensures card { OpenCardAfterTransfer (are_addresses_of address (length bytes.old)) (card_after_gets down address
        (length bytes.old)) card.old card.new result }
    ensures bytes { OutputDescribesOpenCardBefore (are_addresses_of address (length bytes.old))
        (λ card new. AreBytesRead card address bytes.old new) card.old bytes.old bytes.new }
    ensures decoded { OutputDescribesOpenCardBefore (are_addresses_of address (length bytes.old))
        (λ card n. n ≡ decoded_count card address (length bytes.old)) card.old decoded.old
        decoded.new }
    ensures closed { ClosedCardStaysUnchanged card.old card.new result }
    ensures spared { ClosedCardLeavesOutput card.old bytes.old bytes.new }
    ensures count { ClosedCardLeavesOutput card.old decoded.old decoded.new }
{
    on_open_card!(alloc, card, machine => get_bytes(machine, address, bytes, down, decoded))
}

/// Moves n bytes from addresses to others, and answers how many reads and writes were decoded.
fn move_bytes(
    machine: &mut Machine,
    from: u32,
    to: u32,
    count: usize,
    down: bool,
    decoded: &mut usize,
) -> u32
    ensures after { IsMachineAfterTransferIfAddressesFit (are_addresses_of from count && are_addresses_of to count)
        (card_after_moves down from to count) machine.old machine.new result }
    ensures decoded { OutputDescribesCardBefore (are_addresses_of from count && are_addresses_of to count)
        (λ card n. n ≡ decoded_count card from count + decoded_count card to count) machine.old.card
        decoded.old decoded.new }
{
    if !addresses_fit_32_bits(from, count) || !addresses_fit_32_bits(to, count) {
        return BAD_ARGUMENT;
    }
    let n = count as u32;
    let read = machine.card.decoded_among(from, n) as usize;
    *decoded = read + machine.card.decoded_among(to, n) as usize;
    if down {
        machine.card.move_bytes_last_first(from, to, n);
    } else {
        machine.card.move_bytes(from, to, n);
    }
    DONE
}

/// Moves n bytes from addresses to others, each by a read and a write, from the first up or from
/// the last down. A read that is not decoded gives FF.
#[unsafe(no_mangle)]
pub extern "C" fn zak_move_bytes(
    alloc: Global,
    card: &mut Handle,
    from: u32,
    to: u32,
    count: usize,
    down: bool,
    decoded: &mut usize,
) -> u32
    ensures card { OpenCardAfterTransfer (are_addresses_of from count && are_addresses_of to count)
        (card_after_moves down from to count) card.old card.new result }
    ensures decoded { OutputDescribesOpenCardBefore (are_addresses_of from count && are_addresses_of to count)
        (λ card n. n ≡ decoded_count card from count + decoded_count card to count) card.old
        decoded.old
        decoded.new }
    ensures closed { ClosedCardStaysUnchanged card.old card.new result }
    ensures spared { ClosedCardLeavesOutput card.old decoded.old decoded.new }
{
    on_open_card!(alloc, card, machine => move_bytes(machine, from, to, count, down, decoded))
}

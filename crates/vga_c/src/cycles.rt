//! Cycles of an open card, and dots of its clock.
ghost use Rattle.std.specs.Prelude.{◌≡◌, ◌≤◌, true, false};
ghost use Rattle.vga_card.specs.Dots.{most_dots_of_an_advance};
ghost use Rattle.vga_card.specs.LineAhead.{IsLineAhead};
ghost use Rattle.vga_script.specs.declared.step.Step.TheVariants.{Out, OutWord, In, InWord, Put};
ghost use Rattle.vga_script.specs.declared.step.Step.TheVariants.{PutWord, Get, GetWord, Advance};
ghost use Rattle.vga_run.specs.Step.{after_step, answer_to};
ghost use Rattle.vga_c.specs.Handle.{KeepsLineAhead};
ghost use Rattle.vga_c.specs.Status.{status_of, value_read_or_before};
ghost use Rattle.vga_c.specs.Cards.{ClosedCardStaysUnchanged, OutputHasWhatStepReads, ClosedCardLeavesOutput, OpenCardTakesStep};

use crate::handle::{
    Handle, at_once, before_dots, on_open_card, on_owing_card, on_owing_card_at_line,
};
use crate::status::{DONE, status_after_byte_read, status_after_word_read, status_after_write};
use std::alloc::Global;
use vga_card::LineAhead;
use vga_card::laws::line_stays_ahead;
use vga_run::machine::Machine;

/// Writes a byte to a port after the dots that are owed. It gives how many are owed from then on.
#[tactic(auto, unfolding(vga_run::specs::Step::after_step, vga_run::specs::Step::answer_to))]
fn out(machine: &mut Machine, owed: u32, port: u16, value: u8) -> (u32, u32)
    requires { owed ≤ most_dots_of_an_advance }
    ensures after { after_step machine.new (Advance result.0)
        ≡ after_step (after_step machine.old (Advance owed)) (Out port value) }
    ensures status { result.1
        ≡ status_of (answer_to (after_step machine.old (Advance owed)) (Out port value)) }
{
    let (left, answer) = machine.card.out_with_dots_owed(owed, port, value);
    (left, status_after_write(answer))
}

/// Writes a byte to a port, if none of the dots that are owed sees it and it is not refused. It
/// returns whether it did; if not, nothing changes.
#[tactic(auto, unfolding(vga_run::specs::Step::after_step, vga_run::specs::Step::answer_to))]
fn out_before_dots(machine: &mut Machine, owed: u32, port: u16, value: u8) -> bool
    requires { owed ≤ most_dots_of_an_advance }
    ensures after { result ≡ true → after_step machine.new (Advance owed)
        ≡ after_step (after_step machine.old (Advance owed)) (Out port value) }
    ensures status { result ≡ true
        → status_of (answer_to (after_step machine.old (Advance owed)) (Out port value)) ≡ 0 }
    ensures line { KeepsLineAhead machine.old machine.new }
    ensures left { result ≡ false → machine.new ≡ machine.old }
{
    line_stays_ahead();
    machine.card.out_before_dots(port, value)
}

/// Writes a byte to a port after the dots that are owed.
#[inline(never)]
fn out_on_owing_card(alloc: Global, card: &mut Handle, port: u16, value: u8) -> u32
    ensures step { OpenCardTakesStep (Out port value) card.old card.new result }
    ensures closed { ClosedCardStaysUnchanged card.old card.new result }
{
    on_owing_card!(alloc, card, machine, owed => out(machine, owed, port, value))
}

/// Writes a byte to a port.
#[unsafe(no_mangle)]
pub extern "C" fn zak_out(alloc: Global, card: &mut Handle, port: u16, value: u8) -> u32
    ensures step { OpenCardTakesStep (Out port value) card.old card.new result }
    ensures closed { ClosedCardStaysUnchanged card.old card.new result }
{
    before_dots!(alloc, card, machine, owed, line => out_before_dots(machine, owed, port, value));
    out_on_owing_card(alloc, card, port, value)
}

/// Writes a word to a port and the next port after the dots that are owed. It gives how many are
/// owed from then on.
#[tactic(auto, unfolding(vga_run::specs::Step::after_step, vga_run::specs::Step::answer_to))]
fn out_word(machine: &mut Machine, owed: u32, port: u16, value: u16) -> (u32, u32)
    requires { owed ≤ most_dots_of_an_advance }
    ensures after { after_step machine.new (Advance result.0)
        ≡ after_step (after_step machine.old (Advance owed)) (OutWord port value) }
    ensures status { result.1
        ≡ status_of (answer_to (after_step machine.old (Advance owed)) (OutWord port value)) }
{
    let (left, answer) = machine.card.out_word_with_dots_owed(owed, port, value);
    (left, status_after_write(answer))
}

/// Writes a word to a port and the next port, if none of the dots that are owed sees it and it is not
/// refused. It returns whether it did; if not, nothing changes.
#[tactic(auto, unfolding(vga_run::specs::Step::after_step, vga_run::specs::Step::answer_to))]
fn out_word_before_dots(machine: &mut Machine, owed: u32, port: u16, value: u16) -> bool
    requires { owed ≤ most_dots_of_an_advance }
    ensures after { result ≡ true → after_step machine.new (Advance owed)
        ≡ after_step (after_step machine.old (Advance owed)) (OutWord port value) }
    ensures status { result ≡ true
        → status_of (answer_to (after_step machine.old (Advance owed)) (OutWord port value)) ≡ 0 }
    ensures line { KeepsLineAhead machine.old machine.new }
    ensures left { result ≡ false → machine.new ≡ machine.old }
{
    line_stays_ahead();
    machine.card.out_word_before_dots(port, value)
}

/// Writes a word to a port and the next port after the dots that are owed.
#[inline(never)]
fn out_word_on_owing_card(alloc: Global, card: &mut Handle, port: u16, value: u16) -> u32
    ensures step { OpenCardTakesStep (OutWord port value) card.old card.new result }
    ensures closed { ClosedCardStaysUnchanged card.old card.new result }
{
    on_owing_card!(alloc, card, machine, owed => out_word(machine, owed, port, value))
}

/// Writes a word to a port and the next port.
#[unsafe(no_mangle)]
pub extern "C" fn zak_out_word(alloc: Global, card: &mut Handle, port: u16, value: u16) -> u32
    ensures step { OpenCardTakesStep (OutWord port value) card.old card.new result }
    ensures closed { ClosedCardStaysUnchanged card.old card.new result }
{
    before_dots!(alloc, card, machine, owed, line => out_word_before_dots(machine, owed, port, value));
    out_word_on_owing_card(alloc, card, port, value)
}

/// What is known of the line ahead, if dots are left that are owed.
fn line_of_dots_left(machine: &Machine, left: u32) -> LineAhead
    ensures { IsLineAhead result machine.now.card }
{
    if left > 0 {
        machine.card.line_ahead()
    } else {
        LineAhead::unknown()
    }
}

/// Reads a byte from a port after the dots that are owed. It gives how many are owed from then on,
/// and what is known of the line ahead of those.
#[tactic(auto, unfolding(vga_run::specs::Step::after_step, vga_run::specs::Step::answer_to))]
fn inp(machine: &mut Machine, owed: u32, port: u16, value: &mut u8) -> (u32, LineAhead, u32)
    requires { owed ≤ most_dots_of_an_advance }
    ensures line { IsLineAhead result.1 machine.new.card }
    ensures after { after_step machine.new (Advance result.0)
        ≡ after_step (after_step machine.old (Advance owed)) (In port) }
    ensures status { result.2
        ≡ status_of (answer_to (after_step machine.old (Advance owed)) (In port)) }
    ensures value { value.new
        ≡ value_read_or_before (answer_to (after_step machine.old (Advance owed)) (In port))
        value.old }
{
    let (left, answer) = machine.card.inp_with_dots_owed(owed, port);
    let line = line_of_dots_left(machine, left);
    (left, line, status_after_byte_read(answer, value))
}

/// Reads input status 1, if the port is its port. It returns whether it did; if not, nothing
/// changes.
#[tactic(auto, unfolding(vga_run::specs::Step::after_step, vga_run::specs::Step::answer_to))]
fn inp_status_at_once(machine: &mut Machine, port: u16, value: &mut u8) -> bool
    ensures after { result ≡ true → machine.new ≡ after_step machine.old (In port) }
    ensures status { result ≡ true → status_of (answer_to machine.old (In port)) ≡ 0 }
    ensures value { result ≡ true
        → value.new ≡ value_read_or_before (answer_to machine.old (In port)) value.old }
    ensures line { KeepsLineAhead machine.old machine.new }
    ensures left { result ≡ false → machine.new ≡ machine.old }
    ensures spared { result ≡ false → value.new ≡ value.old }
{
    line_stays_ahead();
    match machine.card.inp_status(port) {
        Some(read) => {
            *value = read;
            true
        }
        None => false,
    }
}

/// Reads input status 1 as it is after the dots that are owed, one at least, if they are dots of the
/// line ahead and the port is its port. It returns whether it did; if not, nothing changes.
#[tactic(auto, unfolding(vga_run::specs::Step::after_step, vga_run::specs::Step::answer_to))]
fn inp_status_before_line(
    machine: &mut Machine,
    line: LineAhead,
    owed: u32,
    port: u16,
    value: &mut u8,
) -> bool
    requires few { owed ≤ most_dots_of_an_advance }
    requires line { IsLineAhead line machine.old.card }
    ensures after { result ≡ true → after_step machine.new (Advance owed)
        ≡ after_step (after_step machine.old (Advance owed)) (In port) }
    ensures status { result ≡ true
        → status_of (answer_to (after_step machine.old (Advance owed)) (In port)) ≡ 0 }
    ensures value { result ≡ true → value.new
        ≡ value_read_or_before (answer_to (after_step machine.old (Advance owed)) (In port))
        value.old }
    ensures line { KeepsLineAhead machine.old machine.new }
    ensures left { result ≡ false → machine.new ≡ machine.old }
    ensures spared { result ≡ false → value.new ≡ value.old }
{
    line_stays_ahead();
    match machine.card.inp_status_before_line(line, owed, port) {
        Some(read) => {
            *value = read;
            true
        }
        None => false,
    }
}

/// Reads a byte from a port, after those of the dots that are owed that the read must wait for.
#[inline(never)]
fn inp_after_dots(alloc: Global, card: &mut Handle, port: u16, value: &mut u8) -> u32
    ensures step { OpenCardTakesStep (In port) card.old card.new result }
    ensures value { OutputHasWhatStepReads (In port) card.old value.old value.new }
    ensures closed { ClosedCardStaysUnchanged card.old card.new result }
    ensures spared { ClosedCardLeavesOutput card.old value.old value.new }
{
    on_owing_card_at_line!(alloc, card, machine, owed, _line => inp(machine, owed, port, value))
}

/// Reads a byte from a port after the dots that are owed.
#[inline(never)]
fn inp_on_owing_card(alloc: Global, card: &mut Handle, port: u16, value: &mut u8) -> u32
    ensures step { OpenCardTakesStep (In port) card.old card.new result }
    ensures value { OutputHasWhatStepReads (In port) card.old value.old value.new }
    ensures closed { ClosedCardStaysUnchanged card.old card.new result }
    ensures spared { ClosedCardLeavesOutput card.old value.old value.new }
{
    before_dots!(alloc, card, machine, owed, line =>
        inp_status_before_line(machine, line, owed, port, value));
    inp_after_dots(alloc, card, port, value)
}

/// Reads a byte from a port.
#[unsafe(no_mangle)]
pub extern "C" fn zak_in(alloc: Global, card: &mut Handle, port: u16, value: &mut u8) -> u32
    ensures step { OpenCardTakesStep (In port) card.old card.new result }
    ensures value { OutputHasWhatStepReads (In port) card.old value.old value.new }
    ensures closed { ClosedCardStaysUnchanged card.old card.new result }
    ensures spared { ClosedCardLeavesOutput card.old value.old value.new }
{
    at_once!(alloc, card, machine => inp_status_at_once(machine, port, value));
    inp_on_owing_card(alloc, card, port, value)
}

/// Reads a word from a port and the next port.
#[tactic(auto, unfolding(vga_run::specs::Step::after_step, vga_run::specs::Step::answer_to))]
fn inp_word(machine: &mut Machine, port: u16, value: &mut u16) -> u32
    ensures after { machine.new ≡ after_step machine.old (InWord port) }
    ensures status { result ≡ status_of (answer_to machine.old (InWord port)) }
    ensures value { value.new ≡ value_read_or_before (answer_to machine.old (InWord port))
        value.old }
{
    status_after_word_read(machine.card.inp_word(port), value)
}

/// Reads a word from a port and the next port.
#[unsafe(no_mangle)]
pub extern "C" fn zak_in_word(alloc: Global, card: &mut Handle, port: u16, value: &mut u16) -> u32
    ensures step { OpenCardTakesStep (InWord port) card.old card.new result }
    ensures value { OutputHasWhatStepReads (InWord port) card.old value.old value.new }
    ensures closed { ClosedCardStaysUnchanged card.old card.new result }
    ensures spared { ClosedCardLeavesOutput card.old value.old value.new }
{
    on_open_card!(alloc, card, machine => inp_word(machine, port, value))
}

/// Writes a byte to an address after the dots that are owed. It is given what is known of the line
/// ahead. It gives how many dots are owed from then on, and what is known of the line ahead then.
#[tactic(auto, unfolding(vga_run::specs::Step::after_step, vga_run::specs::Step::answer_to))]
fn put(
    machine: &mut Machine,
    line: LineAhead,
    owed: u32,
    address: u32,
    value: u8,
) -> (u32, LineAhead, u32)
    requires few { owed ≤ most_dots_of_an_advance }
    requires line { IsLineAhead line machine.old.card }
    ensures line { IsLineAhead result.1 machine.new.card }
    ensures after { after_step machine.new (Advance result.0)
        ≡ after_step (after_step machine.old (Advance owed)) (Put address value) }
    ensures status { result.2
        ≡ status_of (answer_to (after_step machine.old (Advance owed)) (Put address value)) }
{
    let (left, after, answer) = machine.card.put_with_dots_owed(line, owed, address, value);
    (left, after, status_after_write(answer))
}

/// Writes a byte to an address, if it is stored unchanged. It returns whether it did; if not,
/// nothing changes.
#[tactic(auto, unfolding(vga_run::specs::Step::after_step, vga_run::specs::Step::answer_to))]
fn put_at_once(machine: &mut Machine, address: u32, value: u8) -> bool
    ensures after { result ≡ true → machine.new ≡ after_step machine.old (Put address value) }
    ensures status { result ≡ true → status_of (answer_to machine.old (Put address value)) ≡ 0 }
    ensures line { KeepsLineAhead machine.old machine.new }
    ensures left { result ≡ false → machine.new ≡ machine.old }
{
    line_stays_ahead();
    machine.card.put_if_unchanged(address, value)
}

/// Writes a byte to an address, if the dots that are owed are of the line ahead and don't see it, and
/// it is stored unchanged. It returns whether it did; if not, nothing changes.
#[tactic(auto, unfolding(vga_run::specs::Step::after_step, vga_run::specs::Step::answer_to))]
fn put_before_line(
    machine: &mut Machine,
    line: LineAhead,
    owed: u32,
    address: u32,
    value: u8,
) -> bool
    requires few { owed ≤ most_dots_of_an_advance }
    requires line { IsLineAhead line machine.old.card }
    ensures after { result ≡ true → after_step machine.new (Advance owed)
        ≡ after_step (after_step machine.old (Advance owed)) (Put address value) }
    ensures status { result ≡ true
        → status_of (answer_to (after_step machine.old (Advance owed)) (Put address value)) ≡ 0 }
    ensures line { KeepsLineAhead machine.old machine.new }
    ensures left { result ≡ false → machine.new ≡ machine.old }
{
    line_stays_ahead();
    machine.card.put_before_line(line, owed, address, value)
}

/// Writes a byte to an address.
#[tactic(auto, unfolding(vga_run::specs::Step::after_step, vga_run::specs::Step::answer_to))]
fn put_on_machine(machine: &mut Machine, address: u32, value: u8) -> u32
    ensures after { machine.new ≡ after_step machine.old (Put address value) }
    ensures status { result ≡ status_of (answer_to machine.old (Put address value)) }
{
    status_after_write(machine.card.put(address, value))
}

/// Writes a byte to an address of a card that owes no dots.
#[inline(never)]
fn put_now(alloc: Global, card: &mut Handle, address: u32, value: u8) -> u32
    ensures step { OpenCardTakesStep (Put address value) card.old card.new result }
    ensures closed { ClosedCardStaysUnchanged card.old card.new result }
{
    on_open_card!(alloc, card, machine => put_on_machine(machine, address, value))
}

/// Writes a byte to an address, after those of the dots that are owed that may see it.
#[inline(never)]
fn put_after_dots(alloc: Global, card: &mut Handle, address: u32, value: u8) -> u32
    ensures step { OpenCardTakesStep (Put address value) card.old card.new result }
    ensures closed { ClosedCardStaysUnchanged card.old card.new result }
{
    on_owing_card_at_line!(alloc, card, machine, owed, line =>
        put(machine, line, owed, address, value))
}

/// Writes a byte to an address of a card that owes dots.
#[inline(never)]
fn put_on_owing_card(alloc: Global, card: &mut Handle, address: u32, value: u8) -> u32
    ensures step { OpenCardTakesStep (Put address value) card.old card.new result }
    ensures closed { ClosedCardStaysUnchanged card.old card.new result }
{
    before_dots!(alloc, card, machine, owed, line =>
        put_before_line(machine, line, owed, address, value));
    put_after_dots(alloc, card, address, value)
}

/// Writes a byte to an address.
#[unsafe(no_mangle)]
pub extern "C" fn zak_put(alloc: Global, card: &mut Handle, address: u32, value: u8) -> u32
    ensures step { OpenCardTakesStep (Put address value) card.old card.new result }
    ensures closed { ClosedCardStaysUnchanged card.old card.new result }
{
    at_once!(alloc, card, machine => put_at_once(machine, address, value));
    if card.owes_dots() {
        return put_on_owing_card(alloc, card, address, value);
    }
    put_now(alloc, card, address, value)
}

/// Writes a word to an address and the next address, after the dots that are owed. It is given what
/// is known of the line ahead. It gives how many dots are owed from then on, and what is known of
/// the line ahead then.
#[tactic(auto, unfolding(vga_run::specs::Step::after_step, vga_run::specs::Step::answer_to))]
fn put_word(
    machine: &mut Machine,
    line: LineAhead,
    owed: u32,
    address: u32,
    value: u16,
) -> (u32, LineAhead, u32)
    requires few { owed ≤ most_dots_of_an_advance }
    requires line { IsLineAhead line machine.old.card }
    ensures line { IsLineAhead result.1 machine.new.card }
    ensures after { after_step machine.new (Advance result.0)
        ≡ after_step (after_step machine.old (Advance owed)) (PutWord address value) }
    ensures status { result.2
        ≡ status_of (answer_to (after_step machine.old (Advance owed)) (PutWord address value)) }
{
    let (left, after, answer) = machine
        .card
        .put_word_with_dots_owed(line, owed, address, value);
    (left, after, status_after_write(answer))
}

/// Writes a word to an address and the next address, if its bytes are stored unchanged. It returns
/// whether it did; if not, nothing changes.
#[tactic(auto, unfolding(vga_run::specs::Step::after_step, vga_run::specs::Step::answer_to))]
fn put_word_at_once(machine: &mut Machine, address: u32, value: u16) -> bool
    ensures after { result ≡ true → machine.new ≡ after_step machine.old (PutWord address value) }
    ensures status { result ≡ true → status_of (answer_to machine.old (PutWord address value)) ≡ 0 }
    ensures line { KeepsLineAhead machine.old machine.new }
    ensures left { result ≡ false → machine.new ≡ machine.old }
{
    line_stays_ahead();
    machine.card.put_word_if_unchanged(address, value)
}

/// Writes a word to an address and the next address, if the dots that are owed are of the line ahead
/// and don't see it, and its bytes are stored unchanged. It returns whether it did; if not, nothing
/// changes.
#[tactic(auto, unfolding(vga_run::specs::Step::after_step, vga_run::specs::Step::answer_to))]
fn put_word_before_line(
    machine: &mut Machine,
    line: LineAhead,
    owed: u32,
    address: u32,
    value: u16,
) -> bool
    requires few { owed ≤ most_dots_of_an_advance }
    requires line { IsLineAhead line machine.old.card }
    ensures after { result ≡ true → after_step machine.new (Advance owed)
        ≡ after_step (after_step machine.old (Advance owed)) (PutWord address value) }
    ensures status { result ≡ true
        → status_of (answer_to (after_step machine.old (Advance owed)) (PutWord address value)) ≡ 0 }
    ensures line { KeepsLineAhead machine.old machine.new }
    ensures left { result ≡ false → machine.new ≡ machine.old }
{
    line_stays_ahead();
    machine
        .card
        .put_word_before_line(line, owed, address, value)
}

/// Writes a word to an address and the next address, after those of the dots that are owed that may
/// see it.
#[inline(never)]
fn put_word_after_dots(alloc: Global, card: &mut Handle, address: u32, value: u16) -> u32
    ensures step { OpenCardTakesStep (PutWord address value) card.old card.new result }
    ensures closed { ClosedCardStaysUnchanged card.old card.new result }
{
    on_owing_card_at_line!(alloc, card, machine, owed, line =>
        put_word(machine, line, owed, address, value))
}

/// Writes a word to an address and the next address, of a card that may owe dots.
#[inline(never)]
fn put_word_on_owing_card(alloc: Global, card: &mut Handle, address: u32, value: u16) -> u32
    ensures step { OpenCardTakesStep (PutWord address value) card.old card.new result }
    ensures closed { ClosedCardStaysUnchanged card.old card.new result }
{
    before_dots!(alloc, card, machine, owed, line =>
        put_word_before_line(machine, line, owed, address, value));
    put_word_after_dots(alloc, card, address, value)
}

/// Writes a word to an address and the next address.
#[unsafe(no_mangle)]
pub extern "C" fn zak_put_word(alloc: Global, card: &mut Handle, address: u32, value: u16) -> u32
    ensures step { OpenCardTakesStep (PutWord address value) card.old card.new result }
    ensures closed { ClosedCardStaysUnchanged card.old card.new result }
{
    at_once!(alloc, card, machine => put_word_at_once(machine, address, value));
    put_word_on_owing_card(alloc, card, address, value)
}

/// Reads a byte from an address after the dots that are owed. It gives how many are owed from then
/// on.
#[tactic(auto, unfolding(vga_run::specs::Step::after_step, vga_run::specs::Step::answer_to))]
fn get(machine: &mut Machine, owed: u32, address: u32, value: &mut u8) -> (u32, u32)
    requires { owed ≤ most_dots_of_an_advance }
    ensures after { after_step machine.new (Advance result.0)
        ≡ after_step (after_step machine.old (Advance owed)) (Get address) }
    ensures status { result.1
        ≡ status_of (answer_to (after_step machine.old (Advance owed)) (Get address)) }
    ensures value { value.new
        ≡ value_read_or_before (answer_to (after_step machine.old (Advance owed)) (Get address))
        value.old }
{
    let answer = machine.card.get_with_dots_owed(owed, address);
    (owed, status_after_byte_read(answer, value))
}

/// Reads a byte from an address, if it is decoded and read mode is 0. It returns whether it did; if
/// not, nothing changes.
#[tactic(auto, unfolding(vga_run::specs::Step::after_step, vga_run::specs::Step::answer_to))]
fn get_before_dots(machine: &mut Machine, owed: u32, address: u32, value: &mut u8) -> bool
    requires { owed ≤ most_dots_of_an_advance }
    ensures after { result ≡ true → after_step machine.new (Advance owed)
        ≡ after_step (after_step machine.old (Advance owed)) (Get address) }
    ensures status { result ≡ true
        → status_of (answer_to (after_step machine.old (Advance owed)) (Get address)) ≡ 0 }
    ensures value { result ≡ true → value.new
        ≡ value_read_or_before (answer_to (after_step machine.old (Advance owed)) (Get address))
        value.old }
    ensures line { KeepsLineAhead machine.old machine.new }
    ensures left { result ≡ false → machine.new ≡ machine.old }
    ensures spared { result ≡ false → value.new ≡ value.old }
{
    line_stays_ahead();
    match machine.card.get_from_plane_before_dots(address) {
        Some(read) => {
            *value = read;
            true
        }
        None => false,
    }
}

/// Reads a byte from an address after the dots that are owed.
#[inline(never)]
fn get_on_owing_card(alloc: Global, card: &mut Handle, address: u32, value: &mut u8) -> u32
    ensures step { OpenCardTakesStep (Get address) card.old card.new result }
    ensures value { OutputHasWhatStepReads (Get address) card.old value.old value.new }
    ensures closed { ClosedCardStaysUnchanged card.old card.new result }
    ensures spared { ClosedCardLeavesOutput card.old value.old value.new }
{
    on_owing_card!(alloc, card, machine, owed => get(machine, owed, address, value))
}

/// Reads a byte from an address.
#[unsafe(no_mangle)]
pub extern "C" fn zak_get(alloc: Global, card: &mut Handle, address: u32, value: &mut u8) -> u32
    ensures step { OpenCardTakesStep (Get address) card.old card.new result }
    ensures value { OutputHasWhatStepReads (Get address) card.old value.old value.new }
    ensures closed { ClosedCardStaysUnchanged card.old card.new result }
    ensures spared { ClosedCardLeavesOutput card.old value.old value.new }
{
    before_dots!(alloc, card, machine, owed, line => get_before_dots(machine, owed, address, value));
    get_on_owing_card(alloc, card, address, value)
}

/// Reads a word from an address and the next address, after the dots that are owed. It gives how
/// many are owed from then on.
#[tactic(auto, unfolding(vga_run::specs::Step::after_step, vga_run::specs::Step::answer_to))]
fn get_word(machine: &mut Machine, owed: u32, address: u32, value: &mut u16) -> (u32, u32)
    requires { owed ≤ most_dots_of_an_advance }
    ensures after { after_step machine.new (Advance result.0)
        ≡ after_step (after_step machine.old (Advance owed)) (GetWord address) }
    ensures status { result.1
        ≡ status_of (answer_to (after_step machine.old (Advance owed)) (GetWord address)) }
    ensures value { value.new
        ≡ value_read_or_before (answer_to (after_step machine.old (Advance owed)) (GetWord address))
        value.old }
{
    let answer = machine.card.get_word_with_dots_owed(owed, address);
    (owed, status_after_word_read(answer, value))
}

/// Reads a word from an address and the next address, if both are decoded and read mode is 0. It
/// returns whether it did; if not, nothing changes.
#[tactic(auto, unfolding(vga_run::specs::Step::after_step, vga_run::specs::Step::answer_to))]
fn get_word_before_dots(machine: &mut Machine, owed: u32, address: u32, value: &mut u16) -> bool
    requires { owed ≤ most_dots_of_an_advance }
    ensures after { result ≡ true → after_step machine.new (Advance owed)
        ≡ after_step (after_step machine.old (Advance owed)) (GetWord address) }
    ensures status { result ≡ true
        → status_of (answer_to (after_step machine.old (Advance owed)) (GetWord address)) ≡ 0 }
    ensures value { result ≡ true → value.new
        ≡ value_read_or_before (answer_to (after_step machine.old (Advance owed)) (GetWord address))
        value.old }
    ensures line { KeepsLineAhead machine.old machine.new }
    ensures left { result ≡ false → machine.new ≡ machine.old }
    ensures spared { result ≡ false → value.new ≡ value.old }
{
    line_stays_ahead();
    match machine.card.get_word_from_planes_before_dots(address) {
        Some(read) => {
            *value = read;
            true
        }
        None => false,
    }
}

/// Reads a word from an address and the next address after the dots that are owed.
#[inline(never)]
fn get_word_on_owing_card(alloc: Global, card: &mut Handle, address: u32, value: &mut u16) -> u32
    ensures step { OpenCardTakesStep (GetWord address) card.old card.new result }
    ensures value { OutputHasWhatStepReads (GetWord address) card.old value.old value.new }
    ensures closed { ClosedCardStaysUnchanged card.old card.new result }
    ensures spared { ClosedCardLeavesOutput card.old value.old value.new }
{
    on_owing_card!(alloc, card, machine, owed => get_word(machine, owed, address, value))
}

/// Reads a word from an address and the next address.
#[unsafe(no_mangle)]
pub extern "C" fn zak_get_word(
    alloc: Global,
    card: &mut Handle,
    address: u32,
    value: &mut u16,
) -> u32
    ensures step { OpenCardTakesStep (GetWord address) card.old card.new result }
    ensures value { OutputHasWhatStepReads (GetWord address) card.old value.old value.new }
    ensures closed { ClosedCardStaysUnchanged card.old card.new result }
    ensures spared { ClosedCardLeavesOutput card.old value.old value.new }
{
    before_dots!(alloc, card, machine, owed, line => get_word_before_dots(machine, owed, address, value));
    get_word_on_owing_card(alloc, card, address, value)
}

/// Lets the clock run for `dots` dots.
#[tactic(auto, unfolding(vga_run::specs::Step::after_step, vga_run::specs::Step::answer_to))]
pub(crate) fn advance(machine: &mut Machine, dots: u32) -> u32
    ensures after { machine.new ≡ after_step machine.old (Advance dots) }
    ensures status { result ≡ status_of (answer_to machine.old (Advance dots)) }
{
    status_after_write(machine.card.advance(dots))
}

/// Lets the clock run for `dots` dots. They are drawn before a call that sees them drawn.
#[unsafe(no_mangle)]
pub extern "C" fn zak_advance(alloc: Global, card: &mut Handle, dots: u32) -> u32
    ensures step { OpenCardTakesStep (Advance dots) card.old card.new result }
    ensures closed { ClosedCardStaysUnchanged card.old card.new result }
{
    if card.is_open() && card.owe(dots) {
        return DONE;
    }
    on_open_card!(alloc, card, machine => advance(machine, dots))
}

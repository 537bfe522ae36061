//! A card in the memory of a C program.
ghost use Rattle.std.specs.Prelude.{◌≡◌, ◌≤◌, true, false};
ghost use Rattle.vga_card.specs.Dots.{most_dots_of_an_advance};
ghost use Rattle.vga_card.specs.LineAhead.{IsLineAhead};
ghost use Rattle.vga_run.specs.Step.{after_step};
ghost use Rattle.vga_script.specs.declared.step.Step.TheVariants.{Advance};
ghost use Rattle.vga_c.specs.Handle.{machine_after_owed_dots};

use crate::box_parts::BoxParts;
use crate::cycles::advance;
use crate::sealed::Sealed;
use std::alloc::Global;
use std::marker::Model;
use vga_card::LineAhead;
use vga_card::laws::dots_split;
use vga_host::OffsetRun;
use vga_run::machine::Machine;

/// The most dots of one advance.
const MOST_DOTS: u32 = 16_777_216;

/// A card, open or closed. A zero-filled card is closed.
///
/// Consecutive advances are added up: the card owes their dots, which are drawn together before a
/// call that sees them drawn. Contracts see whether the card is open, and its machine after the dots
/// that it owes.
#[repr(C)]
#[derive(Drop)]
pub struct Handle {
    is_open: bool,
    owed: u32,
    /// What is known of the line ahead of the machine's beam, for speed alone: how many of its dots
    /// are left, the first offset that they may fetch, and how many offsets from there on.
    line_dots: u32,
    line_first: u16,
    line_count: u16,
    sealed: Sealed,
}

impl Model for Handle {
    ghost use Rattle.std.specs.Prelude.{◌≡◌, true};
    ghost use Rattle.vga_card.specs.LineAhead.{IsLineAhead};
    ghost use Rattle.vga_c.specs.Handle.{HandleState};

    ghost Value = { HandleState };

    ghost view = { λ h. record {
      is_open = h.is_open;
      owed = h.owed;
      line = record {
        dots = h.line_dots;
        fetched = record { first = h.line_first; count = h.line_count };
      };
      kept = h.sealed;
    } };

    ghost inverse = { λ d. record {
      is_open = d.is_open;
      owed = d.owed;
      line_dots = d.line.dots;
      line_first = d.line.fetched.first;
      line_count = d.line.fetched.count;
      sealed = d.kept;
    } };

    ghost invariant = { λ h. (h.is_open ≡ h.sealed.full)
        × (h.is_open ≡ true → IsLineAhead (record {
          dots = h.line_dots;
          fetched = record { first = h.line_first; count = h.line_count };
        }) h.sealed.machine.card) };
}

impl Handle {
    /// The handle of these parts. What is said of the line ahead is true of the machine, if there is
    /// one.
    fn of_parts(is_open: bool, owed: u32, line: LineAhead, sealed: Sealed) -> Handle
        requires full { is_open ≡ sealed.full }
        requires line { is_open ≡ true → IsLineAhead line sealed.machine.card }
        ensures open { result.is_open ≡ is_open }
        ensures owed { result.owed ≡ owed }
        ensures line { result.line ≡ line }
        ensures kept { result.kept ≡ sealed }
    {
        Handle {
            is_open,
            owed,
            line_dots: line.dots,
            line_first: line.fetched.first,
            line_count: line.fetched.count,
            sealed,
        }
    }

    /// How many dots the card owes.
    pub(crate) fn owed(&self) -> u32
        ensures { result ≡ self.now.owed }
    {
        self.owed
    }

    /// What is known of the line ahead of the machine's beam.
    pub(crate) fn line(&self) -> LineAhead
        ensures { result ≡ self.now.line }
    {
        LineAhead {
            dots: self.line_dots,
            fetched: OffsetRun {
                first: self.line_first,
                count: self.line_count,
            },
        }
    }

    /// Whether the card is open.
    pub(crate) fn is_open(&self) -> bool
        ensures { result ≡ self.now.is_open }
    {
        self.is_open
    }

    /// Whether the card is open, and owes no dots.
    pub(crate) fn is_open_and_owes_none(&self) -> bool
        ensures open { result ≡ true → self.now.is_open ≡ true }
        ensures none { result ≡ true → self.now.owed ≡ 0 }
    {
        self.is_open && self.owed == 0
    }

    /// Whether the card is open, and owes no more dots than one advance may take.
    pub(crate) fn is_open_and_owes_few(&self) -> bool
        ensures open { result ≡ true → self.now.is_open ≡ true }
        ensures few { result ≡ true → self.now.owed ≤ most_dots_of_an_advance }
    {
        self.is_open && self.owed <= MOST_DOTS
    }

    /// Whether the card owes dots.
    pub(crate) fn owes_dots(&self) -> bool {
        self.owed > 0
    }

    /// Adds dots to those that the card owes, unless the sum is more than one advance may take.
    /// Returns whether it did.
    pub(crate) fn owe(&mut self, dots: u32) -> bool
        ensures owed { result ≡ true → self.new.is_open ≡ self.old.is_open }
        ensures machine { result ≡ true → machine_after_owed_dots self.new
            ≡ after_step (machine_after_owed_dots self.old) (Advance dots) }
        ensures few { result ≡ true → dots ≤ most_dots_of_an_advance }
        ensures left { result ≡ false → self.new ≡ self.old }
    {
        dots_split();
        match self.owed.checked_add(dots) {
            Some(owed) if owed <= MOST_DOTS => {
                self.owed = owed;
                true
            }
            _ => false,
        }
    }
}

// A card may move to another thread, and only that thread then calls it.
unsafe impl Send for Handle {}

/// Runs a call on the machine of a card, and returns its status, or `NO_CARD` if the card is not
/// open. While the call runs, the handle is empty.
macro_rules! on_open_card {
    ($alloc:ident, $card:ident, $machine:ident => $call:expr) => {{
        if !$card.is_open() {
            return crate::status::NO_CARD;
        }
        let mut held = crate::handle::take($alloc, $card);
        let $machine = held.as_mut();
        let status = $call;
        crate::handle::give($card, held);
        status
    }};
}

/// The same, for a call that need not wait for all the dots that are owed. Where it begins, this
/// many are owed; it gives how many of them are left, and its number.
macro_rules! on_owing_card {
    ($alloc:ident, $card:ident, $machine:ident, $owed:ident => $call:expr) => {{
        if !$card.is_open() {
            return crate::status::NO_CARD;
        }
        let (mut held, $owed, _) = crate::handle::take_owing($alloc, $card);
        let $machine = held.as_mut();
        let (left, status) = $call;
        crate::handle::give_owing($card, held, left);
        status
    }};
}

/// The same, for a call that is given what is known of the line ahead, and gives what is known of it
/// afterwards.
macro_rules! on_owing_card_at_line {
    ($alloc:ident, $card:ident, $machine:ident, $owed:ident, $line:ident => $call:expr) => {{
        if !$card.is_open() {
            return crate::status::NO_CARD;
        }
        let (mut held, $owed, $line) = crate::handle::take_owing($alloc, $card);
        let $machine = held.as_mut();
        let (left, after, status) = $call;
        crate::handle::give_at_line($card, held, left, after);
        status
    }};
}

/// Tries a call on the machine of a card in place, if the card owes no dots. Where it is done, its
/// status is 0 and is returned; where it is not, nothing has changed. What is known of the line
/// ahead stays true. This serves speed alone: nothing is called, so no register is saved for it.
macro_rules! at_once {
    ($alloc:ident, $card:ident, $machine:ident => $tried:expr) => {{
        if $card.is_open_and_owes_none() {
            let mut held = crate::handle::take_out_owing_none($alloc, $card);
            let $machine = held.as_mut();
            let done = $tried;
            crate::handle::put_back_owing_none($card, held);
            if done {
                return crate::status::DONE;
            }
        }
    }};
}

/// The same, for a call that leaves the dots owed that are owed before. It is given what is known of
/// the line ahead.
macro_rules! before_dots {
    ($alloc:ident, $card:ident, $machine:ident, $owed:ident, $line:ident => $tried:expr) => {{
        if $card.is_open_and_owes_few() {
            let ($owed, $line) = ($card.owed(), $card.line());
            let mut held = crate::handle::take_out($alloc, $card);
            let $machine = held.as_mut();
            let done = $tried;
            crate::handle::put_back($card, held);
            if done {
                return crate::status::DONE;
            }
        }
    }};
}

pub(crate) use at_once;
pub(crate) use before_dots;
pub(crate) use on_open_card;
pub(crate) use on_owing_card;
pub(crate) use on_owing_card_at_line;

/// Takes the machine out of an open card. The handle is closed from then on, and still has the dots
/// that the card owes, and what is known of the line ahead.
#[inline(always)]
pub(crate) fn take_out(alloc: Global, card: &mut Handle) -> Box<Machine>
    requires { card.old.is_open ≡ true }
    ensures machine { after_step result.value (Advance card.old.owed) ≡ machine_after_owed_dots card.old }
    ensures kept { result.value ≡ card.old.kept.machine }
    ensures ahead { IsLineAhead card.old.line result.value.card }
    ensures owed { card.new.owed ≡ card.old.owed }
    ensures line { card.new.line ≡ card.old.line }
    ensures closed { card.new.is_open ≡ false }
{
    card.is_open = false;
    let sealed = std::mem::replace(&mut card.sealed, Sealed::empty(alloc));
    sealed.into_parts().into_box()
}

/// Puts a machine back into the handle that it was taken out of, which is open from then on.
#[inline(always)]
pub(crate) fn put_back(card: &mut Handle, machine: Box<Machine>)
    requires { IsLineAhead card.old.line machine.value.card }
    ensures open { card.new.is_open ≡ true }
    ensures machine { machine_after_owed_dots card.new ≡ after_step machine.value (Advance card.old.owed) }
{
    card.sealed = Sealed::of_parts(BoxParts::of(machine));
    card.is_open = true;
}

/// Takes the machine out of an open card that owes no dots, as `take_out` does.
#[inline(always)]
pub(crate) fn take_out_owing_none(alloc: Global, card: &mut Handle) -> Box<Machine>
    requires open { card.old.is_open ≡ true }
    requires none { card.old.owed ≡ 0 }
    ensures machine { result.value ≡ machine_after_owed_dots card.old }
    ensures ahead { IsLineAhead card.old.line result.value.card }
    ensures owed { card.new.owed ≡ 0 }
    ensures line { card.new.line ≡ card.old.line }
    ensures closed { card.new.is_open ≡ false }
{
    dots_split();
    take_out(alloc, card)
}

/// Puts a machine back into the handle that it was taken out of, which owes no dots.
#[inline(always)]
pub(crate) fn put_back_owing_none(card: &mut Handle, machine: Box<Machine>)
    requires line { IsLineAhead card.old.line machine.value.card }
    requires none { card.old.owed ≡ 0 }
    ensures open { card.new.is_open ≡ true }
    ensures machine { machine_after_owed_dots card.new ≡ machine.value }
{
    dots_split();
    put_back(card, machine);
}

/// Draws the dots that an open card owes.
#[inline(never)]
fn draw_owed(alloc: Global, card: &mut Handle)
    requires { card.old.is_open ≡ true }
    ensures open { card.new.is_open ≡ true }
    ensures machine { machine_after_owed_dots card.new ≡ machine_after_owed_dots card.old }
    ensures owed { card.new.owed ≡ 0 }
{
    let owed = card.owed;
    let mut held = take_out(alloc, card);
    advance(held.as_mut(), owed);
    give(card, held);
}

/// Takes the machine out of an open card, after the dots that the card owes. The handle is empty
/// afterwards.
pub(crate) fn take(alloc: Global, card: &mut Handle) -> Box<Machine>
    requires { card.old.is_open ≡ true }
    ensures machine { result.value ≡ machine_after_owed_dots card.old }
    ensures closed { card.new.is_open ≡ false }
{
    dots_split();
    if card.owed > 0 {
        draw_owed(alloc, card);
    }
    take_out(alloc, card)
}

/// The machine that an open card keeps, whose handle is empty from then on, the dots that it owes,
/// and what is known of the line ahead. The dots are no more than one advance may take.
pub(crate) fn take_few_owing(alloc: Global, card: &mut Handle) -> (Box<Machine>, u32, LineAhead)
    requires open { card.old.is_open ≡ true }
    requires few { card.old.owed ≤ most_dots_of_an_advance }
    ensures machine { after_step result.0.value (Advance result.1) ≡ machine_after_owed_dots card.old }
    ensures owed { result.1 ≡ card.old.owed }
    ensures few { result.1 ≤ most_dots_of_an_advance }
    ensures line { IsLineAhead result.2 result.0.value.card }
    ensures closed { card.new.is_open ≡ false }
{
    let owed = card.owed;
    let line = card.line();
    (take_out(alloc, card), owed, line)
}

/// As `take_few_owing`, however many dots an open card owes.
pub(crate) fn take_owing(alloc: Global, card: &mut Handle) -> (Box<Machine>, u32, LineAhead)
    requires { card.old.is_open ≡ true }
    ensures machine { after_step result.0.value (Advance result.1) ≡ machine_after_owed_dots card.old }
    ensures few { result.1 ≤ most_dots_of_an_advance }
    ensures line { IsLineAhead result.2 result.0.value.card }
    ensures closed { card.new.is_open ≡ false }
{
    if card.owed > MOST_DOTS {
        dots_split();
        return (take(alloc, card), 0, LineAhead::unknown());
    }
    take_few_owing(alloc, card)
}

/// Gives a machine to a handle, which is open from then on and owes some dots, and what is known of
/// the line ahead.
pub(crate) fn give_at_line(card: &mut Handle, machine: Box<Machine>, owed: u32, line: LineAhead)
    requires { IsLineAhead line machine.value.card }
    ensures open { card.new.is_open ≡ true }
    ensures machine { machine_after_owed_dots card.new ≡ after_step machine.value (Advance owed) }
    ensures owed { card.new.owed ≡ owed }
{
    let sealed = Sealed::of_parts(BoxParts::of(machine));
    *card = Handle::of_parts(true, owed, line, sealed);
}

/// Puts a machine into a handle, which is open afterwards.
pub(crate) fn give(card: &mut Handle, machine: Box<Machine>)
    ensures open { card.new.is_open ≡ true }
    ensures machine { machine_after_owed_dots card.new ≡ machine.value }
    ensures owed { card.new.owed ≡ 0 }
{
    dots_split();
    give_owing(card, machine, 0);
}

/// Gives a machine to a handle, which is open from then on and owes some dots.
pub(crate) fn give_owing(card: &mut Handle, machine: Box<Machine>, owed: u32)
    ensures open { card.new.is_open ≡ true }
    ensures machine { machine_after_owed_dots card.new ≡ after_step machine.value (Advance owed) }
    ensures owed { card.new.owed ≡ owed }
{
    give_at_line(card, machine, owed, LineAhead::unknown());
}

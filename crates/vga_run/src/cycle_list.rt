//! Listing the cycles of a call of the video BIOS as a script.
ghost use Rattle.std.specs.Prelude.{◌≡◌, ◌≤◌, ◌<◌, ℕ, IfErr, IfOk};
ghost use Rattle.bios_modes.specs.Valid.{IsValid};
ghost use Rattle.vga_script.specs.Spelling.{script_limit};
ghost use Rattle.vga_run.specs.CycleList.{IsCycleList, IsUnlisted};

use crate::machine::Machine;
use bios_services::{Regs, ServiceError, int10};
use std::alloc::Global;
use std::marker::Model;
use vga_bits::Refusal;
use vga_card::{Bus, Card};
use vga_script::{SCRIPT_LIMIT, ScriptBytes};

/// Why the cycles of a call are not listed.
#[derive(Clone, Copy, PartialEq, Eq, Debug)]
pub enum Unlisted {
    /// The call is refused.
    Refused(Refusal),
    /// They have more bytes than a script may have.
    TooLong,
    /// An allocation failed.
    OutOfMemory,
}

/// An adapter, and the script of the cycles that were issued on it.
///
/// Contracts see both, and whether the fields of each cycle fit into their bytes.
#[derive(Drop)]
struct ListedCard {
    card: Card,
    script: ScriptBytes,
}

impl Model for ListedCard {
    ghost use Rattle.std.specs.Prelude.{true};
    ghost use Rattle.vga_run.specs.CycleList.{ListingCard};

    ghost Value = { ListingCard };

    ghost view = { λ c. record { card = c.card; script = c.script; fits = true } };
}

/// Each cycle is issued on the adapter, and listed.
impl Bus for ListedCard {
    ghost use Rattle.vga_run.specs.CycleList.{list_meaning};

    ghost meaning = { list_meaning };

    fn out(&mut self, port: u16, value: u8) -> Result<(), Refusal> {
        self.script.push_out(port, value);
        self.card.out(port, value)
    }

    fn inp(&mut self, port: u16) -> Result<u8, Refusal> {
        self.script.push_in(port);
        self.card.inp(port)
    }

    fn put(&mut self, address: u32, value: u8) -> Result<(), Refusal> {
        self.script.push_put(address, value);
        self.card.put(address, value)
    }

    fn get(&mut self, address: u32) -> Result<u8, Refusal> {
        self.script.push_get(address);
        self.card.get(address)
    }
}

impl ListedCard {
    ghost use Rattle.std.specs.Prelude.{true};
    ghost use Rattle.vga_card.specs.FreshCanvas.{without_dots_of_ended_frame};
    ghost use Rattle.vga_script.specs.ScriptBytes.{script_without_steps};

    /// A copy of an adapter without any cycle so far, and room for a script of `room` bytes.
    fn new(alloc: Global, card: &Card, room: usize) -> Result<ListedCard, Unlisted>
        ensures ok { IfOk result (λ c. c ≡ record {
          card = without_dots_of_ended_frame card.now;
          script = script_without_steps room;
          fits = true;
        }) }
        ensures err { IfErr result (λ why. why ≡ Unlisted.OutOfMemory) }
    {
        let Ok(card) = card.copy(alloc) else {
            return Err(Unlisted::OutOfMemory);
        };
        match ScriptBytes::new(alloc, room) {
            Ok(script) => Ok(ListedCard { card, script }),
            Err(_) => Err(Unlisted::OutOfMemory),
        }
    }

    /// The script, unless it has more bytes than a script may have.
    fn into_script(self) -> Result<ScriptBytes, Unlisted>
        ensures ok { IfOk result (λ script. (script ≡ self.script)
            × (self.script.len ≤ script_limit)) }
        ensures err { IfErr result (λ why. (why ≡ Unlisted.TooLong)
            × (script_limit < self.script.len)) }
        ensures fits { self.fits ≡ true }
    {
        let ListedCard { script, .. } = self;
        if script.is_too_long() {
            return Err(Unlisted::TooLong);
        }
        Ok(script)
    }
}

/// Room for `asked` bytes, but for no more than a script may have.
fn room_within_limit(asked: usize) -> usize
    ensures { (n : ℕ) → n ≤ script_limit → n ≤ asked → n ≤ result }
{
    asked.min(SCRIPT_LIMIT)
}

/// Lists the cycles that a call of interrupt 10 (hexadecimal) makes on a machine, in order, as the
/// bytes of a script. The machine stays as it is. There is room for `room` bytes. If the script has
/// more, it says how many it has, and its contents mean nothing.
///
/// A call that is refused has no cycles: the error is its refusal.
pub fn list_cycles(
    alloc: Global,
    machine: &Machine,
    regs: Regs,
    block: &[u8],
    room: usize,
) -> Result<ScriptBytes, Unlisted>
    requires { IsValid machine.now.bda }
    ensures list { IfOk result (λ script. IsCycleList machine.now regs block.now room script) }
    ensures err { IfErr result (λ why. IsUnlisted machine.now regs block.now why) }
{
    let mut listed = ListedCard::new(alloc, &machine.card, room_within_limit(room))?;
    let mut bda = machine.bda.copy();
    match int10(alloc, &mut listed, &mut bda, &machine.fonts, regs, block) {
        Ok(_) => listed.into_script(),
        Err(ServiceError::Refused(why)) => Err(Unlisted::Refused(why)),
        Err(ServiceError::OutOfMemory) => Err(Unlisted::OutOfMemory),
    }
}

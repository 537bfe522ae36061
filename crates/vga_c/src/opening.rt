//! Opening and closing a card.
ghost use Rattle.std.specs.Prelude.{◌≡◌, IfErr, IfOk, length};
ghost use Rattle.bios_modes.specs.Fonts.{fonts_of, font_file_len, IsFontFault};
ghost use Rattle.vga_run.specs.Machine.{power_on_machine};
ghost use Rattle.vga_c.specs.Cards.{ClosedCardStaysUnchanged};
ghost use Rattle.vga_c.specs.Opening.{Closes, OpenCardStaysUnchanged, Opens, RefusesFile};

use crate::handle::{Handle, give, take};
use crate::status::{DONE, FONT_SIZE, NO_CARD, OPEN_ALREADY, OUT_OF_MEMORY};
use bios_modes::Fonts;
use std::alloc::Global;
use vga_bits::Fault;
use vga_run::machine::Machine;

/// A machine at power-on, with the fonts of a font file.
fn power_on(alloc: Global, file: &[u8]) -> Result<Machine, Fault>
    ensures ok { IfOk result (λ machine. (length file.now ≡ font_file_len)
        × (machine ≡ power_on_machine (fonts_of file.now))) }
    ensures err { IfErr result (IsFontFault file.now) }
{
    let fonts = Fonts::from_bytes(alloc, file)?;
    Machine::power_on(alloc, fonts)
}

/// Opens a card: its machine is at power-on, and has the fonts of a font file.
#[unsafe(no_mangle)]
pub extern "C" fn zak_open(alloc: Global, card: &mut Handle, fonts: &[u8]) -> u32
    ensures opened { Opens fonts.now card.old card.new result }
    ensures file { RefusesFile fonts.now card.old card.new result }
    ensures open { OpenCardStaysUnchanged card.old card.new result }
{
    if card.is_open() {
        return OPEN_ALREADY;
    }
    match power_on(alloc, fonts) {
        Ok(machine) => {
            match Box::new(alloc, machine) {
                Ok(machine) => {
                    give(card, machine);
                    DONE
                }
                Err(_) => OUT_OF_MEMORY,
            }
        }
        Err(Fault::FontSize) => FONT_SIZE,
        Err(_) => OUT_OF_MEMORY,
    }
}

/// Closes a card, and frees its memory.
#[unsafe(no_mangle)]
pub extern "C" fn zak_close(alloc: Global, card: &mut Handle) -> u32
    ensures open { Closes card.old card.new result }
    ensures closed { ClosedCardStaysUnchanged card.old card.new result }
{
    if !card.is_open() {
        return NO_CARD;
    }
    let _machine = take(alloc, card);
    DONE
}

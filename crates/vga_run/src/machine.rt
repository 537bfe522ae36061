//! An adapter with its video BIOS.
ghost use Rattle.std.specs.Prelude.{◌≡◌, IfOk, IsOkUnless};
ghost use Rattle.vga_run.specs.Machine.{power_on_machine};

mod report;
mod saved;

use bios_modes::{Bda, Fonts};
use std::alloc::Global;
use vga_bits::Fault;
use vga_card::Card;

/// An adapter, the data of its video BIOS, and the fonts of the BIOS.
#[derive(Drop)]
pub struct Machine {
    pub card: Card,
    pub bda: Bda,
    pub fonts: Fonts,
}

impl Machine {
    /// A machine at power-on with these fonts. The only error is `OutOfMemory`.
    pub fn power_on(alloc: Global, fonts: Fonts) -> Result<Machine, Fault>
        ensures ok { IfOk result (λ machine. machine ≡ power_on_machine fonts) }
        ensures err { IsOkUnless result Fault.OutOfMemory }
    {
        Ok(Machine {
            card: Card::new(alloc)?,
            bda: Bda::new(),
            fonts,
        })
    }
}

//! Running a script from power-on.
ghost use Rattle.std.specs.Prelude.{◌≡◌, IfOk};
ghost use Rattle.vga_rebuild.specs.Rebuilt.{LeadsTo};

use std::alloc::Global;
use std::io;
use vga_bits::{Fault, Tracked};
use vga_run::machine::Machine;
use vga_script::Steps;

/// The machine after all steps of a script, from power-on on, with the fonts of another machine.
///
/// The faults are those of the bytes, and `OutOfMemory`.
#[tactic(auto, using(crate::proofs::FontLemmas::steps_keep_fonts))]
pub(crate) fn machine_after(
    alloc: Global,
    script: &[u8],
    target: &Machine,
) -> Result<Machine, Fault>
    ensures led { IfOk result (λ machine. LeadsTo script.now target.now.fonts machine) }
    ensures fonts { IfOk result (λ machine. machine.fonts ≡ target.now.fonts) }
{
    let steps = Steps::of(script)?;
    let mut machine = Machine::power_on(alloc, target.fonts.copy(alloc)?)?;
    // Nobody reads what the steps answer.
    let mut report = Tracked::new(io::sink());
    machine.report(alloc, steps, &mut report, None)?;
    Ok(machine)
}

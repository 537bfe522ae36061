//! Running a script for its report.
ghost use Rattle.std.specs.Prelude.{◌≡◌, List, IfOk};
ghost use Rattle.bios_modes.specs.Fonts.{fonts_of};
ghost use Rattle.vga_run.specs.Report.{report_of, steps_until};
ghost use Rattle.vga_script.specs.declared.step.Step.{Step};
ghost use Rattle.vga_script.specs.Item.{ScriptItems, expanded};
ghost use Rattle.vga_script.specs.Spelled.{SpellsExpanded};
ghost use Rattle.vga_script.specs.Text.{SpellsText};

use std::alloc::{AllocError, Global};
use vga_bits::{Fault, Tracked};
use vga_script::assemble;

/// Runs the script that some bytes spell: all of it, or with `until` its first steps and the last
/// dumps. Returns the report, or the fault that ends the run.
pub fn run_bytes(
    alloc: Global,
    bytes: &[u8],
    fonts: &[u8],
    until: Option<u32>,
) -> Result<Vec<u8>, Fault>
    ensures { IfOk result (λ report. (steps : List Step) × SpellsExpanded bytes.now steps
        × (report.items ≡ report_of (fonts_of fonts.now) (steps_until until steps))) }
{
    let mut report = Tracked::new(Vec::new(alloc));
    vga_run::run_bytes(alloc, bytes, fonts, &mut report, until)?;
    Ok(report.into_inner())
}

/// Runs the script that a text spells, in the same way.
pub fn run_text(
    alloc: Global,
    text: &[u8],
    fonts: &[u8],
    until: Option<u32>,
) -> Result<Vec<u8>, Fault>
    ensures { IfOk result (λ report. (script : ScriptItems) × SpellsText text.now script
        × (report.items ≡ report_of (fonts_of fonts.now)
        (steps_until until (expanded script.items)))) }
{
    let script = assemble(alloc, text)?;
    let mut report = Tracked::new(Vec::new(alloc));
    vga_run::run_script(alloc, &script, fonts, &mut report, until)?;
    Ok(report.into_inner())
}

/// The report, or the line of the fault.
pub fn report_or_fault(
    alloc: Global,
    answer: Result<Vec<u8>, Fault>,
) -> Result<Vec<u8>, AllocError> {
    match answer {
        Ok(report) => Ok(report),
        Err(fault) => {
            let mut line = Vec::from_slice(alloc, fault.name().as_bytes())?;
            line.push(b'\n')?;
            Ok(line)
        }
    }
}

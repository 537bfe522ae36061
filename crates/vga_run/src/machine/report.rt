//! Taking steps on a machine, and writing their report.
ghost use Rattle.std.specs.Prelude.{◌≡◌, ◌≢◌, ◌+◌, ◌<◌, ◌≤◌, ◌^◌, length, take, false, OnOk, Ok};
ghost use Rattle.std.specs.Prelude.{Some, Err};
ghost use Rattle.vga_bits.specs.declared.fault.Fault.TheVariants.{OutOfMemory};
ghost use Rattle.vga_bits.specs.Tracked.{inner_of, has_failed};
ghost use Rattle.bios_modes.specs.Valid.{IsValid};
ghost use Rattle.vga_run.specs.Report.{steps_until};
ghost use Rattle.vga_run.specs.Run.{HasTakenFirstSteps, WritesReport};
ghost use Rattle.vga_run.specs.Step.{after_steps};
ghost use Rattle.vga_script.specs.Spelling.{script_limit};

use super::Machine;
use crate::numbered_line::NumberedLine;
use crate::report::{take_and_write_step, write_closing_dumps};
use std::alloc::Global;
use std::io::Write;
use vga_bits::{Fault, Tracked, flush};
use vga_script::Steps;

/// Takes the first `most` steps, or all if there are fewer, and writes a line for each.
fn take_and_write_first_steps<W: Write>(
    alloc: Global,
    out: &mut Tracked<W>,
    line: &mut NumberedLine,
    machine: &mut Machine,
    steps: Steps<'_>,
    most: usize,
) -> Result<(), Fault>
    requires writer { has_failed out.old ≡ false }
    requires numbers { line.old + length steps < 2 ^ 64 }
    requires valid { IsValid machine.old.bda }
    ensures text { WritesReport (W.contents (inner_of out.old)) (W.contents (inner_of out.new))
        (has_failed out.new) result machine.old line.old (take most steps.entry) }
    ensures number { OnOk result (line.new ≡ line.old + length (take most steps.entry)) }
    ensures after { OnOk result (machine.new ≡ after_steps machine.old (take most steps.entry)) }
    ensures way { HasTakenFirstSteps machine.old (take most steps.entry) machine.new }
    ensures valid { IsValid machine.new.bda }
{
    let mut left = steps;
    'steps: for _ in 0..most {
        let Some(step) = left.next() else {
            return Ok(());
        };
        take_and_write_step(alloc, out, line, machine, &step)?;
        line.count_up();
    }
    Ok(())
}

/// Takes the first `most` steps, or all if there are fewer, and then the last dumps.
fn take_first_steps_and_dumps<W: Write>(
    alloc: Global,
    out: &mut Tracked<W>,
    machine: &mut Machine,
    steps: Steps<'_>,
    most: u32,
) -> Result<(), Fault>
    requires writer { has_failed out.old ≡ false }
    requires few { length steps ≤ script_limit }
    requires valid { IsValid machine.old.bda }
    ensures text { WritesReport (W.contents (inner_of out.old)) (W.contents (inner_of out.new))
        (has_failed out.new) result machine.old 1 (steps_until (Some most) steps.entry) }
    ensures after { OnOk result
        (machine.new ≡ after_steps machine.old (steps_until (Some most) steps.entry)) }
    ensures valid { IsValid machine.new.bda }
{
    let mut line = NumberedLine::of_step(1);
    take_and_write_first_steps(alloc, out, &mut line, machine, steps, most as usize)?;
    write_closing_dumps(alloc, out, machine, line.number())
}

/// Takes the steps on this machine, and writes the line of each: all of them, or with `until` the
/// first ones and then the closing dumps.
fn take_steps_with_limit<W: Write>(
    alloc: Global,
    out: &mut Tracked<W>,
    machine: &mut Machine,
    steps: Steps<'_>,
    until: Option<u32>,
) -> Result<(), Fault>
    requires writer { has_failed out.old ≡ false }
    requires few { length steps ≤ script_limit }
    requires valid { IsValid machine.old.bda }
    ensures text { WritesReport (W.contents (inner_of out.old)) (W.contents (inner_of out.new))
        (has_failed out.new) result machine.old 1 (steps_until until steps.entry) }
    ensures after { OnOk result
        (machine.new ≡ after_steps machine.old (steps_until until steps.entry)) }
    ensures valid { IsValid machine.new.bda }
{
    match until {
        Some(most) => take_first_steps_and_dumps(alloc, out, machine, steps, most),
        None => {
            let mut line = NumberedLine::of_step(1);
            take_and_write_first_steps(alloc, out, &mut line, machine, steps, usize::MAX)
        }
    }
}

impl Machine {
    /// Takes the steps of a script on this machine, writes what each answers, and flushes the
    /// writer. Steps are numbered from 1. With `until` it takes only the first `until` steps, or
    /// all if there are fewer, and then the last dumps.
    ///
    /// # Errors
    ///
    /// - `WriteFault`: the writer failed, and has a prefix of the report.
    /// - `OutOfMemory`: an allocation failed in a step. The answers of the steps before it are
    ///   written, each whole.
    #[tactic(auto, using(crate::proofs::ReportLemmas::report_is_flushed))]
    pub fn report<W: Write>(
        &mut self,
        alloc: Global,
        steps: Steps<'_>,
        out: &mut Tracked<W>,
        until: Option<u32>,
    ) -> Result<(), Fault>
        requires writer { has_failed out.old ≡ false }
        requires few { length steps ≤ script_limit }
        requires valid { IsValid self.old.bda }
        ensures text { WritesReport (W.contents (inner_of out.old)) (W.contents (inner_of out.new))
            (has_failed out.new) result self.old 1 (steps_until until steps.entry) }
        ensures after { OnOk result
            (self.new ≡ after_steps self.old (steps_until until steps.entry)) }
        ensures valid { IsValid self.new.bda }
    {
        take_steps_with_limit(alloc, out, self, steps, until)?;
        flush(out)
    }

    /// Takes the first `most` steps, or all if there are fewer, and writes what each answers. The
    /// first has the number `number`, which is counted on to the step after the last. More steps
    /// may go on from there.
    ///
    /// # Errors
    ///
    /// As for `report`. The machine has then taken some of the first steps, none of them in part,
    /// and `number` is unchanged.
    pub fn take_steps<W: Write>(
        &mut self,
        alloc: Global,
        steps: Steps<'_>,
        most: usize,
        number: &mut usize,
        out: &mut Tracked<W>,
    ) -> Result<(), Fault>
        requires writer { has_failed out.old ≡ false }
        requires numbers { number.old + length steps < 2 ^ 64 }
        requires valid { IsValid self.old.bda }
        ensures text { WritesReport (W.contents (inner_of out.old)) (W.contents (inner_of out.new))
            (has_failed out.new) result self.old number.old (take most steps.entry) }
        ensures number { OnOk result (number.new ≡ number.old + length (take most steps.entry)) }
        ensures after { OnOk result (self.new ≡ after_steps self.old (take most steps.entry)) }
        ensures way { HasTakenFirstSteps self.old (take most steps.entry) self.new }
        ensures valid { IsValid self.new.bda }
    {
        let mut line = NumberedLine::of_step(*number);
        take_and_write_first_steps(alloc, out, &mut line, self, steps, most)?;
        *number = line.number();
        Ok(())
    }
}

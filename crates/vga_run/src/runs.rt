//! Running a script.
ghost use Rattle.std.specs.Prelude.{◌≡◌, ◌≢◌, ◌⊎◌, ◌≤◌, length, false, IfErr, IfOk, None};
ghost use Rattle.std.specs.Prelude.{Some, Err};
ghost use Rattle.vga_bits.specs.declared.fault.Fault.TheVariants.{WriteFault, OutOfMemory};
ghost use Rattle.vga_bits.specs.Tracked.{inner_of, has_failed, is_write_fault};
ghost use Rattle.vga_bits.specs.LimitedReading.{is_read_fault};
ghost use Rattle.bios_modes.specs.Fonts.{font_file_len, fonts_of};
ghost use Rattle.vga_script.specs.Input.{ReadsScript};
ghost use Rattle.vga_script.specs.Item.{expanded};
ghost use Rattle.vga_script.specs.Spelling.{script_limit};
ghost use Rattle.vga_run.specs.Run.{ReportsInput, ReportsSteps, RunAnswers, RunsGoodScripts, RunsScript};
ghost use Rattle.vga_run.specs.Run.{InputRunsOutOfMemory, RunsOutOfMemory};
ghost use Rattle.vga_run.specs.DotReport.{AreDotReportSteps, WritesDotReport, RunWritesDotReport};
ghost use Rattle.vga_run.specs.ScreenReport.{AreScreenReportSteps, WritesScreenReport};
ghost use Rattle.vga_run.specs.ScreenReport.{RunWritesScreenReport};

use super::machine::Machine;
use super::screens::{bytes_are_below_256, run_writes_dot_report, run_writes_screen_report};
use bios_modes::Fonts;
use std::alloc::Global;
use std::io::{Read, Write};
use vga_bits::{Fault, Tracked};
use vga_script::{
    Script, Steps, bytes_have_one_fault, bytes_mean_one_list, read_script, steps_are_in_range,
};

/// Runs a script from power-on, writes its report and nothing else, and flushes the writer. The
/// reader and the writer must not have failed before.
///
/// With `until` the run takes only the first `until` steps, or all if there are fewer. Dumps of the
/// registers, the beam, the latches and the BIOS data follow, as steps with the next numbers.
///
/// A fault ends the run. If there are several, the first in this order is returned:
///
/// - `FontSize`: `fonts`, the font file, does not have 9,728 bytes. Nothing is read.
/// - `ReadFault`: the reader failed.
/// - `TooLong`: the reader had more than 16,777,216 bytes. At most one more is read.
/// - `BadMagic`, `BadVersion`, `BadStep`, `Truncated`, `TooMany`: the bytes are no script.
/// - `WriteFault`: the writer failed, and has a prefix of the report.
///
/// `OutOfMemory`: an allocation failed, either before the first byte is written, or in a step; then
/// the answers of the steps before it are written, each whole. Every other fault except
/// `WriteFault` comes before the first byte is written.
#[tactic(auto, using(crate::proofs::AnswerLemmas::input_answers, crate::proofs::AnswerLemmas::input_stops, crate::proofs::AnswerLemmas::font_answers, crate::proofs::AnswerLemmas::unread_answers))]
pub fn run<R: Read, W: Write>(
    alloc: Global,
    script: &mut Tracked<R>,
    fonts: &[u8],
    out: &mut Tracked<W>,
    until: Option<u32>,
) -> Result<(), Fault>
    requires reader { has_failed script.old ≡ false }
    requires writer { has_failed out.old ≡ false }

    // The writer has the report of the script, or the answer is the first fault.
    ensures answer { RunAnswers until fonts.now (R.remaining (inner_of script.old))
        (W.contents (inner_of out.old)) (W.contents (inner_of out.new)) result }
    // A script that has no fault is run.
    ensures runs { RunsGoodScripts fonts.now (R.remaining (inner_of script.old))
        (has_failed script.new) (has_failed out.new) result }
    // The report of only BIOS calls and whole frames is the plain screen's.
    ensures screens { RunWritesScreenReport until fonts.now (R.remaining (inner_of script.old))
        (W.contents (inner_of out.old)) (W.contents (inner_of out.new)) result }
    // The report of BIOS calls, dots and frames is the plain screen's, dot by dot.
    ensures dots { RunWritesDotReport until fonts.now (R.remaining (inner_of script.old))
        (W.contents (inner_of out.old)) (W.contents (inner_of out.new)) result }

    // The reader and the writer fail exactly if the answer says so. At most 16,777,217 bytes are
    // read of any reader, and none if the font file has the wrong size.
    ensures reading { ReadsScript R.remaining script.old script.new result }
    ensures write_failed { has_failed out.new ≡ is_write_fault result }
    ensures unread { length fonts.now ≢ font_file_len → script.new ≡ script.old }
    // What is written at a fault that is not the writer's: nothing; or, if an allocation failed,
    // whole answers.
    ensures unwritten { IfErr result (λ e. e ≢ WriteFault → e ≢ OutOfMemory → out.new ≡ out.old) }
    ensures stopped { result ≡ Err OutOfMemory → (out.new ≡ out.old)
        ⊎ InputRunsOutOfMemory until (fonts_of fonts.now) (R.remaining (inner_of script.old))
        (W.contents (inner_of out.old)) (W.contents (inner_of out.new)) }
{
    bytes_have_one_fault(); // A script has no fault.
    bytes_mean_one_list();
    steps_are_in_range();
    run_writes_screen_report();
    run_writes_dot_report();
    bytes_are_below_256(fonts);
    let fonts = Fonts::from_bytes(alloc, fonts)?; // Nothing is read before.
    let bytes = read_script(alloc, script)?;
    run_bytes_with_fonts(alloc, bytes.as_slice(), fonts, out, until)
}

/// Runs a script whose bytes are at hand, as `run` does. The faults are those of `run`, without
/// `ReadFault`.
#[tactic(auto, using(crate::proofs::AnswerLemmas::file_answers, crate::proofs::AnswerLemmas::font_answers))]
pub fn run_bytes<W: Write>(
    alloc: Global,
    script: &[u8],
    fonts: &[u8],
    out: &mut Tracked<W>,
    until: Option<u32>,
) -> Result<(), Fault>
    requires { has_failed out.old ≡ false }
    // The writer has the report of the script, or the answer is the first fault.
    ensures answer { RunAnswers until fonts.now (Some script.now)
        (W.contents (inner_of out.old)) (W.contents (inner_of out.new)) result }
    // The report of only BIOS calls and whole frames is the plain screen's.
    ensures screens { RunWritesScreenReport until fonts.now (Some script.now)
        (W.contents (inner_of out.old)) (W.contents (inner_of out.new)) result }
    // The report of BIOS calls, dots and frames is the plain screen's, dot by dot.
    ensures dots { RunWritesDotReport until fonts.now (Some script.now)
        (W.contents (inner_of out.old)) (W.contents (inner_of out.new)) result }
    ensures unread { is_read_fault result ≡ false }
    // The writer fails exactly if the answer says so. Any other fault leaves it unchanged, except
    // that if an allocation fails in a step, the answers of the steps before it are written, each
    // whole.
    ensures write_failed { has_failed out.new ≡ is_write_fault result }
    ensures unwritten { IfErr result (λ e. e ≢ WriteFault → e ≢ OutOfMemory → out.new ≡ out.old) }
    ensures stopped { result ≡ Err OutOfMemory → (out.new ≡ out.old)
        ⊎ InputRunsOutOfMemory until (fonts_of fonts.now) (Some script.now)
        (W.contents (inner_of out.old)) (W.contents (inner_of out.new)) }
{
    bytes_mean_one_list();
    steps_are_in_range();
    run_writes_screen_report();
    run_writes_dot_report();
    bytes_are_below_256(fonts);
    let fonts = Fonts::from_bytes(alloc, fonts)?; // Nothing is decoded before.
    run_bytes_with_fonts(alloc, script, fonts, out, until)
}

/// Runs a script whose bytes are at hand, with these fonts.
#[tactic(auto, using(crate::proofs::AnswerLemmas::reports_of_steps, crate::proofs::AnswerLemmas::stops_of_steps, crate::proofs::AnswerLemmas::fault_answers))]
fn run_bytes_with_fonts<W: Write>(
    alloc: Global,
    script: &[u8],
    fonts: Fonts,
    out: &mut Tracked<W>,
    until: Option<u32>,
) -> Result<(), Fault>
    requires { has_failed out.old ≡ false }
    ensures answer { ReportsInput until fonts (Some script.now)
        (W.contents (inner_of out.old)) (W.contents (inner_of out.new)) result }
    ensures unread { is_read_fault result ≡ false }
    ensures write_failed { has_failed out.new ≡ is_write_fault result }
    ensures unwritten { IfErr result (λ e. e ≢ WriteFault → e ≢ OutOfMemory → out.new ≡ out.old) }
    ensures stopped { result ≡ Err OutOfMemory → (out.new ≡ out.old)
        ⊎ InputRunsOutOfMemory until fonts (Some script.now)
        (W.contents (inner_of out.old)) (W.contents (inner_of out.new)) }
{
    let steps = Steps::of(script)?;
    run_steps_with_fonts(alloc, steps, fonts, out, until)
}

/// Runs steps that are read from the bytes of a script, with these fonts.
#[tactic(auto, using(crate::proofs::AnswerLemmas::report_answers, crate::proofs::AnswerLemmas::report_fails, crate::proofs::AnswerLemmas::report_stops))]
fn run_steps_with_fonts<W: Write>(
    alloc: Global,
    steps: Steps<'_>,
    fonts: Fonts,
    out: &mut Tracked<W>,
    until: Option<u32>,
) -> Result<(), Fault>
    requires writer { has_failed out.old ≡ false }
    requires few { length steps ≤ script_limit }
    ensures answer { ReportsSteps until fonts steps.entry
        (W.contents (inner_of out.old)) (W.contents (inner_of out.new)) result }
    ensures write_failed { has_failed out.new ≡ is_write_fault result }
    ensures unwritten { IfErr result (λ e. e ≢ WriteFault → e ≢ OutOfMemory → out.new ≡ out.old) }
    ensures stopped { result ≡ Err OutOfMemory → (out.new ≡ out.old)
        ⊎ RunsOutOfMemory until fonts steps.entry
        (W.contents (inner_of out.old)) (W.contents (inner_of out.new)) }
{
    let mut machine = Machine::power_on(alloc, fonts)?;
    machine.report(alloc, steps, out, until)
}

/// Runs a script that was decoded or assembled, as `run` does. The only faults are `FontSize`,
/// `WriteFault` and `OutOfMemory`.
#[tactic(auto, using(crate::proofs::AnswerLemmas::steps_answers, crate::proofs::AnswerLemmas::font_runs))]
pub fn run_script<W: Write>(
    alloc: Global,
    script: &Script,
    fonts: &[u8],
    out: &mut Tracked<W>,
    until: Option<u32>,
) -> Result<(), Fault>
    requires { has_failed out.old ≡ false }
    // The writer has the report of the script's steps, or the answer is the first fault.
    ensures answer { RunsScript until fonts.now (expanded script.now.items)
        (W.contents (inner_of out.old)) (W.contents (inner_of out.new)) result }
    // The report of only BIOS calls and whole frames is the plain screen's.
    ensures screens { until ≡ None → AreScreenReportSteps (expanded script.now.items) →
        WritesScreenReport (fonts_of fonts.now) (expanded script.now.items)
        (W.contents (inner_of out.old)) (W.contents (inner_of out.new)) result }
    // The report of BIOS calls, dots and frames is the plain screen's, dot by dot.
    ensures dots { until ≡ None → AreDotReportSteps (fonts_of fonts.now) (expanded script.now.items)
        →
        WritesDotReport (fonts_of fonts.now) (expanded script.now.items)
        (W.contents (inner_of out.old)) (W.contents (inner_of out.new)) result }
    // The writer fails exactly if the answer says so. Any other fault leaves it unchanged, except
    // that if an allocation fails in a step, the answers of the steps before it are written, each
    // whole.
    ensures write_failed { has_failed out.new ≡ is_write_fault result }
    ensures unwritten { IfErr result (λ e. e ≢ WriteFault → e ≢ OutOfMemory → out.new ≡ out.old) }
    ensures stopped { result ≡ Err OutOfMemory → (out.new ≡ out.old)
        ⊎ RunsOutOfMemory until (fonts_of fonts.now) (expanded script.now.items)
        (W.contents (inner_of out.old)) (W.contents (inner_of out.new)) }
{
    run_writes_screen_report();
    run_writes_dot_report();
    bytes_are_below_256(fonts);
    let steps = script.steps();
    let fonts = Fonts::from_bytes(alloc, fonts)?;
    run_steps_with_fonts(alloc, steps, fonts, out, until)
}

//! What the commands do, over readers and writers.
ghost use Rattle.std.specs.Prelude.{◌≡◌, ◌≢◌, ◌⊎◌, false, IfErr, Err};
ghost use Rattle.vga_bits.specs.declared.fault.Fault.TheVariants.{WriteFault, OutOfMemory};
ghost use Rattle.vga_bits.specs.Tracked.{inner_of, has_failed, is_write_fault};
ghost use Rattle.bios_modes.specs.Fonts.{fonts_of};
ghost use Rattle.vga_script.specs.Input.{ReadsScript};
ghost use Rattle.vga.specs.Scripts.{AssembleAnswers, FindsScriptOfText, DisassembleAnswers, RunsText};
ghost use Rattle.vga.specs.Scripts.{TextRunsOutOfMemory};

use super::output_files::write_all;
use std::alloc::Global;
use std::io::{Read, Write};
use vga_bits::{Fault, Tracked};
use vga_script::{Script, assemble, decode, encode, print, read_script};

/// Assembles a text into a script. At most 16,777,217 bytes of the text are read.
///
/// # Errors
///
/// `ReadFault` if the reader fails, `TooLong` and `BadLine` as for `assemble`, and `OutOfMemory`.
#[tactic(auto, using(crate::proofs::ScriptsLemmas::unread_text, crate::proofs::ScriptsLemmas::bad_text, crate::proofs::ScriptsLemmas::good_text))]
fn read_and_assemble<R: Read>(alloc: Global, text: &mut Tracked<R>) -> Result<Script, Fault>
    requires { has_failed text.old ≡ false }
    ensures answer { FindsScriptOfText (R.remaining (inner_of text.old)) result }
    ensures reading { ReadsScript R.remaining text.old text.new result }
{
    let text = read_script(alloc, text)?;
    assemble(alloc, text.as_slice())
}

/// Assembles a text into the bytes of a script. At most 16,777,217 bytes of the text are read.
///
/// # Errors
///
/// `ReadFault` if the reader fails, `TooLong` and `BadLine` as for `assemble`, and `OutOfMemory`.
#[tactic(auto, using(crate::proofs::ScriptsLemmas::assembled))]
pub fn assemble_to_bytes<R: Read>(alloc: Global, text: &mut Tracked<R>) -> Result<Vec<u8>, Fault>
    requires { has_failed text.old ≡ false }
    ensures answer { AssembleAnswers (R.remaining (inner_of text.old)) result }
    ensures reading { ReadsScript R.remaining text.old text.new result }
{
    let script = read_and_assemble(alloc, text)?;
    encode(alloc, &script)
}

/// Disassembles a script: writes its printed text, and flushes the writer. At most 16,777,217 bytes
/// of the script are read.
///
/// # Errors
///
/// `ReadFault` if the reader fails, the faults of `decode`, `WriteFault` if the writer fails, and
/// `OutOfMemory`. Each except `WriteFault` comes before the first byte is written.
#[tactic(auto, using(crate::proofs::ScriptsLemmas::unread_script, crate::proofs::ScriptsLemmas::bad_script, crate::proofs::ScriptsLemmas::unprinted_script, crate::proofs::ScriptsLemmas::good_script))]
pub fn print_script<R: Read, W: Write>(
    alloc: Global,
    script: &mut Tracked<R>,
    out: &mut Tracked<W>,
) -> Result<(), Fault>
    requires reader { has_failed script.old ≡ false }
    requires writer { has_failed out.old ≡ false }
    ensures answer { DisassembleAnswers (R.remaining (inner_of script.old))
        (W.contents (inner_of out.old))
        (W.contents (inner_of out.new)) result }
    ensures reading { ReadsScript R.remaining script.old script.new result }
    ensures write_failed { has_failed out.new ≡ is_write_fault result }
    ensures unwritten { IfErr result (λ e. e ≢ WriteFault → out.new ≡ out.old) }
{
    let bytes = read_script(alloc, script)?;
    let script = decode(alloc, bytes.as_slice())?;
    let text = print(alloc, &script)?;
    write_all(out, text.as_slice())
}

/// Assembles a text, runs its script, writes the report, and flushes the writer. At most 16,777,217
/// bytes of the text are read. `until` is that of `vga_run::run_script`.
///
/// # Errors
///
/// `ReadFault` if the reader fails, `TooLong` and `BadLine` as for `assemble`, and `OutOfMemory`;
/// then the faults of `vga_run::run_script`.
#[tactic(auto, using(crate::proofs::ScriptsLemmas::not_run, crate::proofs::ScriptsLemmas::no_write_fault, crate::proofs::ScriptsLemmas::script_is_run, crate::proofs::ScriptsLemmas::script_stops))]
pub fn run_text<R: Read, W: Write>(
    alloc: Global,
    text: &mut Tracked<R>,
    fonts: &[u8],
    out: &mut Tracked<W>,
    until: Option<u32>,
) -> Result<(), Fault>
    requires reader { has_failed text.old ≡ false }
    requires writer { has_failed out.old ≡ false }
    ensures answer { RunsText until fonts.now (R.remaining (inner_of text.old))
        (W.contents (inner_of out.old)) (W.contents (inner_of out.new)) result }
    ensures reading { ReadsScript R.remaining text.old text.new result }
    ensures write_failed { has_failed out.new ≡ is_write_fault result }
    ensures unwritten { IfErr result (λ e. e ≢ WriteFault → e ≢ OutOfMemory → out.new ≡ out.old) }
    ensures stopped { result ≡ Err OutOfMemory → (out.new ≡ out.old)
        ⊎ TextRunsOutOfMemory until (fonts_of fonts.now) (R.remaining (inner_of text.old))
        (W.contents (inner_of out.old)) (W.contents (inner_of out.new)) }
{
    let script = read_and_assemble(alloc, text)?;
    vga_run::run_script(alloc, &script, fonts, out, until)
}

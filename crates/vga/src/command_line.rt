//! The program's command line: its commands, their arguments, and the help on each.
ghost use Rattle.std.specs.Prelude.{◌≡◌, IfOk, false};
ghost use Rattle.clap.specs.Words.{app_of, new_app, rule_of, shape_of};
ghost use Rattle.clap.specs.declared.builder.command.Command.TheViews.{out-Command as fields_of};
ghost use Rattle.vga.specs.CommandLine.{asm_command, command_line, converting_commands};
ghost use Rattle.vga.specs.CommandLine.{dis_command};
ghost use Rattle.vga.specs.CommandLine.{fonts_argument, go_command, required_path_argument};
ghost use Rattle.vga.specs.CommandLine.{run_command};
ghost use Rattle.vga.specs.CommandLine.{until_argument};

use clap::{Arg, Command};
use std::alloc::{AllocError, Global};

/// What the help of `asm` ends with.
const ASM_EXAMPLE: &str = "\
Examples:
  vga asm bars.vga bars.bin
  vga asm /dev/stdin bars.bin < bars.vga

The text has a step on each line, and a comment behind a semicolon. A mistake
is named by its line, counted from 1, as `vga: F7 BadLine(12)` on standard
error, and then <BIN> is not touched.

The project's docs/SCRIPT.md lists every step.";

/// What the help of `dis` ends with.
const DIS_EXAMPLE: &str = "\
Examples:
  vga dis bars.bin > bars.vga
  vga dis /dev/stdin < bars.bin

The text has a line for each step, with its values in full. Where it has at most
16,777,216 bytes, `vga asm` makes the same script of it.

The project's docs/SCRIPT.md lists every step, as text and as bytes.";

/// What the help of `run` ends with.
const RUN_EXAMPLE: &str = "\
Examples:
  vga run first-path.bin --fonts zaklimot.fnt
  vga run first-path.bin --fonts zaklimot.fnt --until 12
  vga run /dev/stdin --fonts zaklimot.fnt < first-path.bin

The report has a line for each step. A fault ends it, with a line on standard
error such as `vga: F1 FontSize`, and with status 1.

With --until the run stops after <N> steps, or at the script's end, and the
report ends with the registers, the beam, the latches and the BIOS data.

The project's docs/REPORT.md explains each answer and each fault.";

/// What the help of `go` ends with.
const GO_EXAMPLE: &str = "\
Examples:
  vga go bars.vga --fonts zaklimot.fnt
  vga go bars.vga --fonts zaklimot.fnt --until 12
  vga go /dev/stdin --fonts zaklimot.fnt < bars.vga

The report is that of `vga run` on the bytes that `vga asm` makes of the text.

The project's docs/SCRIPT.md lists every step, and docs/REPORT.md explains each
answer and each fault.";

/// What the help of the program ends with.
const EXAMPLES: &str = "\
Examples:
  vga asm bars.vga bars.bin
  vga dis bars.bin
  vga run bars.bin --fonts zaklimot.fnt
  vga go bars.vga --fonts zaklimot.fnt

A script is a list of steps: cycles on the adapter's ports and memory, advances
of its clock, frames, and dumps of its state. As text it has a step on each
line, as in:
  out 3C2 63      ; write 63 to port 3C2
  put A0000 FF    ; write FF to address A0000
  frame           ; draw a frame
  show regs       ; show every register
The report has a line for each step, with its number and its answer.

/dev/stdin in the place of a file that is read is standard input.

The status is 0 for success, 1 for a fault, and 2 for words that name no job.

The project's README.md leads to its pages: docs/SCRIPT.md lists every step, and
docs/REPORT.md explains each answer and each fault.

vga 1.6";

/// A required argument that names a file.
fn required_path_argument<'a>(alloc: Global, id: &'a str, help: &'a str) -> Arg<'a>
    ensures rule { rule_of result ≡ required_path_argument id.now }
    ensures local { result.global ≡ false }
{
    Arg::new(alloc, id).required(true).help(help)
}

/// The option `--fonts`, which names the font file.
fn fonts_argument<'a>(alloc: Global) -> Arg<'a>
    ensures rule { rule_of result ≡ fonts_argument }
    ensures local { result.global ≡ false }
{
    Arg::new(alloc, "fonts")
        .long("fonts")
        .value_name("FILE")
        .required(true)
        .help("The font file, of 9,728 bytes")
}

/// The option `--until`, which limits the number of steps.
fn until_argument<'a>(alloc: Global) -> Arg<'a>
    ensures rule { rule_of result ≡ until_argument }
    ensures local { result.global ≡ false }
{
    Arg::new(alloc, "until")
        .long("until")
        .value_name("N")
        .help("Stops after N steps, and shows the card")
}

/// A command without arguments: its name, a description, its usage, and the text that its help ends
/// with.
fn command_described_as<'a>(
    alloc: Global,
    name: &'a str,
    about: &'a str,
    usage: &'a str,
    example: &'a str,
) -> Command<'a>
    ensures app { app_of result ≡ new_app name.now }
    ensures local { (fields_of result).has_globals ≡ false }
{
    Command::new(alloc, name)
        .about(about)
        .override_usage(usage)
        .after_help(example)
}

/// `asm TEXT BIN`.
fn asm_command<'a>(alloc: Global) -> Result<Command<'a>, AllocError>
    ensures { IfOk result (λ c. (shape_of c ≡ asm_command) × ((fields_of c).has_globals ≡ false)) }
{
    command_described_as(
        alloc,
        "asm",
        "Assembles the text of a script, and writes its binary form",
        "vga asm <TEXT> <BIN>",
        ASM_EXAMPLE,
    )
    .arg(required_path_argument(alloc, "TEXT", "The script, as text"))?
    .arg(required_path_argument(alloc, "BIN", "The file that its binary form is written to"))
}

/// `dis BIN`.
fn dis_command<'a>(alloc: Global) -> Result<Command<'a>, AllocError>
    ensures { IfOk result (λ c. (shape_of c ≡ dis_command) × ((fields_of c).has_globals ≡ false)) }
{
    command_described_as(
        alloc,
        "dis",
        "Prints a script as text on standard output",
        "vga dis <BIN>",
        DIS_EXAMPLE,
    )
    .arg(required_path_argument(alloc, "BIN", "The script, in its binary form"))
}

/// `run BIN --fonts FILE [--until N]`.
fn run_command<'a>(alloc: Global) -> Result<Command<'a>, AllocError>
    ensures { IfOk result (λ c. (shape_of c ≡ run_command) × ((fields_of c).has_globals ≡ false)) }
{
    command_described_as(
        alloc,
        "run",
        "Runs a script, and writes its report on standard output",
        "vga run <BIN> --fonts <FILE> [--until <N>]",
        RUN_EXAMPLE,
    )
    .arg(required_path_argument(alloc, "BIN", "The script, in its binary form"))?
    .arg(fonts_argument(alloc))?
    .arg(until_argument(alloc))
}

/// `go TEXT --fonts FILE [--until N]`.
fn go_command<'a>(alloc: Global) -> Result<Command<'a>, AllocError>
    ensures { IfOk result (λ c. (shape_of c ≡ go_command) × ((fields_of c).has_globals ≡ false)) }
{
    command_described_as(
        alloc,
        "go",
        "Assembles the text of a script, and runs it as `run` does",
        "vga go <TEXT> --fonts <FILE> [--until <N>]",
        GO_EXAMPLE,
    )
    .arg(required_path_argument(alloc, "TEXT", "The script, as text"))?
    .arg(fonts_argument(alloc))?
    .arg(until_argument(alloc))
}

/// The program's command line without the commands that run a script.
fn converting_commands<'a>(alloc: Global) -> Result<Command<'a>, AllocError>
    ensures line { IfOk result (λ c. app_of c ≡ converting_commands) }
    ensures local { IfOk result (λ c. (fields_of c).has_globals ≡ false) }
{
    command_described_as(
        alloc,
        "vga",
        "A VGA display adapter that is driven by a script",
        "vga <COMMAND>",
        EXAMPLES,
    )
    .subcommand_required(true)
    .subcommand(asm_command(alloc)?)?
    .subcommand(dis_command(alloc)?)
}

/// The program's command line.
pub fn command_line<'a>(alloc: Global) -> Result<Command<'a>, AllocError>
    ensures { IfOk result (λ c. app_of c ≡ command_line) }
{
    converting_commands(alloc)?
        .subcommand(run_command(alloc)?)?
        .subcommand(go_command(alloc)?)
}

//! The program `vga`: `asm` assembles a script from its text, `dis` disassembles one, and `run` and
//! `go` run one, or its first steps, and write the report to standard output.
#![tactic(auto)]

mod arguments;
mod command_line;
mod failure;
mod input_files;
mod job;
mod lines;
mod output_files;
mod scripts;
mod status;
mod words_error;

use failure::Failure;
use job::Job;
use std::process::ExitCode;
use std::rt::{Env, Files};
use std::{env, io};
use vga_bits::Fault;
use words_error::WordsError;

/// Assembles the text at one path, and writes its script at another.
fn assemble_file<R: Files + AllocGlobal>(rt: &R, text: &str, script: &str) -> Result<(), Fault> {
    let bytes = scripts::assemble_to_bytes(rt.alloc(), &mut input_files::open(rt, text)?)?;
    output_files::write_all(&mut output_files::create(rt, script)?, bytes.as_slice())
}

/// Disassembles the script at a path.
fn disassemble_file<R: Files + Print + AllocGlobal>(rt: &R, script: &str) -> Result<(), Fault> {
    let alloc = rt.alloc();
    let mut script = input_files::open(rt, script)?;
    let mut out = output_files::buffered(alloc, io::writer(rt))?;
    scripts::print_script(alloc, &mut script, &mut out)
}

/// The bytes of the font file at a path.
fn fonts_at<R: Files + AllocGlobal>(rt: &R, path: &str) -> Result<Vec<u8>, Fault> {
    input_files::read_fonts(rt.alloc(), &mut input_files::open(rt, path)?)
}

/// Runs the script at one path with the font file at another.
fn run_file<R: Files + Print + AllocGlobal>(
    rt: &R,
    script: &str,
    fonts: &str,
    until: Option<u32>,
) -> Result<(), Fault> {
    let alloc = rt.alloc();
    let fonts = fonts_at(rt, fonts)?;
    let mut script = input_files::open(rt, script)?;
    let mut report = output_files::buffered(alloc, io::writer(rt))?;
    vga_run::run(alloc, &mut script, fonts.as_slice(), &mut report, until)
}

/// Assembles the text at one path, and runs its script with the font file at another.
fn run_text_file<R: Files + Print + AllocGlobal>(
    rt: &R,
    text: &str,
    fonts: &str,
    until: Option<u32>,
) -> Result<(), Fault> {
    let alloc = rt.alloc();
    let fonts = fonts_at(rt, fonts)?;
    let mut text = input_files::open(rt, text)?;
    let mut report = output_files::buffered(alloc, io::writer(rt))?;
    scripts::run_text(alloc, &mut text, fonts.as_slice(), &mut report, until)
}

/// Does the job that the words of the command line name.
fn do_job<R: Env + Files + Print + AllocGlobal>(rt: &R) -> Result<(), Failure> {
    let args = env::args(rt).map_err(|error| arguments::unread_words_failure(&error))?;
    let words: Vec<String> = args.collect(rt.alloc())?;
    match arguments::job(rt.alloc(), words.as_slice())? {
        Job::Asm { text, script } => assemble_file(rt, text, script)?,
        Job::Dis { script } => disassemble_file(rt, script)?,
        Job::Run {
            script,
            fonts,
            until,
        } => run_file(rt, script, fonts, until)?,
        Job::Go { text, fonts, until } => run_text_file(rt, text, fonts, until)?,
    }
    Ok(())
}

/// Writes why the job was not done, as one line on standard error, or as the text of the command
/// line's error.
fn explain<R: Print + Eprint>(rt: &R, failure: &Failure) -> io::Result<()> {
    match failure {
        Failure::Words(WordsError::Refused(error)) => error.print(rt),
        Failure::Words(WordsError::Missing) => rt.eprint(lines::line_of_missing_command_or_path()),
        Failure::Fault(fault) => rt.eprint(lines::fault_line(fault)),
    }
}

/// Does the job that the words of the command line name, or writes why it was not done. Returns the
/// exit status.
fn do_job_with_status<R: Env + Files + Print + Eprint + AllocGlobal>(rt: &R) -> u8 {
    let outcome = do_job(rt);
    if let Err(failure) = &outcome {
        let _ = explain(rt, failure);
    }
    status::status(&outcome)
}

fn main(rt: HostRuntime) -> ExitCode {
    ExitCode::from(do_job_with_status(&rt))
}

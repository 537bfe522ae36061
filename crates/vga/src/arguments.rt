//! Reading the job that the words of the command line name.
ghost use Rattle.std.specs.Prelude.{◌≡◌, ◌==◌, codes, map, slice_index, string_bytes};
ghost use Rattle.std.specs.IoError.{error_kind};
ghost use Rattle.clap.specs.Words.{first_of, found_of, rows_of, subcommand_rows_of};
ghost use Rattle.vga.specs.Failure.{unread_failure};
ghost use Rattle.vga.specs.Arguments.{FindsJob, JobAnswers, WordsGiveJobOfRequest, RefusesCount, asked_of};
ghost use Rattle.vga.specs.Arguments.{asm_asked};
ghost use Rattle.vga.specs.Arguments.{count_of, dis_asked, go_asked, matches_have_bad_limit};
ghost use Rattle.vga.specs.Arguments.{is_bad_count};
ghost use Rattle.vga.specs.Arguments.{run_asked, until_asked};

use super::command_line::command_line;
use super::failure::Failure;
use super::job::Job;
use super::words_error::WordsError;
use clap::error::ErrorKind as WordsErrorKind;
use clap::{ArgMatches, Command};
use std::alloc::Global;
use std::io;
use std::io::ErrorKind;
use vga_bits::Fault;

/// The message for a word after `--until` that is not a number of steps.
const BAD_COUNT: &str = "the number after '--until' must be decimal digits, 0 to 4294967295";

/// Whether a word begins with a plus.
fn begins_with_plus(word: &str) -> bool
    ensures { result ≡ (slice_index word.now 0 == 43) }
{
    matches!(word.as_bytes().first(), Some(b'+'))
}

/// The number of steps that a word names, in decimal digits only. The parser of numbers would take
/// a plus sign too.
fn count_of(word: &str) -> Option<u32>
    ensures { result ≡ count_of word.now }
{
    if begins_with_plus(word) {
        None
    } else {
        word.parse().ok()
    }
}

/// The limit on steps in the matches of `run` or `go`.
#[tactic(auto, using(crate::proofs::WordsLemmas::first_value_rows))]
fn until_of(matches: &ArgMatches) -> Option<u32>
    ensures { result ≡ until_asked (rows_of (found_of matches.now)) }
{
    count_of(matches.get_str("until")?)
}

/// Whether a command's matches have a word after `--until` that is not a number of steps.
#[tactic(auto, using(crate::proofs::WordsLemmas::first_value_rows, crate::proofs::CountLemmas::bad_count_is_none))]
fn is_bad_count(command: &ArgMatches) -> bool
    ensures { result ≡ is_bad_count (first_of (codes "until") (rows_of (found_of command.now))) }
{
    match command.get_str("until") {
        Some(word) => count_of(word).is_none(),
        None => false,
    }
}

/// Whether the command that the matches name has a word after `--until` that is not a number of
/// steps.
#[tactic(auto, using(crate::proofs::WordsLemmas::rows_are_judged))]
fn matches_have_bad_limit(matches: &ArgMatches) -> bool
    ensures { result ≡ matches_have_bad_limit (subcommand_rows_of matches.now) }
{
    match matches.subcommand() {
        Some((_, command)) => is_bad_count(command),
        None => false,
    }
}

/// The refusal of a word after `--until`.
fn refuse_count(line: &mut Command) -> Failure
    ensures { RefusesCount result }
{
    match line.error(WordsErrorKind::ValueValidation, BAD_COUNT) {
        Ok(error) => Failure::Words(WordsError::Refused(error)),
        Err(_) => Failure::Fault(Fault::OutOfMemory),
    }
}

/// The job that the matches of `asm` name.
#[tactic(auto, using(crate::proofs::WordsLemmas::first_value_rows))]
fn asm_job<'a>(asm: &ArgMatches<'a>) -> Result<Job<'a>, Failure>
    ensures { FindsJob (asm_asked (rows_of (found_of asm.now))) result }
{
    match (asm.get_str("TEXT"), asm.get_str("BIN")) {
        (Some(text), Some(script)) => Ok(Job::Asm { text, script }),
        _ => Err(Failure::Words(WordsError::Missing)),
    }
}

/// The job that the matches of `dis` name.
#[tactic(auto, using(crate::proofs::WordsLemmas::first_value_rows))]
fn dis_job<'a>(dis: &ArgMatches<'a>) -> Result<Job<'a>, Failure>
    ensures { FindsJob (dis_asked (rows_of (found_of dis.now))) result }
{
    match dis.get_str("BIN") {
        Some(script) => Ok(Job::Dis { script }),
        None => Err(Failure::Words(WordsError::Missing)),
    }
}

/// The job that the matches of `run` name.
#[tactic(auto, using(crate::proofs::WordsLemmas::first_value_rows))]
fn run_job<'a>(run: &ArgMatches<'a>) -> Result<Job<'a>, Failure>
    ensures { FindsJob (run_asked (rows_of (found_of run.now))) result }
{
    match (run.get_str("BIN"), run.get_str("fonts")) {
        (Some(script), Some(fonts)) => Ok(Job::Run {
            script,
            fonts,
            until: until_of(run),
        }),
        _ => Err(Failure::Words(WordsError::Missing)),
    }
}

/// The job that the matches of `go` name.
#[tactic(auto, using(crate::proofs::WordsLemmas::first_value_rows))]
fn go_job<'a>(go: &ArgMatches<'a>) -> Result<Job<'a>, Failure>
    ensures { FindsJob (go_asked (rows_of (found_of go.now))) result }
{
    match (go.get_str("TEXT"), go.get_str("fonts")) {
        (Some(text), Some(fonts)) => Ok(Job::Go {
            text,
            fonts,
            until: until_of(go),
        }),
        _ => Err(Failure::Words(WordsError::Missing)),
    }
}

/// The job that matches name.
fn matched_job<'a>(matches: &ArgMatches<'a>) -> Result<Job<'a>, Failure>
    ensures { FindsJob (asked_of (subcommand_rows_of matches.now)) result }
{
    match matches.subcommand() {
        Some(("asm", asm)) => asm_job(asm),
        Some(("dis", dis)) => dis_job(dis),
        Some(("run", run)) => run_job(run),
        Some(("go", go)) => go_job(go),
        _ => Err(Failure::Words(WordsError::Missing)),
    }
}

/// Why the words could not be read: an allocation failed, or one of them is not text, so it can be
/// no path.
pub fn unread_words_failure(error: &io::Error) -> Failure
    ensures { result ≡ unread_failure (error_kind error.now) }
{
    match error.kind() {
        ErrorKind::OutOfMemory => Failure::Fault(Fault::OutOfMemory),
        _ => Failure::Words(WordsError::Missing),
    }
}

/// Parses the words, and reads the job.
fn parsed_job<'a>(alloc: Global, words: &'a [String]) -> Result<Job<'a>, Failure>
    ensures { JobAnswers (map string_bytes words.now) result }
{
    let mut line = command_line(alloc)?;
    let matches = line.try_get_matches_from_mut(words)?;
    if matches_have_bad_limit(&matches) {
        return Err(refuse_count(&mut line));
    }
    matched_job(&matches)
}

/// The job that the words of a command line name. The first word is the program's own name.
///
/// # Errors
///
/// `Failure::Words` if the command line refuses the words, if they ask for help, if a command or a
/// path is missing, and if the word after `--until` is not only digits or is above 4,294,967,295.
///
/// `Failure::Fault` if an allocation fails, and for no other fault.
pub fn job<'a>(alloc: Global, words: &'a [String]) -> Result<Job<'a>, Failure>
    // The job that the words ask for, or why there is none.
    ensures answer { JobAnswers (map string_bytes words.now) result }
    // A command with its paths and its limit, in the order of its usage, gives the job with the
    // same.
    ensures paths { WordsGiveJobOfRequest (map string_bytes words.now) result }
{
    parsed_job(alloc, words)
}

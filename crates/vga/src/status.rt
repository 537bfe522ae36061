//! The program's exit status.
ghost use Rattle.std.specs.Prelude.{◌≡◌};
ghost use Rattle.vga.specs.Status.{status_of};

use super::failure::Failure;
use super::words_error::WordsError;
use clap::error::ErrorKind;

/// The exit status: 0 if the job is done or help was asked for, 1 for a fault, and 2 for a usage
/// error.
pub fn status(outcome: &Result<(), Failure>) -> u8
    ensures { result ≡ status_of outcome.now }
{
    match outcome {
        Ok(()) => 0,
        Err(Failure::Fault(_)) => 1,
        Err(Failure::Words(WordsError::Missing)) => 2,
        Err(Failure::Words(WordsError::Refused(error))) => match error.kind() {
            ErrorKind::DisplayHelp => 0,
            _ => 2,
        },
    }
}

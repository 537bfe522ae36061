//! Why the program did not do its job.
ghost use Rattle.std.specs.Prelude.{◌≡◌};

use super::words_error::WordsError;
use clap::error::ErrorKind;
use std::alloc::AllocError;
use vga_bits::Fault;

/// Why the program did not do its job.
#[derive(Debug, Drop)]
pub enum Failure {
    /// A usage error: the words of the command line name no job.
    Words(WordsError),
    /// A fault ended the job, or an allocation failed while the words were read.
    Fault(Fault),
}

impl From<clap::Error> for Failure {
    ghost use Rattle.vga.specs.Failure.{failure_of};

    ghost from_gives = { λ error failure. failure ≡ failure_of error };

    /// A failed allocation is a fault. Any other error of the parser is a usage error.
    fn from(error: clap::Error) -> Failure {
        match error.kind() {
            ErrorKind::OutOfMemory => Failure::Fault(Fault::OutOfMemory),
            _ => Failure::Words(WordsError::Refused(error)),
        }
    }
}

impl From<AllocError> for Failure {
    ghost use Rattle.vga.specs.Failure.{out_of_memory};

    ghost from_gives = { λ _ failure. failure ≡ out_of_memory };

    fn from(_error: AllocError) -> Failure {
        Failure::Fault(Fault::OutOfMemory)
    }
}

impl From<Fault> for Failure {
    ghost use Rattle.vga.specs.declared.failure.Failure.TheVariants as failure;

    ghost from_gives = { λ fault f. f ≡ failure.Fault fault };

    fn from(fault: Fault) -> Failure {
        Failure::Fault(fault)
    }
}

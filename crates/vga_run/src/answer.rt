//! What a cycle or an advance answers, and a refused step.
ghost use Rattle.std.specs.Prelude.{◌≡◌};

use vga_bits::Refusal;

/// What a cycle or an advance answers, and a refused step.
#[derive(Clone, Copy, PartialEq, Eq, Debug)]
pub enum Answer {
    /// The step is done, and answers no value.
    Done,
    /// The byte that was read.
    Byte(u8),
    /// The word that was read.
    Word(u16),
    /// The step is refused, and nothing has changed.
    Refused(Refusal),
}

impl Answer {
    ghost use Rattle.vga_run.specs.Answer.{of_write as of_write_of, of_byte as of_byte_of};
    ghost use Rattle.vga_run.specs.Answer.{of_word as of_word_of};

    /// The answer of a step that reads nothing.
    pub(crate) fn of_write(outcome: Result<(), Refusal>) -> Answer
        ensures { result ≡ of_write_of outcome }
    {
        match outcome {
            Ok(()) => Answer::Done,
            Err(refusal) => Answer::Refused(refusal),
        }
    }

    /// The answer of a step that reads a byte.
    pub(crate) fn of_byte(outcome: Result<u8, Refusal>) -> Answer
        ensures { result ≡ of_byte_of outcome }
    {
        match outcome {
            Ok(value) => Answer::Byte(value),
            Err(refusal) => Answer::Refused(refusal),
        }
    }

    /// The answer of a step that reads a word.
    pub(crate) fn of_word(outcome: Result<u16, Refusal>) -> Answer
        ensures { result ≡ of_word_of outcome }
    {
        match outcome {
            Ok(value) => Answer::Word(value),
            Err(refusal) => Answer::Refused(refusal),
        }
    }
}

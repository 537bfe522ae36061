//! A mistake in a line.
ghost use Rattle.std.specs.Prelude.{◌≡◌, ◌≤◌, ◌+◌, length};

use super::mistake_kind::MistakeKind;
use super::words::Word;
use std::fmt;

/// A mistake in a line of a script's text. It borrows words of the line.
#[derive(Clone, Copy, PartialEq, Eq, Debug)]
pub struct Mistake<'a> {
    /// Where it begins in the line, in bytes.
    pub start: usize,
    /// How many bytes it has. It has none where something is lacking at the line's end.
    pub length: usize,
    /// What is wrong there.
    pub kind: MistakeKind<'a>,
}

impl<'a> Mistake<'a> {
    /// A mistake that is a whole word.
    pub(crate) fn at_word(word: Word<'a>, kind: MistakeKind<'a>) -> Mistake<'a>
        ensures { result.start ≡ word.entry.start }
    {
        Mistake {
            start: word.start,
            length: word.text.len(),
            kind,
        }
    }

    /// Something is lacking after the words of a line, which end there.
    pub(crate) fn after_words(end: usize, kind: MistakeKind<'a>) -> Mistake<'a> {
        Mistake {
            start: end,
            length: 1,
            kind,
        }
    }

    /// A mistake of a whole line.
    pub(crate) fn of_line(line: &'a [u8], kind: MistakeKind<'a>) -> Mistake<'a>
        ensures { result.start + result.length ≤ length line.now }
    {
        Mistake {
            start: 0,
            length: line.len(),
            kind,
        }
    }

    /// The part of a mistake that stands in a line.
    pub(crate) fn within_line(self, line: &[u8]) -> Mistake<'a>
        ensures { result.start + result.length ≤ length line.now }
    {
        let start = self.start.min(line.len());
        Mistake {
            start,
            length: self.length.min(line.len() - start),
            kind: self.kind,
        }
    }
}

impl fmt::Display for Mistake<'_> {
    /// Writes a sentence, in lower case and with no full stop.
    fn fmt<W: fmt::Write>(&self, f: &mut fmt::Formatter<W>) -> fmt::Result {
        fmt::Display::fmt(&self.kind, f)
    }
}

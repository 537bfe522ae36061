//! The words of a line, with their places.
ghost use Rattle.std.specs.Prelude.{◌<◌, ◌≤◌, length, IfSome};

use vga_script::{before_comment, next_word};

/// A word of a line.
#[derive(Clone, Copy)]
pub(crate) struct Word<'a> {
    /// Where it begins in the line, in bytes.
    pub(crate) start: usize,
    /// Its bytes.
    pub(crate) text: &'a [u8],
}

/// The words of a line that are still to be read.
#[derive(Clone, Copy)]
pub(crate) struct Words<'a> {
    /// Where the line's last word ends at the latest, in bytes.
    end: usize,
    /// What is left of the line before its comment.
    left: &'a [u8],
    ghost within: { length left.now ≤ end },
}

impl<'a> Words<'a> {
    /// The words of a line before its comment.
    pub(crate) fn of_line(line: &'a [u8]) -> Words<'a> {
        let left = before_comment(line);
        Words {
            end: left.len(),
            left,
        }
    }

    /// The first word and those after it.
    pub(crate) fn split_first(self) -> Option<(Word<'a>, Words<'a>)>
        ensures shorter { IfSome result (λ x. length x.1.left.now < length self.entry.left.now) }
    {
        let (text, left) = next_word(self.left)?;
        let start = self.end - (text.len() + left.len());
        let word = Word { start, text };
        let others = Words {
            end: self.end,
            left,
        };
        Some((word, others))
    }

    /// The first word.
    pub(crate) fn first(self) -> Option<Word<'a>> {
        let (word, _) = self.split_first()?;
        Some(word)
    }

    /// Where the word before these ends in the line, in bytes.
    pub(crate) fn start(self) -> usize {
        self.end - self.left.len()
    }
}

//! Characters that stand in no line outside comments.

use super::mistake::Mistake;
use super::mistake_kind::MistakeKind;
use super::sentence::{write_code_point, write_hex_byte};
use std::{fmt, str};
use vga_script::before_comment;

/// A character that stands in no line outside comments.
#[derive(Clone, Copy, PartialEq, Eq, Debug)]
pub enum OddCharacter {
    /// It looks like a blank.
    Blank(char),
    /// Any other character.
    Other(char),
    /// A byte that is no part of a character in UTF-8.
    Byte(u8),
}

/// Whether a byte is a blank or a character that words have.
fn is_plain(byte: u8) -> bool {
    matches!(byte, b'\t' | b'\r' | b' '..=b'~')
}

/// Whether a character looks like a blank, and is none of a script.
fn looks_blank(character: char) -> bool {
    matches!(
        character,
        '\n' | '\u{b}'
            | '\u{c}'
            | '\u{1c}'..='\u{1f}'
            | '\u{85}'
            | '\u{a0}'
            | '\u{1680}'
            | '\u{2000}'..='\u{200a}'
            | '\u{2028}'
            | '\u{2029}'
            | '\u{202f}'
            | '\u{205f}'
            | '\u{3000}'
    )
}

/// The character that bytes begin with, if they begin with one in UTF-8.
fn first_character(bytes: &[u8]) -> Option<char> {
    for length in 1..5 {
        if length <= bytes.len() {
            if let Ok(text) = str::from_utf8(bytes.split_at(length).0) {
                return text.chars().next();
            }
        }
    }
    None
}

impl OddCharacter {
    /// The odd character that bytes begin with, and its length in bytes.
    fn at(bytes: &[u8]) -> (OddCharacter, usize) {
        match first_character(bytes) {
            Some(character) if looks_blank(character) => {
                (OddCharacter::Blank(character), character.len_utf8())
            }
            Some(character) => (OddCharacter::Other(character), character.len_utf8()),
            None => (OddCharacter::Byte(bytes.first().copied().unwrap_or(0)), 1),
        }
    }
}

/// Finds the first odd character of a line before its comment.
pub(crate) fn check_characters(line: &[u8]) -> Result<(), Mistake<'_>> {
    let step = before_comment(line);
    let Some(start) = step.iter().position(|&byte| !is_plain(byte)) else {
        return Ok(());
    };
    let (character, length) = OddCharacter::at(step.split_at(start).1);
    Err(Mistake {
        start,
        length,
        kind: MistakeKind::Character(character),
    })
}

impl fmt::Display for OddCharacter {
    fn fmt<W: fmt::Write>(&self, f: &mut fmt::Formatter<W>) -> fmt::Result {
        f.write_str("the character ")?;
        match self {
            OddCharacter::Blank(character) | OddCharacter::Other(character) => {
                write_code_point(f, *character)?;
            }
            OddCharacter::Byte(byte) => {
                f.write_str("byte ")?;
                write_hex_byte(f, *byte)?;
            }
        }
        if let OddCharacter::Blank(_) = self {
            f.write_str(" that looks like a blank is none")?;
        } else {
            f.write_str(" stands in no step")?;
        }
        f.write_str("; blanks are the space and the tab")
    }
}

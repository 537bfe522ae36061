//! Digits that are written otherwise than a script wants them.

use std::fmt;

/// What stands around a number in other languages and in prose.
const BRACKETS: &[u8] = b"\"'()[],;:.";

/// What stands around a number in prose.
const PUNCTUATION: &[u8] = b",;:.";

/// What stands before the digits of a hexadecimal number in other languages.
const PREFIXES: [&[u8]; 11] = [
    b"0x", b"0X", b"$", b"&H", b"&h", b"#", b"X'", b"x'", b"X", b"x", b"\\x",
];

/// Digits of a number that are written otherwise than a script wants them, with signs between them
/// or with letters that look like digits.
#[derive(Clone, Copy, PartialEq, Eq, Debug)]
pub struct Digits<'a> {
    /// The digits as they stand in the line.
    text: &'a [u8],
}

/// Whether a byte is no digit, and may stand between digits.
fn is_separator(byte: u8) -> bool {
    matches!(byte, b'_' | b',' | b'\'')
}

/// The digit that a byte is or looks like.
fn digit_meant(byte: u8) -> u8 {
    match byte {
        b'O' | b'o' => b'0',
        b'I' | b'l' => b'1',
        _ => byte.to_ascii_uppercase(),
    }
}

/// Whether a byte is a hexadecimal digit, or looks like one.
fn looks_hexadecimal(byte: u8) -> bool {
    digit_meant(byte).is_ascii_hexdigit()
}

/// Whether some bytes are hexadecimal digits, at least one.
pub(crate) fn is_hexadecimal(text: &[u8]) -> bool {
    !text.is_empty() && text.iter().all(|byte| byte.is_ascii_hexdigit())
}

/// Whether some bytes are decimal digits, at least one.
pub(crate) fn is_decimal(text: &[u8]) -> bool {
    !text.is_empty() && text.iter().all(|byte| byte.is_ascii_digit())
}

/// The part of some bytes before those of these signs that they end with.
fn without_last<'a>(text: &'a [u8], signs: &[u8]) -> &'a [u8] {
    match text.iter().rposition(|byte| !signs.contains(byte)) {
        Some(last) => text.split_at(last + 1).0,
        None => &[],
    }
}

/// A word without the punctuation after it.
pub(crate) fn without_punctuation(word: &[u8]) -> &[u8] {
    without_last(word, PUNCTUATION)
}

/// Some bytes without those of these signs that they begin and end with.
pub(crate) fn trimmed<'a>(text: &'a [u8], signs: &[u8]) -> &'a [u8] {
    match text.iter().position(|byte| !signs.contains(byte)) {
        Some(first) => without_last(text.split_at(first).1, signs),
        None => &[],
    }
}

/// What follows a prefix of hexadecimal numbers in other languages, if it is a digit at first.
fn after_prefix(text: &[u8]) -> Option<&[u8]> {
    for prefix in PREFIXES {
        if let Some(rest) = text.strip_prefix(prefix) {
            if rest.first().is_some_and(|byte| byte.is_ascii_hexdigit()) {
                return Some(rest);
            }
        }
    }
    None
}

/// The digits of a hexadecimal number in the form of another language.
pub(crate) fn foreign_digits(text: &[u8]) -> Option<&[u8]> {
    if let Some(rest) = after_prefix(text) {
        let digits = rest.strip_suffix(b"'").unwrap_or(rest);
        if is_hexadecimal(digits) {
            return Some(digits);
        }
    }
    match text {
        [digits @ .., b'H' | b'h'] if is_hexadecimal(digits) => Some(digits),
        _ => None,
    }
}

/// Whether a word begins like a hexadecimal number.
pub(crate) fn begins_with_digit(word: &[u8]) -> bool {
    word.first().is_some_and(|byte| byte.is_ascii_hexdigit()) || after_prefix(word).is_some()
}

impl<'a> Digits<'a> {
    /// The hexadecimal digits that a word means, if it means some. These signs may stand between
    /// them.
    fn hexadecimal_among(word: &'a [u8], signs: &[u8]) -> Option<Digits<'a>> {
        let bare = trimmed(word, BRACKETS);
        if let Some(text) = foreign_digits(bare) {
            return Some(Digits { text });
        }
        let digits = Digits { text: bare };
        let are_digits = bare
            .iter()
            .all(|byte| signs.contains(byte) || looks_hexadecimal(*byte));
        if are_digits && digits.len() > 0 {
            return Some(digits);
        }
        None
    }

    /// The hexadecimal digits that a number means, if it means some.
    pub(crate) fn hexadecimal(word: &'a [u8]) -> Option<Digits<'a>> {
        Digits::hexadecimal_among(word, b"_")
    }

    /// The hexadecimal digits that a block means, if it means some.
    pub(crate) fn of_block(word: &'a [u8]) -> Option<Digits<'a>> {
        Digits::hexadecimal_among(word, b"_,")
    }

    /// The decimal digits that a word means, if it means some.
    pub(crate) fn decimal(word: &'a [u8]) -> Option<Digits<'a>> {
        let bare = trimmed(word, PUNCTUATION);
        let digits = Digits { text: bare };
        let are_digits = bare
            .iter()
            .all(|&byte| is_separator(byte) || byte.is_ascii_digit());
        if are_digits && digits.len() > 0 {
            return Some(digits);
        }
        None
    }

    /// How many digits there are.
    pub(crate) fn len(self) -> usize {
        self.text
            .iter()
            .filter(|&&byte| !is_separator(byte))
            .count()
    }

    /// The number that they spell in hexadecimal, if it has at most 64 bits.
    pub(crate) fn hexadecimal_value(self) -> Option<u64> {
        let mut value = 0u64;
        for &byte in self.text {
            if let Some(digit) = (digit_meant(byte) as char).to_digit(16) {
                value = value.checked_mul(16)?.checked_add(digit as u64)?;
            }
        }
        Some(value)
    }
}

impl fmt::Display for Digits<'_> {
    /// Writes the digits alone, in upper case.
    fn fmt<W: fmt::Write>(&self, f: &mut fmt::Formatter<W>) -> fmt::Result {
        for &byte in self.text {
            if !is_separator(byte) {
                f.write_char(digit_meant(byte) as char)?;
            }
        }
        Ok(())
    }
}

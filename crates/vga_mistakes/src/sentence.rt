//! Numbers and words of a line in sentences.

use itoa::Buffer;
use std::fmt;
use vga_bits::hex_digit;

/// How many bytes of a word a sentence shows.
const MOST_OF_WORD: usize = 24;

/// Writes a number in decimal.
pub(crate) fn write_decimal<W: fmt::Write>(f: &mut fmt::Formatter<W>, number: u64) -> fmt::Result {
    let mut digits = Buffer::new();
    f.write_str(digits.format(number))
}

/// Writes how many bytes there are: `1 byte`, `5 bytes`.
pub(crate) fn write_count_of_bytes<W: fmt::Write>(
    f: &mut fmt::Formatter<W>,
    count: u64,
) -> fmt::Result {
    write_decimal(f, count)?;
    f.write_str(if count == 1 { " byte" } else { " bytes" })
}

/// Writes the two hexadecimal digits of a byte.
pub(crate) fn write_hex_byte<W: fmt::Write>(f: &mut fmt::Formatter<W>, byte: u8) -> fmt::Result {
    f.write_char(hex_digit(byte / 16) as char)?;
    f.write_char(hex_digit(byte % 16) as char)
}

/// Writes the four hexadecimal digits of a number of two bytes.
pub(crate) fn write_hex_word<W: fmt::Write>(f: &mut fmt::Formatter<W>, word: u16) -> fmt::Result {
    write_hex_byte(f, (word / 256) as u8)?;
    write_hex_byte(f, (word % 256) as u8)
}

/// Writes the code of a character as Unicode writes it, as `U+00A0`.
pub(crate) fn write_code_point<W: fmt::Write>(
    f: &mut fmt::Formatter<W>,
    character: char,
) -> fmt::Result {
    let code = character as u32;
    let plane = code / 0x1_0000;
    f.write_str("U+")?;
    if plane >= 16 {
        f.write_str("1")?;
    }
    if plane > 0 {
        f.write_char(hex_digit((plane % 16) as u8) as char)?;
    }
    write_hex_word(f, (code % 0x1_0000) as u16)
}

/// Writes a word of a line.
pub(crate) fn write_word<W: fmt::Write>(f: &mut fmt::Formatter<W>, word: &[u8]) -> fmt::Result {
    for &byte in word {
        f.write_char(byte as char)?;
    }
    Ok(())
}

/// Writes a word of a line in lower case.
pub(crate) fn write_in_lower_case<W: fmt::Write>(
    f: &mut fmt::Formatter<W>,
    word: &[u8],
) -> fmt::Result {
    for &byte in word {
        f.write_char(byte.to_ascii_lowercase() as char)?;
    }
    Ok(())
}

/// Writes a word of a line between quotes. A long one is cut, and ends with two dots.
pub(crate) fn write_quoted<W: fmt::Write>(f: &mut fmt::Formatter<W>, word: &[u8]) -> fmt::Result {
    f.write_str("'")?;
    if word.len() > MOST_OF_WORD {
        write_word(f, word.split_at(MOST_OF_WORD - 2).0)?;
        f.write_str("..")?;
    } else {
        write_word(f, word)?;
    }
    f.write_str("'")
}

//! A font file of pseudo-random glyphs.
ghost use Rattle.std.specs.Prelude.{◌≡◌, ◌<◌};

use crate::random_numbers::next_byte;
use rand_pcg::Pcg32;
use std::alloc::{AllocError, Global};

/// The number that a character's glyph is made from. Odd characters from 81 to FF have the glyphs
/// of 01 to 7F.
fn number_that_glyph_is_made_from(character: u8) -> u8 {
    if character & 0x81 == 0x81 {
        character & 0x7F
    } else {
        character
    }
}

/// Appends a glyph of `height` rows: pseudo-random dots, and no dots for characters 00 and 20.
fn push_glyph(font: &mut Vec<u8>, character: u8, height: u8) -> Result<(), AllocError> {
    let mut random = Pcg32::new(number_that_glyph_is_made_from(character) as u64, 5);
    let is_empty = character & 0xDF == 0;
    for _ in 0..height {
        let dots = next_byte(&mut random);
        font.push(if is_empty { 0 } else { dots })?;
    }
    Ok(())
}

/// The bytes of a font file with pseudo-random glyphs, some of them alike.
pub fn make_font(alloc: Global) -> Result<Vec<u8>, AllocError> {
    let mut font = Vec::new(alloc);
    for height in [8, 14, 16] {
        for character in 0..=0xFFu8 {
            push_glyph(&mut font, character, height)?;
        }
    }
    Ok(font)
}

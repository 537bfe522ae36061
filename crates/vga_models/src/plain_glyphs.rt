//! Glyphs: those of a font file, and those that text is shown in after a mode set.
ghost use Rattle.std.specs.Prelude.{◌≡◌, ◌<◌};

/// The glyphs that text is shown in: sixteen scan lines of each character, top line first.
pub type Glyphs = [[u8; 16]; 256];

/// A row of a character's glyph, in the font of this height.
pub fn font_row(font: &[u8], height: u8, character: u8, row: usize) -> u8
    requires { row < 256 }
{
    let c = character as usize;
    let at = match height {
        8 => 8 * c,
        14 => 2048 + 14 * c,
        _ => 5632 + 16 * c,
    };
    font.get(at + row).copied().unwrap_or(0)
}

/// A character's glyph, in the font of sixteen rows.
fn tall_glyph(font: &[u8], character: u8) -> [u8; 16] {
    let mut glyph = [0; 16];
    for row in 0..16usize {
        glyph[row] = font_row(font, 16, character, row);
    }
    glyph
}

/// The glyphs of text as a mode set leaves them: the font of sixteen rows.
pub fn tall_glyphs(font: &[u8]) -> Glyphs {
    let mut glyphs = [[0; 16]; 256];
    for character in 0..=0xFFu8 {
        glyphs[character as usize] = tall_glyph(font, character);
    }
    glyphs
}

//! The glyphs of characters in the font of the mode's height.
ghost use Rattle.std.specs.Prelude.{◌≡◌, ◌<◌, ◌≤◌, length};
ghost use Rattle.bios_services.specs.Glyphs.{glyph_line as glyph_line_of};
ghost use Rattle.bios_services.specs.Glyphs.{glyph_has_lines as glyph_has_lines_of};
ghost use Rattle.bios_services.specs.Glyphs.{first_character_with_lines as first_character_of};

use bios_modes::Fonts;

/// Line r of a character in the font of this height; bit 7 is the leftmost dot.
pub(crate) fn glyph_line(fonts: &Fonts, height: u32, character: u8, r: u32) -> u8
    requires height { height ≤ 16 }
    requires line { r < height }
    ensures { result ≡ glyph_line_of fonts.now height character r }
{
    match height {
        8 => fonts.f8().byte(character, r as usize),
        14 => fonts.f14().byte(character, r as usize),
        _ => fonts.f16().byte(character, r as usize),
    }
}

/// Whether a character's glyph has these lines.
#[tactic(auto, unfolding(crate::specs::Glyphs::glyph_has_lines))]
fn glyph_has_lines(fonts: &Fonts, height: u32, lines: &[u8], character: u8) -> bool
    requires height { height ≤ 16 }
    requires whole { length lines.now ≡ height }
    ensures { result ≡ glyph_has_lines_of fonts.now height lines.now character }
{
    for r in 0..height {
        let same = glyph_line(fonts, height, character, r) == lines[r as usize];
        if !same {
            return false;
        }
    }
    true
}

/// The first of n characters whose glyph has these lines, else 0.
#[tactic(auto, unfolding(crate::specs::Glyphs::first_character_with_lines))]
pub(crate) fn first_character_with_lines(fonts: &Fonts, height: u32, lines: &[u8], n: u16) -> u8
    requires height { height ≤ 16 }
    requires whole { length lines.now ≡ height }
    requires few { n ≤ 256 }
    ensures { result ≡ first_character_of fonts.now height lines.now n }
{
    for character in 0..n {
        if glyph_has_lines(fonts, height, lines, character as u8) {
            return character as u8;
        }
    }
    0
}

//! Loading glyphs on a plain text screen, which may change the height of its characters, after
//! docs/SCREENS.md.
ghost use Rattle.std.specs.Prelude.{◌≡◌, ◌<◌};

use crate::plain_glyphs::font_row;
use crate::plain_modes::with_height;
use crate::plain_refusals::{high, low};
use crate::plain_screen::{CORNER, PlainScreen};
use bios_services::Regs;

/// The new height of characters: the one in BH for glyphs of a block, otherwise that of the font.
fn loaded_height(regs: Regs) -> u8 {
    match low(regs.ax) {
        0x10 => high(regs.bx),
        0x11 => 14,
        0x12 => 8,
        _ => 16,
    }
}

impl PlainScreen<'_> {
    /// A row of a character's glyph, if that row is loaded from the font or from the block.
    fn loaded_row(&self, regs: Regs, block: &[u8], character: u8, row: u8) -> Option<u8> {
        let height = loaded_height(regs);
        if row >= height {
            return None;
        }
        if low(regs.ax) != 0x10 {
            return Some(font_row(self.font, height, character, row as usize));
        }
        let before = (character as u16).checked_sub(regs.dx)?;
        block
            .get(height as usize * before as usize + row as usize)
            .copied()
    }

    /// A character's glyph with the rows that are loaded, and its old rows below them.
    fn loaded_glyph(&self, regs: Regs, block: &[u8], character: u8) -> [u8; 16] {
        let mut glyph = self.glyphs[character as usize];
        for row in 0..16u8 {
            if let Some(dots) = self.loaded_row(regs, block, character, row) {
                glyph[row as usize] = dots;
            }
        }
        glyph
    }

    /// Loads glyphs, and divides the cells anew by their height. Then page 0 is active, and each
    /// cursor is in the corner.
    pub fn load_glyphs(&mut self, regs: Regs, block: &[u8]) {
        let Some(mode) = with_height(self.mode, loaded_height(regs)) else {
            return;
        };
        for character in 0..=0xFFu8 {
            let glyph = self.loaded_glyph(regs, block, character);
            self.glyphs[character as usize] = glyph;
        }
        self.mode = mode;
        self.cursor_type = mode.cursor_type;
        self.places = [CORNER; 8];
        self.page = 0;
    }
}

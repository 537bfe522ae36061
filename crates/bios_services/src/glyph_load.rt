//! Function 11: loading glyphs of text, which also sets the height of characters.
ghost use Rattle.std.specs.Prelude.{◌≡◌, ◌<◌, ◌≤◌, ◌+◌, IfErr, length};
ghost use Rattle.bios_modes.specs.Fonts.{glyph_row};
ghost use Rattle.bios_services.specs.Bounds.{ports_bound};
ghost use Rattle.bios_services.specs.Plan.{run};
ghost use Rattle.bios_services.specs.ModeSet.{write_font_plan, write_glyph_plan, write_glyphs_plan};
ghost use Rattle.bios_services.specs.CallReasons.{refusal_of_outcome, ExplainsLoadBesidesBlock};
ghost use Rattle.bios_services.specs.CallReasons.{ExplainsLoadBesidesHeight};
ghost use Rattle.bios_services.specs.GlyphLoads.{AreGlyphsThere, whole_font, glyph_load_of};
ghost use Rattle.bios_services.specs.GlyphLoads.{glyphs_block_len, load_refusal_besides_block, load_refusal};
ghost use Rattle.bios_services.specs.GlyphLoads.{loaded_line, load_plan};

use crate::call_reason::CallReason;
use crate::cells::GRAPHICS_BASE;
use crate::cursor::write_crtc_word;
use crate::cycles::{put, write_graphics, write_indexed, write_sequencer};
use crate::glyphs::glyph_line;
use crate::reasons::{refuse_or_wrong_block, refuse_unless};
use crate::regs::{Regs, high, low};
use crate::video_registers::{
    ALL_ADDRESSES, BYTE_ACCESS, BYTE_ACCESS_ODD_AND_EVEN, CURSOR_ADDRESS, CURSOR_START,
    GLYPH_PLANE, GRAPHICS_MODE, MAP_MASK, MAXIMUM_SCAN_LINE, MEMORY_MODE, MISCELLANEOUS,
    ODD_AND_EVEN_ADDRESSES, START_ADDRESS, TEXT_PLANES, UNDERLINE_LOCATION, VERTICAL_DISPLAY_END,
    WINDOW_AT_A0000,
};
use bios_modes::{Fonts, ModeRow, is_text};
use vga_card::Bus;

/// Which glyphs a call loads, and the height of characters that it sets.
#[derive(Clone, Copy)]
pub struct GlyphLoad {
    /// How many scan lines a character has.
    pub height: u8,
    /// The first character.
    pub first: u16,
    /// How many characters.
    pub count: u16,
    /// Whether the glyphs come from the block. Else they come from a font.
    pub is_block: bool,
}

impl GlyphLoad {
    /// All characters of the font of this height.
    fn whole_font(height: u8) -> GlyphLoad
        ensures { result ≡ whole_font height }
    {
        GlyphLoad {
            height,
            first: 0,
            count: 256,
            is_block: false,
        }
    }

    /// The load that a call asks for, if it does.
    pub(crate) fn of_registers(regs: Regs) -> Option<GlyphLoad>
        ensures { result ≡ glyph_load_of regs }
    {
        if high(regs.ax) != 0x11 || low(regs.bx) != 0x00 {
            return None;
        }
        match low(regs.ax) {
            0x10 => Some(GlyphLoad {
                height: high(regs.bx),
                first: regs.dx,
                count: regs.cx,
                is_block: true,
            }),
            0x11 => Some(GlyphLoad::whole_font(14)),
            0x12 => Some(GlyphLoad::whole_font(8)),
            0x14 => Some(GlyphLoad::whole_font(16)),
            _ => None,
        }
    }

    /// How many bytes the block of a load has, if it reads one.
    pub(crate) fn block(self) -> Option<usize>
        ensures { result ≡ glyphs_block_len self }
    {
        if self.is_block {
            Some(self.height as usize * self.count as usize)
        } else {
            None
        }
    }

    /// Refuses the glyphs in a mode, whatever their block, for the first of the reasons.
    fn refusal_besides_block(self, mode: u8) -> Result<(), CallReason>
        ensures refusal { refusal_of_outcome result ≡ load_refusal_besides_block self mode }
        ensures reason { IfErr result (ExplainsLoadBesidesBlock self mode) }
    {
        refuse_unless(is_text(mode), CallReason::NoCharacterMap { mode })?;
        let Self { count, first, .. } = self;
        refuse_unless(
            first as u32 + count as u32 <= 256,
            CallReason::GlyphsPast { count, first },
        )
    }

    /// Refuses the glyphs in a mode, with a block of this length, for the first of the reasons.
    pub(crate) fn refusal(self, mode: u8, len: usize) -> Result<(), CallReason>
        ensures refusal { refusal_of_outcome result ≡ load_refusal self mode len }
        ensures reason { IfErr result (ExplainsLoadBesidesHeight self mode len) }
    {
        refuse_or_wrong_block(self.refusal_besides_block(mode), self.block(), len)
    }

    /// Scan line r of character c.
    fn line(self, fonts: &Fonts, block: &[u8], c: u16, r: u8) -> u8
        requires there { AreGlyphsThere self (length block.now) }
        requires line { r < self.height }
        requires first { self.first ≤ c }
        requires last { c < self.first + self.count }
        ensures { result ≡ loaded_line fonts.now self block.now c r }
    {
        if self.is_block {
            return block[self.height as usize * (c - self.first) as usize + r as usize];
        }
        glyph_line(fonts, self.height as u32, c as u8, r as u32)
    }

    /// Writes the lines of a character to plane 2.
    #[tactic(auto, using(crate::proofs::PlanRuns::run_bind), unfolding(crate::specs::ModeSet::write_glyph_plan))]
    fn write_glyph<B: Bus>(self, bus: &mut B, fonts: &Fonts, block: &[u8], c: u16)
        requires there { AreGlyphsThere self (length block.now) }
        requires first { self.first ≤ c }
        requires last { c < self.first + self.count }
        ensures { bus.new ≡ (run B.meaning (write_glyph_plan (loaded_line fonts.now self block.now)
            self.height c) bus.old).0 }
    {
        for r in 0..self.height {
            put(
                bus,
                GRAPHICS_BASE + 32 * c as u32 + r as u32,
                self.line(fonts, block, c, r),
            );
        }
    }

    /// Writes the lines of all characters.
    #[tactic(auto, using(crate::proofs::PlanRuns::run_bind), unfolding(crate::specs::ModeSet::write_glyphs_plan))]
    fn write_glyphs<B: Bus>(self, bus: &mut B, fonts: &Fonts, block: &[u8])
        requires { AreGlyphsThere self (length block.now) }
        ensures { bus.new ≡ (run B.meaning (write_glyphs_plan (loaded_line fonts.now self block.now)
            self.height self.count self.first) bus.old).0 }
    {
        for c in self.first..self.first + self.count {
            self.write_glyph(bus, fonts, block, c);
        }
    }

    /// Writes the glyphs to plane 2, which is alone at A0000 meanwhile. Then text is there again,
    /// in the window that this value of graphics register 6 selects.
    #[tactic(auto, using(crate::proofs::PlanRuns::run_bind), unfolding(crate::specs::ModeSet::write_font_plan))]
    fn write_font<B: Bus>(self, bus: &mut B, fonts: &Fonts, block: &[u8], window: u8)
        requires { AreGlyphsThere self (length block.now) }
        ensures { bus.new ≡ (run B.meaning (write_font_plan (loaded_line fonts.now self block.now)
            self.height self.count self.first window) bus.old).0 }
    {
        write_sequencer(bus, MAP_MASK, GLYPH_PLANE);
        write_sequencer(bus, MEMORY_MODE, ALL_ADDRESSES);
        write_graphics(bus, GRAPHICS_MODE, BYTE_ACCESS);
        write_graphics(bus, MISCELLANEOUS, WINDOW_AT_A0000);
        self.write_glyphs(bus, fonts, block);
        write_sequencer(bus, MAP_MASK, TEXT_PLANES);
        write_sequencer(bus, MEMORY_MODE, ODD_AND_EVEN_ADDRESSES);
        write_graphics(bus, GRAPHICS_MODE, BYTE_ACCESS_ODD_AND_EVEN);
        write_graphics(bus, MISCELLANEOUS, window);
    }

    /// Writes the font of 16 scan lines, for a mode set.
    pub(crate) fn write_font_of_16<B: Bus>(bus: &mut B, fonts: &Fonts, window: u8)
        ensures { bus.new ≡ (run B.meaning (write_font_plan (glyph_row 16 fonts.now.f16) 16 256 0
            window)
            bus.old).0 }
    {
        GlyphLoad::whole_font(16).write_font(bus, fonts, &[], window);
    }

    /// Writes the glyphs, gives the CRT controller the values of the row of their height, and shows
    /// page 0 with the cursor in its upper left corner.
    #[tactic(auto, using(crate::proofs::PlanRuns::run_bind), unfolding(crate::specs::GlyphLoads::load_plan))]
    pub(crate) fn write<B: Bus>(self, bus: &mut B, fonts: &Fonts, block: &[u8], row: &ModeRow)
        requires there { AreGlyphsThere self (length block.now) }
        requires port { row.now.crtc_address < ports_bound }
        ensures { bus.new ≡ (run B.meaning (load_plan fonts.now self block.now row.now) bus.old).0 }
    {
        let port = row.crtc_address;
        self.write_font(bus, fonts, block, row.graphics[MISCELLANEOUS as usize]);
        write_indexed(
            bus,
            port,
            MAXIMUM_SCAN_LINE,
            row.crtc[MAXIMUM_SCAN_LINE as usize],
        );
        write_crtc_word(bus, port, CURSOR_START, row.cursor_type);
        write_indexed(
            bus,
            port,
            VERTICAL_DISPLAY_END,
            row.crtc[VERTICAL_DISPLAY_END as usize],
        );
        write_indexed(
            bus,
            port,
            UNDERLINE_LOCATION,
            row.crtc[UNDERLINE_LOCATION as usize],
        );
        write_crtc_word(bus, port, START_ADDRESS, 0);
        write_crtc_word(bus, port, CURSOR_ADDRESS, 0);
    }
}

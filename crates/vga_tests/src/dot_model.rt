//! A slow model of the raster, in small steps: how the beam moves, and which colour the dot at the
//! beam has. It was written from the register table. It shares only the types of the memory and of
//! the beam with the crates under test.
ghost use Rattle.std.specs.Prelude.{◌≡◌, ◌<◌, ◌≤◌, ℕ};

use crate::host_model::{bit, byte};
use std::alloc::{AllocError, Global};
use vga_bits::Fault;
use vga_crtc::Beam;
use vga_planes::{Latch, Planes};

/// Registers, colours, memory and beam of a display adapter, and what is drawn of the frame under
/// way.
#[derive(Drop)]
pub struct DotModel {
    pub planes: Planes,
    pub seq: [u8; 5],
    pub crtc: [u8; 25],
    pub gfx: [u8; 9],
    pub attr: [u8; 21],
    /// Bit 5 of the attribute controller's index.
    pub is_palette_shown: bool,
    pub dac: [[u8; 3]; 256],
    pub dac_mask: u8,
    pub misc: u8,
    pub beam: Beam,
    /// The colours of the dots drawn of the frame under way.
    pub colours: Vec<[u8; 3]>,
    /// How many of them each row has.
    pub widths: Vec<u32>,
    is_row_begun: bool,
}

/// The number of ten bits whose low eight are `low`.
fn ten_bits(low: u8, bit_eight: bool, bit_nine: bool) -> u16 {
    let mut value = low as u16;
    if bit_eight {
        value += 256;
    }
    if bit_nine {
        value += 512;
    }
    value
}

/// The beam at the first dot of frame 0.
fn beam_at_power_on() -> Beam {
    Beam {
        frame: 0,
        line: 0,
        character: 0,
        dot: 0,
        base: 0,
        scan: 0,
        half: false,
        split: false,
    }
}

impl DotModel {
    pub fn new(alloc: Global) -> Result<DotModel, Fault> {
        let mut crtc = [0; 25];
        crtc[0x17] = 0x03;
        Ok(DotModel {
            planes: Planes::new(alloc)?,
            seq: [0; 5],
            crtc,
            gfx: [0; 9],
            attr: [0; 21],
            is_palette_shown: false,
            dac: [[0; 3]; 256],
            dac_mask: 0xFF,
            misc: 0,
            beam: beam_at_power_on(),
            colours: Vec::new(alloc),
            widths: Vec::new(alloc),
            is_row_begun: false,
        })
    }

    /// A byte of one plane.
    pub fn set_byte(&mut self, plane: usize, offset: u16, v: u8)
        requires { plane < 4 }
    {
        self.planes.store(offset, Latch::new([v; 4]), 1 << plane);
    }

    /// Writes a register of the CRT controller. Its first eight may be protected, except for one
    /// bit.
    pub fn set_crtc(&mut self, i: usize, v: u8)
        requires { i < 25 }
    {
        let is_protected = bit(self.crtc[0x11], 7);
        if i == 7 && is_protected {
            self.crtc[7] = (self.crtc[7] & 0xEF) | (v & 0x10);
        } else if i > 7 || !is_protected {
            self.crtc[i] = v;
        }
    }

    /// Writes the index and a register of the attribute controller.
    pub fn set_attribute(&mut self, i: usize, is_palette_shown: bool, v: u8)
        requires { i < 21 }
    {
        self.is_palette_shown = is_palette_shown;
        if i > 0x0F || !is_palette_shown {
            self.attr[i] = v;
        }
    }

    /// How many dots a character has.
    fn character_width(&self) -> u8 {
        if bit(self.seq[1], 0) { 8 } else { 9 }
    }

    fn vertical_total(&self) -> u16 {
        ten_bits(self.crtc[0x06], bit(self.crtc[7], 0), bit(self.crtc[7], 5))
    }

    fn display_end(&self) -> u16 {
        ten_bits(self.crtc[0x12], bit(self.crtc[7], 1), bit(self.crtc[7], 6))
    }

    fn retrace_start(&self) -> u16 {
        ten_bits(self.crtc[0x10], bit(self.crtc[7], 2), bit(self.crtc[7], 7))
    }

    fn line_compare(&self) -> u16 {
        ten_bits(self.crtc[0x18], bit(self.crtc[7], 4), bit(self.crtc[9], 6))
    }

    /// Whether the dot at the beam is a display dot.
    fn is_displayed(&self) -> bool {
        self.beam.character <= self.crtc[1] as u16 && self.beam.line <= self.display_end()
    }

    /// Whether the beam is in vertical retrace, which takes 1 to 16 lines.
    fn is_in_retrace(&self) -> bool {
        let start = self.retrace_start();
        let end = self.crtc[0x11] as u16;
        for line in 0..16u16 {
            if start.wrapping_add(line) == self.beam.line {
                return true;
            }
            if start.wrapping_add(line + 1) & 0x0F == end & 0x0F {
                return false;
            }
        }
        false
    }

    /// Input status 1.
    pub fn status(&self) -> u8 {
        let blank = !self.is_displayed();
        let retrace = self.is_in_retrace();
        byte([blank, false, false, retrace, false, false, false, false])
    }

    /// Takes over what is read once a frame, at its first dot.
    fn take_start(&mut self) {
        let beam = &mut self.beam;
        if beam.character == 0 && beam.dot == 0 && beam.line == 0 {
            let start = 256 * self.crtc[0x0C] as u16 + self.crtc[0x0D] as u16;
            let byte_panning = (self.crtc[8] >> 5) & 3;
            beam.base = start.wrapping_add(byte_panning as u16);
            beam.scan = self.crtc[8] & 0x1F;
            beam.half = false;
            beam.split = false;
            self.colours.clear();
            self.widths.clear();
        }
    }

    /// Draws the dot at the beam.
    fn draw(&mut self) -> Result<(), AllocError> {
        let colour = self.colour();
        self.colours.push(colour)?;
        if !self.is_row_begun {
            self.is_row_begun = true;
            self.widths.push(0)?;
        }
        if let Some(width) = self.widths.last_mut() {
            *width = width.wrapping_add(1);
        }
        Ok(())
    }

    /// Goes to the next scan line of the characters, or after line compare to the start of memory.
    fn next_scan_line_of_characters(&mut self) {
        let last_scan = self.crtc[9] & 0x1F;
        let is_compared = self.beam.line == self.line_compare();
        let beam = &mut self.beam;
        if is_compared {
            beam.base = 0;
            beam.scan = 0;
            beam.half = false;
            beam.split = true;
        } else if bit(self.crtc[9], 7) && !beam.half {
            beam.half = true;
        } else {
            beam.half = false;
            if beam.scan >= last_scan {
                beam.scan = 0;
                beam.base = beam.base.wrapping_add(2 * self.crtc[0x13] as u16);
            } else {
                beam.scan = beam.scan.wrapping_add(1);
            }
        }
    }

    /// Goes to the next line, and returns whether the frame ends.
    fn next_line(&mut self) -> bool {
        self.is_row_begun = false;
        self.next_scan_line_of_characters();
        let line = self.beam.line as u32 + 1;
        if line < self.vertical_total() as u32 + 2 {
            self.beam.line = self.beam.line.wrapping_add(1);
            return false;
        }
        let frame = self.beam.frame.wrapping_add(1) % 32;
        self.beam = beam_at_power_on();
        self.beam.frame = frame;
        true
    }

    /// Takes one dot of the clock, and returns whether the frame ends with it.
    pub fn dot(&mut self) -> Result<bool, AllocError> {
        self.take_start();
        if self.is_displayed() {
            self.draw()?;
        }
        self.beam.dot = self.beam.dot.wrapping_add(1);
        if self.beam.dot < self.character_width() {
            return Ok(false);
        }
        self.beam.dot = 0;
        self.beam.character = self.beam.character.wrapping_add(1);
        if self.beam.character < self.crtc[0] as u16 + 5 {
            return Ok(false);
        }
        self.beam.character = 0;
        Ok(self.next_line())
    }

    /// Takes dots to the end of the frame under way, which has at most 1,025 lines of 260
    /// characters.
    pub fn frame(&mut self) -> Result<(), AllocError> {
        for _ in 0..1025 * 260 * 9u32 {
            if self.dot()? {
                break;
            }
        }
        Ok(())
    }

    /// How many rows are drawn of the frame under way. The first dot of a frame begins a new count.
    pub fn rows(&self) -> usize {
        let beam = self.beam;
        if beam.character == 0 && beam.dot == 0 && beam.line == 0 {
            0
        } else {
            self.widths.len()
        }
    }

    /// Width and height of what is drawn, if all rows have the same width.
    pub fn size(&self) -> Option<(u32, usize)> {
        let width = *self.widths.first()?;
        for other in self.widths.iter() {
            if *other != width {
                return None;
            }
        }
        Some((width, self.widths.len()))
    }
}

/// The colour of the dot at the beam.
impl DotModel {
    pub fn colour(&self) -> [u8; 3] {
        if bit(self.seq[1], 5) {
            return [0, 0, 0];
        }
        let index = if self.is_palette_shown {
            self.dac_index_while_palette_is_shown()
        } else {
            self.attr[0x11]
        };
        self.dac[(index & self.dac_mask) as usize]
    }

    fn is_text(&self) -> bool {
        !bit(self.gfx[6], 0)
    }

    fn is_256_colours(&self) -> bool {
        bit(self.gfx[6], 0) && bit(self.gfx[5], 6)
    }

    /// The DAC's index while the palette address source is 1.
    fn dac_index_while_palette_is_shown(&self) -> u8 {
        let (counter, dot) = self.source();
        if self.is_text() {
            self.palette_index(self.text_nibble(counter, dot))
        } else if self.is_256_colours() {
            self.graphics_byte(counter, dot)
        } else {
            self.palette_index(self.graphics_nibble(counter, dot))
        }
    }

    /// By how many dots the picture is shifted to the left.
    fn shift(&self) -> u8 {
        let value = self.attr[0x13];
        if self.beam.split && bit(self.attr[0x10], 5) {
            0
        } else if self.is_256_colours() {
            value & 6
        } else if self.character_width() == 8 {
            value & 7
        } else if value == 8 {
            0
        } else {
            (value & 7) + 1
        }
    }

    /// The counter of the character that the dot at the beam comes from, and the dot's number in
    /// it.
    fn source(&self) -> (u16, u32) {
        let width = self.character_width() as u32;
        let dot = self.beam.dot as u32 + self.shift() as u32;
        let counter = self.beam.base.wrapping_add(self.beam.character);
        if dot >= width {
            (counter.wrapping_add(1), dot - width)
        } else {
            (counter, dot)
        }
    }

    /// The plane offset that a character's bytes are fetched from.
    pub fn fetch_address(&self, counter: u16) -> u16 {
        let twice = counter.wrapping_add(counter);
        if bit(self.crtc[0x14], 6) {
            return twice.wrapping_add(twice);
        }
        if bit(self.crtc[0x17], 6) {
            return counter;
        }
        let low = if bit(self.crtc[0x17], 5) {
            (counter >> 15) & 1
        } else {
            (counter >> 13) & 1
        };
        twice.wrapping_add(low)
    }

    /// The scan line of a glyph, from the map that bit 3 of the attribute selects.
    fn glyph_row(&self, character: u8, attribute: u8) -> u8 {
        let maps = self.seq[3];
        let (high, low) = if bit(attribute, 3) {
            (bit(maps, 5), (maps >> 2) & 3)
        } else {
            (bit(maps, 4), maps & 3)
        };
        let mut offset = 16384 * low as u16;
        if high {
            offset = offset.wrapping_add(8192);
        }
        offset = offset.wrapping_add(32 * character as u16);
        self.planes
            .byte(2, offset.wrapping_add(self.beam.scan as u16))
    }

    fn is_in_glyph(&self, character: u8, attribute: u8, dot: u32) -> bool {
        let row = self.glyph_row(character, attribute);
        if dot < 8 {
            return bit(row, 7 - dot as usize);
        }
        bit(self.attr[0x10], 2) && (0xC0..=0xDF).contains(&character) && bit(row, 0)
    }

    fn is_underlined(&self, attribute: u8) -> bool {
        let is_underline_row = self.beam.scan == self.crtc[0x14] & 0x1F;
        bit(self.attr[0x10], 1) && attribute & 0x77 == 0x01 && is_underline_row
    }

    /// Whether the character blinks and is hidden at the moment.
    fn is_blinked_off(&self, attribute: u8) -> bool {
        bit(self.attr[0x10], 3) && bit(attribute, 7) && self.beam.frame >= 16
    }

    fn is_in_cursor(&self, counter: u16) -> bool {
        let place = 256 * self.crtc[0x0E] as u16 + self.crtc[0x0F] as u16;
        let first = self.crtc[0x0A] & 0x1F;
        let last = self.crtc[0x0B] & 0x1F;
        let is_off = bit(self.crtc[0x0A], 5);
        let is_on_scan = first <= self.beam.scan && self.beam.scan <= last;
        counter == place && !is_off && is_on_scan && self.beam.frame % 16 < 8
    }

    /// The four bits of a dot of text.
    fn text_nibble(&self, counter: u16, dot: u32) -> u8 {
        let address = self.fetch_address(counter);
        let character = self.planes.byte(0, address);
        let attribute = self.planes.byte(1, address);
        let mut is_one = self.is_in_glyph(character, attribute, dot);
        if self.is_underlined(attribute) {
            is_one = true;
        }
        if self.is_blinked_off(attribute) {
            is_one = false;
        }
        if self.is_in_cursor(counter) {
            is_one = true;
        }
        if is_one {
            attribute & 0x0F
        } else if bit(self.attr[0x10], 3) {
            (attribute >> 4) & 0x07
        } else {
            (attribute >> 4) & 0x0F
        }
    }

    /// The four bits of a dot of 16 colours, one of each plane.
    fn graphics_nibble(&self, counter: u16, dot: u32) -> u8 {
        if dot >= 8 {
            return 0;
        }
        let address = self.fetch_address(counter);
        let mut bits = [false; 8];
        for plane in 0..4usize {
            bits[plane] = bit(self.planes.byte(plane, address), 7 - dot as usize);
        }
        byte(bits)
    }

    /// The byte of a dot of 256 colours, two dots of each plane in turn.
    fn graphics_byte(&self, counter: u16, dot: u32) -> u8 {
        if dot >= 8 {
            return 0;
        }
        self.planes
            .byte((dot / 2) as usize, self.fetch_address(counter))
    }

    /// The DAC index of four bits, through colour plane enable, palette and colour select.
    fn palette_index(&self, nibble: u8) -> u8 {
        let shown = nibble & self.attr[0x12] & 0x0F;
        let palette = self.attr[shown as usize];
        let select = self.attr[0x14];
        let (bit_four, bit_five) = if bit(self.attr[0x10], 7) {
            (bit(select, 0), bit(select, 1))
        } else {
            (bit(palette, 4), bit(palette, 5))
        };
        byte([
            bit(palette, 0),
            bit(palette, 1),
            bit(palette, 2),
            bit(palette, 3),
            bit_four,
            bit_five,
            bit(select, 2),
            bit(select, 3),
        ])
    }
}

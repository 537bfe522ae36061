//! Compares pictures, the beam and input status 1 with the slow model, on pseudo-random registers,
//! colours and memory, and with registers that change within a frame.
ghost use Rattle.std.specs.Prelude.{◌≡◌, ◌<◌, ◌≤◌};

use crate::dot_model::DotModel;
use crate::random_registers::{
    DotSource, attribute_value, crtc_value, graphics_value, is_one_in, memory_byte, next_below,
    next_byte, next_crtc_register, random_dot_source_kind, sequencer_value,
};
use anyhow::Result;
use rand_pcg::Pcg32;
use std::alloc::Global;
use std::fmt;
use vga_bits::Refusal;
use vga_card::{Card, Drawn};

/// How many settings of all registers are compared, unless fewer are asked for.
pub const SETTINGS: u32 = 2_000;

/// How many frames are compared on each.
const FRAMES: u32 = 5;

/// The settings with tall frames, and the bits of the vertical total that make them so.
const TALL: [(u32, u8); 3] = [(40, 0x01), (80, 0x20), (120, 0x21)];

/// The first address of the window that memory is filled through.
const WINDOW: u32 = 0xA0000;

/// What first differs between a card and the model.
#[derive(Clone, Copy, Debug, PartialEq, Eq)]
enum Difference {
    /// The position of the beam, or its counters.
    Beam,
    /// How many rows are drawn.
    Rows,
    /// Input status 1.
    Status,
    /// The size of the picture, or that it is ragged.
    Shape,
    /// The colour of this dot of the picture.
    Dot(usize),
}

/// How a comparison of dots ended.
#[derive(Clone, Copy, PartialEq, Eq)]
pub struct DotsOutcome {
    frames: u32,
    difference: Option<Difference>,
}

impl DotsOutcome {
    /// Whether nothing differs.
    pub fn is_alike(&self) -> bool {
        self.difference.is_none()
    }
}

impl fmt::Display for DotsOutcome {
    fn fmt<W: fmt::Write>(&self, f: &mut fmt::Formatter<W>) -> fmt::Result {
        let frames = self.frames;
        match self.difference {
            None => write!(f, "{frames} frames alike"),
            Some(difference) => write!(f, "differs after {frames} frames: {difference:?}"),
        }
    }
}

/// A card and its slow model, which get the same registers, memory and dots.
#[derive(Drop)]
struct Pair {
    card: Card,
    model: DotModel,
}

/// The first dot of a picture whose colour differs from the model's.
fn differing_dot(bytes: &[u8], colours: &[[u8; 3]]) -> Option<usize> {
    let mut rest = bytes;
    for (i, colour) in colours.iter().enumerate() {
        match rest.strip_prefix(colour.as_slice()) {
            Some(others) => rest = others,
            None => return Some(i),
        }
    }
    if rest.is_empty() {
        None
    } else {
        Some(colours.len())
    }
}

impl Pair {
    fn new(alloc: Global) -> Result<Pair> {
        Ok(Pair {
            card: Card::new(alloc)?,
            model: DotModel::new(alloc)?,
        })
    }

    fn set_misc(&mut self, v: u8) -> Result<(), Refusal> {
        self.model.misc = v;
        self.card.out(0x3C2, v)
    }

    fn set_sequencer(&mut self, i: u8, v: u8) -> Result<(), Refusal>
        requires { i < 5 }
    {
        self.model.seq[i as usize] = v;
        self.card.out(0x3C4, i)?;
        self.card.out(0x3C5, v)
    }

    fn set_graphics(&mut self, i: u8, v: u8) -> Result<(), Refusal>
        requires { i < 9 }
    {
        self.model.gfx[i as usize] = v;
        self.card.out(0x3CE, i)?;
        self.card.out(0x3CF, v)
    }

    /// The first port of the CRT controller.
    fn crtc_port(&self) -> u16
        ensures { result < 1000 }
    {
        if self.model.misc & 1 == 1 {
            0x3D4
        } else {
            0x3B4
        }
    }

    fn set_crtc(&mut self, i: u8, v: u8) -> Result<(), Refusal>
        requires { i < 25 }
    {
        let port = self.crtc_port();
        self.model.set_crtc(i as usize, v);
        self.card.out(port, i)?;
        self.card.out(port + 1, v)
    }

    fn set_attribute(&mut self, i: u8, is_palette_shown: bool, v: u8) -> Result<(), Refusal>
        requires { i < 21 }
    {
        let port = self.crtc_port() + 6;
        self.card.inp(port)?;
        self.model.set_attribute(i as usize, is_palette_shown, v);
        self.card
            .out(0x3C0, if is_palette_shown { i + 0x20 } else { i })?;
        self.card.out(0x3C0, v)
    }

    fn set_colour(&mut self, i: u8, colour: [u8; 3]) -> Result<(), Refusal> {
        self.model.dac[i as usize] = colour;
        self.card.out(0x3C8, i)?;
        self.card.out(0x3C9, colour[0])?;
        self.card.out(0x3C9, colour[1])?;
        self.card.out(0x3C9, colour[2])
    }

    fn set_dac_mask(&mut self, v: u8) -> Result<(), Refusal> {
        self.model.dac_mask = v;
        self.card.out(0x3C6, v)
    }
}

/// Memory.
impl Pair {
    /// Sets the registers so that each byte that is written reaches one plane, unchanged.
    fn open_memory(&mut self, plane: u8) -> Result<(), Refusal>
        requires { plane < 4 }
    {
        self.set_misc(self.model.misc | 0x02)?;
        self.set_sequencer(2, 1 << plane)?;
        self.set_sequencer(4, 0x06)?;
        self.set_graphics(1, 0x00)?;
        self.set_graphics(3, 0x00)?;
        self.set_graphics(5, 0x00)?;
        self.set_graphics(6, 0x05)?;
        self.set_graphics(8, 0xFF)
    }

    fn put(&mut self, plane: u8, offset: u16, v: u8) -> Result<(), Refusal>
        requires { plane < 4 }
    {
        self.model.set_byte(plane as usize, offset, v);
        self.card.put(WINDOW + offset as u32, v)
    }

    fn fill_memory(&mut self, random: &mut Pcg32) -> Result<(), Refusal> {
        for plane in 0..4u8 {
            self.open_memory(plane)?;
            for offset in 0..=0xFFFFu16 {
                let v = memory_byte(random, plane);
                self.put(plane, offset, v)?;
            }
        }
        Ok(())
    }

    /// Writes a byte that is fetched near the beam, and restores the registers that the write
    /// changed.
    fn change_memory(&mut self, random: &mut Pcg32) -> Result<(), Refusal> {
        let seq = self.model.seq;
        let gfx = self.model.gfx;
        let plane = next_below(random, 4) as u8;
        let near = next_below(random, 16) as u16;
        let counter = self.model.beam.base.wrapping_add(near);
        let offset = self.model.fetch_address(counter);
        let v = memory_byte(random, plane);
        self.open_memory(plane)?;
        self.put(plane, offset, v)?;
        for i in 0..5u8 {
            self.set_sequencer(i, seq[i as usize])?;
        }
        for i in 0..9u8 {
            self.set_graphics(i, gfx[i as usize])?;
        }
        Ok(())
    }
}

/// Pseudo-random settings, and changes of one register.
impl Pair {
    /// Puts the cursor near the first character of the frame, or of the memory.
    fn place_cursor(&mut self, random: &mut Pcg32) -> Result<(), Refusal> {
        let start = 256 * self.model.crtc[0x0C] as u16 + self.model.crtc[0x0D] as u16;
        let near = next_below(random, 24) as u16;
        let place = if is_one_in(random, 4) {
            near
        } else {
            start.wrapping_add(near)
        };
        self.set_crtc(0x0E, (place >> 8) as u8)?;
        self.set_crtc(0x0F, (place & 0xFF) as u8)
    }

    /// Makes the frame 256 lines high or more, by these bits of the overflow register, with narrow
    /// lines.
    fn make_frame_tall(&mut self, overflow: u8) -> Result<(), Refusal> {
        self.set_crtc(0x11, 0x00)?;
        self.set_crtc(0x00, 0x00)?;
        self.set_crtc(0x07, self.model.crtc[0x07] | overflow)
    }

    /// Makes the frame tall if this setting is one of the tall ones.
    fn make_frame_tall_in_some_settings(&mut self, setting: u32) -> Result<(), Refusal> {
        for (tall, overflow) in TALL {
            if tall == setting {
                self.make_frame_tall(overflow)?;
            }
        }
        Ok(())
    }

    fn change_colour(&mut self, random: &mut Pcg32, i: u8) -> Result<(), Refusal> {
        let red = next_byte(random) & 0x3F;
        let green = next_byte(random) & 0x3F;
        let blue = next_byte(random) & 0x3F;
        self.set_colour(i, [red, green, blue])
    }

    /// Sets the registers of the sequencer to new values.
    fn change_sequencer(&mut self, random: &mut Pcg32) -> Result<(), Refusal> {
        for i in 0..5u8 {
            self.set_sequencer(i, sequencer_value(random, i))?;
        }
        Ok(())
    }

    /// Sets the registers of the CRT controller to new values.
    fn change_crtc(&mut self, random: &mut Pcg32) -> Result<(), Refusal> {
        self.set_crtc(0x11, 0x00)?;
        for i in 0..25u8 {
            self.set_crtc(i, crtc_value(random, i))?;
        }
        self.place_cursor(random)
    }

    /// Sets the registers of the graphics controller to new values.
    fn change_graphics(&mut self, random: &mut Pcg32, dots: DotSource) -> Result<(), Refusal> {
        for i in 0..9u8 {
            self.set_graphics(i, graphics_value(random, i, dots))?;
        }
        Ok(())
    }

    /// Sets the registers of the attribute controller to new values.
    fn change_attributes(&mut self, random: &mut Pcg32) -> Result<(), Refusal> {
        for i in 0..21u8 {
            self.set_attribute(i, false, attribute_value(random, i))?;
        }
        let is_palette_shown = !is_one_in(random, 16);
        self.set_attribute(0x13, is_palette_shown, attribute_value(random, 0x13))
    }

    /// Sets the colours and the DAC mask to new values.
    fn change_colours(&mut self, random: &mut Pcg32) -> Result<(), Refusal> {
        for i in 0..=0xFFu8 {
            self.change_colour(random, i)?;
        }
        self.set_dac_mask(next_byte(random) | next_byte(random))
    }

    /// Sets all registers and colours to new values.
    fn change_all(&mut self, random: &mut Pcg32, dots: DotSource) -> Result<(), Refusal> {
        self.set_misc((next_byte(random) & 0xEF) | 0x02)?;
        self.change_sequencer(random)?;
        self.change_crtc(random)?;
        self.change_graphics(random, dots)?;
        self.change_attributes(random)?;
        self.change_colours(random)
    }

    /// Sets one register, colour or byte of memory to another value.
    fn change_one(&mut self, random: &mut Pcg32) -> Result<(), Refusal> {
        match next_below(random, 20) {
            0 => self.set_sequencer(1, self.model.seq[1] ^ 0x01),
            1 => {
                let i = next_below(random, 5) as u8;
                self.set_sequencer(i, sequencer_value(random, i))
            }
            2..=3 => {
                let i = next_below(random, 9) as u8;
                let dots = random_dot_source_kind(random);
                self.set_graphics(i, graphics_value(random, i, dots))
            }
            4..=11 => {
                let i = next_crtc_register(random);
                self.set_crtc(i, crtc_value(random, i))
            }
            12..=16 => {
                let i = next_below(random, 21) as u8;
                let is_palette_shown = !is_one_in(random, 16);
                self.set_attribute(i, is_palette_shown, attribute_value(random, i))
            }
            17 => {
                let i = next_byte(random);
                self.change_colour(random, i)
            }
            18 => self.set_dac_mask(next_byte(random) | next_byte(random)),
            _ => self.change_memory(random),
        }
    }

    /// Changes up to three things.
    fn change_few(&mut self, random: &mut Pcg32) -> Result<(), Refusal> {
        for _ in 0..next_below(random, 4) {
            self.change_one(random)?;
        }
        Ok(())
    }
}

/// Dots, and what is compared.
impl Pair {
    fn advance(&mut self, dots: u32) -> Result<()> {
        for _ in 0..dots {
            self.model.dot()?;
        }
        self.card.advance(dots)?;
        Ok(())
    }

    /// Advances to the last dot of a character of nine dots, or past one of eight.
    fn advance_to_last_dot_of_character(&mut self) -> Result<()> {
        let dots = 8u8.saturating_sub(self.model.beam.dot);
        self.advance(dots as u32)
    }

    fn beam_difference(&mut self) -> Result<Option<Difference>, Refusal> {
        let (beam, rows) = self.card.beam();
        if beam != self.model.beam {
            return Ok(Some(Difference::Beam));
        }
        if rows as usize != self.model.rows() {
            return Ok(Some(Difference::Rows));
        }
        let port = self.crtc_port() + 6;
        if self.card.inp(port)? != self.model.status() {
            return Ok(Some(Difference::Status));
        }
        Ok(None)
    }

    /// Draws to the end of the frame.
    fn frame_difference(&mut self) -> Result<Option<Difference>> {
        self.model.frame()?;
        let difference = match (self.card.frame(), self.model.size()) {
            (Drawn::Picture(width, height, bytes), Some(size)) => {
                if (width, height as usize) == size {
                    differing_dot(bytes, self.model.colours.as_slice()).map(Difference::Dot)
                } else {
                    Some(Difference::Shape)
                }
            }
            (Drawn::Ragged, None) => None,
            (Drawn::Picture(..), None) | (Drawn::Ragged, Some(_)) => Some(Difference::Shape),
        };
        match difference {
            Some(difference) => Ok(Some(difference)),
            None => Ok(self.beam_difference()?),
        }
    }

    /// Compares a frame, with a few changes before it, and in most cases within it.
    fn compare_frame_after_changes(&mut self, random: &mut Pcg32) -> Result<Option<Difference>> {
        self.change_few(random)?;
        for _ in 0..next_below(random, 3) {
            let dots = next_below(random, 500);
            self.advance(dots)?;
            if is_one_in(random, 4) {
                self.advance_to_last_dot_of_character()?;
            }
            let difference = self.beam_difference()?;
            if difference.is_some() {
                return Ok(difference);
            }
            self.change_few(random)?;
        }
        self.frame_difference()
    }

    /// Compares frames on `settings` settings, up to the first difference.
    fn outcome(
        &mut self,
        random: &mut Pcg32,
        dots: DotSource,
        settings: u32,
    ) -> Result<DotsOutcome> {
        let mut frames = 0;
        self.fill_memory(random)?;
        for setting in 0..settings {
            self.change_all(random, dots)?;
            self.make_frame_tall_in_some_settings(setting)?;
            for _ in 0..FRAMES {
                let difference = self.compare_frame_after_changes(random)?;
                if difference.is_some() {
                    return Ok(DotsOutcome { frames, difference });
                }
                frames = frames.saturating_add(1);
            }
        }
        Ok(DotsOutcome {
            frames,
            difference: None,
        })
    }
}

/// Compares frames on `settings` pseudo-random settings. The stream gives the pseudo-random
/// numbers.
pub fn compare_dots(
    alloc: Global,
    dots: DotSource,
    stream: u64,
    settings: u32,
) -> Result<DotsOutcome> {
    let mut random = Pcg32::new(0x5EED, stream);
    Pair::new(alloc)?.outcome(&mut random, dots, settings)
}

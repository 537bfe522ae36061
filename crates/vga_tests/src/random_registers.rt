//! Pseudo-random values of registers: mostly small frames, and all bits that decide colours.
ghost use Rattle.std.specs.Prelude.{◌≡◌, ◌<◌};

use rand_core::Rng;
use rand_pcg::Pcg32;

/// What the dots of a picture are made from.
#[derive(Clone, Copy, PartialEq, Eq)]
pub enum DotSource {
    Text,
    SixteenColours,
    Colours256,
}

/// A byte from a generator's next word.
pub fn next_byte(random: &mut Pcg32) -> u8 {
    (random.next_u32() >> 24) as u8
}

/// A number below `end`, from a generator's next word.
pub fn next_below(random: &mut Pcg32, end: u32) -> u32
    requires { 0 < end }
    ensures { result < end }
{
    (random.next_u32() >> 8) % end
}

/// One of the three sources of dots.
pub fn random_dot_source_kind(random: &mut Pcg32) -> DotSource {
    match next_below(random, 3) {
        0 => DotSource::Text,
        1 => DotSource::SixteenColours,
        _ => DotSource::Colours256,
    }
}

/// True once in `throws` times, on average.
pub fn is_one_in(random: &mut Pcg32, throws: u32) -> bool
    requires { 0 < throws }
{
    next_below(random, throws) == 0
}

/// A byte that has the rare bits only once in `throws` times.
fn byte_with_rare(random: &mut Pcg32, rare: u8, throws: u32) -> u8
    requires { 0 < throws }
{
    let v = next_byte(random);
    if is_one_in(random, throws) {
        v
    } else {
        v & !rare
    }
}

/// A value for a register of the sequencer. The screen is mostly on.
pub fn sequencer_value(random: &mut Pcg32, i: u8) -> u8 {
    match i {
        0 => next_byte(random) & 0x03,
        1 => byte_with_rare(random, 0x20, 8) & 0x3D,
        2 => next_byte(random) & 0x0F,
        3 => next_byte(random) & 0x3F,
        _ => next_byte(random) & 0x0E,
    }
}

/// A value for a register of the graphics controller. In text bit 6 of register 5 is random too.
pub fn graphics_value(random: &mut Pcg32, i: u8, dots: DotSource) -> u8 {
    let v = next_byte(random);
    match (i, dots) {
        (3, _) => v & 0x1F,
        (4, _) => v & 0x03,
        (5, DotSource::Text) => v & 0x5B,
        (5, DotSource::SixteenColours) => v & 0x1B,
        (5, DotSource::Colours256) => (v & 0x1B) | 0x40,
        (6, DotSource::Text) => v & 0x0E,
        (6, _) => (v & 0x0E) | 0x01,
        (8, _) => v,
        _ => v & 0x0F,
    }
}

/// A value for the overflow register. The bits of the vertical total are rarest, since they make
/// large frames.
fn overflow_value(random: &mut Pcg32) -> u8 {
    byte_with_rare(random, 0x21, 100) & (next_byte(random) | 0x31)
}

/// A register of the CRT controller: often one that says where lines, rows and frames end.
pub fn next_crtc_register(random: &mut Pcg32) -> u8
    ensures { result < 25 }
{
    if is_one_in(random, 2) {
        return next_below(random, 25) as u8;
    }
    match next_below(random, 5) {
        0 => 0x00,
        1 => 0x07,
        2 => 0x06,
        3 => 0x09,
        _ => 0x18,
    }
}

/// A value for a register of the CRT controller: few characters and lines, in frames that mostly
/// have room for them.
pub fn crtc_value(random: &mut Pcg32, i: u8) -> u8 {
    match i {
        0x00 => byte_with_rare(random, 0xF8, 200),
        0x01 => byte_with_rare(random, 0xF0, 16),
        0x06 | 0x12 | 0x18 => next_byte(random) & 0x0F,
        0x07 => overflow_value(random),
        0x08 => byte_with_rare(random, 0x1C, 4) & 0x7F,
        0x09 => byte_with_rare(random, 0x58, 3),
        0x0A => byte_with_rare(random, 0x3C, 4) & 0x3F,
        0x0B => byte_with_rare(random, 0x08, 2) & 0x7F,
        0x0C if is_one_in(random, 8) => 0xFF,
        0x0D if is_one_in(random, 4) => next_byte(random) | 0xF0,
        0x10 => next_byte(random) & 0x0F,
        0x11 => byte_with_rare(random, 0x80, 3),
        0x13 => byte_with_rare(random, 0xF8, 4),
        0x14 => byte_with_rare(random, 0x1C, 3) & 0x5F,
        0x17 => (next_byte(random) & 0xE0) | 0x03,
        _ => next_byte(random),
    }
}

/// A value for a register of the attribute controller.
pub fn attribute_value(random: &mut Pcg32, i: u8) -> u8 {
    let v = next_byte(random);
    match i {
        0x10 => v & 0xEF,
        0x11 => v,
        0x12 if is_one_in(random, 2) => (v & 0x3F) | 0x0F,
        0x13 | 0x14 => v & 0x0F,
        _ => v & 0x3F,
    }
}

/// The first and the last of the characters whose ninth dot may repeat the eighth, and their
/// neighbours.
const NINE_DOT_ENDS: [u8; 4] = [0xBF, 0xC0, 0xDF, 0xE0];

/// A byte of a plane. In plane 0, which has the characters of text, some are at the ends of those
/// whose ninth dot may repeat the eighth. In plane 1, which has the attributes, some underline.
pub fn memory_byte(random: &mut Pcg32, plane: u8) -> u8 {
    let v = next_byte(random);
    match plane {
        0 if is_one_in(random, 8) => NINE_DOT_ENDS[(v & 3) as usize],
        1 if is_one_in(random, 4) => (v & 0x88) | 0x01,
        _ => v,
    }
}

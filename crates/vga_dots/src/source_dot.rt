//! Where the dot at the beam comes from.
ghost use Rattle.std.specs.Prelude.{◌≡◌, ◌<◌};
ghost use Rattle.vga_dots.specs.SourceDot.{panning_shift as panning_shift_of, source_dot};
ghost use Rattle.vga_dots.specs.SourceDot.{fetch_address as fetch_address_of};

use crate::display::Display;
use vga_crtc::Registers;

/// A dot of a character: the character's counter, and the dot's number, 0 to 8.
#[derive(Clone, Copy)]
pub struct SourceDot {
    pub counter: u16,
    pub dot: u8,
}

/// By how many dots, 0 to 8, the picture is panned to the left.
#[tactic(auto, unfolding(crate::specs::SourceDot::panning_shift))]
pub(crate) fn panning_shift(display: &Display<'_>) -> u8
    ensures value { result ≡ panning_shift_of display.now.host display.now.crtc display.now.attr }
    ensures few { result < 9 }
{
    let attr = display.attr();
    let host = display.host();
    let panning = attr.panning();
    if display.beam().split && attr.is_panning_reset() {
        0
    } else if host.is_256_colours() {
        panning & 6
    } else if host.is_eight_dots() {
        panning % 8
    } else if panning == 8 {
        0
    } else {
        panning % 8 + 1
    }
}

impl SourceDot {
    /// Where the dot at the beam comes from: the beam's character, or the next one.
    #[tactic(auto, unfolding(crate::specs::SourceDot::source_dot))]
    pub(crate) fn at_beam(display: &Display<'_>) -> SourceDot
        ensures { result ≡ source_dot display.now.host display.now.crtc display.now.attr }
    {
        let beam = display.beam();
        let width = display.host().character_width();
        let dot = beam.dot + panning_shift(display);
        if dot < width {
            SourceDot {
                counter: display.counter(beam.character),
                dot,
            }
        } else {
            SourceDot {
                counter: display.counter(beam.character + 1),
                dot: dot - width,
            }
        }
    }
}

/// The address in each plane that a counter selects.
#[tactic(auto, unfolding(crate::specs::SourceDot::fetch_address))]
pub(crate) fn fetch_address(registers: &Registers, counter: u16) -> u16
    ensures { result ≡ fetch_address_of registers.now counter }
{
    if registers.is_double_word() {
        counter.wrapping_mul(4)
    } else if registers.is_byte_mode() {
        counter
    } else {
        let wrapped = if registers.is_address_wrap() { 15 } else { 13 };
        counter.wrapping_mul(2) + (counter >> wrapped & 1)
    }
}

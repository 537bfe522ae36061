//! The colours of a line of text, each looked up where it is used first. This file serves speed
//! alone: each cell could look up its own two.
ghost use Rattle.std.specs.Prelude.{◌<◌};
ghost use Rattle.vga_dots.specs.Line.{colour_by_palette};
ghost use Rattle.vga_dots.specs.EightDots.{AreEightDotsOfColour};
ghost use Rattle.vga_dots.specs.Display.{DisplayState};
ghost use Rattle.vga_dots.specs.TextColours.{AreTextColoursOf};

use crate::character::masked_colour;
use crate::display::Display;
use crate::eight_dots::{BLACK_DOTS, EightDots};

/// Eight dots of the colour of four bits.
#[tactic(auto, unfolding(crate::specs::Line::colour_by_palette))]
pub(crate) fn text_colour(display: &Display<'_>, n: u8) -> EightDots
    ensures { AreEightDotsOfColour result
        (colour_by_palette display.now.attr display.now.dac n) }
{
    EightDots::of_colour(masked_colour(display.dac(), display.attr().colour_index(n)))
}

/// Eight dots of each colour of four bits that was looked up until now.
#[derive(Drop)]
pub(crate) struct TextColours {
    are_known: [bool; 16],
    dots: [EightDots; 16],
}

impl TextColours {
    /// No colour was looked up until now. All bytes are 0, so that this takes few instructions.
    pub(crate) fn new() -> TextColours
        ensures { (display : DisplayState) → AreTextColoursOf result display }
    {
        TextColours {
            are_known: [false; 16],
            dots: [BLACK_DOTS; 16],
        }
    }

    /// Eight dots of the colour of four bits, which are kept.
    #[inline(never)]
    fn look_up(&mut self, display: &Display<'_>, n: u8) -> EightDots
        requires few { n < 16 }
        requires colours { AreTextColoursOf self.old display.now }
        ensures dots { AreEightDotsOfColour result
            (colour_by_palette display.now.attr display.now.dac n) }
        ensures colours { AreTextColoursOf self.new display.now }
    {
        let dots = text_colour(display, n);
        self.dots[n as usize] = dots;
        self.are_known[n as usize] = true;
        dots
    }

    /// Eight dots of the colour of four bits.
    #[inline(always)]
    pub(crate) fn eight_dots(&mut self, display: &Display<'_>, n: u8) -> EightDots
        requires few { n < 16 }
        requires colours { AreTextColoursOf self.old display.now }
        ensures dots { AreEightDotsOfColour result
            (colour_by_palette display.now.attr display.now.dac n) }
        ensures colours { AreTextColoursOf self.new display.now }
    {
        if self.are_known[n as usize] {
            self.dots[n as usize]
        } else {
            self.look_up(display, n)
        }
    }
}

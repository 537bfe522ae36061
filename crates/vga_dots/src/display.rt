//! The parts of an adapter that a picture is drawn from.
ghost use Rattle.std.specs.Prelude.{◌≡◌};
ghost use Rattle.vga_crtc.specs.Beam.{IsBeam};
ghost use Rattle.vga_dots.specs.Display.{display_of};
ghost use Rattle.vga_dots.specs.SourceDot.{counter_of_character, fetch_address as fetch_address_of};

use crate::source_dot::fetch_address;
use std::marker::Model;
use vga_attr::Attr;
use vga_crtc::{Beam, Crtc};
use vga_dac::Dac;
use vga_host::Host;
use vga_planes::Planes;

/// The parts of an adapter that decide what it shows.
///
/// Contracts see one record: the models of the parts.
#[derive(Drop)]
pub struct Display<'a> {
    host: &'a Host,
    crtc: &'a Crtc,
    attr: &'a Attr,
    dac: &'a Dac,
}

impl<'a> Model for Display<'a> {
    ghost use Rattle.vga_dots.specs.Display.{DisplayState};

    ghost Value = { DisplayState };

    ghost view = { λ d. record {
      host = d.host.now;
      crtc = d.crtc.now;
      attr = d.attr.now;
      dac = d.dac.now;
    } };
}

impl<'a> Display<'a> {
    /// Borrows the four parts as one display.
    pub fn new(host: &'a Host, crtc: &'a Crtc, attr: &'a Attr, dac: &'a Dac) -> Display<'a>
        ensures { result ≡ display_of host.now crtc.now attr.now dac.now }
    {
        Display {
            host,
            crtc,
            attr,
            dac,
        }
    }

    /// The sequencer, the graphics controller and the display memory.
    pub fn host(&self) -> &Host
        ensures { result.now ≡ self.now.host }
    {
        self.host
    }

    /// The CRT controller, with the beam.
    pub fn crtc(&self) -> &Crtc
        ensures { result.now ≡ self.now.crtc }
    {
        self.crtc
    }

    /// The attribute controller.
    pub fn attr(&self) -> &Attr
        ensures { result.now ≡ self.now.attr }
    {
        self.attr
    }

    /// The colours.
    pub fn dac(&self) -> &Dac
        ensures { result.now ≡ self.now.dac }
    {
        self.dac
    }

    /// The display memory.
    pub(crate) fn planes(&self) -> &Planes
        ensures { result.now ≡ self.now.host.memory }
    {
        self.host.planes()
    }

    /// Where the beam is.
    pub fn beam(&self) -> Beam
        ensures value { result ≡ self.now.crtc.beam }
        ensures place { IsBeam result }
    {
        self.crtc.beam()
    }

    /// The counter of a character of the beam's line, by which it is fetched.
    #[inline(always)]
    pub(crate) fn counter(&self, character: u16) -> u16
        ensures { result ≡ counter_of_character self.now.crtc character }
    {
        self.beam().base.wrapping_add(character)
    }

    /// The address in each plane that a counter selects.
    pub(crate) fn fetch_address(&self, counter: u16) -> u16
        ensures { result ≡ fetch_address_of self.now.crtc.registers counter }
    {
        fetch_address(self.crtc.fields(), counter)
    }
}

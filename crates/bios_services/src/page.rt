//! A page that characters are written to.
ghost use Rattle.std.specs.Prelude.{◌≡◌};
ghost use Rattle.bios_services.specs.Page.{page_of};

use bios_modes::{Bda, Fonts};
use std::marker::Model;

/// A page of a mode, with the fonts of its characters.
///
/// Contracts see one record: the fonts, the BIOS data and the page's number.
#[derive(Drop)]
pub(crate) struct Page<'a> {
    fonts: &'a Fonts,
    bda: &'a Bda,
    number: u8,
}

impl<'a> Model for Page<'a> {
    ghost use Rattle.bios_services.specs.Page.{PageWithFontsAndData};

    ghost Value = { PageWithFontsAndData };

    ghost view = { λ p. record {
      fonts = p.fonts.now;
      bda = p.bda.now;
      number = p.number;
    } };
}

impl<'a> Page<'a> {
    /// The page of this number, in the mode of the BIOS data.
    pub(crate) fn new(fonts: &'a Fonts, bda: &'a Bda, number: u8) -> Page<'a>
        ensures { result ≡ page_of fonts.now bda.now number }
    {
        Page { fonts, bda, number }
    }

    /// The fonts of its characters.
    pub(crate) fn fonts(&self) -> &Fonts
        ensures { result.now ≡ self.now.fonts }
    {
        self.fonts
    }

    /// The data of its mode.
    pub(crate) fn bda(&self) -> &Bda
        ensures { result.now ≡ self.now.bda }
    {
        self.bda
    }

    /// The page's number, from 0.
    pub(crate) fn number(&self) -> u8
        ensures { result ≡ self.now.number }
    {
        self.number
    }
}

//! The fonts of a file.
ghost use Rattle.std.specs.Prelude.{◌≡◌, IfOk, IfErr, IsOkUnless, length};
ghost use Rattle.bios_modes.specs.Bounds.{AreFonts};
ghost use Rattle.bios_modes.specs.Fonts.{IsFontFault, font_file_len, fonts_of};

use super::font::Font;
use std::alloc::Global;
use std::marker::Model;
use vga_bits::Fault;

/// How many bytes a font file has.
const FILE_LEN: usize = 9728;
/// How many bytes the font of 8 rows has.
const LEN_8: usize = 2048;
/// How many bytes the font of 14 rows has.
const LEN_14: usize = 3584;

/// The fonts of 8, 14 and 16 rows.
#[derive(Drop)]
pub struct Fonts {
    f8: Font<8>,
    f14: Font<14>,
    f16: Font<16>,
}

impl Model for Fonts {
    ghost use Rattle.bios_modes.specs.Fonts.{FontSet};

    ghost Value = { FontSet };

    ghost view = { λ f. record { f8 = f.f8; f14 = f.f14; f16 = f.f16 } };
}

impl Fonts {
    /// The fonts of a file: 2,048 bytes of the font with 8 rows, then 3,584 with 14, then 4,096
    /// with 16.
    ///
    /// It fails with `FontSize` if the file does not have 9,728 bytes, and with `OutOfMemory` if
    /// memory is refused.
    #[tactic(auto, unfolding(crate::specs::Fonts::fonts_of))]
    pub fn from_bytes(alloc: Global, file: &[u8]) -> Result<Fonts, Fault>
        ensures ok { IfOk result (λ fonts. (length file.now ≡ font_file_len)
            × (fonts ≡ fonts_of file.now)) }
        ensures err { IfErr result (IsFontFault file.now) }
    {
        if file.len() != FILE_LEN {
            return Err(Fault::FontSize);
        }
        let (f8, rest) = file.split_at(LEN_8);
        let (f14, f16) = rest.split_at(LEN_14);
        Ok(Fonts {
            f8: Font::of_bytes(alloc, f8)?,
            f14: Font::of_bytes(alloc, f14)?,
            f16: Font::of_bytes(alloc, f16)?,
        })
    }

    /// A copy of the fonts. It fails only with `OutOfMemory`.
    pub fn copy(&self, alloc: Global) -> Result<Fonts, Fault>
        ensures ok { IfOk result (λ fonts. fonts ≡ self.now) }
        ensures err { IsOkUnless result Fault.OutOfMemory }
    {
        Ok(Fonts {
            f8: self.f8.copy(alloc)?,
            f14: self.f14.copy(alloc)?,
            f16: self.f16.copy(alloc)?,
        })
    }

    /// The glyphs of each font are bytes. The clause is for proofs: the function does nothing.
    pub fn bounds(&self)
        ensures { AreFonts self.now }
    {
        self.f8.bounds();
        self.f14.bounds();
        self.f16.bounds();
    }

    /// The font with 8 rows.
    pub fn f8(&self) -> &Font<8>
        ensures { result.now ≡ self.now.f8 }
    {
        &self.f8
    }

    /// The font with 14 rows.
    pub fn f14(&self) -> &Font<14>
        ensures { result.now ≡ self.now.f14 }
    {
        &self.f14
    }

    /// The font with 16 rows.
    pub fn f16(&self) -> &Font<16>
        ensures { result.now ≡ self.now.f16 }
    {
        &self.f16
    }
}

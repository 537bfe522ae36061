//! The colours of a screen.
ghost use Rattle.std.specs.Prelude.{◌≡◌, take};

use vga_attr::Attr;
use vga_dac::Dac;

/// Sixteen palette values, red, green and blue of the DAC's entries, and the mask of entry numbers.
#[derive(Clone, Copy)]
pub(crate) struct Palette {
    pub(crate) values: [u8; 16],
    pub(crate) reds: [u8; 256],
    pub(crate) greens: [u8; 256],
    pub(crate) blues: [u8; 256],
    pub(crate) mask: u8,
}

/// The palette registers.
fn read_palette_registers(attr: &Attr) -> [u8; 16]
    ensures { result ≡ take 16 attr.now.registers }
{
    let mut values = [0; 16];
    values.copy_from_slice(&attr.regs()[..16]);
    values
}

impl Palette {
    /// The colours in the registers of the attribute controller and the DAC.
    pub(crate) fn read(attr: &Attr, dac: &Dac) -> Palette
        ensures values { result.values ≡ take 16 attr.now.registers }
        ensures reds { result.reds ≡ dac.now.reds }
        ensures greens { result.greens ≡ dac.now.greens }
        ensures blues { result.blues ≡ dac.now.blues }
        ensures mask { result.mask ≡ dac.now.mask }
    {
        dac.bounds();
        let mut palette = Palette {
            values: read_palette_registers(attr),
            reds: [0; 256],
            greens: [0; 256],
            blues: [0; 256],
            mask: dac.mask(),
        };
        for i in 0..256 {
            let [red, green, blue] = dac.entry(i as u8);
            palette.reds[i] = red;
            palette.greens[i] = green;
            palette.blues[i] = blue;
        }
        palette
    }
}

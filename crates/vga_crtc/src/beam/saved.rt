//! The beam as bytes.
ghost use Rattle.std.specs.Prelude.{◌≡◌, ◌↔◌, length, IsTrue};
ghost use Rattle.vga_crtc.specs.Beam.{IsBeam};
ghost use Rattle.vga_crtc.specs.Saved.{saved_beam, beam_from, IsSavedBeam};

use super::Beam;
use vga_bits::{flag_byte, high_byte, low_byte, word_at};

impl Beam {
    /// How many bytes a beam has when it is saved.
    const SAVED_LEN: usize = 11;

    /// The bytes of the beam: the frame's number, line, character, dot, the counter of the line's
    /// first character, the scan line and both flags; words have their low byte first.
    pub(crate) fn saved(self) -> [u8; Self::SAVED_LEN]
        ensures { result ≡ saved_beam self }
    {
        [
            self.frame,
            low_byte(self.line),
            high_byte(self.line),
            low_byte(self.character),
            high_byte(self.character),
            self.dot,
            low_byte(self.base),
            high_byte(self.base),
            self.scan,
            flag_byte(self.half),
            flag_byte(self.split),
        ]
    }

    /// The beam that has these eleven bytes.
    pub(crate) fn from_saved(bytes: &[u8]) -> Beam
        requires { length bytes.now ≡ 11 }
        ensures { result ≡ beam_from bytes.now }
    {
        Beam {
            frame: bytes[0],
            line: word_at(bytes, 1),
            character: word_at(bytes, 3),
            dot: bytes[5],
            base: word_at(bytes, 6),
            scan: bytes[8],
            half: bytes[9] == 1,
            split: bytes[10] == 1,
        }
    }

    /// Whether eleven bytes are those of a beam: it is within its bounds, and its flags are 0 or 1.
    pub(crate) fn is_saved(bytes: &[u8]) -> bool
        requires { length bytes.now ≡ 11 }
        ensures { IsTrue result ↔ IsSavedBeam bytes.now }
    {
        bytes[9] <= 1 && bytes[10] <= 1 && Beam::from_saved(bytes).is_in_bounds()
    }
}

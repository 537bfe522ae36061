//! What a step shows.
ghost use Rattle.std.specs.Prelude.{◌↔◌, IsTrue};
ghost use Rattle.vga_script.specs.DumpRange.{IsShownInRange};

/// How many planes there are.
const PLANES: u8 = 4;

/// How many bytes a plane has.
pub const PLANE_LEN: u32 = 0x1_0000;

/// How many bytes of a plane one step shows at most.
pub const MOST_SHOWN: u16 = 256;

/// What a step shows of the adapter.
#[derive(Clone, Copy, PartialEq, Eq, Debug)]
pub enum Shown {
    /// The registers.
    Registers,
    /// An entry of the DAC.
    Dac {
        /// Its index.
        index: u8,
    },
    /// The beam.
    Beam,
    /// The four latches.
    Latches,
    /// Bytes of a plane, one after the other.
    Plane {
        /// The plane, 0 to 3.
        plane: u8,
        /// The offset of the first byte.
        offset: u16,
        /// How many bytes, 1 to 256, none of them past the plane's end.
        count: u16,
    },
    /// The data of the BIOS.
    BiosData,
    /// The cells of the active page.
    Cells,
}

impl Shown {
    /// Whether what is shown is there, and not too much.
    pub(crate) fn is_in_range(self) -> bool
        ensures { IsTrue result ↔ IsShownInRange self }
    {
        match self {
            Shown::Plane {
                plane,
                offset,
                count,
            } => {
                plane < PLANES
                    && 0 < count
                    && count <= MOST_SHOWN
                    && offset as u32 + count as u32 <= PLANE_LEN
            }
            _ => true,
        }
    }
}

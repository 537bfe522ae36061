//! The bytes that rows are filled with.
ghost use Rattle.std.specs.Prelude.{◌≡◌};
ghost use Rattle.bios_services.specs.Bands.{blank_cells_filling as blank_cells_filling_of};
ghost use Rattle.bios_services.specs.Bands.{one_byte_filling as one_byte_filling_of};

/// Two bytes that fill a line of memory by turns: the first byte of a line is `even`, the next one
/// `odd`.
#[derive(Clone, Copy)]
pub struct AlternatingBytes {
    /// The first byte of a line, the third, and so on.
    pub even: u8,
    /// The second, the fourth, and so on.
    pub odd: u8,
}

/// The character of a blank cell of text.
const BLANK: u8 = 0x20;

impl AlternatingBytes {
    /// Blank cells in an attribute.
    pub(crate) fn blank_cells(attribute: u8) -> AlternatingBytes
        ensures { result ≡ blank_cells_filling_of attribute }
    {
        AlternatingBytes {
            even: BLANK,
            odd: attribute,
        }
    }

    /// One byte everywhere.
    pub(crate) fn one_byte_everywhere(byte: u8) -> AlternatingBytes
        ensures { result ≡ one_byte_filling_of byte }
    {
        AlternatingBytes {
            even: byte,
            odd: byte,
        }
    }
}

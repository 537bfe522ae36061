//! What depends on how a mode uses the memory.
ghost use Rattle.std.specs.Prelude.{◌≡◌, ◌≤◌};
ghost use Rattle.bios_services.specs.Kinds.{column_bytes as column_bytes_of};
ghost use Rattle.bios_services.specs.Kinds.{row_lines as row_lines_of};

pub(crate) use bios_modes::{Kind, kind_of};

/// A value for text, for 16 colours or for 256 colours, by the kind. Each arm names its kind.
macro_rules! by_kind {
    ($kind:expr, Text => $text:expr, Planar => $planar:expr, Packed => $packed:expr $(,)?) => {
        match $kind {
            bios_modes::Kind::Text => $text,
            bios_modes::Kind::Planar => $planar,
            bios_modes::Kind::Packed => $packed,
        }
    };
}

pub(crate) use by_kind;

/// How many bytes of a line a column of characters fills.
pub(crate) fn column_bytes(kind: Kind) -> u32
    ensures value { result ≡ column_bytes_of kind }
    ensures few { result ≤ 8 }
{
    by_kind!(kind, Text => 2, Planar => 1, Packed => 8)
}

/// How many lines of the memory a row of characters of this height fills.
pub(crate) fn row_lines(kind: Kind, height: u16) -> u32
    requires { height ≤ 16 }
    ensures value { result ≡ row_lines_of kind height }
    ensures few { result ≤ 16 }
{
    by_kind!(kind, Text => 1, Planar => height as u32, Packed => height as u32)
}

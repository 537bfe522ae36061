//! What a call that decodes or assembles a script writes to the caller.
ghost use Rattle.std.specs.Prelude.{◌≡◌};
ghost use Rattle.vga_c.specs.Outcome.{fault_place, fault_status as fault_status_of};

use crate::status::{FONT_SIZE, OUT_OF_MEMORY, TOO_LONG};
use vga_bits::Fault;

/// The status of a fault. The output is memory, so its writer fails only if an allocation fails.
pub(crate) fn fault_status(fault: Fault) -> u32
    ensures { result ≡ fault_status_of fault }
{
    match fault {
        Fault::FontSize => FONT_SIZE,
        Fault::BadMagic => 102,
        Fault::BadVersion => 103,
        Fault::BadStep(_) => 104,
        Fault::Truncated(_) => 105,
        Fault::TooLong => TOO_LONG,
        Fault::BadLine(_) => 107,
        Fault::ReadFault => 108,
        Fault::WriteFault | Fault::OutOfMemory => OUT_OF_MEMORY,
        Fault::TooMany(_) => 111,
    }
}

/// Writes the place of a fault that has one: an offset in bytes, or a line of a text.
pub(crate) fn write_place(fault: Fault, place: &mut usize)
    ensures { place.new ≡ fault_place fault place.old }
{
    match fault {
        Fault::BadStep(at) | Fault::Truncated(at) | Fault::TooMany(at) => *place = at,
        Fault::BadLine(line) => *place = line,
        _ => {}
    }
}

/// Returns the status of a fault, and writes its place.
pub(crate) fn status_and_place(fault: Fault, place: &mut usize) -> u32
    ensures status { result ≡ fault_status_of fault }
    ensures place { place.new ≡ fault_place fault place.old }
{
    write_place(fault, place);
    fault_status(fault)
}

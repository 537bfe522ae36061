//! Reading all the bytes of a script, or of its text.
ghost use Rattle.std.specs.Prelude.{◌≡◌, false, IfOk, IfErr};
ghost use Rattle.vga_bits.specs.Tracked.{inner_of, has_failed};
ghost use Rattle.vga_script.specs.Input.{IsInput, FaultStopsReading, ReadsScript};

use super::script::SCRIPT_LIMIT;
use std::alloc::Global;
use std::io::Read;
use vga_bits::{Fault, Tracked, read_prefix};

/// Reads a whole script, or a text that spells one. The reader must not have failed before. At most
/// 16,777,217 bytes are read, one more than either may have.
///
/// # Errors
///
/// `ReadFault` if the reader fails, `TooLong` if it has more than 16,777,216 bytes, and
/// `OutOfMemory` if an allocation fails.
#[tactic(auto, using(crate::proofs::InputLemmas::unread_input, vga_bits::proofs::ReadingLemmas::unread_failed, vga_bits::proofs::ReadingLemmas::unread_taken))]
pub fn read_script<R: Read>(alloc: Global, reader: &mut Tracked<R>) -> Result<Vec<u8>, Fault>
    requires { has_failed reader.old ≡ false }
    ensures input { IfOk result (λ bytes. IsInput (R.remaining (inner_of reader.old)) bytes.items) }
    ensures fault { IfErr result (FaultStopsReading (R.remaining (inner_of reader.old))) }
    // The limit holds for every reader, whether or not its contract says which bytes remain.
    ensures reading { ReadsScript R.remaining reader.old reader.new result }
{
    let bytes = read_prefix(alloc, reader, SCRIPT_LIMIT + 1)?;
    if bytes.len() > SCRIPT_LIMIT {
        return Err(Fault::TooLong);
    }
    Ok(bytes)
}

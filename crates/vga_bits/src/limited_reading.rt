//! Reading up to a limit.
ghost use Rattle.std.specs.Prelude.{◌≡◌, ◌≤◌, ◌+◌, false};
ghost use Rattle.vga_bits.specs.Tracked.{inner_of, has_failed, read_count_of};
ghost use Rattle.vga_bits.specs.LimitedReading.{ReadsPrefix};

use super::fault::Fault;
use super::tracked::Tracked;
use std::alloc::Global;
use std::io::Read;

/// The most bytes that one call asks the reader for.
const PIECE_LEN: usize = 65_536;

/// The first `most` bytes of a reader, or all if it has fewer. It reads no more bytes than these.
///
/// # Errors
///
/// `ReadFault` if the reader fails in this call, and `OutOfMemory` if memory for the bytes is
/// refused.
pub fn read_prefix<R: Read>(
    alloc: Global,
    reader: &mut Tracked<R>,
    most: usize,
) -> Result<Vec<u8>, Fault>
    requires { has_failed reader.old ≡ false }
    ensures prefix { ReadsPrefix most (R.remaining (inner_of reader.old))
        (R.remaining (inner_of reader.new)) (has_failed reader.new) result }
    ensures counted { read_count_of reader.new ≤ read_count_of reader.old + most }
{
    let mut bytes = Vec::new(alloc);
    let mut buffer = [0u8; PIECE_LEN];
    while bytes.len() < most {
        let room = (most - bytes.len()).min(PIECE_LEN);
        let piece = &mut buffer[..room];
        match reader.read(piece) {
            Ok(0) => return Ok(bytes),
            Ok(n) => {
                if bytes.extend_from_slice(&piece[..n]).is_err() {
                    return Err(Fault::OutOfMemory);
                }
            }
            Err(_) => return Err(Fault::ReadFault),
        }
    }
    Ok(bytes)
}

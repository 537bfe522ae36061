//! Writing to the caller's buffers.
ghost use Rattle.std.specs.Prelude.{◌≡◌, length};
ghost use Rattle.vga_c.specs.Buffers.{IsCopied, room_status, buffer_with_bytes_if_room};

use crate::status::{DONE, NO_ROOM};

/// Writes bytes to the beginning of the caller's buffer, if there is room.
pub(crate) fn write_bytes_if_room(to: &mut [u8], bytes: &[u8]) -> u32
    ensures after { to.new ≡ buffer_with_bytes_if_room bytes.now to.old }
    ensures status { result ≡ room_status (length bytes.now) (length to.old) }
{
    if to.len() < bytes.len() {
        return NO_ROOM;
    }
    let (prefix, _) = to.split_at_mut(bytes.len());
    prefix.copy_from_slice(bytes);
    DONE
}

/// Writes bytes to the beginning of the caller's buffer, if there is room. With or without room, it
/// writes to `len` how many they are.
pub(crate) fn write_bytes_if_room_and_their_count(
    to: &mut [u8],
    len: &mut usize,
    bytes: &[u8],
) -> u32
    ensures { IsCopied bytes.now to.old to.new len.new result }
{
    *len = bytes.len();
    write_bytes_if_room(to, bytes)
}

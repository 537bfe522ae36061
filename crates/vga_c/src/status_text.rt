//! What each status means, in words.
ghost use Rattle.std.specs.Prelude.{◌≡◌};
ghost use Rattle.vga_c.specs.Buffers.{IsCopied};
ghost use Rattle.vga_c.specs.StatusText.{status_text};

use crate::buffer::write_bytes_if_room_and_their_count;

/// The name of a status in C, and a sentence on what the caller did or met.
fn text_of_status(status: u32) -> &'static str
    ensures { result.now ≡ status_text status }
{
    match status {
        0 => "ZAK_OK: The call is done.",
        1 => "ZAK_NOT_DECODED: No part of the adapter decodes the port or the address.",
        2 => "ZAK_NOT_IN_PROFILE: docs/PROFILE.md leaves out this register, value or port.",
        3 => "ZAK_NO_MODE: No mode is set yet.",
        4 => "ZAK_BAD_FUNCTION: The video BIOS has no such function or subfunction.",
        5 => "ZAK_BAD_MODE: The video BIOS has no such mode.",
        6 => "ZAK_WRONG_KIND: The call is for pixels in a text mode, or for text in graphics.",
        7 => "ZAK_BAD_PAGE: The mode has no such page.",
        8 => "ZAK_OUTSIDE: The pixel or the cursor position is outside the screen.",
        9 => "ZAK_COUNT_PAST: Characters pass the page's last cell, or glyphs the last character.",
        10 => "ZAK_BAD_REGISTER: There is no such palette or DAC register.",
        11 => "ZAK_BAD_BLOCK: The block does not have the length that the function takes.",
        12 => "ZAK_TOO_FAR: An advance takes at most 16,777,216 dots.",
        13 => "ZAK_BAD_HEIGHT: Glyphs have 8, 14 or 16 scan lines.",
        20 => "ZAK_NO_CARD: The card is not open.",
        21 => "ZAK_OPEN_ALREADY: The card is open already.",
        22 => "ZAK_FONT_SIZE: The font file does not have 9,728 bytes.",
        23 => "ZAK_OUT_OF_MEMORY: An allocation failed.",
        24 => "ZAK_RAGGED: Two rows of the frame differ in width, so there is no picture.",
        25 => "ZAK_NO_ROOM: The buffer is too short, and nothing was written there.",
        26 => "ZAK_BAD_ARGUMENT: An argument is out of the range that the call names.",
        27 => "ZAK_BAD_CARD: The BIOS data are corrupt: the card's memory was overwritten.",
        28 => "ZAK_NO_SCREEN: The adapter shows no plain screen.",
        29 => "ZAK_BROKEN: The library was compiled wrongly, and the card is closed.",
        30 => "ZAK_STATE_MAGIC: The bytes are no saved state.",
        31 => "ZAK_STATE_VERSION: The state has another version of the format.",
        32 => "ZAK_STATE_LENGTH: The state is cut off, or bytes follow it.",
        33 => "ZAK_STATE_PART: A part of the state is out of its bounds.",
        34 => "ZAK_STATE_CHECKSUM: The checksum of the state is wrong.",
        35 => "ZAK_MANY_COLOURS: The picture has more than 256 colours.",
        36 => "ZAK_NOT_REBUILT: The steps that were tried lead to another state.",
        102 => "ZAK_BAD_MAGIC: The bytes are no script: they don't begin with VGAS.",
        103 => "ZAK_BAD_VERSION: The script has another version.",
        104 => "ZAK_BAD_STEP: No step stands here, or it is out of range.",
        105 => "ZAK_TRUNCATED: The step that begins here is cut off.",
        106 => "ZAK_TOO_LONG: The text or the script has more than 16,777,216 bytes.",
        107 => "ZAK_BAD_LINE: This line of the text is bad.",
        111 => "ZAK_TOO_MANY: The script means more than 16,777,216 steps from here on.",
        _ => "No status has this number.",
    }
}

/// Writes what a status means: its name in C, and a sentence. If the buffer is too short, `len`
/// says how many bytes the text has.
#[unsafe(no_mangle)]
pub extern "C" fn zak_status_text(status: u32, text: &mut [u8], len: &mut usize) -> u32
    ensures { IsCopied (status_text status) text.old text.new len.new result }
{
    write_bytes_if_room_and_their_count(text, len, text_of_status(status).as_bytes())
}

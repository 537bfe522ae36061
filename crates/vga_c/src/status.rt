//! The status that a call returns.
ghost use Rattle.std.specs.Prelude.{◌≡◌};
ghost use Rattle.vga_run.specs.Answer.{of_write, of_byte, of_word, Short};
ghost use Rattle.vga_c.specs.Status.{refusal_status as refusal_status_of, status_of};
ghost use Rattle.vga_c.specs.Status.{value_read_or_before};

use vga_bits::Refusal;

/// The call is done.
pub(crate) const DONE: u32 = 0;

/// No part of the adapter decodes the port or the address.
pub(crate) const NOT_DECODED: u32 = 1;

/// The card is not open.
pub(crate) const NO_CARD: u32 = 20;

/// The card is open already.
pub(crate) const OPEN_ALREADY: u32 = 21;

/// The font file does not have 9,728 bytes.
pub(crate) const FONT_SIZE: u32 = 22;

/// An allocation failed.
pub(crate) const OUT_OF_MEMORY: u32 = 23;

/// Two rows of the picture differ in width.
pub(crate) const RAGGED: u32 = 24;

/// The caller's buffer is too short.
pub(crate) const NO_ROOM: u32 = 25;

/// An argument is out of range.
pub(crate) const BAD_ARGUMENT: u32 = 26;

/// The BIOS data are not valid.
pub(crate) const BAD_CARD: u32 = 27;

/// The adapter shows no plain screen.
pub(crate) const NO_SCREEN: u32 = 28;

/// The checksum of a state of a fixed length is wrong.
pub(crate) const STATE_CHECKSUM: u32 = 34;

/// The picture has more than 256 colours.
pub(crate) const MANY_COLOURS: u32 = 35;

/// The steps that were tried lead to another state.
pub(crate) const NOT_REBUILT: u32 = 36;

/// A script would have more bytes than a script may have.
pub(crate) const TOO_LONG: u32 = 106;

/// The status of a refusal.
pub(crate) fn refusal_status(refusal: Refusal) -> u32
    ensures { result ≡ refusal_status_of refusal }
{
    match refusal {
        Refusal::NotDecoded => NOT_DECODED,
        Refusal::NotInProfile => 2,
        Refusal::NoMode => 3,
        Refusal::BadFunction => 4,
        Refusal::BadMode => 5,
        Refusal::WrongKind => 6,
        Refusal::BadPage => 7,
        Refusal::Outside => 8,
        Refusal::CountPast => 9,
        Refusal::BadRegister => 10,
        Refusal::BadBlock => 11,
        Refusal::TooFar => 12,
        Refusal::BadHeight => 13,
    }
}

/// The status of a step that reads nothing.
pub(crate) fn status_after_write(outcome: Result<(), Refusal>) -> u32
    ensures { result ≡ status_of (Short (of_write outcome)) }
{
    match outcome {
        Ok(()) => DONE,
        Err(refusal) => refusal_status(refusal),
    }
}

/// The status of a step that reads a byte. The byte goes to the caller.
pub(crate) fn status_after_byte_read(outcome: Result<u8, Refusal>, value: &mut u8) -> u32
    ensures status { result ≡ status_of (Short (of_byte outcome)) }
    ensures value { value.new ≡ value_read_or_before (Short (of_byte outcome)) value.old }
{
    match outcome {
        Ok(byte) => {
            *value = byte;
            DONE
        }
        Err(refusal) => refusal_status(refusal),
    }
}

/// The status of a step that reads a word. The word goes to the caller.
pub(crate) fn status_after_word_read(outcome: Result<u16, Refusal>, value: &mut u16) -> u32
    ensures status { result ≡ status_of (Short (of_word outcome)) }
    ensures value { value.new ≡ value_read_or_before (Short (of_word outcome)) value.old }
{
    match outcome {
        Ok(word) => {
            *value = word;
            DONE
        }
        Err(refusal) => refusal_status(refusal),
    }
}

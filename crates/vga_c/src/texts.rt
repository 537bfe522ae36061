//! Assembling and printing a script.
ghost use Rattle.std.specs.Prelude.{◌≡◌, IfErr, IfOk};
ghost use Rattle.vga_c.specs.Outcome.{script_output};
ghost use Rattle.vga_c.specs.Texts.{GivesAssembledBytes, IsAssembled, IsFaultOfBytes};
ghost use Rattle.vga_c.specs.Texts.{IsFaultOfText};
ghost use Rattle.vga_c.specs.Texts.{IsPrintedTextOfScript, GivesPrintedText};

use crate::buffer::write_bytes_if_room_and_their_count;
use crate::outcome::status_and_place;
use std::alloc::Global;
use vga_bits::Fault;
use vga_script::{assemble, decode, encode, print};

/// Assembles a text, or finds its first fault.
fn script_bytes_assembled_from_text(alloc: Global, text: &[u8]) -> Result<Vec<u8>, Fault>
    ensures ok { IfOk result (λ bytes. IsAssembled text.now bytes.items) }
    ensures err { IfErr result (IsFaultOfText text.now) }
{
    let script = assemble(alloc, text)?;
    encode(alloc, &script)
}

/// Assembles a text, and writes the bytes of its script. If the buffer is too short, `len` says how
/// many bytes they are; at a bad line, `line` says which.
#[unsafe(no_mangle)]
pub extern "C" fn zak_assemble(
    alloc: Global,
    text: &[u8],
    out: &mut [u8],
    len: &mut usize,
    line: &mut usize,
) -> u32
    ensures { GivesAssembledBytes text.now (script_output out.old len.old line.old)
        (script_output out.new len.new line.new)
        result }
{
    match script_bytes_assembled_from_text(alloc, text) {
        Ok(bytes) => write_bytes_if_room_and_their_count(out, len, bytes.as_slice()),
        Err(fault) => status_and_place(fault, line),
    }
}

/// Prints the script that some bytes spell, or finds their first fault.
fn text_printed_from_script_bytes(alloc: Global, bytes: &[u8]) -> Result<Vec<u8>, Fault>
    ensures ok { IfOk result (λ text. IsPrintedTextOfScript bytes.now text.items) }
    ensures err { IfErr result (IsFaultOfBytes bytes.now) }
{
    let script = decode(alloc, bytes)?;
    print(alloc, &script)
}

/// Prints the script that some bytes spell, and writes the text. If the buffer is too short, `len`
/// says how many bytes it has; at a bad step, `place` says where.
#[unsafe(no_mangle)]
pub extern "C" fn zak_print(
    alloc: Global,
    script: &[u8],
    out: &mut [u8],
    len: &mut usize,
    place: &mut usize,
) -> u32
    ensures { GivesPrintedText script.now (script_output out.old len.old place.old)
        (script_output out.new len.new place.new)
        result }
{
    match text_printed_from_script_bytes(alloc, script) {
        Ok(text) => write_bytes_if_room_and_their_count(out, len, text.as_slice()),
        Err(fault) => status_and_place(fault, place),
    }
}

//! Dumping the state of an open card as text.
ghost use Rattle.std.specs.Prelude.{◌≡◌};
ghost use Rattle.bios_modes.specs.Valid.{IsValid};
ghost use Rattle.vga_script.specs.DumpRange.{IsShownInRange};
ghost use Rattle.vga_script.specs.declared.dump_range.Shown.TheVariants as shown_as;
ghost use Rattle.vga_c.specs.Dumps.{DumpsMachine, is_plane_part as is_plane_part_of, Shows};
ghost use Rattle.vga_c.specs.Dumps.{DumpsPlanePart};
ghost use Rattle.vga_c.specs.Dumps.{dump_output};

use crate::buffer::write_bytes_if_room_and_their_count;
use crate::handle::{Handle, on_open_card};
use crate::status::{BAD_ARGUMENT, BAD_CARD, NO_CARD, OUT_OF_MEMORY, refusal_status};
use std::alloc::Global;
use vga_bits::Tracked;
use vga_run::machine::Machine;
use vga_run::write_dump;
use vga_script::Shown;

/// Writes the text of a dump to the caller, or answers the status of its refusal.
fn dump(alloc: Global, machine: &Machine, shown: Shown, text: &mut [u8], len: &mut usize) -> u32
    requires { IsShownInRange shown }
    ensures { DumpsMachine machine.now shown (dump_output text.old len.old) (dump_output text.new len.new)
        result }
{
    if !machine.bda.valid() {
        return BAD_CARD;
    }
    let mut out = Tracked::new(Vec::new(alloc));
    match write_dump(&mut out, machine, shown) {
        Ok(None) => write_bytes_if_room_and_their_count(text, len, out.into_inner().as_slice()),
        Ok(Some(why)) => refusal_status(why),
        Err(_) => OUT_OF_MEMORY,
    }
}

/// Dumps a part of the state of a card.
fn show(alloc: Global, card: &mut Handle, shown: Shown, text: &mut [u8], len: &mut usize) -> u32
    requires { IsShownInRange shown }
    ensures { Shows shown card.old card.new (dump_output text.old len.old) (dump_output text.new
        len.new) result }
{
    on_open_card!(alloc, card, machine => dump(alloc, machine, shown, text, len))
}

/// Writes all registers as text.
#[unsafe(no_mangle)]
pub extern "C" fn zak_show_regs(
    alloc: Global,
    card: &mut Handle,
    text: &mut [u8],
    len: &mut usize,
) -> u32
    ensures { Shows shown_as.Registers card.old card.new (dump_output text.old len.old)
        (dump_output text.new len.new) result }
{
    show(alloc, card, Shown::Registers, text, len)
}

/// Writes the beam as text.
#[unsafe(no_mangle)]
pub extern "C" fn zak_show_beam(
    alloc: Global,
    card: &mut Handle,
    text: &mut [u8],
    len: &mut usize,
) -> u32
    ensures { Shows shown_as.Beam card.old card.new (dump_output text.old len.old)
        (dump_output text.new len.new) result }
{
    show(alloc, card, Shown::Beam, text, len)
}

/// Writes the latches as text.
#[unsafe(no_mangle)]
pub extern "C" fn zak_show_latches(
    alloc: Global,
    card: &mut Handle,
    text: &mut [u8],
    len: &mut usize,
) -> u32
    ensures { Shows shown_as.Latches card.old card.new (dump_output text.old len.old)
        (dump_output text.new len.new) result }
{
    show(alloc, card, Shown::Latches, text, len)
}

/// Writes the BIOS data as text.
#[unsafe(no_mangle)]
pub extern "C" fn zak_show_bda(
    alloc: Global,
    card: &mut Handle,
    text: &mut [u8],
    len: &mut usize,
) -> u32
    ensures { Shows shown_as.BiosData card.old card.new (dump_output text.old len.old)
        (dump_output text.new len.new) result }
{
    show(alloc, card, Shown::BiosData, text, len)
}

/// Writes the cells of the active page as text.
#[unsafe(no_mangle)]
pub extern "C" fn zak_show_cells(
    alloc: Global,
    card: &mut Handle,
    text: &mut [u8],
    len: &mut usize,
) -> u32
    ensures { Shows shown_as.Cells card.old card.new (dump_output text.old len.old)
        (dump_output text.new len.new) result }
{
    show(alloc, card, Shown::Cells, text, len)
}

/// Writes an entry of the DAC as text.
#[unsafe(no_mangle)]
pub extern "C" fn zak_show_dac(
    alloc: Global,
    card: &mut Handle,
    index: u8,
    text: &mut [u8],
    len: &mut usize,
) -> u32
    ensures { Shows (shown_as.Dac index) card.old card.new (dump_output text.old len.old)
        (dump_output text.new len.new) result }
{
    show(alloc, card, Shown::Dac { index }, text, len)
}

/// Whether these are bytes of a plane: 1 to 256, none past its end.
fn is_plane_part(plane: u8, offset: u16, count: u16) -> bool
    ensures { result ≡ is_plane_part_of plane offset count }
{
    plane < 4 && 0 < count && count <= 256 && offset as u32 + count as u32 <= 0x1_0000
}

/// Writes bytes of a plane as text, from an offset on: 1 to 256, none past the plane's end.
#[unsafe(no_mangle)]
pub extern "C" fn zak_show_plane(
    alloc: Global,
    card: &mut Handle,
    plane: u8,
    offset: u16,
    count: u16,
    text: &mut [u8],
    len: &mut usize,
) -> u32
    ensures { DumpsPlanePart plane offset count card.old card.new (dump_output text.old len.old)
        (dump_output text.new len.new) result }
{
    if !card.is_open() {
        return NO_CARD;
    }
    if !is_plane_part(plane, offset, count) {
        return BAD_ARGUMENT;
    }
    let shown = Shown::Plane {
        plane,
        offset,
        count,
    };
    show(alloc, card, shown, text, len)
}

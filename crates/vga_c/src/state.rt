//! Reading the state of an open card.
ghost use Rattle.std.specs.Prelude.{◌≡◌, ◌+◌, ◌<◌, ◌≤◌, length};
ghost use Rattle.vga_c.specs.Cards.{OpenCardKeepsMachine, ClosedCardStaysUnchanged, ClosedCardLeavesOutput, OpenCardGivesValue};
ghost use Rattle.vga_c.specs.State.{bda_in, beam_in, colour_in, component_number as number_of};
ghost use Rattle.vga_c.specs.State.{IsPlanePart, ReadsPlanePartOrRefuses, latches_in, registers_in};
ghost use Rattle.vga_c.specs.State.{OpenCardTellsPlanePart};

use crate::handle::{Handle, on_open_card};
use crate::status::{BAD_ARGUMENT, DONE};
use bios_modes::Bda;
use std::alloc::Global;
use vga_dac::Component;
use vga_planes::Planes;
use vga_run::machine::Machine;

/// All registers, with the indexes, the flip-flop, and the state of the DAC's sequences.
#[repr(C)]
#[derive(Clone, Copy)]
pub struct Registers {
    pub misc: u8,
    pub seq_index: u8,
    pub seq: [u8; 5],
    pub crtc_index: u8,
    pub crtc: [u8; 25],
    pub gfx_index: u8,
    pub gfx: [u8; 9],
    pub attr_index: u8,
    pub attr_is_data: u8,
    pub attr: [u8; 21],
    pub dac_index: u8,
    pub dac_component: u8,
    pub dac_mask: u8,
    pub dac_waiting_red: u8,
    pub dac_waiting_green: u8,
}

/// An entry of the DAC: red, green and blue, 0 to 63 each.
#[repr(C)]
#[derive(Clone, Copy)]
pub struct Colour {
    pub red: u8,
    pub green: u8,
    pub blue: u8,
}

/// The position of the beam, its counters, and how many rows are drawn of the frame under way.
#[repr(C)]
#[derive(Clone, Copy)]
pub struct Beam {
    pub line: u16,
    pub character: u16,
    pub dot: u16,
    pub base: u16,
    pub scan: u16,
    pub rows: u16,
    pub frame: u8,
    pub half: u8,
    pub split: u8,
}

/// The latch of each plane.
#[repr(C)]
#[derive(Clone, Copy)]
pub struct Latches {
    pub plane: [u8; 4],
}

/// The BIOS data.
#[repr(C)]
#[derive(Clone, Copy)]
pub struct BiosDataArea {
    pub columns: u16,
    pub size: u16,
    pub start: u16,
    pub cursor_places: [u16; 8],
    pub cursor_type: u16,
    pub crtc_address: u16,
    pub height: u16,
    pub mode: u8,
    pub page: u8,
    pub last_row: u8,
}

/// The number of the component that comes next.
fn component_number(component: Component) -> u8
    ensures { result ≡ number_of component }
{
    match component {
        Component::Red => 0,
        Component::Green => 1,
        Component::Blue => 2,
    }
}

/// The registers of a machine.
fn registers_of(machine: &Machine) -> Registers
    ensures { result ≡ registers_in machine.now }
{
    let regs = machine.card.regs();
    let (dac_waiting_red, dac_waiting_green) = regs.dac.waiting();
    Registers {
        misc: regs.misc,
        seq_index: regs.host.seq_index(),
        seq: *regs.host.seq(),
        crtc_index: regs.crtc.index(),
        crtc: *regs.crtc.regs(),
        gfx_index: regs.host.gfx_index(),
        gfx: *regs.host.gfx(),
        attr_index: regs.attr.read_index(),
        attr_is_data: regs.attr.is_data() as u8,
        attr: *regs.attr.regs(),
        dac_index: regs.dac.read_index(),
        dac_component: component_number(regs.dac.component()),
        dac_mask: regs.dac.mask(),
        dac_waiting_red,
        dac_waiting_green,
    }
}

/// Reads all registers.
#[unsafe(no_mangle)]
pub extern "C" fn zak_read_registers(
    alloc: Global,
    card: &mut Handle,
    registers: &mut Registers,
) -> u32
    ensures card { OpenCardKeepsMachine card.old card.new }
    ensures registers { OpenCardGivesValue registers_in card.old registers.new result }
    ensures closed { ClosedCardStaysUnchanged card.old card.new result }
    ensures spared { ClosedCardLeavesOutput card.old registers.old registers.new }
{
    on_open_card!(alloc, card, machine => {
        *registers = registers_of(machine);
        DONE
    })
}

/// An entry of the DAC of a machine.
fn colour_of(machine: &Machine, index: u8) -> Colour
    ensures { result ≡ colour_in index machine.now }
{
    let [red, green, blue] = machine.card.regs().dac.entry(index);
    Colour { red, green, blue }
}

/// Reads an entry of the DAC.
#[unsafe(no_mangle)]
pub extern "C" fn zak_read_colour(
    alloc: Global,
    card: &mut Handle,
    index: u8,
    colour: &mut Colour,
) -> u32
    ensures card { OpenCardKeepsMachine card.old card.new }
    ensures colour { OpenCardGivesValue (colour_in index) card.old colour.new result }
    ensures closed { ClosedCardStaysUnchanged card.old card.new result }
    ensures spared { ClosedCardLeavesOutput card.old colour.old colour.new }
{
    on_open_card!(alloc, card, machine => {
        *colour = colour_of(machine, index);
        DONE
    })
}

/// The beam of a machine.
fn beam_of(machine: &Machine) -> Beam
    ensures { result ≡ beam_in machine.now }
{
    let (beam, rows) = machine.card.beam();
    Beam {
        line: beam.line,
        character: beam.character,
        dot: beam.dot as u16,
        base: beam.base,
        scan: beam.scan as u16,
        rows,
        frame: beam.frame,
        half: beam.half as u8,
        split: beam.split as u8,
    }
}

/// Reads the beam.
#[unsafe(no_mangle)]
pub extern "C" fn zak_read_beam(alloc: Global, card: &mut Handle, beam: &mut Beam) -> u32
    ensures card { OpenCardKeepsMachine card.old card.new }
    ensures beam { OpenCardGivesValue beam_in card.old beam.new result }
    ensures closed { ClosedCardStaysUnchanged card.old card.new result }
    ensures spared { ClosedCardLeavesOutput card.old beam.old beam.new }
{
    on_open_card!(alloc, card, machine => {
        *beam = beam_of(machine);
        DONE
    })
}

/// The latches of a machine.
fn latches_of(machine: &Machine) -> Latches
    ensures { result ≡ latches_in machine.now }
{
    let latches = machine.card.latches();
    Latches {
        plane: [
            latches.byte(0),
            latches.byte(1),
            latches.byte(2),
            latches.byte(3),
        ],
    }
}

/// Reads the four latches.
#[unsafe(no_mangle)]
pub extern "C" fn zak_read_latches(alloc: Global, card: &mut Handle, latches: &mut Latches) -> u32
    ensures card { OpenCardKeepsMachine card.old card.new }
    ensures latches { OpenCardGivesValue latches_in card.old latches.new result }
    ensures closed { ClosedCardStaysUnchanged card.old card.new result }
    ensures spared { ClosedCardLeavesOutput card.old latches.old latches.new }
{
    on_open_card!(alloc, card, machine => {
        *latches = latches_of(machine);
        DONE
    })
}

/// The cursor positions on the eight pages.
fn places_of(bda: &Bda) -> [u16; 8]
    ensures { result ≡ bda.now.cursor_places }
{
    bda.bounds();
    let mut places = [0; 8];
    for page in 0..8 {
        places[page] = bda.cursor_place(page);
    }
    places
}

/// The BIOS data of a machine.
fn bda_of(machine: &Machine) -> BiosDataArea
    ensures { result ≡ bda_in machine.now }
{
    let bda = &machine.bda;
    BiosDataArea {
        columns: bda.columns(),
        size: bda.size(),
        start: bda.start(),
        cursor_places: places_of(bda),
        cursor_type: bda.cursor_type(),
        crtc_address: bda.crtc_address(),
        height: bda.height(),
        mode: bda.mode(),
        page: bda.page(),
        last_row: bda.last_row(),
    }
}

/// Reads the BIOS data.
#[unsafe(no_mangle)]
pub extern "C" fn zak_read_bda(alloc: Global, card: &mut Handle, bda: &mut BiosDataArea) -> u32
    ensures card { OpenCardKeepsMachine card.old card.new }
    ensures bda { OpenCardGivesValue bda_in card.old bda.new result }
    ensures closed { ClosedCardStaysUnchanged card.old card.new result }
    ensures spared { ClosedCardLeavesOutput card.old bda.old bda.new }
{
    on_open_card!(alloc, card, machine => {
        *bda = bda_of(machine);
        DONE
    })
}

/// Copies bytes of a plane, from an offset on.
fn copy_plane(planes: &Planes, plane: usize, offset: usize, bytes: &mut [u8])
    requires plane { plane < 4 }
    requires end { offset + length bytes.old ≤ 0x1_0000 }
    ensures { IsPlanePart planes.now plane offset bytes.old bytes.new }
{
    for i in 0..bytes.len() {
        bytes[i] = planes.byte(plane, (offset + i) as u16);
    }
}

/// Copies bytes of a plane, from an offset on, unless they go past its end.
fn read_plane(planes: &Planes, plane: u8, offset: u16, bytes: &mut [u8]) -> u32
    ensures { ReadsPlanePartOrRefuses planes.now plane offset bytes.old bytes.new result }
{
    if plane >= 4 || bytes.len() > 0x1_0000 - offset as usize {
        return BAD_ARGUMENT;
    }
    copy_plane(planes, plane as usize, offset as usize, bytes);
    DONE
}

/// Reads bytes of a plane, from an offset on.
#[unsafe(no_mangle)]
pub extern "C" fn zak_read_plane(
    alloc: Global,
    card: &mut Handle,
    plane: u8,
    offset: u16,
    bytes: &mut [u8],
) -> u32
    ensures card { OpenCardKeepsMachine card.old card.new }
    ensures bytes { OpenCardTellsPlanePart plane offset card.old bytes.old bytes.new result }
    ensures closed { ClosedCardStaysUnchanged card.old card.new result }
    ensures spared { ClosedCardLeavesOutput card.old bytes.old bytes.new }
{
    on_open_card!(alloc, card, machine => read_plane(machine.card.planes(), plane, offset, bytes))
}

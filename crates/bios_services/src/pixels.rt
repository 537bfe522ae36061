//! Functions 0C and 0D: writing and reading a pixel.
ghost use Rattle.std.specs.Prelude.{◌≡◌, ◌<◌, ◌≤◌, ◌+◌, ◌-◌, ◌*◌, ◌%◌};
ghost use Rattle.std.specs.Int.{bit_at};
ghost use Rattle.bios_modes.specs.Kinds.{is_mode_of_256_colours as is_packed_mode};
ghost use Rattle.bios_services.specs.Plan.{run};
ghost use Rattle.bios_services.specs.Bounds.{IsModeSet, page_count};
ghost use Rattle.bios_services.specs.Pixels.{pixels_across as pixels_across_of};
ghost use Rattle.bios_services.specs.Pixels.{pixels_down as pixels_down_of};
ghost use Rattle.bios_services.specs.Pixels.{pixel_address as pixel_address_of};
ghost use Rattle.bios_services.specs.Pixels.{set_function_if_xor_plan};
ghost use Rattle.bios_services.specs.Pixels.{write_planar_pixel_plan, write_pixel_plan};
ghost use Rattle.bios_services.specs.Pixels.{read_plane_byte as plane_byte_plan};
ghost use Rattle.bios_services.specs.Pixels.{read_planar_pixel_plan};
ghost use Rattle.bios_services.specs.Pixels.{read_pixel_plan};

use crate::cells::page_address;
use crate::cycles::{get, put, write_graphics};
use crate::video_registers::{
    ALL_BITS, BIT_MASK, BYTE_ACCESS, DATA_ROTATE, GRAPHICS_MODE, READ_MAP_SELECT, REPLACE,
    WRITE_COLOUR, XOR,
};
use bios_modes::{Bda, is_mode_of_256_colours};
use vga_bits::is_set;
use vga_card::Bus;

/// A pixel of a page of graphics.
#[derive(Clone, Copy)]
pub(crate) struct Pixel {
    pub page: u8,
    /// Its column, from the left.
    pub x: u16,
    /// Its line, from the top.
    pub y: u16,
}

/// How many pixels a graphics mode has across.
pub(crate) fn pixels_across(bda: &Bda) -> u32
    ensures { result ≡ pixels_across_of bda.now }
{
    8 * bda.columns() as u32
}

/// How many pixels a graphics mode has down.
pub(crate) fn pixels_down(bda: &Bda) -> u32
    ensures { result ≡ pixels_down_of bda.now }
{
    bda.height() as u32 * (bda.last_row() as u32 + 1)
}

/// The address of a pixel; `packed` says whether the mode has a byte for each.
fn pixel_address(bda: &Bda, packed: bool, pixel: Pixel) -> u32
    requires packed { packed ≡ is_packed_mode bda.now.mode }
    requires data { IsModeSet bda.now }
    requires page { pixel.page < page_count bda.now }
    ensures { result ≡ pixel_address_of bda.now pixel.page pixel.x pixel.y }
{
    let start = page_address(bda, pixel.page);
    let columns = bda.columns() as u32;
    if packed {
        start + (8 * columns * pixel.y as u32 + pixel.x as u32)
    } else {
        start + (columns * pixel.y as u32 + pixel.x as u32 / 8)
    }
}

/// Sets the function that combines data with the latches, if bit 7 of a colour asks for XOR.
fn set_function_if_xor<B: Bus>(bus: &mut B, colour: u8, function: u8)
    ensures { bus.new ≡ (run B.meaning (set_function_if_xor_plan colour function) bus.old).0 }
{
    if is_set(colour, 7) {
        write_graphics(bus, DATA_ROTATE, function);
    }
}

/// Writes a pixel in 16 colours.
#[tactic(auto, using(crate::proofs::PlanRuns::run_bind), unfolding(crate::specs::Pixels::write_planar_pixel_plan))]
fn write_planar_pixel<B: Bus>(bus: &mut B, address: u32, x: u16, colour: u8)
    ensures { bus.new ≡ (run B.meaning (write_planar_pixel_plan address x colour) bus.old).0 }
{
    write_graphics(bus, BIT_MASK, 0x80 >> (x as u32 % 8));
    set_function_if_xor(bus, colour, XOR);
    get(bus, address);
    write_graphics(bus, GRAPHICS_MODE, WRITE_COLOUR);
    put(bus, address, colour);
    write_graphics(bus, GRAPHICS_MODE, BYTE_ACCESS);
    set_function_if_xor(bus, colour, REPLACE);
    write_graphics(bus, BIT_MASK, ALL_BITS);
}

/// 0C: writes a pixel.
#[tactic(auto, unfolding(crate::specs::Pixels::write_pixel_plan))]
pub(crate) fn write_pixel<B: Bus>(bus: &mut B, bda: &Bda, pixel: Pixel, colour: u8)
    requires data { IsModeSet bda.now }
    requires page { pixel.page < page_count bda.now }
    ensures { bus.new ≡ (run B.meaning (write_pixel_plan bda.now pixel.page pixel.x pixel.y colour)
        bus.old).0 }
{
    let packed = is_mode_of_256_colours(bda.mode());
    let address = pixel_address(bda, packed, pixel);
    if packed {
        put(bus, address, colour);
    } else {
        write_planar_pixel(bus, address, pixel.x, colour);
    }
}

/// Reads the byte of a plane.
#[tactic(auto, using(crate::proofs::PlanRuns::run_bind))]
fn read_plane_byte<B: Bus>(bus: &mut B, plane: u8, address: u32) -> u8
    ensures { (bus.new, result) ≡ run B.meaning (plane_byte_plan plane address) bus.old }
{
    write_graphics(bus, READ_MAP_SELECT, plane);
    get(bus, address)
}

/// Bit i of a byte.
fn bit(byte: u8, i: u32) -> u8
    requires { i < 8 }
    ensures value { result ≡ bit_at byte i }
    ensures small { result ≤ 1 }
{
    (byte >> i) & 1
}

/// Reads a pixel in 16 colours.
#[tactic(auto, using(crate::proofs::PlanRuns::run_bind), unfolding(crate::specs::Pixels::read_planar_pixel_plan))]
fn read_planar_pixel<B: Bus>(bus: &mut B, address: u32, x: u16) -> u8
    ensures { (bus.new, result) ≡ run B.meaning (read_planar_pixel_plan address x) bus.old }
{
    let i = 7 - x as u32 % 8;
    let b0 = bit(read_plane_byte(bus, 0, address), i);
    let b1 = bit(read_plane_byte(bus, 1, address), i);
    let b2 = bit(read_plane_byte(bus, 2, address), i);
    let b3 = bit(read_plane_byte(bus, 3, address), i);
    write_graphics(bus, READ_MAP_SELECT, 0);
    b0 + 2 * b1 + 4 * b2 + 8 * b3
}

/// 0D: reads a pixel.
#[tactic(auto, unfolding(crate::specs::Pixels::read_pixel_plan))]
pub(crate) fn read_pixel<B: Bus>(bus: &mut B, bda: &Bda, pixel: Pixel) -> u8
    requires data { IsModeSet bda.now }
    requires page { pixel.page < page_count bda.now }
    ensures { (bus.new, result) ≡ run B.meaning (read_pixel_plan bda.now pixel.page pixel.x pixel.y)
        bus.old }
{
    let packed = is_mode_of_256_colours(bda.mode());
    let address = pixel_address(bda, packed, pixel);
    if packed {
        get(bus, address)
    } else {
        read_planar_pixel(bus, address, pixel.x)
    }
}

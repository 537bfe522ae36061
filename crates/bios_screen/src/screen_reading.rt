//! Reading the screen that the adapter shows.
ghost use Rattle.std.specs.Prelude.{◌≡◌, ◌+◌, ◌*◌, ◌/◌, ◌<◌, ◌≤◌, ◌++◌, true, false, vec_len, Some};
ghost use Rattle.std.specs.Prelude.{IfOk, OnOk, IsOkUnless, IsTrue, if◌then◌else◌};
ghost use Rattle.std.specs.Int.{bit_at};
ghost use Rattle.vga_planes.specs.Planes.{byte_at};
ghost use Rattle.bios_modes.specs.Heights.{mode_row_at_height as mode_row_at_height_of};
ghost use Rattle.bios_modes.specs.Kinds.{is_mode_of_256_colours as is_packed_of, is_text as is_text_of};
ghost use Rattle.bios_screen.specs.Raster.{concatenated_lists};
ghost use Rattle.bios_screen.specs.Shown.{cells_in, glyph_bytes_in_plane_2, planar_pixel, pixel_of_256_colours};
ghost use Rattle.bios_screen.specs.Shown.{pixels_in, page_pixels as page_pixels_of, text_screen};
ghost use Rattle.bios_screen.specs.Shown.{pixel_screen, shows, shown};

use crate::palette::Palette;
use crate::screen::{Layout, Screen};
use crate::shown::is_shown;
use bios_modes::{Bda, ModeRow, is_mode_of_256_colours, is_text, mode_row_at_height};
use std::alloc::Global;
use vga_bits::Fault;
use vga_card::Card;
use vga_planes::Planes;

/// How many cells text memory has.
const CELLS: usize = 16_384;
/// How many bytes the glyphs of 256 characters have.
const GLYPH_BYTES: usize = 4_096;

/// The first n cells of text memory.
#[tactic(auto, using(crate::proofs::Shows::Reading::no_cells, crate::proofs::Shows::Reading::more_cells))]
fn read_cells(alloc: Global, planes: &Planes, n: usize) -> Result<Vec<(u8, u8)>, Fault>
    requires { n ≤ 32768 }
    ensures ok { IfOk result (λ cells. cells.items ≡ cells_in planes.now.plane0 planes.now.plane1
        n) }
    ensures len { IfOk result (λ cells. vec_len cells ≡ n) }
    ensures err { IsOkUnless result Fault.OutOfMemory }
{
    let mut cells = Vec::new(alloc);
    for q in 0..n {
        let place = (2 * q) as u16;
        let cell = (planes.byte(0, place), planes.byte(1, place));
        if cells.push(cell).is_err() {
            return Err(Fault::OutOfMemory);
        }
    }
    Ok(cells)
}

/// The first n bytes of the glyphs.
#[tactic(auto, using(crate::proofs::Shows::Reading::no_glyphs, crate::proofs::Shows::Reading::more_glyphs))]
fn read_glyphs(alloc: Global, planes: &Planes, n: usize) -> Result<Vec<u8>, Fault>
    requires { n ≤ 4096 }
    ensures ok { IfOk result (λ glyphs. glyphs.items ≡ glyph_bytes_in_plane_2 planes.now.plane2 n) }
    ensures err { IsOkUnless result Fault.OutOfMemory }
{
    let mut glyphs = Vec::new(alloc);
    for i in 0..n {
        let row = planes.byte(2, (32 * (i / 16) + i % 16) as u16);
        if glyphs.push(row).is_err() {
            return Err(Fault::OutOfMemory);
        }
    }
    Ok(glyphs)
}

/// The cursor positions.
fn read_cursor_positions(bda: &Bda) -> [u16; 8]
    ensures { result ≡ bda.now.cursor_places }
{
    bda.bounds();
    let mut places = [0; 8];
    for page in 0..8 {
        places[page] = bda.cursor_place(page);
    }
    places
}

/// Bit i of a byte.
fn bit(byte: u8, i: u32) -> u8
    requires { i < 8 }
    ensures value { result ≡ bit_at byte i }
    ensures small { result ≤ 1 }
{
    (byte >> i) & 1
}

/// Pixel k of a page of 16 colours that begins at byte z.
fn read_planar_pixel(planes: &Planes, z: u32, k: u32) -> u8
    requires { z + k / 8 < 65536 }
    ensures { result ≡ planar_pixel planes.now z k }
{
    let at = (z + k / 8) as u16;
    let place = 7 - k % 8;
    let b0 = bit(planes.byte(0, at), place);
    let b1 = bit(planes.byte(1, at), place);
    let b2 = bit(planes.byte(2, at), place);
    let b3 = bit(planes.byte(3, at), place);
    b0 + 2 * b1 + 4 * b2 + 8 * b3
}

/// Pixel n of 256 colours.
fn read_pixel_of_256_colours(planes: &Planes, n: u32) -> u8
    requires { n < 65536 }
    ensures { result ≡ pixel_of_256_colours planes.now n }
{
    planes.byte((n % 4) as usize, (n / 4 * 4) as u16)
}

/// Pixel k of a page that begins at byte z; `is_byte` says whether the mode has a byte for each.
fn pixel(planes: &Planes, is_byte: bool, z: u32, k: u32) -> u8
    requires planar { z + k / 8 < 65536 }
    requires packed { IsTrue is_byte → z + k < 65536 }
    ensures { result ≡ (if is_byte then pixel_of_256_colours planes.now (z + k)
        else planar_pixel planes.now z k) }
{
    if is_byte {
        read_pixel_of_256_colours(planes, z + k)
    } else {
        read_planar_pixel(planes, z, k)
    }
}

/// Appends the first n pixels of a page that begins at byte z.
#[tactic(auto, using(crate::proofs::Shows::Reading::no_pixels, crate::proofs::Shows::Reading::pixel_pushed))]
fn append_pixels_of_page(
    planes: &Planes,
    mode: u8,
    z: u32,
    n: u32,
    pixels: &mut Vec<u8>,
) -> Result<(), Fault>
    requires planar { z + (n + 7) / 8 ≤ 65536 }
    requires packed { IsTrue (is_packed_of mode) → z + n ≤ 65536 }
    ensures ok { OnOk result (pixels.new.items ≡ pixels.old.items
        ++ pixels_in mode planes.now z n) }
    ensures err { IsOkUnless result Fault.OutOfMemory }
{
    let is_byte = is_mode_of_256_colours(mode);
    for k in 0..n {
        if pixels.push(pixel(planes, is_byte, z, k)).is_err() {
            return Err(Fault::OutOfMemory);
        }
    }
    Ok(())
}

/// The pixels of all pages, page after page, n for each.
#[tactic(auto, unfolding(crate::specs::Raster::concatenated_lists))]
fn read_pixels(
    alloc: Global,
    planes: &Planes,
    mode: u8,
    size: u16,
    n: u32,
    pages: u8,
) -> Result<Vec<u8>, Fault>
    requires planar { size * pages ≤ 65536 }
    requires page { (n + 7) / 8 ≤ size }
    requires packed { IsTrue (is_packed_of mode) → n ≤ size }
    ensures ok { IfOk result (λ pixels. pixels.items
        ≡ concatenated_lists (λ p. pixels_in mode planes.now (size * p) n) pages) }
    ensures err { IsOkUnless result Fault.OutOfMemory }
{
    let mut pixels = Vec::new(alloc);
    for page in 0..pages {
        append_pixels_of_page(planes, mode, size as u32 * page as u32, n, &mut pixels)?;
    }
    Ok(pixels)
}

/// How many pixels a page has.
fn page_pixels(bda: &Bda) -> u32
    requires columns { bda.now.columns ≤ 80 }
    requires height { bda.now.height ≤ 16 }
    ensures { result ≡ page_pixels_of bda.now }
{
    8 * bda.columns() as u32 * (bda.height() as u32 * (bda.last_row() as u32 + 1))
}

/// The layout of the screen, with this many cells from the beginning of a page to the next.
fn layout_of(bda: &Bda, row: &ModeRow, distance: u16) -> Layout
    ensures { result ≡ record {
      columns = bda.now.columns;
      rows = bda.now.last_row + 1;
      height = bda.now.height;
      distance = distance;
      pages = row.now.pages;
    } }
{
    Layout {
        columns: bda.columns(),
        rows: bda.last_row() as u16 + 1,
        height: bda.height(),
        distance,
        pages: row.pages,
    }
}

impl Screen {
    /// The text screen of the adapter and the data, which show one.
    fn of_text(alloc: Global, card: &Card, bda: &Bda, row: &ModeRow) -> Result<Screen, Fault>
        requires row { mode_row_at_height_of bda.now.mode bda.now.height ≡ Some row.now }
        requires shown { shows row.now card.now bda.now ≡ true }
        requires text { is_text_of bda.now.mode ≡ true }
        ensures ok { IfOk result (λ screen. screen ≡ text_screen row.now card.now bda.now) }
        ensures err { IsOkUnless result Fault.OutOfMemory }
    {
        let regs = card.regs();
        let (beam, _) = card.beam();
        Ok(Screen {
            mode: bda.mode(),
            layout: layout_of(bda, row, bda.size() / 2),
            cells: read_cells(alloc, card.planes(), CELLS)?,
            pixels: Vec::new(alloc),
            places: read_cursor_positions(bda),
            cursor_type: bda.cursor_type(),
            page: bda.page(),
            palette: Palette::read(regs.attr, regs.dac),
            overscan: regs.attr.overscan(),
            is_blink: regs.attr.is_blink(),
            glyphs: read_glyphs(alloc, card.planes(), GLYPH_BYTES)?,
            frame: beam.frame,
        })
    }

    /// The screen of pixels of the adapter and the data, which show one.
    fn of_pixels(alloc: Global, card: &Card, bda: &Bda, row: &ModeRow) -> Result<Screen, Fault>
        requires row { mode_row_at_height_of bda.now.mode bda.now.height ≡ Some row.now }
        requires shown { shows row.now card.now bda.now ≡ true }
        requires pixels { is_text_of bda.now.mode ≡ false }
        ensures ok { IfOk result (λ screen. screen ≡ pixel_screen row.now card.now bda.now) }
        ensures err { IsOkUnless result Fault.OutOfMemory }
    {
        let regs = card.regs();
        let (beam, _) = card.beam();
        let count = page_pixels(bda);
        Ok(Screen {
            mode: bda.mode(),
            layout: layout_of(bda, row, 0),
            cells: Vec::new(alloc),
            pixels: read_pixels(
                alloc,
                card.planes(),
                bda.mode(),
                bda.size(),
                count,
                row.pages,
            )?,
            places: read_cursor_positions(bda),
            cursor_type: bda.cursor_type(),
            page: bda.page(),
            palette: Palette::read(regs.attr, regs.dac),
            overscan: regs.attr.overscan(),
            is_blink: regs.attr.is_blink(),
            glyphs: Vec::new(alloc),
            frame: beam.frame,
        })
    }

    /// The plain screen that the adapter shows with these data, if it shows one. It can only fail
    /// with `OutOfMemory`.
    pub fn read(alloc: Global, card: &Card, bda: &Bda) -> Result<Option<Screen>, Fault>
        ensures ok { IfOk result (λ found. found ≡ shown card.now bda.now) }
        ensures err { IsOkUnless result Fault.OutOfMemory }
    {
        let Some(row) = mode_row_at_height(bda.mode(), bda.height()) else {
            return Ok(None);
        };
        if !is_shown(card, bda, &row) {
            return Ok(None);
        }
        if is_text(bda.mode()) {
            Ok(Some(Screen::of_text(alloc, card, bda, &row)?))
        } else {
            Ok(Some(Screen::of_pixels(alloc, card, bda, &row)?))
        }
    }
}

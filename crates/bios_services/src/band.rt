//! Neighbouring columns of a page, as bytes of its lines.
ghost use Rattle.std.specs.Prelude.{◌≡◌, ◌<◌, ◌≤◌, ◌+◌, ◌-◌, ◌*◌, ◌^◌};
ghost use Rattle.bios_services.specs.Plan.{run};
ghost use Rattle.bios_services.specs.Bounds.{IsModeSet, page_count, bound_of_cells_reached_by_calls, bound_of_rows_in_windows};
ghost use Rattle.bios_services.specs.Bands.{IsBand, byte_address_in_band, band_of};
ghost use Rattle.bios_services.specs.Bands.{copy_line as copy_line_plan, copy_row as copy_row_plan};
ghost use Rattle.bios_services.specs.Bands.{move_rows as move_rows_plan};
ghost use Rattle.bios_services.specs.Bands.{fill_line as fill_line_plan, fill_row as fill_row_plan};
ghost use Rattle.bios_services.specs.Bands.{fill_rows as fill_rows_plan, set_read_write_mode_if_16_colours_plan};
ghost use Rattle.bios_services.specs.Bands.{fill_plan};
ghost use Rattle.bios_services.specs.Bands.{scroll_rows as scroll_rows_plan};

use crate::cells::page_address;
use crate::cycles::{move_bytes, put_in_turn, write_graphics, write_sequencer};
use crate::direction::Direction;
use crate::filling::AlternatingBytes;
use crate::kind::{Kind, by_kind, column_bytes, kind_of, row_lines};
use crate::shift::RowShift;
use crate::video_registers::{
    ALL_BITS, ALL_PLANES, BYTE_ACCESS, COPY_LATCHES, GRAPHICS_MODE, MAP_MASK,
};
use bios_modes::Bda;
use vga_card::Bus;

/// Neighbouring columns of a page, as bytes of its lines.
#[derive(Clone, Copy)]
pub struct ColumnBand {
    /// How the mode uses the memory.
    pub kind: Kind,
    /// The address of the page.
    pub start: u32,
    /// How many bytes lie between the beginnings of two lines of the page.
    pub pitch: u32,
    /// How many lines a row of characters has.
    pub lines: u32,
    /// The first byte of the band in a line.
    pub left: u32,
    /// How many bytes of a line the band has.
    pub width: u32,
}

/// Sets the graphics controller's read and write mode, in 16 colours only.
pub(crate) fn set_read_write_mode_if_16_colours<B: Bus>(bus: &mut B, kind: Kind, mode: u8)
    ensures { bus.new ≡ (run B.meaning (set_read_write_mode_if_16_colours_plan kind mode) bus.old).0 }
{
    by_kind!(kind, Text => {}, Planar => write_graphics(bus, GRAPHICS_MODE, mode), Packed => {})
}

impl ColumnBand {
    /// `width` columns of a page, from column `left` on.
    pub(crate) fn of_columns(bda: &Bda, page: u8, left: u32, width: u32) -> ColumnBand
        requires data { IsModeSet bda.now }
        requires page { page < page_count bda.now }
        requires columns { left + width ≤ 80 }
        ensures value { result ≡ band_of bda.now page left width }
        ensures band { IsBand result }
    {
        let kind = kind_of(bda.mode());
        let bytes = column_bytes(kind);
        ColumnBand {
            kind,
            start: page_address(bda, page),
            pitch: bytes * bda.columns() as u32,
            lines: row_lines(kind, bda.height()),
            left: bytes * left,
            width: bytes * width,
        }
    }

    /// The address of a byte, by row of characters, line of that row and byte of that line.
    pub(crate) fn address(self, row: u32, line: u32, byte: u32) -> u32
        requires band { IsBand self }
        requires row { row < bound_of_cells_reached_by_calls }
        requires line { line ≤ 16 }
        requires byte { byte ≤ 8 * 80 }
        ensures value { result ≡ byte_address_in_band self row line byte }
        ensures small { result < 2 ^ 31 }
    {
        self.start + self.pitch * (self.lines * row + line) + self.left + byte
    }

    /// Copies a line of a row to another row.
    #[tactic(auto, using(crate::proofs::PlanRuns::run_bind), unfolding(crate::specs::Bands::copy_line))]
    fn copy_line<B: Bus>(self, bus: &mut B, from: u32, to: u32, line: u32)
        requires band { IsBand self }
        requires from { from < bound_of_rows_in_windows }
        requires to { to < bound_of_rows_in_windows }
        requires line { line ≤ 16 }
        ensures { bus.new ≡ (run B.meaning (copy_line_plan self from to line) bus.old).0 }
    {
        let source = self.address(from, line, 0);
        let target = self.address(to, line, 0);
        move_bytes(bus, source, target, self.width);
    }

    /// Copies a row to another.
    #[tactic(auto, using(crate::proofs::PlanRuns::run_bind), unfolding(crate::specs::Bands::copy_row))]
    fn copy_row<B: Bus>(self, bus: &mut B, from: u32, to: u32)
        requires band { IsBand self }
        requires from { from < bound_of_rows_in_windows }
        requires to { to < bound_of_rows_in_windows }
        ensures { bus.new ≡ (run B.meaning (copy_row_plan self from to) bus.old).0 }
    {
        for line in 0..self.lines {
            self.copy_line(bus, from, to, line);
        }
    }

    /// Copies the rows n below to `count` rows from `top` on, the highest row first; or copies
    /// these rows to those n below them, the lowest row first.
    #[tactic(auto, using(crate::proofs::PlanRuns::run_bind), unfolding(crate::specs::Bands::move_rows))]
    fn move_rows<B: Bus>(self, bus: &mut B, shift: RowShift, top: u32, count: u32)
        requires band { IsBand self }
        requires rows { top + count + shift.rows ≤ bound_of_rows_in_windows }
        ensures { bus.new ≡ (run B.meaning (move_rows_plan self shift.direction shift.rows top
            count) bus.old).0 }
    {
        match shift.direction {
            Direction::Up => {
                for row in top..top + count {
                    self.copy_row(bus, row + shift.rows, row);
                }
            }
            Direction::Down => {
                for row in (top..top + count).rev() {
                    self.copy_row(bus, row, row + shift.rows);
                }
            }
        }
    }

    /// Fills a line of a row.
    #[tactic(auto, using(crate::proofs::PlanRuns::run_bind), unfolding(crate::specs::Bands::fill_line))]
    fn fill_line<B: Bus>(self, bus: &mut B, filling: AlternatingBytes, row: u32, line: u32)
        requires band { IsBand self }
        requires row { row < bound_of_cells_reached_by_calls }
        requires line { line ≤ 16 }
        ensures { bus.new ≡ (run B.meaning (fill_line_plan self filling row line) bus.old).0 }
    {
        let first = self.address(row, line, 0);
        put_in_turn(bus, first, self.width, filling.even, filling.odd);
    }

    /// Fills a row.
    #[tactic(auto, using(crate::proofs::PlanRuns::run_bind), unfolding(crate::specs::Bands::fill_row))]
    pub(crate) fn fill_row<B: Bus>(self, bus: &mut B, filling: AlternatingBytes, row: u32)
        requires band { IsBand self }
        requires row { row < bound_of_cells_reached_by_calls }
        ensures { bus.new ≡ (run B.meaning (fill_row_plan self filling row) bus.old).0 }
    {
        for line in 0..self.lines {
            self.fill_line(bus, filling, row, line);
        }
    }

    /// Fills `count` rows from `top` on.
    #[tactic(auto, using(crate::proofs::PlanRuns::run_bind), unfolding(crate::specs::Bands::fill_rows))]
    fn fill_rows<B: Bus>(self, bus: &mut B, filling: AlternatingBytes, top: u32, count: u32)
        requires band { IsBand self }
        requires rows { top + count ≤ bound_of_rows_in_windows }
        ensures { bus.new ≡ (run B.meaning (fill_rows_plan self filling top count) bus.old).0 }
    {
        for row in top..top + count {
            self.fill_row(bus, filling, row);
        }
    }

    /// Makes `count` rows from `top` on blank in an attribute, or pixels of a colour.
    #[tactic(auto, using(crate::proofs::PlanRuns::run_bind), unfolding(crate::specs::Bands::fill_plan))]
    fn fill<B: Bus>(self, bus: &mut B, colour: u8, top: u32, count: u32)
        requires band { IsBand self }
        requires rows { top + count ≤ bound_of_rows_in_windows }
        ensures { bus.new ≡ (run B.meaning (fill_plan self.kind self colour top count) bus.old).0 }
    {
        by_kind!(
            self.kind,
            Text => self.fill_rows(bus, AlternatingBytes::blank_cells(colour), top, count),
            Planar => {
                self.fill_rows(bus, AlternatingBytes::one_byte_everywhere(0x00), top, count);
                write_sequencer(bus, MAP_MASK, colour % 16);
                self.fill_rows(bus, AlternatingBytes::one_byte_everywhere(ALL_BITS), top, count);
                write_sequencer(bus, MAP_MASK, ALL_PLANES);
            },
            Packed => self.fill_rows(bus, AlternatingBytes::one_byte_everywhere(colour), top, count),
        )
    }

    /// Moves rows up or down, and fills the rows that they leave: the last ones after a move up,
    /// the first ones after a move down.
    #[tactic(auto, using(crate::proofs::PlanRuns::run_bind), unfolding(crate::specs::Bands::scroll_rows))]
    pub(crate) fn scroll_rows<B: Bus>(self, bus: &mut B, shift: RowShift, top: u32, height: u32)
        requires band { IsBand self }
        requires rows { top + height ≤ bound_of_rows_in_windows }
        requires few { shift.rows ≤ height }
        ensures { bus.new ≡ (run B.meaning (scroll_rows_plan self shift.direction top height
            shift.rows shift.colour) bus.old).0 }
    {
        let stay = height - shift.rows;
        set_read_write_mode_if_16_colours(bus, self.kind, COPY_LATCHES);
        self.move_rows(bus, shift, top, stay);
        set_read_write_mode_if_16_colours(bus, self.kind, BYTE_ACCESS);
        let first_new = shift.direction.first_row_to_fill(top, stay);
        self.fill(bus, shift.colour, first_new, shift.rows);
    }
}

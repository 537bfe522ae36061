//! Functions 09 and 0A: writing a character to a run of cells.
ghost use Rattle.std.specs.Prelude.{◌≡◌, ◌<◌, ◌≤◌, ◌+◌};
ghost use Rattle.bios_services.specs.Plan.{run};
ghost use Rattle.bios_services.specs.Bounds.{IsModeSet, page_count, bound_of_cells_reached_by_calls};
ghost use Rattle.bios_services.specs.CellRuns.{cell_run_of, cell_run_plan};
ghost use Rattle.bios_services.specs.Drawing.{characters_plan};
ghost use Rattle.bios_services.specs.Page.{IsPage};

use crate::colouring::Colouring;
use crate::cursor::cursor_cell_number;
use crate::drawing::write_character;
use crate::page::Page;
use crate::regs::{Regs, high, low};
use bios_modes::{Bda, Fonts};
use vga_card::Bus;

/// A run of cells that get one character, from the cursor of a page on.
#[derive(Clone, Copy)]
pub struct CellRun {
    pub page: u8,
    pub character: u8,
    pub colouring: Colouring,
    pub count: u16,
}

impl CellRun {
    /// The run that the registers name. In text, its cells get the attribute or keep their own.
    pub(crate) fn of_registers(regs: Regs, is_attribute: bool) -> CellRun
        ensures { result ≡ cell_run_of regs is_attribute }
    {
        CellRun {
            page: high(regs.bx),
            character: low(regs.ax),
            colouring: Colouring {
                colour: low(regs.bx),
                is_attribute,
            },
            count: regs.cx,
        }
    }

    /// Writes the character to the run's number of cells of a page, from cell `first` on.
    #[tactic(auto, using(crate::proofs::PlanRuns::run_bind), unfolding(crate::specs::Drawing::characters_plan))]
    fn write_from<B: Bus>(self, bus: &mut B, page: &Page<'_>, first: u32)
        requires page { IsPage page.now }
        requires cells { first + self.count ≤ bound_of_cells_reached_by_calls }
        ensures { bus.new ≡ (run B.meaning (characters_plan page.now.fonts page.now.bda
            page.now.number first self.character self.colouring self.count) bus.old).0 }
    {
        for i in 0..self.count as u32 {
            write_character(bus, page, first + i, self.character, self.colouring);
        }
    }

    /// Writes the character to the cells of the run.
    pub(crate) fn write<B: Bus>(self, bus: &mut B, fonts: &Fonts, bda: &Bda)
        requires data { IsModeSet bda.now }
        requires page { self.page < page_count bda.now }
        ensures { bus.new ≡ (run B.meaning (cell_run_plan fonts.now bda.now self) bus.old).0 }
    {
        let page = Page::new(fonts, bda, self.page);
        self.write_from(bus, &page, cursor_cell_number(bda, self.page));
    }
}

//! Functions 06 and 07: scrolling a window of the active page.
ghost use Rattle.std.specs.Prelude.{◌≡◌, ◌<◌, ◌≤◌, ◌+◌, IfSome};
ghost use Rattle.bios_services.specs.Plan.{run};
ghost use Rattle.bios_services.specs.Bounds.{IsModeSet, page_count};
ghost use Rattle.bios_services.specs.Scroll.{IsOnPage, window_clipped_to_page, scroll_distance};
ghost use Rattle.bios_services.specs.Scroll.{whole_page as whole_page_of};
ghost use Rattle.bios_services.specs.Scroll.{scroll_window_plan, scroll_plan};

use crate::band::ColumnBand;
use crate::direction::Direction;
use crate::shift::RowShift;
use bios_modes::Bda;
use vga_card::Bus;

/// What a call asks to scroll: by how many rows, the attribute or colour of new rows, and the
/// corners of the window.
#[derive(Clone, Copy)]
pub struct Scroll {
    pub lines: u8,
    pub fill: u8,
    pub top: u8,
    pub left: u8,
    pub bottom: u8,
    pub right: u8,
}

/// Neighbouring rows and columns of a page.
#[derive(Clone, Copy)]
pub struct Window {
    pub top: u32,
    pub height: u32,
    pub left: u32,
    pub width: u32,
}

impl Window {
    /// All the rows and columns of a page.
    pub(crate) fn whole_page(bda: &Bda) -> Window
        requires data { IsModeSet bda.now }
        ensures value { result ≡ whole_page_of (bda.now.last_row + 1) bda.now.columns }
        ensures on_page { IsOnPage (bda.now.last_row + 1) bda.now.columns result }
    {
        Window {
            top: 0,
            height: bda.last_row() as u32 + 1,
            left: 0,
            width: bda.columns() as u32,
        }
    }

    /// By how many rows the window goes if a call asks for this number.
    fn lines(self, asked: u8) -> u32
        ensures value { result ≡ scroll_distance self asked }
        ensures few { result ≤ self.height }
    {
        let lines = asked as u32;
        if lines == 0 || lines > self.height {
            self.height
        } else {
            lines
        }
    }

    /// Scrolls the window on a page.
    pub(crate) fn scroll<B: Bus>(self, bus: &mut B, bda: &Bda, page: u8, shift: RowShift)
        requires data { IsModeSet bda.now }
        requires page { page < page_count bda.now }
        requires window { IsOnPage (bda.now.last_row + 1) bda.now.columns self }
        requires few { shift.rows ≤ self.height }
        ensures { bus.new ≡ (run B.meaning (scroll_window_plan bda.now page self shift.direction
            shift.rows
            shift.colour) bus.old).0 }
    {
        let band = ColumnBand::of_columns(bda, page, self.left, self.width);
        band.scroll_rows(bus, shift, self.top, self.height);
    }
}

impl Scroll {
    /// The part of the window that lies on the page, if it has a cell there.
    fn window(self, bda: &Bda) -> Option<Window>
        requires { IsModeSet bda.now }
        ensures value { result ≡ window_clipped_to_page (bda.now.last_row + 1) bda.now.columns self }
        ensures on_page { IfSome result (IsOnPage (bda.now.last_row + 1) bda.now.columns) }
    {
        let (top, left) = (self.top as u32, self.left as u32);
        let bottom = (self.bottom as u32 + 1).min(bda.last_row() as u32 + 1);
        let right = (self.right as u32 + 1).min(bda.columns() as u32);
        if top < bottom && left < right {
            Some(Window {
                top,
                height: bottom - top,
                left,
                width: right - left,
            })
        } else {
            None
        }
    }

    /// Scrolls the window up or down, on the active page.
    #[tactic(auto, unfolding(crate::specs::Scroll::scroll_plan))]
    pub(crate) fn apply<B: Bus>(self, bus: &mut B, bda: &Bda, direction: Direction)
        requires { IsModeSet bda.now }
        ensures { bus.new ≡ (run B.meaning (scroll_plan bda.now self direction) bus.old).0 }
    {
        if let Some(window) = self.window(bda) {
            let shift = RowShift {
                direction,
                rows: window.lines(self.lines),
                colour: self.fill,
            };
            window.scroll(bus, bda, bda.page(), shift);
        }
    }
}

//! An adapter and a plain screen, which get the same BIOS calls.
ghost use Rattle.std.specs.Prelude.{◌≡◌, ◌<◌};

use crate::beginning::Beginning;
use crate::call_counts::{CallCounts, OFTEN};
use crate::difference::Difference;
use crate::plain_modes::MODE_3;
use crate::plain_screen::{Place, PlainScreen};
use crate::plain_services::PlainReply;
use crate::random_calls::{RandomCall, next_call};
use crate::screens_outcome::ScreensOutcome;
use anyhow::Result;
use bios_modes::{Bda, Fonts};
use bios_screen::Screen;
use bios_services::{Regs, Reply, ServiceError, int10};
use rand_pcg::Pcg32;
use std::alloc::Global;
use vga_bits::Refusal;
use vga_card::Card;

/// Whether a call is answered or refused as expected.
fn is_as_wanted(
    answer: &Result<Reply, ServiceError>,
    wanted: &Result<PlainReply, Refusal>,
) -> bool {
    match (answer, wanted) {
        (Ok(reply), Ok(plain)) => {
            reply.regs == plain.regs && reply.table.as_slice() == plain.table.as_slice()
        }
        (Err(error), Err(refusal)) => *error == ServiceError::Refused(*refusal),
        (Ok(_), Err(_)) | (Err(_), Ok(_)) => false,
    }
}

/// An adapter and a plain screen, which get the same BIOS calls.
#[derive(Drop)]
pub struct Pair<'a> {
    pub alloc: Global,
    pub card: Card,
    bda: Bda,
    fonts: Fonts,
    pub plain: PlainScreen<'a>,
    pub counts: CallCounts,
    services: u32,
    frames: u32,
}

impl<'a> Pair<'a> {
    /// An adapter at power-on with this font file, and a plain screen that the first mode set
    /// replaces.
    pub fn new(alloc: Global, font: &'a [u8]) -> Result<Pair<'a>> {
        let fonts = Fonts::from_bytes(alloc, font)?;
        let plain = PlainScreen::fresh(alloc, font, MODE_3, 0)?;
        let card = Card::new(alloc)?;
        Ok(Pair {
            alloc,
            card,
            bda: Bda::new(),
            fonts,
            plain,
            counts: CallCounts::new(alloc, OFTEN),
            services: 0,
            frames: 0,
        })
    }

    /// The result of the comparison.
    pub fn outcome(&self, difference: Option<Difference>) -> ScreensOutcome {
        ScreensOutcome {
            services: self.services,
            refused: self.counts.refused(),
            frames: self.frames,
            difference,
        }
    }
}

impl Pair<'_> {
    /// Counts a frame whose picture is compared.
    pub fn count_frame(&mut self) -> Result<()> {
        self.frames = self.frames.saturating_add(1);
        self.counts.count_frame(self.plain.mode)?;
        Ok(())
    }

    /// The next call.
    pub fn next_call(&self, random: &mut Pcg32) -> Result<RandomCall> {
        let call = next_call(self.alloc, random, self.plain.mode, self.plain.page)?;
        Ok(call)
    }

    /// Makes a call on both.
    pub fn service_difference(&mut self, call: &RandomCall) -> Result<Option<Difference>> {
        let regs = call.regs;
        let block = call.block.as_slice();
        let refusal = self.plain.refusal(regs, block);
        self.counts.count_call(self.plain.mode, regs, refusal)?;
        self.services = self.services.saturating_add(1);
        if !self.bda.valid() {
            return Ok(Some(Difference::Unshown));
        }
        let wanted = self.plain.call(regs, block)?;
        let answer = int10(
            self.alloc,
            &mut self.card,
            &mut self.bda,
            &self.fonts,
            regs,
            block,
        );
        Ok(if is_as_wanted(&answer, &wanted) {
            None
        } else {
            Some(Difference::Answer(regs))
        })
    }

    /// Makes a call on both that needs only AX.
    fn difference_of_call_with_only_ax(&mut self, ax: u16) -> Result<Option<Difference>> {
        let regs = Regs {
            ax,
            bx: 0,
            cx: 0,
            dx: 0,
        };
        let block = Vec::new(self.alloc);
        self.service_difference(&RandomCall { regs, block })
    }

    /// Begins a script on both.
    pub fn begin(&mut self, beginning: Beginning) -> Result<Option<Difference>> {
        let difference = self.difference_of_call_with_only_ax(beginning.mode as u16)?;
        match beginning.font {
            Some(part) if difference.is_none() => self.difference_of_call_with_only_ax(
                0x1100 + part as u16,
            ),
            _ => Ok(difference),
        }
    }

    /// Begins a script anew, if the mode is no longer that of its beginning.
    pub fn begin_anew_if_mode_has_changed(
        &mut self,
        beginning: Beginning,
    ) -> Result<Option<Difference>> {
        if self.plain.mode.number == beginning.mode {
            return Ok(None);
        }
        self.begin(beginning)
    }
}

/// Reading and comparing screens.
impl Pair<'_> {
    /// Reads the screen that the adapter shows; a graphics screen only if `is_read`.
    pub fn difference_of_text_or_wanted_screen(&self, is_read: bool) -> Result<Option<Difference>> {
        if is_read || self.plain.is_text() {
            self.shown_screen_difference()
        } else {
            Ok(None)
        }
    }

    /// Reads the screen that the adapter shows.
    fn shown_screen_difference(&self) -> Result<Option<Difference>> {
        let Some(screen) = Screen::read(self.alloc, &self.card, &self.bda)? else {
            return Ok(Some(Difference::Unshown));
        };
        Ok(self.screen_difference(&screen))
    }

    /// Compares all pages, and the one after the last.
    fn screen_difference(&self, screen: &Screen) -> Option<Difference> {
        for page in 0..9u8 {
            let difference = self.page_difference(screen, page);
            if difference.is_some() {
                return difference;
            }
        }
        None
    }

    /// Compares the cells or pixels of a page, and its cursor.
    fn page_difference(&self, screen: &Screen, page: u8) -> Option<Difference> {
        let spot = if self.plain.is_text() {
            self.cell_difference(screen, page)
        } else {
            self.pixel_difference(screen, page)
        };
        spot.or(self.cursor_difference(screen, page))
    }

    /// Whether both have the same cell at a position of a page, or neither has one.
    fn is_cell_alike(&self, screen: &Screen, page: u8, at: Place) -> bool {
        match (
            screen.cell(page, at.row, at.column),
            self.plain.cell(page, at),
        ) {
            (Some((character, attribute)), Some(cell)) => {
                character == cell.character && attribute == cell.attribute
            }
            (shown, wanted) => shown.is_none() && wanted.is_none(),
        }
    }

    /// Compares the cells of a row of a page, and the one after the last.
    fn row_difference(&self, screen: &Screen, page: u8, row: u8) -> Option<Difference> {
        for column in 0..81u8 {
            if !self.is_cell_alike(screen, page, Place { row, column }) {
                return Some(Difference::Spot(page, column as u16, row as u16));
            }
        }
        None
    }

    /// Compares the cells of a page: as many rows as with the smallest characters, and one more.
    fn cell_difference(&self, screen: &Screen, page: u8) -> Option<Difference> {
        for row in 0..51u8 {
            let difference = self.row_difference(screen, page, row);
            if difference.is_some() {
                return difference;
            }
        }
        if screen.pixel(page, 0, 0).is_some() {
            return Some(Difference::Spot(page, 0, 0));
        }
        None
    }

    /// Compares the pixels of a page, and those just past it.
    fn pixel_difference(&self, screen: &Screen, page: u8) -> Option<Difference> {
        for y in 0..481u16 {
            for x in 0..641u16 {
                if screen.pixel(page, x, y) != self.plain.pixel(page, x, y) {
                    return Some(Difference::Spot(page, x, y));
                }
            }
        }
        if screen.cell(page, 0, 0).is_some() {
            return Some(Difference::Spot(page, 0, 0));
        }
        None
    }

    fn cursor_difference(&self, screen: &Screen, page: u8) -> Option<Difference> {
        let wanted = self.plain.places.get(page as usize);
        if screen.cursor(page) == wanted.map(|place| (place.row, place.column)) {
            None
        } else {
            Some(Difference::Cursor(page))
        }
    }
}

//! Function 13: typing a string.
ghost use Rattle.std.specs.Prelude.{◌≡◌, ◌<◌, ◌≤◌, length};
ghost use Rattle.bios_services.specs.Plan.{run};
ghost use Rattle.bios_services.specs.Bounds.{IsModeSet, StaysInMode, page_count};
ghost use Rattle.bios_services.specs.Cursor.{row_of_position};
ghost use Rattle.bios_services.specs.Strings.{string_of as string_of_regs, string_block_len};
ghost use Rattle.bios_services.specs.Strings.{character_at, colouring_of_character, type_string_plan};
ghost use Rattle.bios_services.specs.Strings.{string_plan};

use crate::colouring::Colouring;
use crate::cursor::move_cursor;
use crate::page::Page;
use crate::regs::{Regs, high, low};
use crate::teletype::type_character;
use bios_modes::{Bda, Fonts};
use vga_card::Bus;

/// The string that a call types.
#[derive(Clone, Copy)]
pub struct StringCall {
    pub page: u8,
    /// The position of the first character: the row is the high byte, the column the low one.
    pub position: u16,
    /// The attribute or colour of all characters, if they have none of their own.
    pub colour: u8,
    pub count: u16,
    /// Whether an attribute or colour follows each character.
    pub has_attributes: bool,
    /// Whether the cursor moves to the position after the string.
    pub moves_cursor: bool,
}

impl StringCall {
    /// The string that the registers name.
    pub(crate) fn of_registers(regs: Regs) -> StringCall
        ensures { result ≡ string_of_regs regs }
    {
        let al = low(regs.ax);
        StringCall {
            page: high(regs.bx),
            position: regs.dx,
            colour: low(regs.bx),
            count: regs.cx,
            has_attributes: al >= 2,
            moves_cursor: al % 2 == 1,
        }
    }

    /// How many bytes the string's block has.
    pub(crate) fn block_len(self) -> usize
        ensures { result ≡ string_block_len self }
    {
        if self.has_attributes {
            2 * self.count as usize
        } else {
            self.count as usize
        }
    }

    /// Character i of the block.
    fn character(self, block: &[u8], i: u16) -> u8
        requires whole { length block.now ≡ string_block_len self }
        requires character { i < self.count }
        ensures { result ≡ character_at self block.now i }
    {
        if self.has_attributes {
            block[2 * i as usize]
        } else {
            block[i as usize]
        }
    }

    /// The colour in which character i of the block is typed.
    fn colouring(self, block: &[u8], i: u16) -> Colouring
        requires whole { length block.now ≡ string_block_len self }
        requires character { i < self.count }
        ensures { result ≡ colouring_of_character self block.now i }
    {
        let colour = if self.has_attributes {
            block[2 * i as usize + 1]
        } else {
            self.colour
        };
        Colouring {
            colour,
            is_attribute: true,
        }
    }

    /// Types the characters, and answers the position after them.
    #[tactic(auto, using(crate::proofs::PlanRuns::run_bind), unfolding(crate::specs::Strings::type_string_plan))]
    fn type_all<B: Bus>(self, bus: &mut B, fonts: &Fonts, bda: &Bda, block: &[u8]) -> u16
        requires data { IsModeSet bda.now }
        requires page { self.page < page_count bda.now }
        requires row { row_of_position self.position ≤ bda.now.last_row }
        requires whole { length block.now ≡ string_block_len self }
        ensures { (bus.new, result) ≡ run B.meaning
            (type_string_plan fonts.now bda.now self block.now) bus.old }
    {
        let page = Page::new(fonts, bda, self.page);
        let mut position = self.position;
        for i in 0..self.count {
            let character = self.character(block, i);
            let colouring = self.colouring(block, i);
            position = type_character(bus, &page, position, character, colouring);
        }
        position
    }

    /// 13: types the string, and moves the cursor to the position after it if AL asks for that.
    #[tactic(auto, using(crate::proofs::PlanRuns::run_bind), unfolding(crate::specs::Strings::string_plan))]
    pub(crate) fn write<B: Bus>(self, bus: &mut B, fonts: &Fonts, bda: &mut Bda, block: &[u8])
        requires data { IsModeSet bda.old }
        requires page { self.page < page_count bda.old }
        requires row { row_of_position self.position ≤ bda.old.last_row }
        requires whole { length block.now ≡ string_block_len self }
        ensures answer { (bus.new, bda.new) ≡ run B.meaning
            (string_plan fonts.now bda.old self block.now) bus.old }
        ensures stays { StaysInMode bda.old bda.new }
    {
        let position = self.type_all(bus, fonts, bda, block);
        if self.moves_cursor {
            move_cursor(bus, bda, self.page, position);
        }
    }
}

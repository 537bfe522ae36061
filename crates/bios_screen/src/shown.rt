//! Whether the adapter shows a screen.
ghost use Rattle.std.specs.Prelude.{◌≡◌, ◌≤◌, ◌<◌, ◌*◌, true, drop, length, Some};
ghost use Rattle.std.specs.Str.{bytes_eq};
ghost use Rattle.bios_modes.specs.Heights.{mode_row_at_height};
ghost use Rattle.bios_services.specs.Cursor.{start_address};
ghost use Rattle.bios_screen.specs.Shown.{has_memory_registers_of_mode as shows_memory_of};
ghost use Rattle.bios_screen.specs.Shown.{has_bios_data_of_mode as shows_data_of};
ghost use Rattle.bios_screen.specs.Shown.{has_attribute_registers_of_mode as shows_attribute_of, shows};
ghost use Rattle.bios_screen.specs.Shown.{cursor_location_shown, crtc_registers_shown};

use bios_modes::{Bda, ModeRow, is_text};
use vga_attr::Attr;
use vga_card::Card;
use vga_crtc::Crtc;

/// Whether the registers that memory cycles depend on are the mode's.
fn has_memory_registers_of_mode(card: &Card, row: &ModeRow) -> bool
    ensures { result ≡ shows_memory_of row.now card.now }
{
    let regs = card.regs();
    regs.misc == row.misc && *regs.host.seq() == row.sequencer && *regs.host.gfx() == row.graphics
}

/// Whether the data are those of the mode, with one of its pages.
fn has_bios_data_of_mode(bda: &Bda, row: &ModeRow) -> bool
    ensures { result ≡ shows_data_of row.now bda.now }
{
    bda.columns() == row.columns
        && bda.size() == row.size
        && bda.last_row() == row.last_row
        && bda.height() == row.height as u16
        && bda.crtc_address() == row.crtc_address
        && bda.start() as u32 == bda.size() as u32 * bda.page() as u32
        && bda.page() < row.pages
}

/// The first cell or byte of the active page, as the CRT controller counts them.
fn start_address_of(bda: &Bda) -> u32
    requires { bda.now.size * bda.now.page < 65536 }
    ensures value { result ≡ start_address bda.now bda.now.page }
    ensures small { result < 65536 }
{
    let start = bda.size() as u32 * bda.page() as u32;
    if is_text(bda.mode()) {
        start / 2
    } else {
        start
    }
}

/// The cursor location: in text that of the active page, in graphics the one that the registers
/// contain.
fn cursor_location_of(bda: &Bda, crtc: &Crtc) -> u32
    requires columns { bda.now.columns ≤ 80 }
    requires start { bda.now.size * bda.now.page < 65536 }
    requires page { bda.now.page ≤ 7 }
    ensures value { result ≡ cursor_location_shown bda.now crtc.now.registers }
    ensures small { result < 65536 }
{
    if is_text(bda.mode()) {
        let place = bda.cursor_place(bda.page() as usize);
        let cell = bda.columns() as u32 * (place / 256) as u32 + (place % 256) as u32;
        bda.size() as u32 * bda.page() as u32 / 2 + cell
    } else {
        256 * crtc.regs()[0x0E] as u32 + crtc.regs()[0x0F] as u32
    }
}

/// The registers of the CRT controller that show the active page, in text with its cursor.
fn registers_that_show_page(bda: &Bda, crtc: &Crtc, row: &ModeRow) -> [u8; 25]
    requires all { length row.now.crtc ≡ 25 }
    requires columns { bda.now.columns ≤ 80 }
    requires start { bda.now.size * bda.now.page < 65536 }
    requires page { bda.now.page ≤ 7 }
    ensures { result ≡ crtc_registers_shown row.now bda.now crtc.now.registers }
{
    let cursor_type = bda.cursor_type();
    let start = start_address_of(bda);
    let location = cursor_location_of(bda, crtc);
    let mut registers = row.crtc;
    registers[0x0A] = (cursor_type / 256) as u8 & 0x3F;
    registers[0x0B] = (cursor_type % 256) as u8 & 0x7F;
    registers[0x0C] = (start / 256) as u8;
    registers[0x0D] = (start % 256) as u8;
    registers[0x0E] = (location / 256) as u8;
    registers[0x0F] = (location % 256) as u8;
    registers
}

/// The registers of the attribute controller after the overscan.
fn after_overscan(registers: &[u8; 21]) -> &[u8]
    ensures { result.now ≡ drop 0x12 registers.now }
{
    &registers[0x12..]
}

/// Whether the attribute controller shows its palette, and its registers from mode control on are
/// the mode's, except for blinking and overscan.
fn has_attribute_registers_of_mode(attr: &Attr, row: &ModeRow) -> bool
    ensures { result ≡ shows_attribute_of row.now attr.now }
{
    let registers = attr.regs();
    attr.is_palette_shown()
        && registers[0x10] & 0xF7 == row.attribute[0x10] & 0xF7
        && after_overscan(registers) == after_overscan(&row.attribute)
}

/// Whether the CRT controller shows the active page of data that are those of the mode.
fn shows_page(crtc: &Crtc, bda: &Bda, row: &ModeRow) -> bool
    requires row { mode_row_at_height bda.now.mode bda.now.height ≡ Some row.now }
    requires data { shows_data_of row.now bda.now ≡ true }
    ensures { result ≡ bytes_eq crtc.now.registers (crtc_registers_shown row.now bda.now
        crtc.now.registers) }
{
    *crtc.regs() == registers_that_show_page(bda, crtc, row)
}

/// Whether the adapter and the data show a screen of the mode.
#[tactic(auto, unfolding(crate::specs::Shown::shows))]
pub(crate) fn is_shown(card: &Card, bda: &Bda, row: &ModeRow) -> bool
    requires { mode_row_at_height bda.now.mode bda.now.height ≡ Some row.now }
    ensures { result ≡ shows row.now card.now bda.now }
{
    if !has_memory_registers_of_mode(card, row) || !has_bios_data_of_mode(bda, row) {
        return false;
    }
    let regs = card.regs();
    shows_page(regs.crtc, bda, row) && has_attribute_registers_of_mode(regs.attr, row)
}

//! The steps that a script begins with: the frames that have passed, and the calls of the video
//! BIOS that leave its data.
ghost use Rattle.std.specs.Prelude.{◌<◌};

use crate::memory::{count_differences, push_planar};
use crate::ports::MAP_MASK;
use crate::running::machine_after;
use crate::step_list::StepList;
use crate::usual_bytes::usual_bytes;
use bios_modes::{Bda, Kind, is_text, kind_of};
use std::alloc::Global;
use vga_bits::Fault;
use vga_card::Card;
use vga_host::SEQUENCER_INDEX;
use vga_run::machine::Machine;

/// How many dots a frame has at power-on: two lines of five characters, of nine dots each.
const DOTS_OF_POWER_ON_FRAME: u32 = 90;

/// The functions of interrupt 10 (hexadecimal), in AH.
const SET_CURSOR_TYPE: u16 = 0x0100;

const SET_CURSOR_POSITION: u16 = 0x0200;

const SHOW_PAGE: u16 = 0x0500;

const SCROLL_UP: u16 = 0x0600;

const LOAD_FONT_OF_14_ROWS: u16 = 0x1111;

const LOAD_FONT_OF_8_ROWS: u16 = 0x1112;

/// The mode of 256 colours.
const PACKED_MODE: u16 = 0x13;

/// The bit of a mode set with which display memory stays.
const KEEPS_MEMORY: u16 = 0x80;

/// How many pages have a cursor position.
const PAGES: u16 = 8;

/// What is done to display memory before its bytes are written one by one.
#[derive(Clone, Copy, PartialEq, Eq, Debug)]
pub(crate) enum Opening {
    /// The mode set clears it.
    Clearing,
    /// It stays as it is.
    Keeping,
    /// The mode set clears it, and the active page is blanked in a colour or an attribute.
    Blanking { colour: u8 },
    /// The most of each plane is filled with a byte.
    Filling { bytes: [u8; 4] },
}

impl Opening {
    /// The register AX of a mode set.
    fn mode_set(self, mode: u8) -> u16 {
        match self {
            Opening::Clearing => mode as u16,
            Opening::Blanking { .. } => mode as u16,
            Opening::Keeping => mode as u16 | KEEPS_MEMORY,
            Opening::Filling { .. } => mode as u16 | KEEPS_MEMORY,
        }
    }
}

/// The planes, as a map mask, that are filled with the byte of a plane; none if a plane before it
/// is filled with that byte, too.
fn planes_filled_from(bytes: [u8; 4], plane: usize) -> u8
    requires { plane < 4 }
{
    let mut planes = 0;
    for other in 0..4usize {
        if bytes[other] == bytes[plane] {
            if other < plane {
                return 0;
            }
            planes |= 1 << other;
        }
    }
    planes
}

/// Appends the calls that fill the first 64,000 bytes of each plane. They blank the page of mode
/// 13, each byte of which reaches the planes of the map mask at its own offset.
fn push_fills(steps: &mut StepList, bytes: [u8; 4]) -> Result<(), Fault> {
    steps.call(PACKED_MODE | KEEPS_MEMORY, 0, 0, 0)?;
    push_planar(steps)?;
    for plane in 0..4usize {
        let planes = planes_filled_from(bytes, plane);
        if bytes[plane] != 0 && planes != 0 {
            steps.register(SEQUENCER_INDEX, MAP_MASK, planes)?;
            push_blank_page(steps, bytes[plane])?;
        }
    }
    Ok(())
}

/// Appends the call that blanks the active page.
fn push_blank_page(steps: &mut StepList, colour: u8) -> Result<(), Fault> {
    steps.call(SCROLL_UP, 256 * colour as u16, 0, 0xFFFF)
}

/// Appends the call that loads the font of a text mode, unless it is that of 16 rows, which the
/// mode set loads.
fn push_font(steps: &mut StepList, bda: &Bda) -> Result<(), Fault> {
    if !is_text(bda.mode()) {
        return Ok(());
    }
    match bda.height() {
        8 => steps.call(LOAD_FONT_OF_8_ROWS, 0, 0, 0),
        14 => steps.call(LOAD_FONT_OF_14_ROWS, 0, 0, 0),
        _ => Ok(()),
    }
}

/// Appends the calls that move the cursors of all pages. A mode set leaves them at 0.
fn push_cursors(steps: &mut StepList, bda: &Bda) -> Result<(), Fault> {
    for page in 0..PAGES {
        let place = bda.cursor_place(page as usize);
        if place != 0 {
            steps.call(SET_CURSOR_POSITION, page * 256, 0, place)?;
        }
    }
    Ok(())
}

/// Appends the calls that leave the data of the video BIOS in a mode.
fn push_bios_calls(steps: &mut StepList, bda: &Bda, opening: Opening) -> Result<(), Fault> {
    steps.call(opening.mode_set(bda.mode()), 0, 0, 0)?;
    push_font(steps, bda)?;
    steps.call(SET_CURSOR_TYPE, 0, bda.cursor_type(), 0)?;
    push_cursors(steps, bda)?;
    if bda.page() == 0 {
        return Ok(());
    }
    steps.call(SHOW_PAGE | bda.page() as u16, 0, 0, 0)
}

/// Appends the first steps that lead to an adapter and the data of its video BIOS: its frames pass,
/// and calls of the BIOS leave these data. Before a mode is set the data are all 0, and there are
/// no calls.
pub(crate) fn push_opening(
    steps: &mut StepList,
    card: &Card,
    bda: &Bda,
    opening: Opening,
) -> Result<(), Fault> {
    steps.advance(card.beam().0.frame as u32 * DOTS_OF_POWER_ON_FRAME)?;
    if bda.mode() == 0 {
        return Ok(());
    }
    if let Opening::Filling { bytes } = opening {
        push_fills(steps, bytes)?;
    }
    push_bios_calls(steps, bda, opening)?;
    if let Opening::Blanking { colour } = opening {
        return push_blank_page(steps, colour);
    }
    Ok(())
}

/// The machine after the first steps that lead to a machine.
fn opened_machine(alloc: Global, target: &Machine, opening: Opening) -> Result<Machine, Fault> {
    let mut steps = StepList::new(alloc)?;
    push_opening(&mut steps, &target.card, &target.bda, opening)?;
    let script = steps.into_bytes();
    machine_after(alloc, script.as_slice(), target)
}

/// An opening and the machine after it.
#[derive(Drop)]
pub(crate) struct Opened {
    pub(crate) opening: Opening,
    pub(crate) machine: Machine,
}

impl Opened {
    /// The machine after an opening that is to lead to a machine.
    fn by(alloc: Global, target: &Machine, opening: Opening) -> Result<Opened, Fault> {
        let machine = opened_machine(alloc, target, opening)?;
        Ok(Opened { opening, machine })
    }

    /// This one, or the other if its memory differs less from that of a machine.
    fn or_better(self, other: Opened, target: &Machine) -> Opened {
        let wanted = target.card.planes();
        let differences = count_differences(wanted, self.machine.card.planes());
        if count_differences(wanted, other.machine.card.planes()) < differences {
            return other;
        }
        self
    }

    /// The opening whose memory differs least from that of a machine.
    pub(crate) fn best(alloc: Global, target: &Machine) -> Result<Opened, Fault> {
        let bytes = usual_bytes(target.card.planes());
        let colour = usual_colour(target.bda.mode(), bytes);
        let cleared = Opened::by(alloc, target, Opening::Clearing)?;
        let kept = Opened::by(alloc, target, Opening::Keeping)?;
        let blank = Opened::by(alloc, target, Opening::Blanking { colour })?;
        let filled = Opened::by(alloc, target, Opening::Filling { bytes })?;
        let best = cleared.or_better(kept, target);
        Ok(best.or_better(blank, target).or_better(filled, target))
    }
}

/// The colour or the attribute of a page that has mostly these bytes in the four planes.
fn usual_colour(mode: u8, bytes: [u8; 4]) -> u8 {
    match kind_of(mode) {
        Kind::Text => bytes[1],
        Kind::Packed => bytes[0],
        Kind::Planar => bytes[0] & 1 | bytes[1] & 2 | bytes[2] & 4 | bytes[3] & 8,
    }
}

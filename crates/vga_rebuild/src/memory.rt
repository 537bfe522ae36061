//! The steps that write display memory and load the latches.
ghost use Rattle.std.specs.Prelude.{◌<◌};

use crate::ports::{
    ALL_ADDRESSES, ALL_BITS, BIT_MASK, ENABLE_RAM, GRAPHICS_MODE, MAP_MASK, MEMORY_MODE,
    MISCELLANEOUS, MISCELLANEOUS_OUTPUT, ODD_AND_EVEN_ADDRESSES, ODD_AND_EVEN_PLANES,
    ODD_AND_EVEN_WINDOW, WINDOW_AT_A0000,
};
use crate::step_list::StepList;
use vga_bits::Fault;
use vga_card::Card;
use vga_host::{GRAPHICS_INDEX, SEQUENCER_INDEX};
use vga_planes::{Latch, Planes};

/// How many pairs of offsets a plane has.
const PAIRS: u16 = 32_768;

/// Map mask: planes 0 and 1, with the characters and attributes of text.
const TEXT_PLANES: u8 = 0x03;

/// The bytes of the four planes at an even offset and at the next.
#[derive(Clone, Copy, PartialEq, Eq, Debug)]
struct Pair {
    even: u32,
    odd: u32,
}

impl Pair {
    /// The bytes of pair `number`.
    fn of(planes: &Planes, number: u16) -> Pair
        requires { number < 32768 }
    {
        Pair {
            even: planes.word(2 * number),
            odd: planes.word(2 * number + 1),
        }
    }

    /// The two bytes of a plane, the even offset's low.
    fn word_of_plane(self, plane: usize) -> u16
        requires { plane < 4 }
    {
        let even = Latch::from_word(self.even).byte(plane);
        let odd = Latch::from_word(self.odd).byte(plane);
        256 * odd as u16 + even as u16
    }

    /// The bytes of planes 0 and 1 at the even offset, that of plane 0 low: a character and its
    /// attribute.
    fn cell(self) -> u16 {
        (self.even % 65_536) as u16
    }

    /// Whether one cell is all in which this pair differs from another, and in both its bytes.
    fn differs_by_cell(self, other: Pair) -> bool {
        self.odd == other.odd
            && self.even / 65_536 == other.even / 65_536
            && self.even % 256 != other.even % 256
            && self.even / 256 != other.even / 256
    }

    /// The planes, as a map mask, that are to have this word and do not have it yet.
    fn planes_without(self, found: Pair, word: u16) -> u8 {
        let mut planes = 0;
        for plane in 0..4usize {
            if self.word_of_plane(plane) == word && found.word_of_plane(plane) != word {
                planes |= 1 << plane;
            }
        }
        planes
    }

    /// The word that just these planes are to have and do not have yet, if there is one.
    fn word_for(self, found: Pair, planes: u8) -> Option<u16> {
        for plane in 0..4usize {
            if planes >> plane & 1 == 1 {
                let word = self.word_of_plane(plane);
                return (self.planes_without(found, word) == planes).then_some(word);
            }
        }
        None
    }
}

/// How many pairs of two memories differ.
pub(crate) fn count_differences(wanted: &Planes, found: &Planes) -> u32 {
    let mut count = 0u32;
    for number in 0..PAIRS {
        if Pair::of(wanted, number) != Pair::of(found, number) {
            count = count.wrapping_add(1);
        }
    }
    count
}

/// Appends the steps after which a byte that is put goes to the planes of the map mask, at its
/// address's offset.
pub(crate) fn push_planar(steps: &mut StepList) -> Result<(), Fault> {
    steps.register(SEQUENCER_INDEX, MEMORY_MODE, ALL_ADDRESSES)?;
    for index in 0..MISCELLANEOUS {
        steps.register(GRAPHICS_INDEX, index, 0)?;
    }
    steps.register(GRAPHICS_INDEX, MISCELLANEOUS, WINDOW_AT_A0000)?;
    steps.register(GRAPHICS_INDEX, BIT_MASK, ALL_BITS)
}

/// Appends the steps that write cells, each a word: a character and its attribute.
fn push_cells(steps: &mut StepList, wanted: &Planes, found: &Planes) -> Result<(), Fault> {
    let mut is_open = false;
    for number in 0..PAIRS {
        let pair = Pair::of(wanted, number);
        if pair.differs_by_cell(Pair::of(found, number)) {
            if !is_open {
                push_text_layout(steps)?;
                is_open = true;
            }
            steps.put_word(2 * number, pair.cell())?;
        }
    }
    Ok(())
}

/// Appends the steps after which a word that is put goes to planes 0 and 1, at its address.
fn push_text_layout(steps: &mut StepList) -> Result<(), Fault> {
    steps.register(SEQUENCER_INDEX, MAP_MASK, TEXT_PLANES)?;
    steps.register(SEQUENCER_INDEX, MEMORY_MODE, ODD_AND_EVEN_ADDRESSES)?;
    steps.register(GRAPHICS_INDEX, GRAPHICS_MODE, ODD_AND_EVEN_PLANES)?;
    steps.register(GRAPHICS_INDEX, MISCELLANEOUS, ODD_AND_EVEN_WINDOW)
}

/// Appends the steps that write the words that just these planes are to have and do not have yet.
fn push_words(
    steps: &mut StepList,
    wanted: &Planes,
    found: &Planes,
    planes: u8,
) -> Result<(), Fault> {
    let mut is_open = false;
    for number in 0..PAIRS {
        let pair = Pair::of(wanted, number);
        let old = Pair::of(found, number);
        if pair == old || pair.differs_by_cell(old) {
            continue;
        }
        if let Some(word) = pair.word_for(old, planes) {
            if !is_open {
                steps.register(SEQUENCER_INDEX, MAP_MASK, planes)?;
                is_open = true;
            }
            steps.put_word(2 * number, word)?;
        }
    }
    Ok(())
}

/// An offset with these bytes, if there is one.
fn offset_of(planes: &Planes, latches: Latch) -> Option<u16> {
    for offset in 0..=65_535u16 {
        if planes.word(offset) == latches.word() {
            return Some(offset);
        }
    }
    None
}

/// Appends the steps that put a byte into each plane at offset 0.
fn push_bytes(steps: &mut StepList, bytes: Latch) -> Result<(), Fault> {
    for plane in 0..4usize {
        steps.register(SEQUENCER_INDEX, MAP_MASK, 1 << plane)?;
        steps.put(0, bytes.byte(plane))?;
    }
    Ok(())
}

/// Appends the steps that load the latches. They come from memory, which has their bytes for as
/// long if it has them nowhere.
fn push_latches(steps: &mut StepList, planes: &Planes, latches: Latch) -> Result<(), Fault> {
    match offset_of(planes, latches) {
        Some(offset) => steps.get(offset),
        None => {
            push_bytes(steps, latches)?;
            steps.get(0)?;
            push_bytes(steps, planes.load(0))
        }
    }
}

/// Appends the steps that give an adapter the display memory and the latches of another. They leave
/// the sequencer and the graphics controller as the writes need them.
pub(crate) fn push_memory(steps: &mut StepList, wanted: &Card, found: &Card) -> Result<(), Fault> {
    let planes = wanted.planes();
    let old = found.planes();
    steps.out(MISCELLANEOUS_OUTPUT, wanted.regs().misc | ENABLE_RAM)?;
    push_planar(steps)?;
    push_cells(steps, planes, old)?;
    push_planar(steps)?;
    for mask in 1..16u8 {
        push_words(steps, planes, old, mask)?;
    }
    let latches = wanted.latches();
    if latches.word() == found.latches().word() {
        return Ok(());
    }
    push_latches(steps, planes, latches)
}

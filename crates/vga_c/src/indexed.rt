//! Frames as numbers of colours, with the palette that has these colours.
ghost use Rattle.std.specs.Prelude.{◌≡◌, ◌*◌, ◌<◌, ◌≤◌, ℕ, IfSome, None, length, slice_index, true, false};
ghost use Rattle.vga_card.specs.Frames.{IsPictureInBounds};
ghost use Rattle.vga_run.specs.Answer.{of_drawn};
ghost use Rattle.vga_run.specs.Step.{after_step, answer_to};
ghost use Rattle.vga_script.specs.declared.step.Step.TheVariants.{Frame};
ghost use Rattle.vga_c.specs.Cards.{ClosedCardStaysUnchanged, ClosedCardLeavesOutput};
ghost use Rattle.vga_c.specs.Forms.{rgb_word_of_dot as rgb_word_of_dot_of};
ghost use Rattle.vga_c.specs.Indexed.{indexed_output, HasColourNumbers, NumbersFrame, OpenCardNumbersFrame};
ghost use Rattle.vga_c.specs.Palette.{HasColoursOnce, HasColourNumbered, NoNumberHasColour, AreDotsNumbered};
ghost use Rattle.vga_c.specs.Palette.{HaveTooManyColours, no_colours};

use crate::forms::rgb_word_of_dot;
use crate::frames::Size;
use crate::handle::{Handle, on_open_card};
use crate::palette::Palette;
use crate::status::{DONE, MANY_COLOURS, NO_ROOM, OUT_OF_MEMORY, RAGGED};
use std::alloc::Global;
use vga_card::Drawn;
use vga_run::machine::Machine;

/// How many guesses there are: one for each colour of 18 bits.
const GUESSES: usize = 0x4_0000;

/// The place of the guess for a colour: the six highest bits of each component.
fn guess_place(colour: u32) -> usize
    ensures { result < 0x4_0000 }
{
    let red = colour / 0x4_0000 % 64;
    let green = colour / 0x400 % 64;
    let blue = colour / 4 % 64;
    (0x1000 * red + 0x40 * green + blue) as usize
}

/// The number of a colour in a palette, to which it is added if it is new. The guess for a colour
/// is the number that it had last, so that most colours need no search. A palette of 256 colours
/// has no room for another.
fn number_colour(palette: &mut Palette, guesses: &mut [u8], colour: u32) -> Option<u8>
    requires few { palette.old.len ≤ 256 }
    requires once { HasColoursOnce palette.old }
    requires guesses { length guesses.old ≡ 0x4_0000 }
    ensures some { IfSome result (λ n. HasColourNumbered palette.old palette.new n colour) }
    ensures full { result ≡ None → palette.old.len ≡ 256 }
    ensures lacks { result ≡ None → NoNumberHasColour palette.old colour }
{
    let place = guess_place(colour);
    let guess = guesses[place];
    if palette.is_number_of(guess, colour) {
        return Some(guess);
    }
    let number = match palette.find(colour) {
        Some(number) => number,
        None => palette.add(colour)?,
    };
    guesses[place] = number;
    Some(number)
}

/// Writes the numbers of the colours of `count` dots, and adds these colours to an empty palette.
/// It stops at a dot for whose colour the palette has no room, and says so.
fn number_dots(
    bytes: &[u8],
    count: usize,
    palette: &mut Palette,
    guesses: &mut [u8],
    numbers: &mut [u8],
) -> bool
    requires empty { palette.old ≡ no_colours }
    requires guesses { length guesses.old ≡ 0x4_0000 }
    requires dots { length bytes.now ≡ 3 * count }
    requires room { count ≤ length numbers.old }
    ensures numbered { result ≡ true → AreDotsNumbered count (rgb_word_of_dot_of bytes.now)
        palette.new numbers.new }
    ensures many { result ≡ false → HaveTooManyColours count (rgb_word_of_dot_of bytes.now) }
    ensures behind { (i : ℕ) → count ≤ i → slice_index numbers.new i ≡ slice_index numbers.old i }
    ensures len { length numbers.new ≡ length numbers.old }
{
    for i in 0..count {
        match number_colour(palette, guesses, rgb_word_of_dot(bytes, i)) {
            Some(number) => numbers[i] = number,
            None => return false,
        }
    }
    true
}

/// Writes a picture to the caller: the number of each dot's colour, and the palette.
fn write_numbers(
    drawn: Drawn<'_>,
    guesses: &mut [u8],
    size: &mut Size,
    palette: &mut Palette,
    numbers: &mut [u8],
) -> u32
    requires small { IsPictureInBounds drawn }
    requires guesses { length guesses.old ≡ 0x4_0000 }
    ensures { HasColourNumbers (of_drawn drawn.entry) (indexed_output size.old palette.old
        numbers.old) (indexed_output size.new palette.new numbers.new) result }
{
    match drawn {
        Drawn::Picture(width, height, bytes) => {
            *size = Size { width, height };
            let count = width as usize * height as usize;
            if numbers.len() < count {
                return NO_ROOM;
            }
            let mut found = Palette::empty();
            if !number_dots(bytes, count, &mut found, guesses, numbers) {
                return MANY_COLOURS;
            }
            *palette = found;
            DONE
        }
        Drawn::Ragged => RAGGED,
    }
}

/// Lets the clock of a machine run to the end of the frame under way, and writes its picture as
/// numbers of colours.
#[tactic(auto, using(crate::proofs::FrameLemmas::numbers_of_frame), unfolding(vga_run::specs::Step::after_step, vga_run::specs::Step::answer_to))]
fn number_frame(
    machine: &mut Machine,
    guesses: &mut [u8],
    size: &mut Size,
    palette: &mut Palette,
    numbers: &mut [u8],
) -> u32
    requires guesses { length guesses.old ≡ 0x4_0000 }
    ensures after { machine.new ≡ after_step machine.old Frame }
    ensures picture { HasColourNumbers (answer_to machine.old Frame) (indexed_output size.old
        palette.old numbers.old) (indexed_output size.new palette.new numbers.new) result }
{
    write_numbers(machine.card.frame(), guesses, size, palette, numbers)
}

/// Lets the clock of a machine run to the end of the frame under way, and writes its picture as
/// numbers of colours. If there is no memory for the guesses, nothing changes.
fn frame_indexed(
    alloc: Global,
    machine: &mut Machine,
    size: &mut Size,
    palette: &mut Palette,
    numbers: &mut [u8],
) -> u32
    ensures { NumbersFrame machine.old machine.new (indexed_output size.old palette.old numbers.old)
        (indexed_output size.new palette.new numbers.new) result }
{
    let Ok(mut guesses) = vec![in alloc; 0u8; GUESSES] else {
        return OUT_OF_MEMORY;
    };
    number_frame(machine, guesses.as_mut_slice(), size, palette, numbers)
}

/// Lets the clock run to the end of the frame under way, and writes its picture as numbers of
/// colours, a byte for each dot, with the palette that has these colours.
#[unsafe(no_mangle)]
pub extern "C" fn zak_frame_indexed(
    alloc: Global,
    card: &mut Handle,
    size: &mut Size,
    palette: &mut Palette,
    numbers: &mut [u8],
) -> u32
    ensures picture { OpenCardNumbersFrame card.old card.new (indexed_output size.old palette.old
        numbers.old) (indexed_output size.new palette.new numbers.new) result }
    ensures closed { ClosedCardStaysUnchanged card.old card.new result }
    ensures spared { ClosedCardLeavesOutput card.old (indexed_output size.old palette.old
        numbers.old) (indexed_output size.new palette.new numbers.new) }
{
    on_open_card!(alloc, card, machine => frame_indexed(alloc, machine, size, palette, numbers))
}

//! Frames and their pictures.
ghost use Rattle.std.specs.Prelude.{◌≡◌, ◌+◌, ◌*◌, ◌<◌, ◌≤◌, ℕ, length, slice_index};
ghost use Rattle.vga_card.specs.Dots.{most_dots_of_an_advance};
ghost use Rattle.vga_card.specs.Frames.{IsPictureInBounds};
ghost use Rattle.vga_run.specs.Answer.{of_drawn};
ghost use Rattle.vga_run.specs.Saved.{machine_without_unseen_dots};
ghost use Rattle.vga_run.specs.Step.{after_step, answer_to};
ghost use Rattle.vga_script.specs.declared.step.Step.TheVariants.{Advance, Frame};
ghost use Rattle.vga_c.specs.Cards.{OpenCardKeepsMachine, ClosedCardStaysUnchanged, ClosedCardLeavesOutput};
ghost use Rattle.vga_card.specs.Lines.{line_widths};
ghost use Rattle.vga_card.specs.Picture.{bytes_of_dots};
ghost use Rattle.vga_c.specs.Buffers.{IsCopied};
ghost use Rattle.vga_c.specs.Frames.{GivesDotBytes, CountsDotsOfLines, frame_dots};
ghost use Rattle.vga_c.specs.Frames.{DrawsBytes, DrawsWords, EndsFrame, HasDotBytes, HasDotWords};
ghost use Rattle.vga_c.specs.Frames.{CountsDotsOfDrawnLines, GivesDrawnBytes, SkipsFrame};

use crate::buffer::{write_bytes_if_room, write_bytes_if_room_and_their_count};
use crate::forms::{Form, has_room, write_rows};
use crate::handle::{Handle, on_open_card, on_owing_card};
use crate::status::{DONE, NO_ROOM, RAGGED};
use std::alloc::Global;
use vga_card::Drawn;
use vga_card::laws::dots_split;
use vga_run::machine::Machine;

/// Every dot of every line, with nothing above its colour.
const EVERY_DOT: Form = Form {
    across: 1,
    down: 1,
    above: 0,
};

/// How large a picture is, in dots.
#[repr(C)]
#[derive(Clone, Copy)]
pub struct Size {
    pub width: u32,
    pub height: u32,
}

/// Writes a picture to the caller: red, green and blue of each dot.
fn write_bytes(drawn: Drawn<'_>, size: &mut Size, rgb: &mut [u8]) -> u32
    ensures { HasDotBytes (of_drawn drawn.entry) size.old size.new rgb.old rgb.new result }
{
    match drawn {
        Drawn::Picture(width, height, bytes) => {
            *size = Size { width, height };
            write_bytes_if_room(rgb, bytes)
        }
        Drawn::Ragged => RAGGED,
    }
}

/// Lets the clock of a machine run to the end of the frame under way, and writes its picture.
#[tactic(auto, using(crate::proofs::FrameLemmas::bytes_of_frame), unfolding(vga_run::specs::Step::after_step, vga_run::specs::Step::answer_to))]
fn frame(machine: &mut Machine, size: &mut Size, rgb: &mut [u8]) -> u32
    ensures after { machine.new ≡ after_step machine.old Frame }
    ensures picture { HasDotBytes (answer_to machine.old Frame) size.old size.new rgb.old rgb.new
        result }
{
    write_bytes(machine.card.frame(), size, rgb)
}

/// Lets the clock run to the end of the frame under way, and writes its picture: red, green and
/// blue of each dot, 0 to 63 each.
#[unsafe(no_mangle)]
pub extern "C" fn zak_frame(
    alloc: Global,
    card: &mut Handle,
    size: &mut Size,
    rgb: &mut [u8],
) -> u32
    ensures frame { EndsFrame card.old card.new }
    ensures picture { DrawsBytes card.old size.old size.new rgb.old rgb.new result }
    ensures closed { ClosedCardStaysUnchanged card.old card.new result }
    ensures size { ClosedCardLeavesOutput card.old size.old size.new }
    ensures rgb { ClosedCardLeavesOutput card.old rgb.old rgb.new }
{
    on_open_card!(alloc, card, machine => frame(machine, size, rgb))
}

/// Writes a picture to the caller: a word for each dot.
#[tactic(auto, using(crate::proofs::RowLemmas::every_dot_rows))]
fn write_words(drawn: Drawn<'_>, size: &mut Size, pixels: &mut [u32], pitch: usize) -> u32
    requires { IsPictureInBounds drawn }
    ensures { HasDotWords (of_drawn drawn.entry) pitch size.old size.new pixels.old pixels.new result }
{
    match drawn {
        Drawn::Picture(width, height, bytes) => {
            *size = Size { width, height };
            if !has_room(width as usize, height as usize, pitch, pixels.len()) {
                return NO_ROOM;
            }
            write_rows(bytes, width, height, EVERY_DOT, pixels, pitch);
            DONE
        }
        Drawn::Ragged => RAGGED,
    }
}

/// Lets the clock of a machine run to the end of the frame under way, and writes its picture as
/// words.
#[tactic(auto, using(crate::proofs::FrameLemmas::words_of_frame), unfolding(vga_run::specs::Step::after_step, vga_run::specs::Step::answer_to))]
fn frame_words(machine: &mut Machine, size: &mut Size, pixels: &mut [u32], pitch: usize) -> u32
    ensures after { machine.new ≡ after_step machine.old Frame }
    ensures picture { HasDotWords (answer_to machine.old Frame) pitch size.old size.new pixels.old
        pixels.new result }
{
    write_words(machine.card.frame(), size, pixels, pitch)
}

/// Lets the clock run to the end of the frame under way, and writes its picture as words 00RRGGBB.
/// A row begins `pitch` words after the row before.
#[unsafe(no_mangle)]
pub extern "C" fn zak_frame_xrgb(
    alloc: Global,
    card: &mut Handle,
    size: &mut Size,
    pixels: &mut [u32],
    pitch: usize,
) -> u32
    ensures frame { EndsFrame card.old card.new }
    ensures picture { DrawsWords card.old pitch size.old size.new pixels.old pixels.new result }
    ensures closed { ClosedCardStaysUnchanged card.old card.new result }
    ensures size { ClosedCardLeavesOutput card.old size.old size.new }
    ensures pixels { ClosedCardLeavesOutput card.old pixels.old pixels.new }
{
    on_open_card!(alloc, card, machine => frame_words(machine, size, pixels, pitch))
}

/// Lets the clock of a machine run to the end of the frame under way, and writes its lines.
#[tactic(auto, unfolding(vga_run::specs::Step::after_step))]
fn frame_lines(
    machine: &mut Machine,
    widths: &mut [u32; 1024],
    rgb: &mut [u8],
    len: &mut usize,
) -> u32
    ensures after { machine.new ≡ after_step machine.old Frame }
    ensures widths { widths.new ≡ line_widths (frame_dots machine.old) }
    ensures dots { IsCopied (bytes_of_dots (frame_dots machine.old)) rgb.old rgb.new len.new
        result }
{
    let lines = machine.card.frame_lines();
    widths.copy_from_slice(lines.widths);
    write_bytes_if_room_and_their_count(rgb, len, lines.bytes)
}

/// Lets the clock run to the end of the frame under way. Writes how many dots each line has, and
/// red, green and blue of each dot, 0 to 63 each. The lines may differ in width.
#[unsafe(no_mangle)]
pub extern "C" fn zak_frame_lines(
    alloc: Global,
    card: &mut Handle,
    widths: &mut [u32; 1024],
    rgb: &mut [u8],
    len: &mut usize,
) -> u32
    ensures frame { EndsFrame card.old card.new }
    ensures widths { CountsDotsOfLines card.old widths.new }
    ensures dots { GivesDotBytes card.old rgb.old rgb.new len.new result }
    ensures closed { ClosedCardStaysUnchanged card.old card.new result }
    ensures spared { ClosedCardLeavesOutput card.old widths.old widths.new }
    ensures rgb { ClosedCardLeavesOutput card.old rgb.old rgb.new }
    ensures len { ClosedCardLeavesOutput card.old len.old len.new }
{
    on_open_card!(alloc, card, machine => frame_lines(machine, widths, rgb, len))
}

/// Writes the lines that a machine has drawn until now.
fn peek(machine: &Machine, widths: &mut [u32; 1024], rgb: &mut [u8], len: &mut usize) -> u32
    ensures widths { widths.new ≡ line_widths machine.now.card.drawn }
    ensures dots { IsCopied (bytes_of_dots machine.now.card.drawn) rgb.old rgb.new len.new result }
{
    let lines = machine.card.drawn_lines();
    widths.copy_from_slice(lines.widths);
    write_bytes_if_room_and_their_count(rgb, len, lines.bytes)
}

/// Writes what is drawn until now of the frame under way, as `zak_frame_lines` writes a whole frame.
/// The clock stands still. At the first dot of a frame, it is the frame before.
#[unsafe(no_mangle)]
pub extern "C" fn zak_peek(
    alloc: Global,
    card: &mut Handle,
    widths: &mut [u32; 1024],
    rgb: &mut [u8],
    len: &mut usize,
) -> u32
    ensures card { OpenCardKeepsMachine card.old card.new }
    ensures widths { CountsDotsOfDrawnLines card.old widths.new }
    ensures dots { GivesDrawnBytes card.old rgb.old rgb.new len.new result }
    ensures closed { ClosedCardStaysUnchanged card.old card.new result }
    ensures spared { ClosedCardLeavesOutput card.old widths.old widths.new }
    ensures rgb { ClosedCardLeavesOutput card.old rgb.old rgb.new }
    ensures len { ClosedCardLeavesOutput card.old len.old len.new }
{
    on_open_card!(alloc, card, machine => peek(machine, widths, rgb, len))
}

/// Lets the clock of a machine run for the dots that are owed, and then to the end of the frame
/// under way. It draws nothing of that frame. It gives how many dots are owed from then on: none.
#[tactic(auto, unfolding(vga_run::specs::Step::after_step))]
fn skip_frame(machine: &mut Machine, owed: u32) -> (u32, u32)
    requires { owed ≤ most_dots_of_an_advance }
    ensures after { after_step machine.new (Advance result.0) ≡ machine_without_unseen_dots
        (after_step (after_step machine.old (Advance owed)) Frame) }
    ensures status { result.1 ≡ 0 }
{
    dots_split();
    machine.card.skip_frame_after_dots(owed);
    (0, DONE)
}

/// Lets the clock run to the end of the frame under way, and draws nothing. The card is from then
/// on as `zak_frame` leaves it, but for the dots of that frame, which no call shows any more.
#[unsafe(no_mangle)]
pub extern "C" fn zak_skip_frame(alloc: Global, card: &mut Handle) -> u32
    ensures frame { SkipsFrame card.old card.new result }
    ensures closed { ClosedCardStaysUnchanged card.old card.new result }
{
    on_owing_card!(alloc, card, machine, owed => skip_frame(machine, owed))
}

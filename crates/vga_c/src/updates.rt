//! Frames that bring the caller's words up to date, and tell which rows have changed.
ghost use Rattle.std.specs.Prelude.{◌≡◌, ◌+◌, ◌-◌, ◌*◌, ◌<◌, ◌≤◌, ◌↔◌, ℕ, IsTrue, length, slice_index, bit_or};
ghost use Rattle.vga_card.specs.Frames.{IsPictureInBounds};
ghost use Rattle.vga_run.specs.Answer.{of_drawn};
ghost use Rattle.vga_run.specs.Step.{after_step, answer_to};
ghost use Rattle.vga_script.specs.declared.step.Step.TheVariants.{Frame};
ghost use Rattle.vga_c.specs.Cards.{ClosedCardStaysUnchanged, ClosedCardLeavesOutput};
ghost use Rattle.vga_c.specs.Forms.{AreRowsOfWords, IsForm, div_ceil as div_ceil_of};
ghost use Rattle.vga_c.specs.Forms.{rgb_word_of_dot as rgb_word_of_dot_of, form_word};
ghost use Rattle.vga_c.specs.Forms.{DrawsFrameInForm, DrawsOpenCardInForm, HasPictureInForm};
ghost use Rattle.vga_c.specs.Updates.{FitsBuffer, IsRowOfWords, AreChangedRows, TellsChangedRows};
ghost use Rattle.vga_c.specs.Updates.{OpenCardTellsChangedRows};

use crate::forms::{Form, WordPicture, div_ceil, form_of, has_room, rgb_word_of_dot, write_rows};
use crate::handle::{Handle, on_open_card};
use crate::status::{BAD_ARGUMENT, DONE, NO_ROOM, RAGGED};
use std::alloc::Global;
use vga_card::Drawn;
use vga_run::machine::Machine;

/// Some rows of a picture: `count` rows from row `first` on. If there are none, both are 0.
#[repr(C)]
#[derive(Clone, Copy)]
pub struct Rows {
    pub first: u32,
    pub count: u32,
}

/// Whether the caller's words from `at` on are those of `count` dots, every `across`-th from dot
/// `first` on.
fn has_row_of_words(
    bytes: &[u8],
    first: usize,
    form: Form,
    count: usize,
    pixels: &[u32],
    at: usize,
) -> bool
    requires dots { (x : ℕ) → x < count → 3 * (first + form.across * x) + 2 < length bytes.now }
    requires room { at + count ≤ length pixels.now }
    ensures { IsTrue result ↔ ((x : ℕ) → x < count → slice_index pixels.now (at + x)
        ≡ bit_or form.above (rgb_word_of_dot_of bytes.now (first + form.across * x))) }
{
    let mut is_same = true;
    for x in 0..count {
        let word = form.above | rgb_word_of_dot(bytes, first + form.across as usize * x);
        is_same &= pixels[at + x] == word;
    }
    is_same
}

/// Whether the caller's words have row y of a picture in a form.
fn has_row(
    bytes: &[u8],
    width: u32,
    height: u32,
    form: Form,
    pixels: &[u32],
    pitch: usize,
    y: u32,
) -> bool
    requires fits { FitsBuffer bytes.now width height form pitch (length pixels.now) }
    requires row { y < div_ceil_of height form.down }
    ensures { IsTrue result ↔ IsRowOfWords (div_ceil_of width form.across) pitch
        (form_word form width bytes.now) pixels.now y }
{
    let first = width as usize * (form.down as usize * y as usize);
    let count = div_ceil(width, form.across) as usize;
    has_row_of_words(bytes, first, form, count, pixels, pitch * y as usize)
}

/// How many rows from the top the caller's words have.
fn count_rows_from_top(
    bytes: &[u8],
    width: u32,
    height: u32,
    form: Form,
    pixels: &[u32],
    pitch: usize,
) -> u32
    requires fits { FitsBuffer bytes.now width height form pitch (length pixels.now) }
    ensures few { result ≤ div_ceil_of height form.down }
    ensures same { (y : ℕ) → y < result → IsRowOfWords (div_ceil_of width form.across) pitch
        (form_word form width bytes.now) pixels.now y }
    ensures differs { result < div_ceil_of height form.down → ¬ (IsRowOfWords (div_ceil_of width
        form.across) pitch (form_word form width bytes.now) pixels.now result) }
{
    let rows = div_ceil(height, form.down);
    let mut y = 0;
    while y < rows && has_row(bytes, width, height, form, pixels, pitch, y) {
        y += 1;
    }
    y
}

/// The number of the row behind the last one, from row `first` on, that the caller's words lack.
fn end_of_changes(
    bytes: &[u8],
    width: u32,
    height: u32,
    form: Form,
    pixels: &[u32],
    pitch: usize,
    first: u32,
) -> u32
    requires fits { FitsBuffer bytes.now width height form pitch (length pixels.now) }
    requires first { first ≤ div_ceil_of height form.down }
    ensures from { first ≤ result }
    ensures few { result ≤ div_ceil_of height form.down }
    ensures same { (y : ℕ) → result ≤ y → y < div_ceil_of height form.down → IsRowOfWords
        (div_ceil_of width form.across) pitch (form_word form width bytes.now) pixels.now y }
    ensures differs { first < result → ¬ (IsRowOfWords (div_ceil_of width form.across) pitch
        (form_word form width bytes.now) pixels.now (result - 1)) }
{
    let mut end = div_ceil(height, form.down);
    while first < end && has_row(bytes, width, height, form, pixels, pitch, end - 1) {
        end -= 1;
    }
    end
}

/// Brings the caller's words up to date: they have the picture in a form afterwards. Returns the
/// rows that have changed.
fn update_rows(
    bytes: &[u8],
    width: u32,
    height: u32,
    form: Form,
    pixels: &mut [u32],
    pitch: usize,
) -> Rows
    requires fits { FitsBuffer bytes.now width height form pitch (length pixels.old) }
    ensures rows { AreRowsOfWords (div_ceil_of width form.across) (div_ceil_of height form.down)
        pitch (form_word form width bytes.now) pixels.old pixels.new }
    ensures changed { AreChangedRows (div_ceil_of width form.across)
        (div_ceil_of height form.down) pitch pixels.old pixels.new result }
{
    let first = count_rows_from_top(bytes, width, height, form, pixels, pitch);
    if first == div_ceil(height, form.down) {
        return Rows { first: 0, count: 0 };
    }
    let end = end_of_changes(bytes, width, height, form, pixels, pitch, first);
    write_rows(bytes, width, height, form, pixels, pitch);
    Rows {
        first,
        count: end - first,
    }
}

/// Brings the caller's words up to date with a picture, in a form, and tells which rows have
/// changed.
fn update_picture(
    drawn: Drawn<'_>,
    form: Form,
    picture: &mut WordPicture,
    pixels: &mut [u32],
    pitch: usize,
    changed: &mut Rows,
) -> u32
    requires small { IsPictureInBounds drawn }
    requires form { IsForm form }
    ensures picture { HasPictureInForm form (of_drawn drawn.entry) pitch picture.old picture.new
        pixels.old pixels.new result }
    ensures changed { TellsChangedRows pitch picture.new pixels.old pixels.new changed.old
        changed.new result }
{
    match drawn {
        Drawn::Picture(width, height, bytes) => {
            *picture = WordPicture {
                width: div_ceil(width, form.across),
                height: div_ceil(height, form.down),
                across: form.across,
                down: form.down,
            };
            let rows = picture.height as usize;
            if !has_room(picture.width as usize, rows, pitch, pixels.len()) {
                return NO_ROOM;
            }
            *changed = update_rows(bytes, width, height, form, pixels, pitch);
            DONE
        }
        Drawn::Ragged => RAGGED,
    }
}

/// Lets the clock of a machine run to the end of the frame under way, and brings the caller's words
/// up to date with its picture.
#[tactic(auto, using(crate::proofs::FrameLemmas::form_of_frame), unfolding(vga_run::specs::Step::after_step, vga_run::specs::Step::answer_to))]
fn update_frame_in_form(
    machine: &mut Machine,
    form: Form,
    picture: &mut WordPicture,
    pixels: &mut [u32],
    pitch: usize,
    changed: &mut Rows,
) -> u32
    requires { IsForm form }
    ensures after { machine.new ≡ after_step machine.old Frame }
    ensures picture { HasPictureInForm form (answer_to machine.old Frame) pitch picture.old
        picture.new pixels.old pixels.new result }
    ensures changed { TellsChangedRows pitch picture.new pixels.old pixels.new changed.old
        changed.new result }
{
    update_picture(machine.card.frame(), form, picture, pixels, pitch, changed)
}

/// Lets the clock of a machine run to the end of the frame under way, and brings the caller's words
/// up to date with its picture, in the form that the flags ask for. If an unknown flag is set,
/// nothing changes.
fn update_frame(
    machine: &mut Machine,
    flags: u32,
    picture: &mut WordPicture,
    pixels: &mut [u32],
    pitch: usize,
    changed: &mut Rows,
) -> u32
    ensures picture { DrawsFrameInForm flags machine.old machine.new pitch picture.old picture.new
        pixels.old pixels.new result }
    ensures changed { TellsChangedRows pitch picture.new pixels.old pixels.new changed.old
        changed.new result }
{
    if flags >= 4 {
        return BAD_ARGUMENT;
    }
    let form = form_of(flags, &machine.card);
    update_frame_in_form(machine, form, picture, pixels, pitch, changed)
}

/// Lets the clock run to the end of the frame under way, and brings the caller's words up to date
/// with its picture, in the form that the flags ask for. Tells which rows have changed: those whose
/// words differ from what they were.
#[unsafe(no_mangle)]
pub extern "C" fn zak_frame_update(
    alloc: Global,
    card: &mut Handle,
    flags: u32,
    picture: &mut WordPicture,
    pixels: &mut [u32],
    pitch: usize,
    changed: &mut Rows,
) -> u32
    ensures picture { DrawsOpenCardInForm flags card.old card.new pitch picture.old picture.new
        pixels.old pixels.new result }
    ensures changed { OpenCardTellsChangedRows card.old pitch picture.new pixels.old pixels.new
        changed.old changed.new result }
    ensures closed { ClosedCardStaysUnchanged card.old card.new result }
    ensures spared { ClosedCardLeavesOutput card.old picture.old picture.new }
    ensures pixels { ClosedCardLeavesOutput card.old pixels.old pixels.new }
    ensures rows { ClosedCardLeavesOutput card.old changed.old changed.new }
{
    on_open_card!(alloc, card, machine => {
        update_frame(machine, flags, picture, pixels, pitch, changed)
    })
}

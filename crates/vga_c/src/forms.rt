//! Pictures as rows of words, in the form that the caller asks for.
ghost use Rattle.std.specs.Prelude.{◌≡◌, ◌+◌, ◌-◌, ◌*◌, ◌<◌, ◌≤◌, ℕ, length, slice_index, bit_or};
ghost use Rattle.vga_card.specs.Frames.{IsPictureInBounds};
ghost use Rattle.vga_card.specs.Picture.{most_dots_of_a_line, most_lines_of_a_frame};
ghost use Rattle.vga_run.specs.Answer.{of_drawn};
ghost use Rattle.vga_run.specs.Step.{after_step, answer_to};
ghost use Rattle.vga_script.specs.declared.step.Step.TheVariants.{Frame};
ghost use Rattle.vga_c.specs.Cards.{ClosedCardStaysUnchanged, ClosedCardLeavesOutput};
ghost use Rattle.vga_c.specs.Forms.{AreRowsOfWords, IsForm, div_ceil as div_ceil_of};
ghost use Rattle.vga_c.specs.Forms.{rgb_word_of_dot as rgb_word_of_dot_of};
ghost use Rattle.vga_c.specs.Forms.{widened_to_eight_bits as eight_bits_of};
ghost use Rattle.vga_c.specs.Forms.{form_of as form_of_flags, form_word, DrawsFrameInForm, DrawsOpenCardInForm};
ghost use Rattle.vga_c.specs.Forms.{HasPictureInForm, has_room as has_room_of};

use crate::alike::are_bytes_known_same;
use crate::handle::{Handle, on_open_card};
use crate::status::{BAD_ARGUMENT, DONE, NO_ROOM, RAGGED};
use std::alloc::Global;
use vga_card::{Card, Drawn, PixelSize};
use vga_run::machine::Machine;

/// The size of a picture of words, width and height, and how many dots and scan lines of the screen
/// one word stands for.
#[repr(C)]
#[derive(Clone, Copy)]
pub struct WordPicture {
    pub width: u32,
    pub height: u32,
    pub across: u32,
    pub down: u32,
}

/// The form of a picture of words: every `across`-th dot of every `down`-th line has a word, and
/// each word has the bits of `above` above its colour.
#[derive(Clone, Copy)]
pub struct Form {
    pub across: u32,
    pub down: u32,
    pub above: u32,
}

/// Widens three components from six bits to eight, all at once: red is highest, blue lowest.
#[tactic(auto, using(crate::proofs::ColourLemmas::high_halves))]
fn eight_bits_each(red: u8, green: u8, blue: u8) -> u32
    ensures { result ≡ 0x1_0000 * eight_bits_of red + (0x100 * eight_bits_of green + eight_bits_of blue) }
{
    let six = 0x1_0000 * red as u32 + (0x100 * green as u32 + blue as u32);
    4 * six + (six / 16 & 0xF_0F0F)
}

/// The word of dot i of a picture.
pub(crate) fn rgb_word_of_dot(bytes: &[u8], i: usize) -> u32
    requires { 3 * i + 2 < length bytes.now }
    ensures { result ≡ rgb_word_of_dot_of bytes.now i }
{
    eight_bits_each(bytes[3 * i], bytes[3 * i + 1], bytes[3 * i + 2])
}

/// Writes a row of words to the caller's, from `at` on: the words of `count` dots, every
/// `across`-th from dot `first` on.
#[inline(always)]
pub(crate) fn write_row_of_words(
    bytes: &[u8],
    first: usize,
    form: Form,
    count: usize,
    pixels: &mut [u32],
    at: usize,
)
    requires dots { (x : ℕ) → x < count → 3 * (first + form.across * x) + 2 < length bytes.now }
    requires room { at + count ≤ length pixels.old }
    ensures words { (x : ℕ) → x < count → slice_index pixels.new (at + x)
        ≡ bit_or form.above (rgb_word_of_dot_of bytes.now (first + form.across * x)) }
    ensures before { (i : ℕ) → i < at → slice_index pixels.new i ≡ slice_index pixels.old i }
    ensures behind { (i : ℕ) → at + count ≤ i → slice_index pixels.new i ≡ slice_index pixels.old
        i }
    ensures size { length pixels.new ≡ length pixels.old }
{
    for x in 0..count {
        pixels[at + x] = form.above | rgb_word_of_dot(bytes, first + form.across as usize * x);
    }
}

/// How many of n there are if every m-th is taken, from the first on.
pub(crate) fn div_ceil(n: u32, m: u32) -> u32
    requires some { 0 < m }
    requires few { n + m ≤ 0x1_0000_0000 }
    ensures { result ≡ div_ceil_of n m }
{
    (n + (m - 1)) / m
}

/// Whether `len` words have room for rows at this pitch.
pub(crate) fn has_room(width: usize, height: usize, pitch: usize, len: usize) -> bool
    ensures { result ≡ has_room_of width height pitch len }
{
    match pitch.checked_mul(height) {
        Some(words) => width <= pitch && words <= len,
        None => false,
    }
}

/// Copies a row of `count` words to the row after it, which begins `pitch` words on, at `at`.
fn repeat_row_of_words(pixels: &mut [u32], at: usize, pitch: usize, count: usize)
    requires before { pitch ≤ at }
    requires apart { count ≤ pitch }
    requires room { at + count ≤ length pixels.old }
    ensures words { (x : ℕ) → x < count → slice_index pixels.new (at + x)
        ≡ slice_index pixels.old (at - pitch + x) }
    ensures before { (i : ℕ) → i < at → slice_index pixels.new i ≡ slice_index pixels.old i }
    ensures behind { (i : ℕ) → at + count ≤ i → slice_index pixels.new i ≡ slice_index pixels.old
        i }
    ensures size { length pixels.new ≡ length pixels.old }
{
    let (above, below) = pixels.split_at_mut(at);
    let from = at - pitch;
    below[..count].copy_from_slice(&above[from..from + count]);
}

/// Writes row y of the words of a picture in a form to the caller's, which have the rows before. A
/// row whose line is the same as that of the row before it is copied from there.
#[inline(always)]
fn write_row(
    bytes: &[u8],
    width: u32,
    form: Form,
    count: usize,
    pixels: &mut [u32],
    pitch: usize,
    y: usize,
)
    requires form { IsForm form }
    requires count { count ≡ div_ceil_of width form.across }
    requires width { width ≤ most_dots_of_a_line }
    requires row { y < most_lines_of_a_frame }
    requires dots { 3 * (width * (form.down * y + 1)) ≤ length bytes.now }
    requires pitch { count ≤ pitch }
    requires room { pitch * y + count ≤ length pixels.old }
    requires before { 0 < y → (x : ℕ) → x < count → slice_index pixels.old (pitch * (y - 1) + x)
        ≡ form_word form width bytes.now x (y - 1) }
    ensures words { (x : ℕ) → x < count → slice_index pixels.new (pitch * y + x)
        ≡ form_word form width bytes.now x y }
    ensures before { (i : ℕ) → i < pitch * y → slice_index pixels.new i ≡ slice_index pixels.old
        i }
    ensures behind { (i : ℕ) → pitch * y + count ≤ i → slice_index pixels.new i
        ≡ slice_index pixels.old i }
    ensures size { length pixels.new ≡ length pixels.old }
{
    let dots = width as usize;
    let down = form.down as usize;
    let first = dots * (down * y);
    if y > 0 && are_bytes_known_same(bytes, 3 * first, 3 * (dots * (down * (y - 1))), 3 * dots) {
        repeat_row_of_words(pixels, pitch * y, pitch, count);
    } else {
        write_row_of_words(bytes, first, form, count, pixels, pitch * y);
    }
}

/// Writes the words of a picture in a form to the caller's. A row begins `pitch` words after the
/// row before.
#[inline(always)]
pub(crate) fn write_rows(
    bytes: &[u8],
    width: u32,
    height: u32,
    form: Form,
    pixels: &mut [u32],
    pitch: usize,
)
    requires form { IsForm form }
    requires width { width ≤ most_dots_of_a_line }
    requires height { height ≤ most_lines_of_a_frame }
    requires dots { length bytes.now ≡ 3 * (width * height) }
    requires pitch { div_ceil_of width form.across ≤ pitch }
    requires room { pitch * div_ceil_of height form.down ≤ length pixels.old }
    ensures { AreRowsOfWords (div_ceil_of width form.across) (div_ceil_of height form.down) pitch
        (form_word form width bytes.now) pixels.old pixels.new }
{
    let count = div_ceil(width, form.across) as usize;
    for y in 0..div_ceil(height, form.down) as usize {
        write_row(bytes, width, form, count, pixels, pitch, y);
    }
}

/// The form that flags ask for.
pub(crate) fn form_of(flags: u32, card: &Card) -> Form
    ensures value { result ≡ form_of_flags flags card.now }
    ensures form { IsForm result }
{
    let PixelSize { width, height } = card.pixel_size();
    let is_once = flags / 2 % 2 == 1;
    Form {
        across: if is_once { width } else { 1 },
        down: if is_once { height } else { 1 },
        above: if flags % 2 == 1 { 0xFF00_0000 } else { 0 },
    }
}

/// Writes a picture to the caller's words, in a form.
fn write_picture_in_form(
    drawn: Drawn<'_>,
    form: Form,
    picture: &mut WordPicture,
    pixels: &mut [u32],
    pitch: usize,
) -> u32
    requires small { IsPictureInBounds drawn }
    requires form { IsForm form }
    ensures { HasPictureInForm form (of_drawn drawn.entry) pitch picture.old picture.new pixels.old
        pixels.new result }
{
    match drawn {
        Drawn::Picture(width, height, bytes) => {
            *picture = WordPicture {
                width: div_ceil(width, form.across),
                height: div_ceil(height, form.down),
                across: form.across,
                down: form.down,
            };
            let rows = picture.height as usize;
            if !has_room(picture.width as usize, rows, pitch, pixels.len()) {
                return NO_ROOM;
            }
            write_rows(bytes, width, height, form, pixels, pitch);
            DONE
        }
        Drawn::Ragged => RAGGED,
    }
}

/// Lets the clock of a machine run to the end of the frame under way, and writes its picture in a
/// form.
#[tactic(auto, using(crate::proofs::FrameLemmas::form_of_frame), unfolding(vga_run::specs::Step::after_step, vga_run::specs::Step::answer_to))]
fn draw_frame_in_form(
    machine: &mut Machine,
    form: Form,
    picture: &mut WordPicture,
    pixels: &mut [u32],
    pitch: usize,
) -> u32
    requires { IsForm form }
    ensures after { machine.new ≡ after_step machine.old Frame }
    ensures picture { HasPictureInForm form (answer_to machine.old Frame) pitch picture.old
        picture.new
        pixels.old pixels.new result }
{
    write_picture_in_form(machine.card.frame(), form, picture, pixels, pitch)
}

/// Lets the clock of a machine run to the end of the frame under way, and writes its picture in the
/// form that the flags ask for. If an unknown flag is set, nothing changes.
fn frame_words(
    machine: &mut Machine,
    flags: u32,
    picture: &mut WordPicture,
    pixels: &mut [u32],
    pitch: usize,
) -> u32
    ensures { DrawsFrameInForm flags machine.old machine.new pitch picture.old picture.new pixels.old
        pixels.new result }
{
    if flags >= 4 {
        return BAD_ARGUMENT;
    }
    let form = form_of(flags, &machine.card);
    draw_frame_in_form(machine, form, picture, pixels, pitch)
}

/// Lets the clock run to the end of the frame under way, and writes its picture as words, in the
/// form that the flags ask for. A row begins `pitch` words after the row before.
#[unsafe(no_mangle)]
pub extern "C" fn zak_frame_words(
    alloc: Global,
    card: &mut Handle,
    flags: u32,
    picture: &mut WordPicture,
    pixels: &mut [u32],
    pitch: usize,
) -> u32
    ensures picture { DrawsOpenCardInForm flags card.old card.new pitch picture.old picture.new pixels.old
        pixels.new result }
    ensures closed { ClosedCardStaysUnchanged card.old card.new result }
    ensures spared { ClosedCardLeavesOutput card.old picture.old picture.new }
    ensures pixels { ClosedCardLeavesOutput card.old pixels.old pixels.new }
{
    on_open_card!(alloc, card, machine => frame_words(machine, flags, picture, pixels, pitch))
}

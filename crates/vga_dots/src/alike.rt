//! The end of a line of text in which all characters look alike. Most lines have such an end. This
//! file serves speed alone: each of these characters could be drawn by itself.
ghost use Rattle.std.specs.Prelude.{◌≡◌, ℕ, List, ◌+◌, ◌-◌, ◌*◌, ◌<◌, ◌≤◌, length};
ghost use Rattle.vga_dots.specs.SourceDot.{counter_of_character};
ghost use Rattle.vga_dots.specs.Character.{AreTextCharactersOf};
ghost use Rattle.vga_dots.specs.Display.{ShowsText};
ghost use Rattle.vga_dots.specs.Line.{unpanned_colour};
ghost use Rattle.vga_dots.specs.Row.{bytes_of_dot, AreDotsPut, AreCharactersPut};
ghost use Rattle.vga_dots.specs.Alike.{IsCursorlessCell, RepeatCharacterBefore};

use crate::character::TextCharacters;
use crate::display::Display;
use crate::row::copy_dots;

/// How many bytes the dots of a character have at most.
const CHARACTER_BYTES: usize = 27;

/// How many of the `count` characters of text from `first` on must be drawn. Each character after
/// these looks like the last that is drawn.
pub(crate) fn count_characters_to_draw(
    display: &Display<'_>,
    characters: &TextCharacters,
    first: usize,
    count: usize,
) -> usize
    requires draws { AreTextCharactersOf characters.now display.now }
    requires first { first ≤ 300 }
    requires some { 0 < count }
    requires count { count ≤ 257 }
    ensures some { 0 < result }
    ensures few { result ≤ count }
    ensures alike { RepeatCharacterBefore result count (λ x. unpanned_colour display.now
        (first + x)) }
{
    let last = characters.cell(display, display.counter((first + count - 1) as u16));
    let mut drawn = count;
    while 0 < drawn
        && characters.is_cursorless_cell(
            display,
            display.counter((first + drawn - 1) as u16),
            last,
        )
    {
        drawn -= 1;
    }
    (drawn + 1).min(count)
}

/// Writes a character's dots, given in `dots`, into the row from dot `at` on.
fn copy_character_dots<const CW: usize>(row: &mut [u8], at: usize, dots: &[u8; 27])
    requires room { 3 * (at + CW) ≤ length row.old }
    requires width { CW < 10 }
    ensures { AreDotsPut CW at (λ i. bytes_of_dot dots.now i) row.old row.new }
{
    row[3 * at..3 * (at + CW)].copy_from_slice(&dots[..3 * CW]);
}

/// Copies the dots of character `drawn - 1` to each character after it, up to `count` in all. In
/// any picture in which these characters look alike, they are drawn then.
pub(crate) fn repeat_last_character<const CW: usize>(row: &mut [u8], drawn: usize, count: usize)
    requires some { 0 < drawn }
    requires more { drawn ≤ count }
    requires count { count ≤ 257 }
    requires width { CW < 10 }
    requires room { 3 * (count * CW) ≤ length row.old }
    ensures { (f : ℕ → ℕ → List ℕ) (old : List ℕ) → AreCharactersPut CW drawn f old row.old
        → RepeatCharacterBefore drawn count f → AreCharactersPut CW count f old row.new }
{
    let mut dots = [0; CHARACTER_BYTES];
    copy_dots(&mut dots, row, (drawn - 1) * CW, CW);
    for x in drawn..count {
        copy_character_dots::<CW>(row, x * CW, &dots);
    }
}

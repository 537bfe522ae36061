//! Dots of text, eight at once, by words. This file serves speed alone: each dot could be written
//! by itself.
ghost use Rattle.std.specs.Prelude.{◌≡◌, ℕ, List, ◌+◌, ◌-◌, ◌*◌, ◌/◌, ◌%◌, ◌<◌, ◌≤◌, length};
ghost use Rattle.std.specs.Prelude.{if◌then◌else◌, [], ◌∷◌, slice_index, bit_xor};
ghost use Rattle.vga_bits.specs.Bits.{is_set as is_set_of};
ghost use Rattle.vga_bits.specs.Words.{plane_byte_in_word};
ghost use Rattle.vga_dots.specs.Row.{AreDotsPut};
ghost use Rattle.vga_dots.specs.EightDots.{AreEightDotsOfColour, AreBytesPut, changed_dots};

use crate::row::put_dot;

/// For each set of dots 0, 1 and 2 of eight, of which bit 2 is dot 0, a word with all bits 1 in the
/// bytes of its dots, and 0 in the others: the first eight of the 24 bytes.
const FIRST_MASKS: [u64; 8] = [
    0x0000_0000_0000_0000,
    0xFFFF_0000_0000_0000,
    0x0000_FFFF_FF00_0000,
    0xFFFF_FFFF_FF00_0000,
    0x0000_0000_00FF_FFFF,
    0xFFFF_0000_00FF_FFFF,
    0x0000_FFFF_FFFF_FFFF,
    0xFFFF_FFFF_FFFF_FFFF,
];

/// The same for dots 2, 3, 4 and 5, of which bit 3 is dot 2: the next eight bytes.
const MIDDLE_MASKS: [u64; 16] = [
    0x0000_0000_0000_0000,
    0xFF00_0000_0000_0000,
    0x00FF_FFFF_0000_0000,
    0xFFFF_FFFF_0000_0000,
    0x0000_0000_FFFF_FF00,
    0xFF00_0000_FFFF_FF00,
    0x00FF_FFFF_FFFF_FF00,
    0xFFFF_FFFF_FFFF_FF00,
    0x0000_0000_0000_00FF,
    0xFF00_0000_0000_00FF,
    0x00FF_FFFF_0000_00FF,
    0xFFFF_FFFF_0000_00FF,
    0x0000_0000_FFFF_FFFF,
    0xFF00_0000_FFFF_FFFF,
    0x00FF_FFFF_FFFF_FFFF,
    0xFFFF_FFFF_FFFF_FFFF,
];

/// The same for dots 5, 6 and 7, of which bit 2 is dot 5: the last eight bytes.
const LAST_MASKS: [u64; 8] = [
    0x0000_0000_0000_0000,
    0xFFFF_FF00_0000_0000,
    0x0000_00FF_FFFF_0000,
    0xFFFF_FFFF_FFFF_0000,
    0x0000_0000_0000_FFFF,
    0xFFFF_FF00_0000_FFFF,
    0x0000_00FF_FFFF_FFFF,
    0xFFFF_FFFF_FFFF_FFFF,
];

/// Eight dots of one colour: 24 bytes, eight in each word, of which the first is the lowest.
#[derive(Clone, Copy)]
pub(crate) struct EightDots {
    pub first: u64,
    pub middle: u64,
    pub last: u64,
}

/// Eight bytes: three in turn, over and over.
fn repeated_bytes(first: u8, second: u8, third: u8) -> u64
    ensures { (p : ℕ) → p < 8 → plane_byte_in_word p result
        ≡ slice_index (first ∷ second ∷ third ∷ []) (p % 3) }
{
    let dot = first as u64 + 0x100 * second as u64 + 0x1_0000 * third as u64;
    dot + 0x100_0000 * dot + 0x1_0000_0000_0000 * (dot % 0x1_0000)
}

/// Eight black dots.
pub(crate) const BLACK_DOTS: EightDots = EightDots {
    first: 0,
    middle: 0,
    last: 0,
};

/// The bits in which eight dots differ from themselves: none.
pub(crate) const NO_CHANGE: EightDots = EightDots {
    first: 0,
    middle: 0,
    last: 0,
};

impl EightDots {
    /// The bits in which eight dots differ from others.
    pub(crate) fn changed_bits(self, other: EightDots) -> EightDots
        ensures { (c : List ℕ) → AreEightDotsOfColour other c
            → AreEightDotsOfColour (changed_dots self result) c }
    {
        EightDots {
            first: self.first ^ other.first,
            middle: self.middle ^ other.middle,
            last: self.last ^ other.last,
        }
    }

    /// Eight dots of a colour.
    pub(crate) fn of_colour(colour: [u8; 3]) -> EightDots
        ensures { AreEightDotsOfColour result colour }
    {
        let [red, green, blue] = colour;
        EightDots {
            first: repeated_bytes(red, green, blue),
            middle: repeated_bytes(blue, red, green),
            last: repeated_bytes(green, blue, red),
        }
    }
}

/// The first eight bytes of the dots of a line of a glyph: the ground's, changed where the dot is
/// lit. Bit 8 of `lit` is the leftmost dot.
fn first_bytes_of_glyph(lit: u16, ground: u64, change: u64) -> u64
    requires { lit < 512 }
    ensures { (p : ℕ) → p < 8 → plane_byte_in_word p result
        ≡ (if is_set_of lit (8 - p / 3) then plane_byte_in_word p (bit_xor ground change)
        else plane_byte_in_word p ground) }
{
    ground ^ (FIRST_MASKS[(lit >> 6) as usize] & change)
}

/// The next eight bytes of the dots of a line of a glyph.
fn middle_bytes_of_glyph(lit: u16, ground: u64, change: u64) -> u64
    ensures { (p : ℕ) → p < 8 → plane_byte_in_word p result
        ≡ (if is_set_of lit (8 - (8 + p) / 3) then plane_byte_in_word p (bit_xor ground change)
        else plane_byte_in_word p ground) }
{
    ground ^ (MIDDLE_MASKS[((lit >> 3) % 16) as usize] & change)
}

/// The last eight bytes of the first eight dots of a line of a glyph.
fn last_bytes_of_glyph(lit: u16, ground: u64, change: u64) -> u64
    ensures { (p : ℕ) → p < 8 → plane_byte_in_word p result
        ≡ (if is_set_of lit (8 - (16 + p) / 3) then plane_byte_in_word p (bit_xor ground change)
        else plane_byte_in_word p ground) }
{
    ground ^ (LAST_MASKS[((lit >> 1) % 8) as usize] & change)
}

/// Writes the eight bytes of a word.
fn write_eight_bytes(row: &mut [u8], from: usize, word: u64)
    requires { from + 8 ≤ length row.old }
    ensures { AreBytesPut 8 from (λ p. plane_byte_in_word p word) row.old row.new }
{
    row[from..from + 8].copy_from_slice(&word.to_le_bytes());
}

/// Writes a dot of the colour whose bytes a word has, over and over.
fn put_ninth_dot(row: &mut [u8], at: usize, first: u64)
    requires { 3 * (at + 1) ≤ length row.old }
    ensures { (c : List ℕ) → ((p : ℕ) → p < 8 → plane_byte_in_word p first ≡ slice_index c (p % 3))
        → AreDotsPut 1 at (λ i. c) row.old row.new }
{
    let red = (first % 0x100) as u8;
    let green = (first / 0x100 % 0x100) as u8;
    let blue = (first / 0x1_0000 % 0x100) as u8;
    put_dot(row, at, [red, green, blue]);
}

/// Writes the first eight dots of a line of a glyph.
#[inline(always)]
fn put_eight_dots(row: &mut [u8], at: usize, lit: u16, ground: EightDots, change: EightDots)
    requires dots { lit < 512 }
    requires room { 3 * (at + 8) ≤ length row.old }
    ensures { (g b : List ℕ) → AreEightDotsOfColour (changed_dots ground change) g
        → AreEightDotsOfColour ground b
        → AreDotsPut 8 at (λ i. if is_set_of lit (8 - i) then g else b) row.old row.new }
{
    let first = first_bytes_of_glyph(lit, ground.first, change.first);
    let middle = middle_bytes_of_glyph(lit, ground.middle, change.middle);
    let last = last_bytes_of_glyph(lit, ground.last, change.last);
    write_eight_bytes(row, 3 * at, first);
    write_eight_bytes(row, 3 * at + 8, middle);
    write_eight_bytes(row, 3 * at + 16, last);
}

/// Writes the dots of a line of a glyph: in the ground's colour, changed where `lit` has a bit. Bit
/// 8 is the leftmost dot.
#[inline(always)]
pub(crate) fn put_glyph<const CW: usize>(
    row: &mut [u8],
    at: usize,
    lit: u16,
    ground: EightDots,
    change: EightDots,
)
    requires dots { lit < 512 }
    requires room { 3 * (at + CW) ≤ length row.old }
    requires width { CW < 10 }
    requires eight { 8 ≤ CW }
    ensures { (g b : List ℕ) → AreEightDotsOfColour (changed_dots ground change) g
        → AreEightDotsOfColour ground b
        → AreDotsPut CW at (λ i. if is_set_of lit (8 - i) then g else b) row.old row.new }
{
    put_eight_dots(row, at, lit, ground, change);
    if CW == 9 {
        let changed = ground.first ^ change.first;
        put_ninth_dot(
            row,
            at + 8,
            if lit % 2 == 1 { changed } else { ground.first },
        );
    }
}

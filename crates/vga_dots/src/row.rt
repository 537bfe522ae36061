//! Dots in a row of bytes: red, green and blue of each in turn.
ghost use Rattle.std.specs.Prelude.{◌≡◌, ◌+◌, ◌-◌, ◌*◌, ◌/◌, ◌<◌, ◌≤◌, if◌then◌else◌, length, []};
ghost use Rattle.std.specs.Prelude.{nat_lt, slice_index_or};
ghost use Rattle.vga_dots.specs.Row.{plane_bits_in_word, bytes_of_dot, IsDotPut};
ghost use Rattle.vga_dots.specs.Row.{IsCharacterDotPut, AreDotsPut};
ghost use Rattle.vga_dots.specs.Row.{AreCharactersPut};

/// The colours of the 16 values of four bits, each with a byte more. Four bytes are moved at once,
/// three are not.
pub(crate) type PaletteColours = [[u8; 4]; 16];

/// The four colours of a character in 256 colours, and the colour of its ninth dot, each with a
/// byte more.
pub(crate) type PackedPixelColours = [[u8; 4]; 5];

/// The lowest bit of each plane of a word.
const LOWEST_BITS: u32 = 0x0101_0101;

/// The factor that brings the lowest bits of the four planes together in the highest four bits.
const GATHERING_FACTOR: u32 = 0x1020_4080;

/// Writes the three bytes of a dot.
pub(crate) fn put_dot(row: &mut [u8], at: usize, colour: [u8; 3])
    requires { 3 * at + 3 ≤ length row.old }
    ensures { IsDotPut row.old row.new at colour }
{
    row[3 * at] = colour[0];
    row[3 * at + 1] = colour[1];
    row[3 * at + 2] = colour[2];
}

/// Copies `count` dots, from dot `first` of `dots` on, to the start of the row.
pub(crate) fn copy_dots(row: &mut [u8], dots: &[u8], first: usize, count: usize)
    requires room { 3 * count ≤ length row.old }
    requires there { 3 * (first + count) ≤ length dots.now }
    ensures { AreDotsPut count 0 (λ i. bytes_of_dot dots.now (first + i)) row.old row.new }
{
    row[..3 * count].copy_from_slice(&dots[3 * first..3 * (first + count)]);
}

/// Writes the dots of a character in one colour.
fn put_one_colour_character<const CW: usize>(row: &mut [u8], at: usize, colour: [u8; 3])
    requires { 3 * (at + CW) ≤ length row.old }
    ensures { AreDotsPut CW at (λ i. colour) row.old row.new }
{
    for i in 0..CW {
        put_dot(row, at + i, colour);
    }
}

/// Fills the first `count` characters of the row with one colour.
pub(crate) fn fill_characters<const CW: usize>(row: &mut [u8], count: usize, colour: [u8; 3])
    requires count { count ≤ 257 }
    requires width { CW < 10 }
    requires room { 3 * (count * CW) ≤ length row.old }
    ensures { AreCharactersPut CW count (λ x i. colour) row.old row.new }
{
    for x in 0..count {
        put_one_colour_character::<CW>(row, x * CW, colour);
    }
}

/// Bit `place`, 0 to 7, of each plane of a word as one number, with plane 0 as the lowest bit. The
/// four bits are eight apart in the word; a product brings them together in its highest bits.
fn nibble(word: u32, place: u32) -> u8
    requires { place < 8 }
    ensures value { result ≡ plane_bits_in_word word place }
    ensures small { result < 16 }
{
    let bits = word & (LOWEST_BITS << place);
    (bits.wrapping_mul(GATHERING_FACTOR >> place) >> 28) as u8
}

/// Dot `i`, 0 to 8, of eight dots and a ninth, whose bits are in the planes of a word.
fn dot_from_planes(word: u32, i: usize) -> u8
    requires { i < 9 }
    ensures value { result ≡ (if nat_lt i 8 then plane_bits_in_word word (7 - i) else 0) }
    ensures small { result < 16 }
{
    if i < 8 { nibble(word, 7 - i as u32) } else { 0 }
}

/// Writes dot `i` of a character, and with it a byte of the dot after it, where there is one.
#[inline(always)]
fn put_padded_dot<const CW: usize>(row: &mut [u8], at: usize, i: usize, colour: [u8; 4])
    requires dot { i < CW }
    requires room { 3 * (at + CW) ≤ length row.old }
    ensures { IsCharacterDotPut CW at i colour row.old row.new }
{
    let from = 3 * (at + i);
    if i + 1 < CW {
        row[from..from + 4].copy_from_slice(&colour);
    } else {
        put_dot(row, at + i, [colour[0], colour[1], colour[2]]);
    }
}

/// Writes the dots of a character in 16 colours, whose bits are in the planes of a word.
pub(crate) fn put_planar_character<const CW: usize>(
    row: &mut [u8],
    at: usize,
    word: u32,
    table: &PaletteColours,
)
    requires room { 3 * (at + CW) ≤ length row.old }
    requires width { CW < 10 }
    ensures { AreDotsPut CW at (λ i. slice_index_or table.now (if nat_lt i 8
        then plane_bits_in_word word (7 - i) else 0) []) row.old row.new }
{
    for i in 0..CW {
        put_padded_dot::<CW>(row, at, i, table[dot_from_planes(word, i) as usize]);
    }
}

/// Writes the dots of a character in 256 colours, two for each of its four colours, and a ninth.
pub(crate) fn put_packed_character<const CW: usize>(
    row: &mut [u8],
    at: usize,
    pixels: &PackedPixelColours,
)
    requires room { 3 * (at + CW) ≤ length row.old }
    requires width { CW < 10 }
    ensures { AreDotsPut CW at (λ i. slice_index_or pixels.now (i / 2) []) row.old row.new }
{
    for i in 0..CW {
        put_padded_dot::<CW>(row, at, i, pixels[i / 2]);
    }
}

//! Text that is made piece by piece, without allocating memory.
ghost use Rattle.std.specs.Prelude.{◌≡◌, ◌+◌, ◌<◌, ◌≤◌, ◌++◌, [], length, take, slice_set, decimal};
ghost use Rattle.vga_bits.specs.Hex.{hex, hex_digit as hex_digit_of, two_hex_digits};
ghost use Rattle.vga_bits.specs.Hex.{four_hex_digits};

use arrayvec::ArrayVec;
use itoa::Buffer;
use std::marker::Model;

/// The hexadecimal digit of a number below 16, in upper case.
pub fn hex_digit(n: u8) -> u8
    requires { n < 16 }
    ensures { result ≡ hex_digit_of n }
{
    if n < 10 { b'0' + n } else { b'A' + (n - 10) }
}

/// A text of at most ROOM bytes, which grows at its end.
///
/// Contracts see the list of its bytes.
#[derive(Drop)]
pub struct TextBuffer<const ROOM: usize> {
    bytes: ArrayVec<u8, ROOM>,
}

impl<const ROOM: usize> Model for TextBuffer<ROOM> {
    ghost use Rattle.std.specs.Prelude.{ℕ, List};

    ghost Value = { List ℕ };

    ghost view = { λ t. t.bytes.items };
}

impl<const ROOM: usize> TextBuffer<ROOM> {
    /// No text yet.
    pub fn new() -> TextBuffer<ROOM>
        ensures { result ≡ [] }
    {
        TextBuffer {
            bytes: ArrayVec::new(),
        }
    }

    /// How many bytes the text has.
    pub fn len(&self) -> usize
        ensures { result ≡ length self.now }
    {
        self.as_slice().len()
    }

    /// Appends some bytes. There is room for them.
    pub fn push(&mut self, text: &[u8])
        requires { length self.old + length text.now ≤ ROOM }
        ensures items { self.new ≡ self.old ++ text.now }
        ensures len { length self.new ≡ length self.old + length text.now }
    {
        let _ = self.bytes.try_extend_from_slice(text);
    }

    /// Keeps only the first `len` bytes.
    pub fn truncate(&mut self, len: usize)
        requires { len ≤ length self.old }
        ensures items { self.new ≡ take len self.old }
        ensures len { length self.new ≡ len }
    {
        self.bytes.truncate(len);
    }

    /// Sets the byte at index `i`, below the length, to `value`. The others stay the same.
    pub fn set(&mut self, i: usize, value: u8)
        requires { i < length self.old }
        ensures items { self.new ≡ slice_set self.old i value }
        ensures len { length self.new ≡ length self.old }
    {
        self.bytes.as_mut_slice()[i] = value;
    }

    /// Keeps the first `at` bytes and replaces the others by `text`. There is room for it. If
    /// `text` is as long as the bytes that it replaces, it overwrites them in place.
    #[inline(always)]
    pub fn replace_end(&mut self, at: usize, text: &[u8])
        requires within { at ≤ length self.old }
        requires room { at + length text.now ≤ ROOM }
        ensures items { self.new ≡ take at self.old ++ text.now }
        ensures len { length self.new ≡ at + length text.now }
    {
        if at + text.len() == self.len() {
            self.bytes.as_mut_slice()[at..].copy_from_slice(text);
        } else {
            self.truncate(at);
            self.push(text);
        }
    }

    /// Appends a number in decimal. There is room for ten digits.
    pub fn push_decimal(&mut self, n: u32)
        requires { length self.old + 10 ≤ ROOM }
        ensures items { self.new ≡ self.old ++ decimal n }
        ensures len { length self.new ≤ length self.old + 10 }
    {
        let mut digits = Buffer::new();
        self.push(digits.format(n).as_bytes());
    }

    /// Appends a size in decimal. There is room for 20 digits.
    pub fn push_decimal_size(&mut self, size: usize)
        requires { length self.old + 20 ≤ ROOM }
        ensures items { self.new ≡ self.old ++ decimal size }
        ensures len { length self.new ≤ length self.old + 20 }
    {
        let mut digits = Buffer::new();
        self.push(digits.format(size).as_bytes());
    }

    /// Appends the lowest `digits` hexadecimal digits of a number. There is room for them.
    #[tactic(auto, using(crate::proofs::HexLemmas::hex_none, crate::proofs::HexLemmas::hex_pushed))]
    pub fn push_hex(&mut self, n: u32, digits: usize)
        requires { length self.old + digits ≤ ROOM }
        ensures items { self.new ≡ self.old ++ hex digits n }
        ensures len { length self.new ≡ length self.old + digits }
    {
        if digits > 0 {
            self.push_hex(n / 16, digits - 1);
            self.push(&[hex_digit((n % 16) as u8)]);
        }
    }

    /// Appends the two hexadecimal digits of a byte. There is room for them.
    #[tactic(auto, using(crate::proofs::HexLemmas::hex_of_byte))]
    pub fn push_hex_byte(&mut self, v: u8)
        requires { length self.old + 2 ≤ ROOM }
        ensures items { self.new ≡ self.old ++ two_hex_digits v }
        ensures len { length self.new ≡ length self.old + 2 }
    {
        self.push(&[hex_digit(v / 16), hex_digit(v % 16)]);
    }

    /// Appends the four hexadecimal digits of a word. There is room for them.
    #[tactic(auto, using(crate::proofs::HexLemmas::hex_of_word))]
    pub fn push_hex_word(&mut self, v: u16)
        requires { length self.old + 4 ≤ ROOM }
        ensures items { self.new ≡ self.old ++ four_hex_digits v }
        ensures len { length self.new ≡ length self.old + 4 }
    {
        self.push(&[
            hex_digit((v / 4096) as u8),
            hex_digit((v / 256 % 16) as u8),
            hex_digit((v / 16 % 16) as u8),
            hex_digit((v % 16) as u8),
        ]);
    }

    /// The text's bytes, borrowed as a slice.
    pub fn as_slice(&self) -> &[u8]
        ensures { result.now ≡ self.now }
    {
        self.bytes.as_slice()
    }
}

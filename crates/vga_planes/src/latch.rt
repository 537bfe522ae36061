//! One byte for each plane.
ghost use Rattle.std.specs.Prelude.{◌≡◌, ◌<◌, ℕ, slice_index};
ghost use Rattle.std.specs.Int.{bit_at};
ghost use Rattle.vga_bits.specs.Four.{four_by_plane, of_plane};
ghost use Rattle.vga_bits.specs.Words.{plane_bytes_of_word, plane_bit_in_word};

use std::marker::Model;

/// One byte for each of the four planes: what the latches hold, or what a write would store.
///
/// Contracts see one number for each plane.
#[derive(Clone, Copy)]
pub struct Latch {
    word: u32,
}

impl Model for Latch {
    ghost use Rattle.std.specs.Prelude.{ℕ, ◌<◌};
    ghost use Rattle.vga_bits.specs.Four.{Four};
    ghost use Rattle.vga_bits.specs.Words.{plane_bytes_of_word, word_of_plane_bytes};
    ghost use Rattle.vga_bits.specs.Words.{word_of_its_plane_bytes};

    ghost Value = { Four ℕ };

    ghost view = { λ l. plane_bytes_of_word l.word };

    ghost invariant = { λ l. l.word < 4294967296 };

    ghost inverse = { λ f. record { word = word_of_plane_bytes f } };

    ghost inverse_ok = { λ l h i. record { word = word_of_its_plane_bytes l.word h i } };
}

impl Latch {
    /// The byte of plane p is `bytes[p]`.
    pub fn new(bytes: [u8; 4]) -> Latch
        ensures { result ≡ four_by_plane (λ p. slice_index bytes p) }
    {
        let [byte0, byte1, byte2, byte3] = bytes;
        let low = byte0 as u32 + byte1 as u32 * 0x100;
        Latch {
            word: low + byte2 as u32 * 0x1_0000 + byte3 as u32 * 0x100_0000,
        }
    }

    /// The byte of plane p is bits 8p + 7 to 8p of the word.
    pub fn from_word(word: u32) -> Latch
        ensures { result ≡ plane_bytes_of_word word }
    {
        Latch { word }
    }

    /// The four bytes as a word: bits 8p + 7 to 8p are the byte of plane p.
    #[tactic(auto, using(vga_bits::proofs::WordLemmas::word_bit_plane))]
    pub fn word(&self) -> u32
        ensures bytes { plane_bytes_of_word result ≡ self.now }
        ensures bits { (p i : ℕ) → p < 4 → i < 8 → plane_bit_in_word result p i
            ≡ bit_at (of_plane self.now p) i }
    {
        self.word
    }

    /// Each byte is below 256. The clause is for proofs: nothing runs.
    pub fn bounds(&self)
        ensures { (p : ℕ) → p < 4 → of_plane self.now p < 256 }
    {
        let _ = self.word();
    }

    /// The byte of a plane, 0 to 3.
    #[tactic(auto, using(vga_bits::proofs::WordLemmas::byte_of_plane))]
    pub fn byte(&self, plane: usize) -> u8
        requires { plane < 4 }
        ensures { result ≡ of_plane self.now plane }
    {
        ((self.word >> (8 * plane as u32)) % 256) as u8
    }
}

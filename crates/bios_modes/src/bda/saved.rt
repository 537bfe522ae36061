//! The BIOS data as bytes.
ghost use Rattle.std.specs.Prelude.{◌≡◌, ◌+◌, ◌≤◌, ◌↔◌, length, IsTrue};
ghost use Rattle.std.specs.List.{flat_map};
ghost use Rattle.vga_bits.specs.Saved.{word_bytes, first_words, IsPut};
ghost use Rattle.bios_modes.specs.Valid.{IsValid};
ghost use Rattle.bios_modes.specs.Saved.{saved_before_positions, saved_after_positions};
ghost use Rattle.bios_modes.specs.Saved.{saved_bda, bda_from, IsSavedBda};

use super::{Bda, PAGES};
use vga_bits::{high_byte, low_byte, put_bytes, put_word, word_at};

/// Puts the cursor positions into a slice from index `at` on, and gives the index after them.
fn put_cursor_positions(out: &mut [u8], at: usize, places: &[u16; PAGES]) -> usize
    requires { at + 16 ≤ length out.old }
    ensures put { IsPut out.old out.new at result (flat_map word_bytes places.now) }
    ensures end { result ≡ at + 16 }
{
    let mut next = at;
    for page in 0..PAGES {
        next = put_word(out, next, places[page]);
    }
    next
}

/// The cursor positions that the first sixteen bytes spell.
fn cursor_positions_from(bytes: &[u8]) -> [u16; PAGES]
    requires { 16 ≤ length bytes.now }
    ensures { result ≡ first_words 8 bytes.now }
{
    let mut places = [0; PAGES];
    for page in 0..PAGES {
        places[page] = word_at(bytes, 2 * page);
    }
    places
}

impl Bda {
    /// How many bytes BIOS data have when they are saved.
    pub const SAVED_LEN: usize = 31;

    /// The bytes before the cursor positions.
    fn prefix(&self) -> [u8; 7]
        ensures { result ≡ saved_before_positions self.now }
    {
        [
            self.mode,
            low_byte(self.columns),
            high_byte(self.columns),
            low_byte(self.size),
            high_byte(self.size),
            low_byte(self.start),
            high_byte(self.start),
        ]
    }

    /// The bytes after the cursor positions.
    fn back(&self) -> [u8; 8]
        ensures { result ≡ saved_after_positions self.now }
    {
        [
            low_byte(self.cursor_type),
            high_byte(self.cursor_type),
            self.page,
            low_byte(self.crtc_address),
            high_byte(self.crtc_address),
            self.last_row,
            low_byte(self.height),
            high_byte(self.height),
        ]
    }

    /// Puts the bytes of the BIOS data into a slice from index `at` on, and gives the index after
    /// them: all fields in the order of their offsets, with the low byte of a word first.
    #[tactic(auto, unfolding(crate::specs::Saved::saved_bda))]
    pub fn save(&self, out: &mut [u8], at: usize) -> usize
        requires { at + 31 ≤ length out.old }
        ensures put { IsPut out.old out.new at result (saved_bda self.now) }
        ensures end { result ≡ at + 31 }
    {
        let at = put_bytes(out, at, &self.prefix());
        let at = put_cursor_positions(out, at, &self.cursor_places);
        put_bytes(out, at, &self.back())
    }

    /// The BIOS data that these 31 bytes spell.
    #[tactic(auto, unfolding(crate::specs::Saved::bda_from))]
    fn from_saved(bytes: &[u8]) -> Bda
        requires { length bytes.now ≡ 31 }
        ensures { result ≡ bda_from bytes.now }
    {
        let rest = bytes.split_at(7).1;
        let back = rest.split_at(2 * PAGES).1;
        Bda {
            mode: bytes[0],
            columns: word_at(bytes, 1),
            size: word_at(bytes, 3),
            start: word_at(bytes, 5),
            cursor_places: cursor_positions_from(rest),
            cursor_type: word_at(back, 0),
            page: back[2],
            crtc_address: word_at(back, 3),
            last_row: back[5],
            height: word_at(back, 6),
        }
    }

    /// Whether the bytes are those of valid BIOS data.
    pub fn is_saved(bytes: &[u8]) -> bool
        ensures { IsTrue result ↔ IsSavedBda bytes.now }
    {
        bytes.len() == Bda::SAVED_LEN && Bda::from_saved(bytes).valid()
    }

    /// Replaces all fields by those that the bytes of BIOS data spell.
    pub fn restore(&mut self, bytes: &[u8])
        requires { IsSavedBda bytes.now }
        ensures { self.new ≡ bda_from bytes.now }
    {
        *self = Bda::from_saved(bytes);
    }

    /// Saved data are restored completely, and the bytes of valid data are valid. The clauses are
    /// for proofs: the function does nothing.
    #[tactic(auto, using(crate::proofs::SavedLemmas::bda_is_saved, crate::proofs::SavedLemmas::bda_is_back, crate::proofs::SavedLemmas::bda_len))]
    pub fn restore_gives_what_was_saved(&self)
        ensures saved { IsValid self.now → IsSavedBda (saved_bda self.now) }
        ensures back { bda_from (saved_bda self.now) ≡ self.now }
        ensures len { length (saved_bda self.now) ≡ 31 }
    {
        self.bounds();
    }
}

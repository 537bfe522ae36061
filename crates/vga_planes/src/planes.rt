//! Four planes of 65,536 bytes.
ghost use Rattle.std.specs.Prelude.{◌≡◌, ◌<◌, vec_len, IfOk, IsOkUnless};
ghost use Rattle.vga_bits.specs.Bytes.{zeros as zeros_of};
ghost use Rattle.vga_planes.specs.Planes.{byte_at, bytes_at, with_bytes_at_offset, zero_planes};
ghost use Rattle.vga_planes.specs.Planes.{IsDisplayMemory};
ghost use Rattle.vga_bits.specs.Words.{plane_bytes_of_word};

mod saved;

use super::latch::Latch;
use super::plane_words::{mask_of_planes, merged_by_mask};
use std::alloc::Global;
use std::marker::Model;
use vga_bits::Fault;

/// A set of planes: bit p, 0 to 3, selects plane p. The other bits are ignored.
pub type PlaneSet = u8;

/// How many bytes a plane has.
const PLANE_LEN: usize = 65536;

/// Four planes of 65,536 bytes.
///
/// Contracts see one list of bytes for each plane.
#[derive(Drop)]
pub struct Planes {
    words: Vec<u32>,
}

impl Model for Planes {
    ghost use Rattle.std.specs.Prelude.{ℕ, List, ◌≡◌, vec_len};
    ghost use Rattle.vga_bits.specs.Four.{Four};

    ghost Value = { Four (List ℕ) };

    ghost use Rattle.vga_planes.specs.PlaneWords.{planes_of_words};

    ghost view = { λ p. planes_of_words p.words.items };

    ghost invariant = { λ p. vec_len p.words ≡ 65536 };
}

/// `len` words, each 0. It fails only with `OutOfMemory`.
#[tactic(auto, unfolding(vga_bits::specs::Bytes::zeros))]
fn zeros(alloc: Global, len: usize) -> Result<Vec<u32>, Fault>
    ensures items { IfOk result (λ v. v.items ≡ zeros_of len) }
    ensures len { IfOk result (λ v. vec_len v ≡ len) }
    ensures err { IsOkUnless result Fault.OutOfMemory }
{
    match vec![in alloc; 0; len] {
        Ok(words) => Ok(words),
        Err(_) => Err(Fault::OutOfMemory),
    }
}

impl Planes {
    /// All bytes 0, as at power-on. It fails only with `OutOfMemory`.
    pub fn new(alloc: Global) -> Result<Planes, Fault>
        ensures zeros { IfOk result (λ planes. planes ≡ zero_planes) }
        ensures err { IsOkUnless result Fault.OutOfMemory }
    {
        let words = zeros(alloc, PLANE_LEN)?;
        Ok(Planes { words })
    }

    /// Each plane has 65,536 bytes, and each of them is below 256. The clause is for proofs:
    /// nothing runs.
    pub fn bounds(&self)
        ensures { IsDisplayMemory self.now }
    {
        let _ = &self.words;
    }

    /// The byte of a plane, 0 to 3, at an offset.
    pub fn byte(&self, plane: usize, offset: u16) -> u8
        requires { plane < 4 }
        ensures { result ≡ byte_at self.now plane offset }
    {
        Latch::from_word(self.words[offset as usize]).byte(plane)
    }

    /// The four bytes at an offset as a word: bits 8p + 7 to 8p are the byte of plane p.
    pub fn word(&self, offset: u16) -> u32
        ensures { plane_bytes_of_word result ≡ bytes_at self.now offset }
    {
        self.words[offset as usize]
    }

    /// The four bytes at an offset.
    pub fn load(&self, offset: u16) -> Latch
        ensures { result ≡ bytes_at self.now offset }
    {
        Latch::from_word(self.word(offset))
    }

    /// Stores the latch's bytes at an offset, in the planes of the set. Nothing else changes.
    pub fn store(&mut self, offset: u16, latch: Latch, set: PlaneSet)
        ensures { self.new ≡ with_bytes_at_offset self.old offset latch set }
    {
        let mask = mask_of_planes(set);
        let source = latch.word();
        let at = &mut self.words[offset as usize];
        *at = merged_by_mask(source, mask, *at);
    }

    /// Stores two latches' bytes at the same offset, each in the planes of its set, the second after
    /// the first. Nothing else changes.
    #[inline(always)]
    fn store_two(
        &mut self,
        offset: u16,
        first: Latch,
        first_set: PlaneSet,
        second: Latch,
        second_set: PlaneSet,
    )
        ensures { self.new ≡ with_bytes_at_offset
            (with_bytes_at_offset self.old offset first first_set) offset second second_set }
    {
        let first_mask = mask_of_planes(first_set);
        let second_mask = mask_of_planes(second_set);
        let first_source = first.word();
        let second_source = second.word();
        let at = &mut self.words[offset as usize];
        let word = merged_by_mask(first_source, first_mask, *at);
        *at = merged_by_mask(second_source, second_mask, word);
    }

    /// Stores two latches' bytes in turn, each at its offset, in the planes of its set. Nothing else
    /// changes. Two bytes at the same offset are stored as one word.
    #[inline(always)]
    pub fn store_in_turn(
        &mut self,
        first_offset: u16,
        first: Latch,
        first_set: PlaneSet,
        second_offset: u16,
        second: Latch,
        second_set: PlaneSet,
    )
        ensures { self.new ≡ with_bytes_at_offset
            (with_bytes_at_offset self.old first_offset first first_set) second_offset second
            second_set }
    {
        if first_offset == second_offset {
            self.store_two(first_offset, first, first_set, second, second_set);
        } else {
            self.store(first_offset, first, first_set);
            self.store(second_offset, second, second_set);
        }
    }
}

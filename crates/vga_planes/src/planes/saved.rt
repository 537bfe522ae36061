//! The display memory as bytes.
ghost use Rattle.std.specs.Prelude.{◌≡◌, ◌+◌, ◌<◌, ◌≤◌, length};
ghost use Rattle.vga_bits.specs.Four.{of_plane};
ghost use Rattle.vga_bits.specs.Saved.{IsPut};
ghost use Rattle.vga_planes.specs.Saved.{saved_memory, memory_from};
ghost use Rattle.vga_planes.specs.PlaneWords.{planes_of_words};

use super::{PLANE_LEN, Planes};
use crate::latch::Latch;

/// Makes word `i` from byte `i` of each plane.
fn join_planes(words: &mut [u32], plane0: &[u8], plane1: &[u8], plane2: &[u8], plane3: &[u8])
    requires len0 { length plane0.now ≡ length words.old }
    requires len1 { length plane1.now ≡ length words.old }
    requires len2 { length plane2.now ≡ length words.old }
    requires len3 { length plane3.now ≡ length words.old }
    ensures { planes_of_words words.new ≡ record {
      plane0 = plane0.now;
      plane1 = plane1.now;
      plane2 = plane2.now;
      plane3 = plane3.now;
    } }
{
    for i in 0..words.len() {
        words[i] = Latch::new([plane0[i], plane1[i], plane2[i], plane3[i]]).word();
    }
}

/// Takes the byte of a plane, 0 to 3, out of each word.
fn split_plane(words: &[u32], plane: usize, out: &mut [u8])
    requires plane { plane < 4 }
    requires len { length out.old ≡ length words.now }
    ensures { out.new ≡ of_plane (planes_of_words words.now) plane }
{
    for i in 0..words.len() {
        out[i] = Latch::from_word(words[i]).byte(plane);
    }
}

impl Planes {
    /// How many bytes the display memory has when it is saved.
    pub const SAVED_LEN: usize = 262_144;

    /// Puts the bytes of a plane, 0 to 3, into a slice from index `at` on. It returns the index
    /// after them.
    pub fn save_plane(&self, plane: usize, out: &mut [u8], at: usize) -> usize
        requires plane { plane < 4 }
        requires room { at + 65536 ≤ length out.old }
        ensures put { IsPut out.old out.new at result (of_plane self.now plane) }
        ensures end { result ≡ at + 65536 }
    {
        let end = at + PLANE_LEN;
        split_plane(self.words.as_slice(), plane, &mut out[at..end]);
        end
    }

    /// Puts the bytes of all planes, one plane after another, into a slice from index `at` on. It
    /// returns the index after them.
    #[tactic(auto, unfolding(crate::specs::Saved::saved_memory))]
    pub fn save(&self, out: &mut [u8], at: usize) -> usize
        requires { at + 262144 ≤ length out.old }
        ensures put { IsPut out.old out.new at result (saved_memory self.now) }
        ensures end { result ≡ at + 262144 }
    {
        let at = self.save_plane(0, out, at);
        let at = self.save_plane(1, out, at);
        let at = self.save_plane(2, out, at);
        self.save_plane(3, out, at)
    }

    /// Restores all planes from their bytes, one plane after another.
    pub fn restore(&mut self, bytes: &[u8])
        requires { length bytes.now ≡ 262144 }
        ensures { self.new ≡ memory_from bytes.now }
    {
        let (plane0, rest) = bytes.split_at(PLANE_LEN);
        let (plane1, rest) = rest.split_at(PLANE_LEN);
        let (plane2, plane3) = rest.split_at(PLANE_LEN);
        join_planes(self.words.as_mut_slice(), plane0, plane1, plane2, plane3);
    }

    /// Saved planes are restored in full. The clauses are for proofs: nothing runs.
    #[tactic(auto, using(crate::proofs::SavedLemmas::memory_len, crate::proofs::SavedLemmas::memory_is_back))]
    pub fn restore_gives_what_was_saved(&self)
        ensures len { length (saved_memory self.now) ≡ 262144 }
        ensures back { memory_from (saved_memory self.now) ≡ self.now }
    {
        self.bounds();
    }
}

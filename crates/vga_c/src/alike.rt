//! Lines of a picture that are the same as the line above them: those of doubled lines, and empty
//! ones. This file serves speed alone: the words of each line could be made from its dots.
ghost use Rattle.std.specs.Prelude.{◌≡◌, ◌+◌, ◌<◌, ◌≤◌, ℕ, true, length, slice_index};

use crate::lane_sums::word_at;

/// How many bytes are compared at once.
const WORD: usize = 8;

/// True only if the eight bytes from `at` on are those from `other` on.
#[inline(always)]
fn is_word_same(bytes: &[u8], at: usize, other: usize) -> bool
    requires room { at + 8 ≤ length bytes.now }
    requires other { other + 8 ≤ length bytes.now }
    ensures { result ≡ true → (i : ℕ) → i < 8
        → slice_index bytes.now (at + i) ≡ slice_index bytes.now (other + i) }
{
    word_at(bytes, at) == word_at(bytes, other)
}

/// True only if the `count` bytes from `at` on are those from `other` on. Fewer than eight bytes
/// are not compared.
pub(crate) fn are_bytes_known_same(bytes: &[u8], at: usize, other: usize, count: usize) -> bool
    requires room { at + count ≤ length bytes.now }
    requires other { other + count ≤ length bytes.now }
    ensures { result ≡ true → (i : ℕ) → i < count
        → slice_index bytes.now (at + i) ≡ slice_index bytes.now (other + i) }
{
    if count < WORD {
        return false;
    }
    let last = count - WORD;
    let mut same = 0;
    while same < last && is_word_same(bytes, at + same, other + same) {
        same += WORD;
    }
    last <= same && is_word_same(bytes, at + last, other + last)
}

//! The data path of a write, and of a read that compares. It handles eight bits at once, or the
//! four bytes of a word.
ghost use Rattle.std.specs.Prelude.{◌≡◌, ◌==◌, ◌+◌, ◌%◌, ◌<◌, ◌&&◌, ℕ, if◌then◌else◌};
ghost use Rattle.std.specs.Int.{bit_at};
ghost use Rattle.vga_bits.specs.Words.{plane_bit_in_word};
ghost use Rattle.vga_host.specs.Memory.Write.{combined_by_function};

/// The byte, rotated right by 0 to 7 bits.
#[tactic(auto, using(vga_bits::proofs::BitLemmas::bit_at_rotate))]
pub(crate) fn rotated_right(v: u8, by: u8) -> u8
    requires { by < 8 }
    ensures { (i : ℕ) → i < 8 → bit_at result i ≡ bit_at v ((i + by) % 8) }
{
    v.rotate_right(by as u32)
}

/// Combines each bit of the source with its latch bit: function 0 keeps the source, 1 is AND, 2 is
/// OR, and 3 is XOR.
#[tactic(auto, using(vga_bits::proofs::WordLemmas::word_bit_and, vga_bits::proofs::WordLemmas::word_bit_or, vga_bits::proofs::WordLemmas::word_bit_xor))]
pub(crate) fn combined(function: u8, source: u32, latch: u32) -> u32
    requires { function < 4 }
    ensures { (p i : ℕ) → plane_bit_in_word result p i ≡ combined_by_function function
        (plane_bit_in_word source p i)
        (plane_bit_in_word latch p i) }
{
    match function {
        0 => source,
        1 => source & latch,
        2 => source | latch,
        _ => source ^ latch,
    }
}

/// The byte that has 1 in each bit that is 0 in all four planes.
#[tactic(auto, using(vga_bits::proofs::WordLemmas::word_bit_folded))]
pub(crate) fn bits_clear_in_all_planes(word: u32) -> u8
    ensures { (i : ℕ) → i < 8 → bit_at result i ≡ (if (plane_bit_in_word word 0 i == 0)
        && ((plane_bit_in_word word 1 i == 0) && ((plane_bit_in_word word 2 i == 0)
        && (plane_bit_in_word word 3 i == 0)))
        then 1 else 0) }
{
    let half = word | (word >> 16);
    let all = half | (half >> 8);
    !((all % 256) as u8)
}

//! The sums of Adler-32 over eight bytes at once. This file serves speed alone.
ghost use Rattle.std.specs.Prelude.{◌≡◌, ◌+◌, ◌*◌, ◌/◌, ◌%◌, ◌^◌, ◌++◌, ◌<◌, ◌≤◌, ℕ, List, length, slice_index};
ghost use Rattle.vga_bits.specs.Words.{plane_byte_in_word};
ghost use Rattle.vga_c.specs.LaneSums.{lane, AreLanesOfBytes, sum_of_lanes, sum_of_sums_of_lanes};
ghost use Rattle.vga_c.specs.Checksum.{adler_from};

/// The even bytes of a word, each in a lane of 16 bits.
const EVEN_BYTES: u64 = 0x00FF_00FF_00FF_00FF;

/// Sums of the even bytes and of the odd bytes of words, four of each, and the sums of those sums.
#[derive(Clone, Copy)]
pub(crate) struct LaneSums {
    pub even: u64,
    pub odd: u64,
    pub even_sums: u64,
    pub odd_sums: u64,
}

/// The even bytes of a word, each in a lane.
fn even_bytes(word: u64) -> u64
    ensures { (k : ℕ) → k < 4 → lane k result ≡ plane_byte_in_word (2 * k) word }
{
    word & EVEN_BYTES
}

/// The odd bytes of a word, each in a lane.
fn odd_bytes(word: u64) -> u64
    ensures { (k : ℕ) → k < 4 → lane k result ≡ plane_byte_in_word (2 * k + 1) word }
{
    even_bytes(word >> 8)
}

/// Adds lane to lane.
fn add_lanes(a: u64, b: u64) -> u64
    requires { (k : ℕ) → k < 4 → lane k a + lane k b < 65536 }
    ensures { (k : ℕ) → k < 4 → lane k result ≡ lane k a + lane k b }
{
    a + b
}

/// Adds a word to sums of at most 15 words.
fn add_word(n: u32, sums: LaneSums, word: u64) -> LaneSums
    requires few { n < 16 }
    requires lanes { AreLanesOfBytes n sums }
    ensures lanes { AreLanesOfBytes (n + 1) result }
    ensures even { (k : ℕ) → k < 4 → lane k result.even
        ≡ lane k sums.even + plane_byte_in_word (2 * k) word }
    ensures odd { (k : ℕ) → k < 4 → lane k result.odd
        ≡ lane k sums.odd + plane_byte_in_word (2 * k + 1) word }
    ensures even_sums { (k : ℕ) → k < 4 → lane k result.even_sums
        ≡ lane k sums.even_sums + lane k result.even }
    ensures odd_sums { (k : ℕ) → k < 4 → lane k result.odd_sums
        ≡ lane k sums.odd_sums + lane k result.odd }
{
    let even = add_lanes(sums.even, even_bytes(word));
    let odd = add_lanes(sums.odd, odd_bytes(word));
    LaneSums {
        even,
        odd,
        even_sums: add_lanes(sums.even_sums, even),
        odd_sums: add_lanes(sums.odd_sums, odd),
    }
}

/// The word of eight bytes from index `at` on. The first is the lowest.
pub(crate) fn word_at(bytes: &[u8], at: usize) -> u64
    requires { at + 8 ≤ length bytes.now }
    ensures { (p : ℕ) → p < 8 → plane_byte_in_word p result ≡ slice_index bytes.now (at + p) }
{
    u64::from_le_bytes([
        bytes[at],
        bytes[at + 1],
        bytes[at + 2],
        bytes[at + 3],
        bytes[at + 4],
        bytes[at + 5],
        bytes[at + 6],
        bytes[at + 7],
    ])
}

/// The number in lane `k` of a word.
fn lane_of(word: u64, k: u32) -> u32
    requires { k < 4 }
    ensures { result ≡ lane k word }
{
    ((word >> (16 * k)) % 0x1_0000) as u32
}

/// The numbers in all lanes of a word, added up.
fn sum_of_word(word: u64) -> u32
    ensures { result ≡ lane 0 word + lane 1 word + lane 2 word + lane 3 word }
{
    lane_of(word, 0) + lane_of(word, 1) + lane_of(word, 2) + lane_of(word, 3)
}

impl LaneSums {
    /// The sums of a block of 128 bytes.
    pub(crate) fn of_block(block: &[u8]) -> LaneSums
        requires { length block.now ≡ 128 }
        ensures lanes { AreLanesOfBytes 16 result }
        ensures adler { (sum sums : ℕ) (rest : List ℕ) →
            adler_from (sum % 65521) (sums % 65521) (block.now ++ rest)
            ≡ adler_from ((sum + sum_of_lanes result) % 65521)
            ((sums + 128 * sum + sum_of_sums_of_lanes result) % 65521) rest }
    {
        let mut sums = LaneSums {
            even: 0,
            odd: 0,
            even_sums: 0,
            odd_sums: 0,
        };
        for n in 0..16 {
            sums = add_word(n, sums, word_at(block, 8 * n as usize));
        }
        sums
    }

    /// The sum of the bytes.
    pub(crate) fn sum(self) -> u32
        requires { AreLanesOfBytes 16 self }
        ensures value { result ≡ sum_of_lanes self }
        ensures few { result ≤ 32640 }
    {
        sum_of_word(self.even) + sum_of_word(self.odd)
    }

    /// The sum of what the sum of the bytes is after each of them.
    pub(crate) fn sum_of_sums(self) -> u32
        requires { AreLanesOfBytes 16 self }
        ensures value { result ≡ sum_of_sums_of_lanes self }
        ensures few { result ≤ 4177920 }
    {
        let within = lane_of(self.odd, 0)
            + 2 * lane_of(self.even, 1)
            + 3 * lane_of(self.odd, 1)
            + 4 * lane_of(self.even, 2)
            + 5 * lane_of(self.odd, 2)
            + 6 * lane_of(self.even, 3)
            + 7 * lane_of(self.odd, 3);
        8 * (sum_of_word(self.even_sums) + sum_of_word(self.odd_sums)) - within
    }
}

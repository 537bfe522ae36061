//! The bytes of saved states: written into a slice one after another, and read by index.
ghost use Rattle.std.specs.Prelude.{◌≡◌, ◌+◌, ◌/◌, ◌%◌, ◌≤◌, ◌↔◌, [], ◌∷◌, length, IsTrue};
ghost use Rattle.vga_bits.specs.RegFile.{AreWithinMasks};
ghost use Rattle.vga_bits.specs.Saved.{word_bytes, word_at as word_of, IsPut};
ghost use Rattle.vga_bits.specs.Saved.{flag_byte as flag_byte_of};

/// Copies some bytes into a slice from index `at` on, where there is room for them. It returns the
/// index after them.
pub fn put_bytes(out: &mut [u8], at: usize, bytes: &[u8]) -> usize
    requires { at + length bytes.now ≤ length out.old }
    ensures put { IsPut out.old out.new at result bytes.now }
    ensures end { result ≡ at + length bytes.now }
{
    let end = at + bytes.len();
    out[at..end].copy_from_slice(bytes);
    end
}

/// Puts a byte at index `at`, and returns the index after it.
pub fn put_byte(out: &mut [u8], at: usize, value: u8) -> usize
    requires { at + 1 ≤ length out.old }
    ensures put { IsPut out.old out.new at result (value ∷ []) }
    ensures end { result ≡ at + 1 }
{
    put_bytes(out, at, &[value])
}

/// The low byte of a word.
pub fn low_byte(word: u16) -> u8
    ensures { result ≡ word % 256 }
{
    (word % 256) as u8
}

/// The high byte of a word.
pub fn high_byte(word: u16) -> u8
    ensures { result ≡ word / 256 }
{
    (word / 256) as u8
}

/// A flag as a byte: 1 if it is set, else 0.
pub fn flag_byte(flag: bool) -> u8
    ensures { result ≡ flag_byte_of flag }
{
    if flag { 1 } else { 0 }
}

/// Puts a word at index `at`, low byte first, and returns the index after it.
pub fn put_word(out: &mut [u8], at: usize, word: u16) -> usize
    requires { at + 2 ≤ length out.old }
    ensures put { IsPut out.old out.new at result (word_bytes word) }
    ensures end { result ≡ at + 2 }
{
    put_bytes(out, at, &[low_byte(word), high_byte(word)])
}

/// The word at index `at`, low byte first.
pub fn word_at(bytes: &[u8], at: usize) -> u16
    requires { at + 2 ≤ length bytes.now }
    ensures { result ≡ word_of bytes.now at }
{
    bytes[at] as u16 + 256 * bytes[at + 1] as u16
}

/// Whether each register value has only bits of its own mask. There is one mask for each value.
#[tactic(auto, using(crate::proofs::RegisterLemmas::kept_within))]
pub fn are_within_masks(masks: &[u8], values: &[u8]) -> bool
    requires { length masks.now ≡ length values.now }
    ensures { IsTrue result ↔ AreWithinMasks masks.now values.now }
{
    for i in 0..values.len() {
        if values[i] & masks[i] != values[i] {
            return false;
        }
    }
    true
}

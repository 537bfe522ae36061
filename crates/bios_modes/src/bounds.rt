//! Bounds on the numbers in BIOS data and fonts. The clauses are for proofs: the functions do
//! nothing.
ghost use Rattle.std.specs.Prelude.{ℕ, ◌<◌, slice_index};
ghost use Rattle.bios_modes.specs.Bounds.{AreBytes};

/// Bytes are below 256.
pub(crate) fn bytes_are_below_256(bytes: &[u8])
    ensures { AreBytes bytes.now }
{
    let _ = bytes;
}

/// Words are below 65,536.
pub(crate) fn words_are_below_65536(words: &[u16])
    ensures { (i : ℕ) → slice_index words.now i < 65536 }
{
    let _ = words;
}

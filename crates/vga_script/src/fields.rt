//! Reading the fields of a step from bytes.
ghost use Rattle.std.specs.Prelude.{◌≡◌, ◌<◌, ◌++◌, ◌∷◌, length, IfOk, IfErr};
ghost use Rattle.byteorder.specs.Endian.{little_bytes};
ghost use Rattle.vga_script.specs.Step.{IsBlock};

use byteorder::{ByteOrder, LittleEndian};

/// Why some bytes do not begin with a step.
#[derive(Clone, Copy, PartialEq, Eq, Debug)]
pub(crate) enum NoStep {
    /// They begin with an unknown opcode or kind, or with fields that are out of range.
    Bad,
    /// They end before the step does.
    Cut,
}

/// Reads one byte, and returns it with what follows.
pub(crate) fn u8_at(bytes: &[u8]) -> Result<(u8, &[u8]), NoStep>
    ensures found { IfOk result (λ x. bytes.now ≡ x.0 ∷ x.1.now) }
    ensures cut { IfErr result (λ e. (e ≡ NoStep.Cut) × (length bytes.now < 1)) }
{
    match bytes {
        [first, rest @ ..] => Ok((*first, rest)),
        [] => Err(NoStep::Cut),
    }
}

/// Reads a number of two bytes, low byte first, and returns it with what follows.
#[tactic(auto, using(crate::proofs::FieldLemmas::written_two))]
pub(crate) fn u16_at(bytes: &[u8]) -> Result<(u16, &[u8]), NoStep>
    ensures found { IfOk result (λ x. bytes.now ≡ little_bytes 2 x.0 ++ x.1.now) }
    ensures cut { IfErr result (λ e. (e ≡ NoStep.Cut) × (length bytes.now < 2)) }
{
    if bytes.len() < 2 {
        return Err(NoStep::Cut);
    }
    let (field, rest) = bytes.split_at(2);
    let number = LittleEndian::read_u16(field);
    Ok((number, rest))
}

/// Reads a number of four bytes, low byte first, and returns it with what follows.
#[tactic(auto, using(crate::proofs::FieldLemmas::written_four))]
pub(crate) fn u32_at(bytes: &[u8]) -> Result<(u32, &[u8]), NoStep>
    ensures found { IfOk result (λ x. bytes.now ≡ little_bytes 4 x.0 ++ x.1.now) }
    ensures cut { IfErr result (λ e. (e ≡ NoStep.Cut) × (length bytes.now < 4)) }
{
    if bytes.len() < 4 {
        return Err(NoStep::Cut);
    }
    let (field, rest) = bytes.split_at(4);
    let number = LittleEndian::read_u32(field);
    Ok((number, rest))
}

/// Reads a block of `len` bytes, and returns it, borrowed, with what follows.
#[tactic(auto, using(crate::proofs::FieldLemmas::is_block))]
pub(crate) fn block_at(bytes: &[u8], len: u16) -> Result<(&[u8], &[u8]), NoStep>
    ensures found { IfOk result (λ x. (length x.0.now ≡ len) × (bytes.now ≡ x.0.now ++ x.1.now)) }
    ensures fits { IfOk result (λ x. IsBlock x.0.now) }
    ensures cut { IfErr result (λ e. (e ≡ NoStep.Cut) × (length bytes.now < len)) }
{
    if bytes.len() < len as usize {
        return Err(NoStep::Cut);
    }
    Ok(bytes.split_at(len as usize))
}

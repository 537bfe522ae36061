//! Reading and writing a step as bytes: an opcode, and its fields.
ghost use Rattle.std.specs.Prelude.{◌≡◌, ◌≢◌, ◌<◌, ◌++◌, ◌∷◌, length, IfOk, IfErr, IsOkUnless};
ghost use Rattle.std.specs.Prelude.{OnOk, IfSome, Err};
ghost use Rattle.byteorder.specs.Endian.{little_bytes};
ghost use Rattle.vga_script.specs.Decoding.{StartsWithPlaneOutOfRange, StartsWithBadStep, StartsWithCutStep};
ghost use Rattle.vga_script.specs.DumpRange.{kind_dac, kind_plane, operand_bytes_of_show};
ghost use Rattle.vga_script.specs.Spelling.{StartsWithStep, opcode_frame, opcode_int, opcode_show};
ghost use Rattle.vga_script.specs.Spelling.{spelling};
ghost use Rattle.vga_script.specs.Step.{IsInRange};
ghost use Rattle.vga_script.specs.declared.step.Step.{Step};

use super::block::Block;
use super::dump_range::Shown;
use super::fields::{NoStep, block_at, u8_at, u16_at, u32_at};
use super::numeric_steps::numeric_steps;
use super::opcode;
use super::output::{append, append_u16, append_u32};
use super::step::Step;
use vga_bits::Fault;

/// Reads a field.
macro_rules! read_field {
    (one, $rest:ident) => {
        u8_at($rest)?
    };
    (two, $rest:ident) => {
        u16_at($rest)?
    };
    (four, $rest:ident) => {
        u32_at($rest)?
    };
    (dots, $rest:ident) => {
        u32_at($rest)?
    };
}

/// Reads the numeric step of an opcode, field by field.
macro_rules! read_steps {
    (
        $opcode:ident, $bytes:ident,
        $($name:ident => $step:ident { $($field:ident: $kind:ident),* },)*
    ) => {
        match $opcode {
            $(opcode::$name => {
                let rest = $bytes;
                $(let ($field, rest) = read_field!($kind, rest);)*
                Ok((Step::$step { $($field),* }, rest))
            })*
            _ => Err(NoStep::Bad),
        }
    };
}

/// Writes a field.
macro_rules! write_field {
    (one, $out:ident, $value:ident) => {
        append(&mut *$out, &[*$value])?
    };
    (two, $out:ident, $value:ident) => {
        append_u16(&mut *$out, *$value)?
    };
    (four, $out:ident, $value:ident) => {
        append_u32(&mut *$out, *$value)?
    };
    (dots, $out:ident, $value:ident) => {
        append_u32(&mut *$out, *$value)?
    };
}

/// Writes a step field by field.
macro_rules! take_steps_with_limit {
    (
        $out:ident, $from:ident,
        $($name:ident => $step:ident { $($field:ident: $kind:ident),* },)*
    ) => {
        match $from {
            $(Step::$step { $($field),* } => {
                append(&mut *$out, &[opcode::$name])?;
                $(write_field!($kind, $out, $field);)*
                Ok(())
            })*
            Step::Int { ax, bx, cx, dx, block } => {
                let block = block.as_slice();
                append_call(&mut *$out, *ax, *bx, *cx, *dx, block.len() as u16)?;
                append($out, block)
            }
            Step::Frame => append($out, &[opcode::FRAME]),
            Step::Show { shown } => append_shown($out, *shown),
        }
    };
}

/// Reads the fields of a call of the BIOS, and returns the call with what follows. Its block is
/// borrowed.
#[tactic(auto, using(crate::proofs::DecodeLemmas::cut_int))]
fn bios_call_at(fields: &[u8]) -> Result<(Step<'_>, &[u8]), NoStep>
    ensures found { IfOk result (λ x. StartsWithStep (opcode_int ∷ fields.now) x.0 x.1.now) }
    ensures cut { IfErr result (λ e. (e ≡ NoStep.Cut)
        × StartsWithCutStep (opcode_int ∷ fields.now)) }
{
    let (ax, rest) = u16_at(fields)?;
    let (bx, rest) = u16_at(rest)?;
    let (cx, rest) = u16_at(rest)?;
    let (dx, rest) = u16_at(rest)?;
    let (len, rest) = u16_at(rest)?;
    let (block, rest) = block_at(rest, len)?;
    let block = Block::of_slice(block);
    Ok((
        Step::Int {
            ax,
            bx,
            cx,
            dx,
            block,
        },
        rest,
    ))
}

/// Reads the index of the DAC entry to show, and returns the step with what follows.
#[tactic(auto, using(crate::proofs::DecodeLemmas::cut_dac))]
fn dac_at(fields: &[u8]) -> Result<(Step<'_>, &[u8]), NoStep>
    ensures found { IfOk result (λ x. StartsWithStep (opcode_show ∷ kind_dac ∷ fields.now) x.0
        x.1.now) }
    ensures cut { IfErr result (λ e. (e ≡ NoStep.Cut)
        × StartsWithCutStep (opcode_show ∷ kind_dac ∷ fields.now)) }
{
    let (index, rest) = u8_at(fields)?;
    let shown = Shown::Dac { index };
    Ok((Step::Show { shown }, rest))
}

/// Reads which bytes of a plane to show, and returns the step with what follows.
#[tactic(auto, using(crate::proofs::DecodeLemmas::cut_plane, crate::proofs::DecodeLemmas::out_of_range))]
fn plane_at(fields: &[u8]) -> Result<(Step<'_>, &[u8]), NoStep>
    ensures found { IfOk result (λ x. StartsWithStep (opcode_show ∷ kind_plane ∷ fields.now) x.0
        x.1.now) }
    ensures bad { result ≡ Err NoStep.Bad → StartsWithPlaneOutOfRange
        (opcode_show ∷ kind_plane ∷ fields.now) }
    ensures cut { result ≡ Err NoStep.Cut → StartsWithCutStep
        (opcode_show ∷ kind_plane ∷ fields.now) }
{
    let (plane, rest) = u8_at(fields)?;
    let (offset, rest) = u16_at(rest)?;
    let (count, rest) = u16_at(rest)?;
    let shown = Shown::Plane {
        plane,
        offset,
        count,
    };
    if !shown.is_in_range() {
        return Err(NoStep::Bad);
    }
    Ok((Step::Show { shown }, rest))
}

/// Reads what to show, by its kind, and returns the step with what follows.
#[tactic(auto, using(crate::proofs::DecodeLemmas::cut_kind, crate::proofs::DecodeLemmas::no_kind, crate::proofs::DecodeLemmas::bad_range))]
fn shown_at(fields: &[u8]) -> Result<(Step<'_>, &[u8]), NoStep>
    ensures found { IfOk result (λ x. StartsWithStep (opcode_show ∷ fields.now) x.0 x.1.now) }
    ensures bad { result ≡ Err NoStep.Bad → StartsWithBadStep (opcode_show ∷ fields.now) }
    ensures cut { result ≡ Err NoStep.Cut → StartsWithCutStep (opcode_show ∷ fields.now) }
{
    let (kind, rest) = u8_at(fields)?;
    let shown = match kind {
        opcode::SHOW_REGISTERS => Shown::Registers,
        opcode::SHOW_DAC => return dac_at(rest),
        opcode::SHOW_BEAM => Shown::Beam,
        opcode::SHOW_LATCHES => Shown::Latches,
        opcode::SHOW_PLANE => return plane_at(rest),
        opcode::SHOW_BIOS_DATA => Shown::BiosData,
        opcode::SHOW_CELLS => Shown::Cells,
        _ => return Err(NoStep::Bad),
    };
    Ok((Step::Show { shown }, rest))
}

/// Reads the numeric step of an opcode from the bytes after it, and returns it with what follows.
#[tactic(auto, using(crate::proofs::DecodeLemmas::no_numeric_opcode, crate::proofs::DecodeLemmas::cut_out, crate::proofs::DecodeLemmas::cut_out_word, crate::proofs::DecodeLemmas::cut_in, crate::proofs::DecodeLemmas::cut_in_word, crate::proofs::DecodeLemmas::cut_put, crate::proofs::DecodeLemmas::cut_put_word, crate::proofs::DecodeLemmas::cut_get, crate::proofs::DecodeLemmas::cut_get_word, crate::proofs::DecodeLemmas::cut_advance))]
#[inline(always)]
fn numeric_step_of_opcode(opcode: u8, fields: &[u8]) -> Result<(Step<'_>, &[u8]), NoStep>
    ensures found { IfOk result (λ x. StartsWithStep (opcode ∷ fields.now) x.0 x.1.now) }
    ensures bad { result ≡ Err NoStep.Bad → opcode ≢ opcode_int → opcode ≢ opcode_frame
        → opcode ≢ opcode_show → StartsWithBadStep (opcode ∷ fields.now) }
    ensures cut { result ≡ Err NoStep.Cut → StartsWithCutStep (opcode ∷ fields.now) }
{
    numeric_steps!(read_steps, opcode, fields)
}

/// Reads the numeric step that bytes begin with, and returns it with what follows.
#[inline(always)]
fn numeric_step_at(bytes: &[u8]) -> Result<(Step<'_>, &[u8]), NoStep>
    ensures found { IfOk result (λ x. StartsWithStep bytes.now x.0 x.1.now) }
{
    let (opcode, fields) = u8_at(bytes)?;
    numeric_step_of_opcode(opcode, fields)
}

/// Reads the step of an opcode from the bytes after it, and returns it with what follows.
#[inline(always)]
fn step_of_opcode(opcode: u8, fields: &[u8]) -> Result<(Step<'_>, &[u8]), NoStep>
    ensures found { IfOk result (λ x. StartsWithStep (opcode ∷ fields.now) x.0 x.1.now) }
    ensures bad { result ≡ Err NoStep.Bad → StartsWithBadStep (opcode ∷ fields.now) }
    ensures cut { result ≡ Err NoStep.Cut → StartsWithCutStep (opcode ∷ fields.now) }
{
    match opcode {
        opcode::INT => bios_call_at(fields),
        opcode::FRAME => Ok((Step::Frame, fields)),
        opcode::SHOW => shown_at(fields),
        _ => numeric_step_of_opcode(opcode, fields),
    }
}

/// Reads the step that bytes begin with, and returns it with what follows.
#[inline(always)]
pub(crate) fn step_at(bytes: &[u8]) -> Result<(Step<'_>, &[u8]), NoStep>
    requires { 0 < length bytes.now }
    ensures found { IfOk result (λ x. StartsWithStep bytes.now x.0 x.1.now) }
    ensures bad { result ≡ Err NoStep.Bad → StartsWithBadStep bytes.now }
    ensures cut { result ≡ Err NoStep.Cut → StartsWithCutStep bytes.now }
{
    let (opcode, fields) = u8_at(bytes)?;
    step_of_opcode(opcode, fields)
}

/// What follows the step that bytes begin with, if they begin with one. Most steps are numeric, and
/// only the length of those matters.
#[inline(always)]
pub(crate) fn behind_step(bytes: &[u8]) -> Option<&[u8]>
    requires { 0 < length bytes.now }
    ensures { IfSome result (λ others. (step : Step) × StartsWithStep bytes.now step others.now) }
{
    if let Ok((_, others)) = numeric_step_at(bytes) {
        return Some(others);
    }
    match step_at(bytes) {
        Ok((_, others)) => Some(others),
        Err(_) => None,
    }
}

/// Appends a call of the BIOS without its block: the opcode, the registers, and the block's length.
/// Its only error is `OutOfMemory`.
fn append_call(out: &mut Vec<u8>, ax: u16, bx: u16, cx: u16, dx: u16, len: u16) -> Result<(), Fault>
    ensures ok { OnOk result (out.new.items ≡ out.old.items ++ (opcode_int ∷ (little_bytes 2 ax
        ++ (little_bytes 2 bx ++ (little_bytes 2 cx
        ++ (little_bytes 2 dx ++ little_bytes 2 len)))))) }
    ensures err { IsOkUnless result Fault.OutOfMemory }
{
    append(out, &[opcode::INT])?;
    append_u16(out, ax)?;
    append_u16(out, bx)?;
    append_u16(out, cx)?;
    append_u16(out, dx)?;
    append_u16(out, len)
}

/// Appends the bytes of a dump. Its only error is `OutOfMemory`.
fn append_shown(out: &mut Vec<u8>, shown: Shown) -> Result<(), Fault>
    ensures ok { OnOk result (out.new.items ≡ out.old.items
        ++ (opcode_show ∷ operand_bytes_of_show shown)) }
    ensures err { IsOkUnless result Fault.OutOfMemory }
{
    match shown {
        Shown::Registers => append(out, &[opcode::SHOW, opcode::SHOW_REGISTERS]),
        Shown::Dac { index } => append(out, &[opcode::SHOW, opcode::SHOW_DAC, index]),
        Shown::Beam => append(out, &[opcode::SHOW, opcode::SHOW_BEAM]),
        Shown::Latches => append(out, &[opcode::SHOW, opcode::SHOW_LATCHES]),
        Shown::Plane {
            plane,
            offset,
            count,
        } => {
            append(out, &[opcode::SHOW, opcode::SHOW_PLANE, plane])?;
            append_u16(out, offset)?;
            append_u16(out, count)
        }
        Shown::BiosData => append(out, &[opcode::SHOW, opcode::SHOW_BIOS_DATA]),
        Shown::Cells => append(out, &[opcode::SHOW, opcode::SHOW_CELLS]),
    }
}

/// Appends the bytes of a step. Its only error is `OutOfMemory`.
pub fn append_step(out: &mut Vec<u8>, step: &Step<'_>) -> Result<(), Fault>
    requires { IsInRange step.now }
    ensures ok { OnOk result (out.new.items ≡ out.old.items ++ spelling step.now) }
    ensures err { IsOkUnless result Fault.OutOfMemory }
{
    numeric_steps!(take_steps_with_limit, out, step)
}

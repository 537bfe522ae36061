//! Reading an item from the bytes of a script.
ghost use Rattle.std.specs.Prelude.{◌≡◌, ◌+◌, ◌<◌, ◌≤◌, ◌∷◌, ℕ, length, IfNone, IfOk, IfErr};
ghost use Rattle.std.specs.Prelude.{IfSome};
ghost use Rattle.vga_script.specs.Body.{StandsAfterRepeatBody};
ghost use Rattle.vga_script.specs.Decoding.{HasStepsBefore, IsItemFault, StartsWithRepeat};
ghost use Rattle.vga_script.specs.Item.{step_limit, steps_of_item};
ghost use Rattle.vga_script.specs.Spelled.{HasSpelledRepeatBody, spelled_item};
ghost use Rattle.vga_script.specs.Spelling.{opcode_repeat, script_limit, StartsWithItem};
ghost use Rattle.vga_script.specs.Version.{AllowsRepeats};

use super::fields::{NoStep, u16_at};
use super::opcode;
use super::script::STEP_LIMIT;
use super::spelled_item::SpelledItem;
use super::step_bytes::step_at;
use super::version::Version;
use vga_bits::Fault;

/// What stands after the steps of a repeat.
#[derive(Drop)]
enum AfterRepeatBody<'a> {
    /// The repeat's end, and these bytes.
    PieceEnd {
        /// What follows the end.
        rest: &'a [u8],
    },
    /// Nothing.
    Nothing,
    /// An opcode of neither a step nor an end, or a step out of range.
    Bad,
    /// A step that is cut off.
    Cut,
}

/// Counts the steps that the bytes after a repeat's count begin with, and finds what follows them.
#[tactic(auto, using(crate::proofs::BeginningLemmas::step_shorter, crate::proofs::BodyLemmas::body_within, crate::proofs::BodyLemmas::body_begins, crate::proofs::BodyLemmas::body_goes_on))]
fn behind_steps(bytes: &[u8]) -> (usize, &[u8], AfterRepeatBody<'_>)
    requires { length bytes.now ≤ script_limit }
    ensures good { HasStepsBefore bytes.now result.0 result.1.now }
    ensures stop { StandsAfterRepeatBody result.2 result.1.now }
{
    let mut rest = bytes;
    let mut len = 0;
    while let [first, others @ ..] = rest {
        if *first == opcode::END {
            return (len, rest, AfterRepeatBody::PieceEnd { rest: others });
        }
        match step_at(rest) {
            Ok((_, behind)) => rest = behind,
            Err(NoStep::Bad) => return (len, rest, AfterRepeatBody::Bad),
            Err(NoStep::Cut) => return (len, rest, AfterRepeatBody::Cut),
        }
        len += 1;
    }
    (len, rest, AfterRepeatBody::Nothing)
}

/// What follows the opcode of a repeat, if bytes of a script of this version begin with one.
fn bytes_after_repeat_opcode(bytes: &[u8], version: Version) -> Option<&[u8]>
    ensures found { IfSome result (λ fields. AllowsRepeats version
        × (bytes.now ≡ opcode_repeat ∷ fields.now)) }
    ensures none { IfNone result (StartsWithRepeat version bytes.now → ⊥) }
{
    match version {
        Version::One => None,
        Version::Two => bytes.strip_prefix(&[opcode::REPEAT]),
    }
}

/// Reads the repeat whose opcode stands at `offset` in a script. The bytes begin with that opcode.
/// It returns the repeat and what follows its end.
#[tactic(auto, using(crate::proofs::BodyLemmas::repeat_open))]
fn repeat_at<'a>(
    bytes: &'a [u8],
    fields: &'a [u8],
    offset: usize,
    version: Version,
) -> Result<(SpelledItem<'a>, &'a [u8]), Fault>
    requires allowed { AllowsRepeats version }
    requires fields { bytes.now ≡ opcode_repeat ∷ fields.now }
    requires place { offset + length bytes.now ≤ script_limit }
    ensures found { IfOk result (λ x. StartsWithItem version bytes.now (spelled_item x.0) x.1.now) }
    ensures body { IfOk result (λ x. HasSpelledRepeatBody x.0) }
    ensures fault { IfErr result (λ e. (so_far : ℕ)
        → IsItemFault version so_far offset bytes.now e) }
{
    let Ok((count, body)) = u16_at(fields) else {
        return Err(Fault::Truncated(offset));
    };
    if count == 0 {
        return Err(Fault::BadStep(offset));
    }
    let (len, rest, behind) = behind_steps(body);
    match behind {
        AfterRepeatBody::PieceEnd { rest: others } => {
            let (steps, _) = body.split_at(body.len() - rest.len());
            Ok((SpelledItem::Block { count, len, steps }, others))
        }
        AfterRepeatBody::Nothing => Err(Fault::Truncated(offset)),
        AfterRepeatBody::Bad => Err(Fault::BadStep(offset + (bytes.len() - rest.len()))),
        AfterRepeatBody::Cut => Err(Fault::Truncated(offset + (bytes.len() - rest.len()))),
    }
}

/// Reads the item that stands at `offset` in a script. The bytes begin with the item. It returns
/// the item and what follows it.
pub(crate) fn item_at(
    bytes: &[u8],
    offset: usize,
    version: Version,
) -> Result<(SpelledItem<'_>, &[u8]), Fault>
    requires some { 0 < length bytes.now }
    requires place { offset + length bytes.now ≤ script_limit }
    ensures found { IfOk result (λ x. StartsWithItem version bytes.now (spelled_item x.0) x.1.now) }
    ensures body { IfOk result (λ x. HasSpelledRepeatBody x.0) }
    ensures fault { IfErr result (λ e. (so_far : ℕ)
        → IsItemFault version so_far offset bytes.now e) }
{
    if let Some(fields) = bytes_after_repeat_opcode(bytes, version) {
        return repeat_at(bytes, fields, offset, version);
    }
    match step_at(bytes) {
        Ok((step, rest)) => Ok((SpelledItem::Step { step }, rest)),
        Err(NoStep::Bad) => Err(Fault::BadStep(offset)),
        Err(NoStep::Cut) => Err(Fault::Truncated(offset)),
    }
}

/// Reads the item that stands at `offset` in a script, after items that mean `so_far` steps. It
/// returns the item, what follows it, and how many steps those and this item mean together. More
/// steps than a script may mean are a fault.
pub(crate) fn item_within_limit(
    bytes: &[u8],
    offset: usize,
    version: Version,
    so_far: usize,
) -> Result<(SpelledItem<'_>, &[u8], usize), Fault>
    requires some { 0 < length bytes.now }
    requires place { offset + length bytes.now ≤ script_limit }
    requires few { so_far ≤ step_limit }
    ensures found { IfOk result (λ x. StartsWithItem version bytes.now (spelled_item x.0) x.1.now) }
    ensures body { IfOk result (λ x. HasSpelledRepeatBody x.0) }
    ensures counted { IfOk result (λ x. x.2 ≡ so_far + length (steps_of_item (spelled_item x.0))) }
    ensures within { IfOk result (λ x. x.2 ≤ step_limit) }
    ensures fault { IfErr result (λ e. IsItemFault version so_far offset bytes.now e) }
{
    let (item, rest) = item_at(bytes, offset, version)?;
    let step_count_meant = item.step_count_meant();
    if so_far + step_count_meant > STEP_LIMIT {
        return Err(Fault::TooMany(offset));
    }
    Ok((item, rest, so_far + step_count_meant))
}

//! A position in the bytes of a script, and the steps that are left from there on.
ghost use Rattle.std.specs.Prelude.{ℕ, ◌≡◌, ◌≢◌, ◌<◌, ◌≤◌, ◌^◌, ◌++◌, ◌∷◌, List, length, IfNone};
ghost use Rattle.std.specs.Prelude.{IfSome};
ghost use Rattle.byteorder.specs.Endian.{little_bytes};
ghost use Rattle.vga_script.specs.Progress.{IsEmptyOrBeginsWithStep, LeavesSameSteps};
ghost use Rattle.vga_script.specs.Progress.{StandsInOrOutsideRepeat};
ghost use Rattle.vga_script.specs.Spelling.{opcode_end};

use super::fields::{u8_at, u16_at};
use super::opcode;

/// A position in the bytes of a script.
#[derive(Clone, Copy)]
pub(crate) struct ScriptPosition<'a> {
    /// What follows.
    pub(crate) rest: &'a [u8],
    /// In a repeat, the bytes from its first step on; outside repeats, nothing.
    pub(crate) body: &'a [u8],
    /// How many more times the repeat is taken once its end is reached.
    pub(crate) left: u16,
}

/// Reads the count of a repeat, and returns it with what follows.
fn repeat_count_at(fields: &[u8]) -> (u16, &[u8])
    requires { 2 ≤ length fields.now }
    ensures fields { fields.now ≡ little_bytes 2 result.0 ++ result.1.now }
    ensures small { result.0 < 2 ^ 16 }
{
    match u16_at(fields) {
        Ok(found) => found,
        Err(_) => (0, fields), // Two bytes are there.
    }
}

/// What follows the end of a repeat, if the bytes begin with one.
fn behind_repeat_end(bytes: &[u8]) -> Option<&[u8]>
    ensures found { IfSome result (λ after. bytes.now ≡ opcode_end ∷ after.now) }
    ensures none { IfNone result ((after : List ℕ) → bytes.now ≢ opcode_end ∷ after) }
{
    match u8_at(bytes) {
        Ok((opcode, after)) if opcode == opcode::END => Some(after),
        _ => None,
    }
}

/// Moves on to the next step, or to the end of the script. Repeats without steps are passed over.
#[tactic(auto, using(crate::proofs::ProgressLemmas::stays, crate::proofs::ProgressLemmas::room_for_count))]
pub(crate) fn move_to_next_step(progress: ScriptPosition<'_>) -> ScriptPosition<'_>
    requires { StandsInOrOutsideRepeat progress.body.now progress.rest.now }
    ensures reached { LeavesSameSteps progress.entry.left progress.entry.body.now
        progress.entry.rest.now result.left result.body.now result.rest.now }
    ensures prefix { IsEmptyOrBeginsWithStep result.rest.now }
{
    let ScriptPosition {
        mut rest,
        mut body,
        left,
    } = progress;
    while let Ok((opcode, others)) = u8_at(rest) {
        if opcode == opcode::END {
            if left > 0 {
                return ScriptPosition {
                    rest: body,
                    body,
                    left: left - 1,
                };
            }
            body = others.split_at(0).0;
            rest = others;
        } else if opcode == opcode::REPEAT {
            let (count, inner) = repeat_count_at(others);
            match behind_repeat_end(inner) {
                Some(after) => rest = after,
                None => {
                    return ScriptPosition {
                        rest: inner,
                        body: inner,
                        left: count - 1,
                    };
                }
            }
        } else {
            return ScriptPosition { rest, body, left };
        }
    }
    ScriptPosition { rest, body, left }
}

//! A script, kept as the bytes that spell it.
ghost use Rattle.std.specs.Prelude.{◌≡◌, ◌⊎◌, ◌≤◌, length, IfErr, IfOk, IsOkUnless};
ghost use Rattle.vga_script.specs.Decoding.{IsFault};
ghost use Rattle.vga_script.specs.Beginning.{script_of_bytes};
ghost use Rattle.vga_script.specs.Item.{ScriptItems, expanded, step_limit};
ghost use Rattle.vga_script.specs.Spelling.{Spells, encoding, script_limit};
ghost use Rattle.vga_script.specs.Step.{AreInRange};

use super::judge::check_script;
use super::opcode::MAGIC;
use super::output::append;
use super::steps::Steps;
use super::version::Version;
use std::alloc::Global;
use std::marker::Model;
use vga_bits::Fault;

/// How many bytes a script may have, and how many a text.
pub const SCRIPT_LIMIT: usize = 16_777_216;

/// How many steps a script may mean.
pub const STEP_LIMIT: usize = 16_777_216;

/// A script of at most 16,777,216 bytes that means at most 16,777,216 steps. It keeps the bytes
/// that spell it. Contracts see its version and its items.
#[derive(Drop)]
pub struct Script {
    bytes: Vec<u8>,
}

impl Model for Script {
    ghost use Rattle.std.specs.Prelude.{◌≤◌, length};
    ghost use Rattle.vga_script.specs.Beginning.{script_of_bytes};
    ghost use Rattle.vga_script.specs.Item.{ScriptItems};
    ghost use Rattle.vga_script.specs.Spelling.{Spells, script_limit};

    ghost Value = { ScriptItems };

    ghost view = { λ script. script_of_bytes script.bytes.items };

    ghost invariant = { λ script. (length script.bytes.items ≤ script_limit)
        × Spells script.bytes.items (script_of_bytes script.bytes.items) };
}

impl Script {
    /// The script that these bytes spell.
    pub(crate) fn of_bytes(bytes: Vec<u8>) -> Script
        requires short { length bytes.items ≤ script_limit }
        requires spelled { Spells bytes.items (script_of_bytes bytes.items) }
        ensures { result ≡ script_of_bytes bytes.items }
    {
        Script { bytes }
    }

    /// The bytes that spell the script.
    pub(crate) fn as_bytes(&self) -> &[u8]
        ensures short { length result.now ≤ script_limit }
        ensures spelled { Spells result.now self.now }
        ensures script { self.now ≡ script_of_bytes result.now }
    {
        self.bytes.as_slice()
    }

    /// The version.
    #[tactic(auto, using(crate::proofs::StepsLemmas::version_two, crate::proofs::StepsLemmas::version_one))]
    pub fn version(&self) -> Version
        ensures { result ≡ self.now.version }
    {
        let byte = self.as_bytes()[MAGIC.len()];
        if byte == 2 {
            return Version::Two;
        }
        Version::One
    }

    /// The steps that the script means, in order: each step outside repeats once, and the steps of
    /// a repeat as often as its count says. Their fields are in range, and they are at most
    /// 16,777,216. The iterator allocates nothing.
    #[tactic(auto, using(crate::proofs::StepsLemmas::range_of_steps, crate::proofs::StepsLemmas::few_steps))]
    pub fn steps(&self) -> Steps<'_>
        ensures steps { result ≡ expanded self.now.items }
        ensures range { AreInRange result }
        ensures few { length result ≤ step_limit }
    {
        Steps::of_script(self.as_bytes())
    }
}

/// Decodes bytes, or finds their first fault.
#[tactic(auto, using(crate::proofs::StepsLemmas::copy_spells))]
fn decode_bytes(alloc: Global, bytes: &[u8]) -> Result<Script, Fault>
    ensures found { IfOk result (λ script. (length bytes.now ≤ script_limit)
        × Spells bytes.now script) }
    ensures fault { IfErr result (λ e. (e ≡ Fault.OutOfMemory) ⊎ IsFault bytes.now e) }
{
    check_script(bytes)?;
    let mut copy = Vec::new(alloc);
    append(&mut copy, bytes)?;
    Ok(Script::of_bytes(copy))
}

/// Decodes a script: it returns the script that the bytes spell.
///
/// Bytes that spell no script have a fault. If they have several, the first in this order is
/// returned:
///
/// - `TooLong`: there are more than 16,777,216 bytes.
/// - `BadMagic`: they do not begin with `VGAS`.
/// - `Truncated(4)`: nothing follows `VGAS`.
/// - `BadVersion`: the version is neither 1 nor 2.
/// - `BadStep`, `Truncated`, `TooMany`: what stands at this offset is the first that is bad, that
///   is cut off, or that makes the script mean more than 16,777,216 steps.
///
/// A step with an unknown opcode or kind is bad. Any other step may be cut off. A whole step is bad
/// if it shows bytes of a plane that does not exist, no bytes, more than 256 bytes, or bytes past
/// the plane's end.
///
/// Version 1 has no opcodes of repeats. In version 2 a repeat inside a repeat is bad, and so is an
/// end outside one. A repeat with a count of 0 is bad. A repeat is cut off, at its opcode, if its
/// count is cut off or if the bytes end after a whole step of it. Too many steps are found at the
/// end of a repeat, or at a step outside repeats.
///
/// `OutOfMemory`: an allocation failed.
pub fn decode(alloc: Global, bytes: &[u8]) -> Result<Script, Fault>
    ensures found { IfOk result (λ script. (length bytes.now ≤ script_limit)
        × Spells bytes.now script) }
    ensures fault { IfErr result (λ e. (e ≡ Fault.OutOfMemory) ⊎ IsFault bytes.now e) }
    ensures runs { (script : ScriptItems) → length bytes.now ≤ script_limit → Spells bytes.now script →
        IsOkUnless result Fault.OutOfMemory }
{
    decode_bytes(alloc, bytes)
}

/// Encodes a script as at most 16,777,216 bytes. No other bytes spell it. The only error is
/// `OutOfMemory`.
#[tactic(auto, using(crate::proofs::StepsLemmas::encoding_kept))]
pub fn encode(alloc: Global, script: &Script) -> Result<Vec<u8>, Fault>
    ensures ok { IfOk result (λ bytes. bytes.items ≡ encoding script.now) }
    ensures err { IsOkUnless result Fault.OutOfMemory }
{
    let mut copy = Vec::new(alloc);
    append(&mut copy, script.as_bytes())?;
    Ok(copy)
}

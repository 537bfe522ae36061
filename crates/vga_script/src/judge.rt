//! Checking that bytes spell a script, or finding their first fault.
ghost use Rattle.std.specs.Prelude.{◌≡◌, ◌≤◌, ◌++◌, ◌∷◌, length, List, IfOk, IfErr};
ghost use Rattle.vga_script.specs.Decoding.{IsFault, IsSpellingFault};
ghost use Rattle.vga_script.specs.Beginning.{script_of_bytes};
ghost use Rattle.vga_script.specs.Item.{Item, ScriptItems, expanded, step_limit};
ghost use Rattle.vga_script.specs.Spelling.{script_limit, header, Spells, SpellsItems};

use super::items::item_within_limit;
use super::opcode;
use super::script::{SCRIPT_LIMIT, STEP_LIMIT};
use super::step_bytes::behind_step;
use super::version::Version;
use vga_bits::Fault;

/// Passes over the items after the header of a script, and finds the first fault among them.
#[tactic(auto, using(crate::proofs::BeginningLemmas::item_shorter, crate::proofs::DecodeLemmas::decoded_none, crate::proofs::DecodeLemmas::passed_all))]
fn check_items(bytes: &[u8], spelled: &[u8], version: Version) -> Result<(), Fault>
    requires short { length bytes.now ≤ script_limit }
    requires prefix { bytes.now ≡ header version ++ spelled.now }
    ensures found { IfOk result (λ _. (script : ScriptItems) × Spells bytes.now script) }
    ensures fault { IfErr result (λ e. IsSpellingFault bytes.now e) }
{
    let mut rest = spelled;
    let mut so_far = 0;
    while !rest.is_empty() {
        let offset = bytes.len() - rest.len();
        // Most items are steps. They are passed over here, for speed.
        if let Some(others) = behind_step(rest) {
            if so_far == STEP_LIMIT {
                return Err(Fault::TooMany(offset));
            }
            so_far += 1;
            rest = others;
        } else {
            let (_, others, more) = item_within_limit(rest, offset, version, so_far)?;
            so_far = more;
            rest = others;
        }
    }
    Ok(())
}

/// Checks that bytes of allowed length spell a script: the magic, the version and the items. It
/// returns their first fault.
fn check_header_and_items(bytes: &[u8]) -> Result<(), Fault>
    requires { length bytes.now ≤ script_limit }
    ensures found { IfOk result (λ _. (script : ScriptItems) × Spells bytes.now script) }
    ensures fault { IfErr result (λ e. IsSpellingFault bytes.now e) }
{
    let Some(versioned) = bytes.strip_prefix(&opcode::MAGIC) else {
        return Err(Fault::BadMagic);
    };
    let [byte, spelled @ ..] = versioned else {
        return Err(Fault::Truncated(opcode::MAGIC.len()));
    };
    match Version::of_byte(*byte) {
        Some(version) => check_items(bytes, spelled, version),
        None => Err(Fault::BadVersion),
    }
}

/// Checks that bytes spell a script, or finds their first fault.
#[tactic(auto, using(crate::proofs::BeginningLemmas::spells_itself))]
pub(crate) fn check_script(bytes: &[u8]) -> Result<(), Fault>
    ensures short { IfOk result (λ _. length bytes.now ≤ script_limit) }
    ensures found { IfOk result (λ _. Spells bytes.now (script_of_bytes bytes.now)) }
    ensures fault { IfErr result (λ e. IsFault bytes.now e) }
{
    if bytes.len() > SCRIPT_LIMIT {
        return Err(Fault::TooLong);
    }
    check_header_and_items(bytes)
}

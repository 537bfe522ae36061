//! Comparing two machines.
ghost use Rattle.std.specs.Prelude.{◌≡◌, ◌≤◌, length, IfOk, IfSome};
ghost use Rattle.vga_run.specs.Saved.{saved_machine};
ghost use Rattle.vga_rebuild.specs.Likeness.{AreSavedAlike, state_of_saved as state_of};
ghost use Rattle.vga_rebuild.specs.Rebuilt.{AreAlike};

use crate::rebuilt::Likeness;
use std::alloc::Global;
use vga_bits::Fault;
use vga_run::machine::Machine;

/// How many bytes the header of a saved machine has.
const HEADER_LEN: usize = 9;

/// How many bytes of a saved machine are its BIOS data, its registers and its memory.
const STATE_LEN: usize = 263_029;

/// The machine as bytes.
fn saved_bytes(alloc: Global, machine: &Machine) -> Result<Vec<u8>, Fault>
    ensures { IfOk result (λ bytes. bytes.items ≡ saved_machine machine.now) }
{
    let Ok(mut bytes) = vec![in alloc; 0u8; machine.saved_len()] else {
        return Err(Fault::OutOfMemory);
    };
    machine.save(bytes.as_mut_slice());
    Ok(bytes)
}

/// The BIOS data, the registers and the memory among the bytes of a saved machine.
fn state_of_saved(bytes: &[u8]) -> &[u8]
    requires { 263038 ≤ length bytes.now }
    ensures { result.now ≡ state_of bytes.now }
{
    bytes.split_at(HEADER_LEN).1.split_at(STATE_LEN).0
}

/// How like two saved machines are, if they are.
fn likeness_of_saved(one: &[u8], other: &[u8]) -> Option<Likeness>
    ensures { IfSome result (λ likeness. AreSavedAlike likeness one.now other.now) }
{
    if one == other {
        return Some(Likeness::Same);
    }
    if one.len().min(other.len()) < Machine::SAVED_LEN {
        return None;
    }
    if state_of_saved(one) == state_of_saved(other) {
        return Some(Likeness::SameButForDots);
    }
    None
}

/// How like two machines with the same fonts are, if they are. It fails only with `OutOfMemory`.
#[tactic(auto, using(crate::proofs::LikenessLemmas::alike))]
pub(crate) fn likeness_of(
    alloc: Global,
    one: &Machine,
    other: &Machine,
) -> Result<Option<Likeness>, Fault>
    requires { one.now.fonts ≡ other.now.fonts }
    ensures { IfOk result (λ found. IfSome found (λ likeness. AreAlike likeness one.now other.now)) }
{
    one.restore_gives_what_was_saved();
    other.restore_gives_what_was_saved();
    let one = saved_bytes(alloc, one)?;
    let other = saved_bytes(alloc, other)?;
    Ok(likeness_of_saved(one.as_slice(), other.as_slice()))
}

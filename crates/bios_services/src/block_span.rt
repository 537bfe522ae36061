//! The block of a call: what it reads of the caller's memory.
ghost use Rattle.std.specs.Prelude.{◌≡◌};
ghost use Rattle.bios_services.specs.Calls.{call_of};
ghost use Rattle.bios_services.specs.Blocks.{block_len_if_any, block_len, is_block_at_dx};

use crate::call::{Call, decode};
use crate::regs::{Regs, high};

/// The bytes that a call reads of the caller's memory.
#[derive(Clone, Copy, PartialEq, Eq, Debug)]
pub struct BlockSpan {
    /// How many, 0 to 16,711,425; 0 where the call reads none.
    pub len: usize,
    /// Whether they lie at ES:DX. Else they lie at ES:BP.
    pub is_at_dx: bool,
}

/// How many bytes the block of a call has, if it reads one.
fn block(call: Option<Call>) -> Option<usize>
    ensures { result ≡ block_len_if_any call }
{
    match call {
        Some(Call::InMode(service)) => service.block(),
        Some(Call::LoadGlyphs(load)) => load.block(),
        _ => None,
    }
}

impl BlockSpan {
    /// What a call reads with these registers. With a block of just `len` bytes `int10` never
    /// answers `BadBlock`.
    pub fn of_registers(regs: Regs) -> BlockSpan
        ensures len { result.len ≡ block_len (call_of regs) }
        ensures place { result.is_at_dx ≡ is_block_at_dx regs }
    {
        BlockSpan {
            len: block(decode(regs)).unwrap_or(0),
            is_at_dx: high(regs.ax) == 0x10,
        }
    }
}

//! Why display memory does not answer.
ghost use Rattle.std.specs.Prelude.{◌≡◌, ℕ, IfSome};
ghost use Rattle.vga_card.specs.Cycles.{put_cycle, get_cycle};
ghost use Rattle.vga_explain.specs.CycleReasons.{refusal_of_reason, refusal_in};
ghost use Rattle.vga_explain.specs.Accesses.{ExplainsAccess};

use crate::cycle_reason::CycleReason;
use vga_bits::is_set;
use vga_card::Card;

/// The bit of miscellaneous output that lets the display memory answer.
const ENABLE_RAM: u32 = 1;

/// Why display memory does not answer at an address, if it does not.
pub(crate) fn why_access(card: &Card, address: u32) -> Option<CycleReason>
    ensures put { (v : ℕ) → refusal_of_reason result ≡ refusal_in (put_cycle card.now address v).1 }
    ensures get { refusal_of_reason result ≡ refusal_in (get_cycle card.now address).1 }
    ensures reason { IfSome result (ExplainsAccess card.now address) }
{
    let regs = card.regs();
    if !is_set(regs.misc, ENABLE_RAM) {
        return Some(CycleReason::MemoryOff { address });
    }
    let (first, last) = regs.host.window();
    if first <= address && address <= last {
        return None;
    }
    let map = regs.host.memory_map();
    Some(CycleReason::OutsideWindow {
        address,
        map,
        first,
        last,
    })
}

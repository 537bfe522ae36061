//! The colours of the DAC and its mask: function 10, subfunctions 10 to 19.
ghost use Rattle.std.specs.Prelude.{◌≡◌};
ghost use Rattle.bios_services.specs.Plan.{run};
ghost use Rattle.bios_services.specs.Dac.{set_entry_plan, components_plan, set_entries_plan};

use crate::cycles::out;
use crate::video_registers::{DAC_DATA, DAC_WRITE_INDEX};
use vga_card::Bus;

/// 10: writes red, green and blue of an entry.
#[tactic(auto, using(crate::proofs::PlanRuns::run_bind), unfolding(crate::specs::Dac::set_entry_plan))]
pub(crate) fn set_entry<B: Bus>(bus: &mut B, entry: u8, red: u8, green: u8, blue: u8)
    ensures { bus.new ≡ (run B.meaning (set_entry_plan entry red green blue) bus.old).0 }
{
    out(bus, DAC_WRITE_INDEX, entry);
    out(bus, DAC_DATA, red);
    out(bus, DAC_DATA, green);
    out(bus, DAC_DATA, blue);
}

/// Writes the bytes of a block to the DAC's data, one after another.
#[tactic(auto, using(crate::proofs::PlanRuns::run_bind), unfolding(crate::specs::Dac::components_plan))]
fn write_components<B: Bus>(bus: &mut B, block: &[u8])
    ensures { bus.new ≡ (run B.meaning (components_plan block.now) bus.old).0 }
{
    for i in 0..block.len() {
        out(bus, DAC_DATA, block[i]);
    }
}

/// 12: writes red, green and blue of the entries from `first` on.
#[tactic(auto, using(crate::proofs::PlanRuns::run_bind), unfolding(crate::specs::Dac::set_entries_plan))]
pub(crate) fn set_entries<B: Bus>(bus: &mut B, first: u8, block: &[u8])
    ensures { bus.new ≡ (run B.meaning (set_entries_plan first block.now) bus.old).0 }
{
    out(bus, DAC_WRITE_INDEX, first);
    write_components(bus, block);
}

//! The palette registers, the overscan colour and blinking: function 10, subfunctions 00 to 08.
ghost use Rattle.std.specs.Prelude.{◌≡◌, ◌<◌, ◌≤◌, length};
ghost use Rattle.bios_services.specs.Bounds.{ports_bound};
ghost use Rattle.bios_services.specs.Plan.{run};
ghost use Rattle.bios_services.specs.Palette.{set_attribute_register_plan, set_palette_plan};
ghost use Rattle.bios_services.specs.Palette.{set_blinking_plan, read_attribute_register_in_index_state_plan};
ghost use Rattle.bios_services.specs.Palette.{read_attribute_register_plan};

use crate::cycles::{
    inp, out, reset_attribute_flip_flop, show_palette, write_attribute_register,
    write_attribute_registers,
};
use crate::video_registers::{
    ATTRIBUTE, ATTRIBUTE_DATA, MODE_CONTROL, NOT_BLINKING, OVERSCAN, PALETTE_SHOWN,
};
use vga_card::Bus;

/// How many palette registers there are.
const PALETTE_LEN: usize = 16;

/// 00 and 01: writes a register of the attribute controller.
#[tactic(auto, using(crate::proofs::PlanRuns::run_bind), unfolding(crate::specs::Palette::set_attribute_register_plan))]
pub(crate) fn set_attribute_register<B: Bus>(bus: &mut B, port: u16, i: u8, value: u8)
    requires { port < ports_bound }
    ensures { bus.new ≡ (run B.meaning (set_attribute_register_plan port i value) bus.old).0 }
{
    reset_attribute_flip_flop(bus, port);
    write_attribute_register(bus, i, value);
    show_palette(bus, port);
}

/// 02: writes the palette registers and the overscan colour from a block of 17 bytes.
#[tactic(auto, using(crate::proofs::PlanRuns::run_bind), unfolding(crate::specs::Palette::set_palette_plan))]
pub(crate) fn set_palette<B: Bus>(bus: &mut B, port: u16, block: &[u8])
    requires port { port < ports_bound }
    requires whole { length block.now ≡ 17 }
    ensures { bus.new ≡ (run B.meaning (set_palette_plan port block.now) bus.old).0 }
{
    let (palette, _) = block.split_at(PALETTE_LEN);
    reset_attribute_flip_flop(bus, port);
    write_attribute_registers(bus, palette);
    write_attribute_register(bus, OVERSCAN, block[PALETTE_LEN]);
    show_palette(bus, port);
}

/// 03: makes bit 7 of an attribute mean blinking, or a bright background.
#[tactic(auto, using(crate::proofs::PlanRuns::run_bind), unfolding(crate::specs::Palette::set_blinking_plan))]
pub(crate) fn set_blinking<B: Bus>(bus: &mut B, port: u16, blinking: u8)
    requires port { port < ports_bound }
    requires blinking { blinking ≤ 1 }
    ensures { bus.new ≡ (run B.meaning (set_blinking_plan port blinking) bus.old).0 }
{
    reset_attribute_flip_flop(bus, port);
    out(bus, ATTRIBUTE, PALETTE_SHOWN + MODE_CONTROL);
    let control = inp(bus, ATTRIBUTE_DATA);
    out(bus, ATTRIBUTE, (control & NOT_BLINKING) | (8 * blinking));
    show_palette(bus, port);
}

/// Reads a register of the attribute controller, which expects an index before and afterwards.
#[tactic(auto, using(crate::proofs::PlanRuns::run_bind), unfolding(crate::specs::Palette::read_attribute_register_in_index_state_plan))]
pub(crate) fn read_attribute_register_in_index_state<B: Bus>(bus: &mut B, port: u16, i: u8) -> u8
    requires port { port < ports_bound }
    requires register { i < 32 }
    ensures { (bus.new, result) ≡ run B.meaning (read_attribute_register_in_index_state_plan port i) bus.old }
{
    out(bus, ATTRIBUTE, PALETTE_SHOWN + i);
    let value = inp(bus, ATTRIBUTE_DATA);
    reset_attribute_flip_flop(bus, port);
    value
}

/// 07 and 08: reads a register of the attribute controller, whatever that expects.
#[tactic(auto, using(crate::proofs::PlanRuns::run_bind), unfolding(crate::specs::Palette::read_attribute_register_plan))]
pub(crate) fn read_register<B: Bus>(bus: &mut B, port: u16, i: u8) -> u8
    requires port { port < ports_bound }
    requires register { i < 32 }
    ensures { (bus.new, result) ≡ run B.meaning (read_attribute_register_plan port i) bus.old }
{
    reset_attribute_flip_flop(bus, port);
    read_attribute_register_in_index_state(bus, port, i)
}

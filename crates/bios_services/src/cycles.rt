//! The cycles that services are made of. A refused write does nothing, and a refused read gives FF.
ghost use Rattle.std.specs.Prelude.{◌≡◌, ◌<◌, ◌≤◌, ◌+◌, ◌^◌, length};
ghost use Rattle.vga_card.specs.Bus.{even_or_odd_byte};
ghost use Rattle.bios_services.specs.Bounds.{ports_bound};
ghost use Rattle.bios_services.specs.Plan.{run, out as out_plan, put as put_plan, inp as inp_plan};
ghost use Rattle.bios_services.specs.Plan.{each, get as get_plan, move as move_plan};
ghost use Rattle.bios_services.specs.Cycles.{write_indexed as indexed_plan};
ghost use Rattle.bios_services.specs.Cycles.{write_sequencer as sequencer_plan};
ghost use Rattle.bios_services.specs.Cycles.{write_graphics as graphics_plan};
ghost use Rattle.bios_services.specs.Cycles.{write_attribute_register as attribute_plan};
ghost use Rattle.bios_services.specs.Cycles.{write_registers_from_0 as group_plan};
ghost use Rattle.bios_services.specs.Cycles.{write_attribute_registers as attribute_group_plan};
ghost use Rattle.bios_services.specs.Cycles.{reset_attribute_flip_flop as expect_index_plan};
ghost use Rattle.bios_services.specs.Cycles.{show_palette as show_palette_plan};

use crate::video_registers::{ATTRIBUTE, GRAPHICS, PALETTE_SHOWN, SEQUENCER};
use vga_card::Bus;

/// What a refused read gives.
const REFUSED: u8 = 0xFF;

/// Writes a byte to a port.
pub(crate) fn out<B: Bus>(bus: &mut B, port: u16, value: u8)
    ensures { bus.new ≡ (run B.meaning (out_plan port value) bus.old).0 }
{
    let _ = bus.out(port, value);
}

/// Reads a byte from a port.
pub(crate) fn inp<B: Bus>(bus: &mut B, port: u16) -> u8
    ensures { (bus.new, result) ≡ run B.meaning (inp_plan port) bus.old }
{
    match bus.inp(port) {
        Ok(byte) => byte,
        Err(_) => REFUSED,
    }
}

/// Writes a byte to an address.
pub(crate) fn put<B: Bus>(bus: &mut B, address: u32, value: u8)
    ensures { bus.new ≡ (run B.meaning (put_plan address value) bus.old).0 }
{
    let _ = bus.put(address, value);
}

/// Reads a byte from an address.
pub(crate) fn get<B: Bus>(bus: &mut B, address: u32) -> u8
    ensures { (bus.new, result) ≡ run B.meaning (get_plan address) bus.old }
{
    match bus.get(address) {
        Ok(byte) => byte,
        Err(_) => REFUSED,
    }
}

/// Writes two bytes by turns to n addresses, from address `first` on.
#[tactic(auto, using(crate::proofs::PlanRuns::puts_run))]
pub(crate) fn put_in_turn<B: Bus>(bus: &mut B, first: u32, n: u32, even: u8, odd: u8)
    requires { first + n < 2 ^ 32 }
    ensures { bus.new ≡ (run B.meaning (each (λ w. put_plan (first + w) (even_or_odd_byte even odd
        w)) n 0)
        bus.old).0 }
{
    bus.put_in_turn(first, n, even, odd);
}

/// Copies n bytes to other addresses, one after another.
#[tactic(auto, using(crate::proofs::PlanRuns::moves_run))]
pub(crate) fn move_bytes<B: Bus>(bus: &mut B, from: u32, to: u32, n: u32)
    requires from { from + n < 2 ^ 32 }
    requires to { to + n < 2 ^ 32 }
    ensures { bus.new ≡ (run B.meaning (each (λ w. move_plan (from + w) (to + w)) n 0)
        bus.old).0 }
{
    bus.move_bytes(from, to, n);
}

/// Writes register i of an index port; the data port is the next one.
pub(crate) fn write_indexed<B: Bus>(bus: &mut B, port: u16, i: u8, value: u8)
    requires { port < ports_bound }
    ensures { bus.new ≡ (run B.meaning (indexed_plan port i value) bus.old).0 }
{
    out(bus, port, i);
    out(bus, port + 1, value);
}

/// Writes a register of the sequencer.
pub(crate) fn write_sequencer<B: Bus>(bus: &mut B, i: u8, value: u8)
    ensures { bus.new ≡ (run B.meaning (sequencer_plan i value) bus.old).0 }
{
    write_indexed(bus, SEQUENCER, i, value);
}

/// Writes a register of the graphics controller.
pub(crate) fn write_graphics<B: Bus>(bus: &mut B, i: u8, value: u8)
    ensures { bus.new ≡ (run B.meaning (graphics_plan i value) bus.old).0 }
{
    write_indexed(bus, GRAPHICS, i, value);
}

/// Writes a register of the attribute controller, which expects an index.
pub(crate) fn write_attribute_register<B: Bus>(bus: &mut B, i: u8, value: u8)
    ensures { bus.new ≡ (run B.meaning (attribute_plan i value) bus.old).0 }
{
    out(bus, ATTRIBUTE, i);
    out(bus, ATTRIBUTE, value);
}

/// Writes registers 0, 1, .. of an index port.
#[tactic(auto, using(crate::proofs::PlanRuns::run_bind), unfolding(crate::specs::Cycles::write_registers_from_0))]
pub(crate) fn write_registers_from_0<B: Bus>(bus: &mut B, port: u16, values: &[u8])
    requires port { port < ports_bound }
    requires few { length values.now ≤ 32 }
    ensures { bus.new ≡ (run B.meaning (group_plan port values.now) bus.old).0 }
{
    for i in 0..values.len() {
        write_indexed(bus, port, i as u8, values[i]);
    }
}

/// Writes registers 0, 1, .. of the attribute controller, which expects an index.
#[tactic(auto, using(crate::proofs::PlanRuns::run_bind), unfolding(crate::specs::Cycles::write_attribute_registers))]
pub(crate) fn write_attribute_registers<B: Bus>(bus: &mut B, values: &[u8])
    requires { length values.now ≤ 32 }
    ensures { bus.new ≡ (run B.meaning (attribute_group_plan values.now) bus.old).0 }
{
    for i in 0..values.len() {
        write_attribute_register(bus, i as u8, values[i]);
    }
}

/// Reads input status 1, so that the attribute controller expects an index.
pub(crate) fn reset_attribute_flip_flop<B: Bus>(bus: &mut B, crtc_address: u16)
    requires { crtc_address < ports_bound }
    ensures { bus.new ≡ (run B.meaning (expect_index_plan crtc_address) bus.old).0 }
{
    inp(bus, crtc_address + 6);
}

/// Shows the palette again.
pub(crate) fn show_palette<B: Bus>(bus: &mut B, crtc_address: u16)
    requires { crtc_address < ports_bound }
    ensures { bus.new ≡ (run B.meaning (show_palette_plan crtc_address) bus.old).0 }
{
    out(bus, ATTRIBUTE, PALETTE_SHOWN);
    reset_attribute_flip_flop(bus, crtc_address);
}

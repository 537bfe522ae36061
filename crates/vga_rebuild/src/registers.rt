//! The steps that write registers.

use crate::colours::push_dac;
use crate::controller::{push_controller, push_way_to_beam};
use crate::ports::{ATTRIBUTE, ENABLE_RAM, MISCELLANEOUS_OUTPUT, controller_port, status_port};
use crate::step_list::StepList;
use vga_attr::Attr;
use vga_bits::Fault;
use vga_card::Card;
use vga_host::{GRAPHICS_INDEX, SEQUENCER_INDEX};

/// Appends the writes of all registers of a controller.
fn push_registers(steps: &mut StepList, port: u16, values: &[u8]) -> Result<(), Fault> {
    let mut index = 0u8;
    for value in values {
        steps.register(port, index, *value)?;
        index = index.wrapping_add(1);
    }
    Ok(())
}

/// Appends the writes of the attribute controller's registers, while the palette is not shown.
fn push_attribute_registers(steps: &mut StepList, values: &[u8]) -> Result<(), Fault> {
    let mut index = 0u8;
    for value in values {
        steps.out(ATTRIBUTE, index)?;
        steps.out(ATTRIBUTE, *value)?;
        index = index.wrapping_add(1);
    }
    Ok(())
}

/// Appends the steps that set the attribute controller, its index and its flip-flop.
fn push_attributes(steps: &mut StepList, attr: &Attr, status: u16) -> Result<(), Fault> {
    steps.input(status)?;
    push_attribute_registers(steps, attr.regs())?;
    steps.out(ATTRIBUTE, attr.read_index())?;
    if attr.is_data() {
        return Ok(());
    }
    steps.input(status)
}

/// Appends the steps that set all registers, with the DAC and the beam. At the first dot of the
/// frame under way the start address was `start`, if the beam is led there by these registers.
pub(crate) fn push_state(
    steps: &mut StepList,
    wanted: &Card,
    found: &Card,
    start: Option<u16>,
) -> Result<(), Fault> {
    let regs = wanted.regs();
    let port = controller_port(regs.misc);
    push_registers(steps, GRAPHICS_INDEX, regs.host.gfx())?;
    push_registers(steps, SEQUENCER_INDEX, regs.host.seq())?;
    push_attributes(steps, regs.attr, status_port(regs.misc))?;
    push_dac(steps, regs.dac, found.regs().dac)?;
    push_controller(steps, port, regs.crtc.regs())?;
    push_way_to_beam(steps, port, wanted, start)?;
    steps.out(GRAPHICS_INDEX, regs.host.gfx_index())?;
    steps.out(SEQUENCER_INDEX, regs.host.seq_index())?;
    steps.out(port, regs.crtc.index())?;
    if regs.misc & ENABLE_RAM == ENABLE_RAM {
        return Ok(());
    }
    steps.out(MISCELLANEOUS_OUTPUT, regs.misc)
}

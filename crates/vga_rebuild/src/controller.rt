//! The steps that set the CRT controller and lead the beam to its place.

use crate::step_list::StepList;
use vga_bits::Fault;
use vga_card::Card;

/// The register of the start address's high byte; the low byte's is the next.
pub(crate) const START_ADDRESS: u8 = 0x0C;

/// The register of the vertical retrace's end, whose bit 7 protects registers 0 to 7.
pub(crate) const VERTICAL_RETRACE_END: u8 = 0x11;

/// The start address of a CRT controller with these registers.
pub(crate) fn start_address(registers: &[u8; 25]) -> u16 {
    256 * registers[0x0C] as u16 + registers[0x0D] as u16
}

/// Appends the writes of the start address.
pub(crate) fn push_start_address(steps: &mut StepList, port: u16, start: u16) -> Result<(), Fault> {
    steps.register(port, START_ADDRESS, (start / 256) as u8)?;
    steps.register(port, START_ADDRESS + 1, (start % 256) as u8)
}

/// Appends the writes of all registers of the CRT controller. What protects some of them comes
/// last.
pub(crate) fn push_controller(
    steps: &mut StepList,
    port: u16,
    registers: &[u8; 25],
) -> Result<(), Fault> {
    let protecting = registers[0x11];
    steps.register(port, VERTICAL_RETRACE_END, protecting & 0x7F)?;
    for index in 0..25u8 {
        if index != VERTICAL_RETRACE_END {
            steps.register(port, index, registers[index as usize])?;
        }
    }
    steps.register(port, VERTICAL_RETRACE_END, protecting)
}

/// How many dots the frame under way has up to the beam, if no register has changed since its
/// first.
fn dots_to_beam(card: &Card) -> u32 {
    let regs = card.regs();
    let beam = regs.crtc.beam();
    let characters = regs.crtc.fields().characters() as u32;
    let width = regs.host.character_width() as u32;
    (beam.line as u32 * characters + beam.character as u32) * width + beam.dot as u32
}

/// Appends the steps that lead the beam from the first dot of a frame to its place, by the
/// registers as they are, but for the start address at that first dot.
pub(crate) fn push_way_to_beam(
    steps: &mut StepList,
    port: u16,
    card: &Card,
    start: Option<u16>,
) -> Result<(), Fault> {
    let last = start_address(card.regs().crtc.regs());
    let Some(first) = start else {
        return Ok(());
    };
    if first == last {
        return steps.advance(dots_to_beam(card));
    }
    push_start_address(steps, port, first)?;
    steps.advance(dots_to_beam(card))?;
    push_start_address(steps, port, last)
}

//! The steps that set the DAC.

use crate::ports::{DAC_DATA, DAC_MASK, DAC_WRITE_INDEX};
use crate::step_list::StepList;
use vga_bits::Fault;
use vga_dac::{Component, Dac};

/// Appends the writes of the components of an entry.
fn push_components(steps: &mut StepList, components: [u8; 3]) -> Result<(), Fault> {
    for component in components {
        steps.out(DAC_DATA, component)?;
    }
    Ok(())
}

/// Appends the writes of the entries that differ. From entry to entry the index advances by itself.
fn push_entries(steps: &mut StepList, wanted: &Dac, found: &Dac) -> Result<(), Fault> {
    let mut next = None;
    for entry in 0..=255u8 {
        let components = wanted.entry(entry);
        if components != found.entry(entry) {
            if next != Some(entry) {
                steps.out(DAC_WRITE_INDEX, entry)?;
            }
            push_components(steps, components)?;
            next = entry.checked_add(1);
        }
    }
    Ok(())
}

/// How many components of an entry come before one.
fn components_before(component: Component) -> usize {
    match component {
        Component::Red => 0,
        Component::Green => 1,
        Component::Blue => 2,
    }
}

/// Appends the steps that set the DAC: its mask, its entries, the red and green that wait for blue,
/// and the index. Reads lead to the component that comes next.
pub(crate) fn push_dac(steps: &mut StepList, wanted: &Dac, found: &Dac) -> Result<(), Fault> {
    let (red, green) = wanted.waiting();
    steps.out(DAC_MASK, wanted.mask())?;
    push_entries(steps, wanted, found)?;
    steps.out(DAC_WRITE_INDEX, 0)?;
    steps.out(DAC_DATA, red)?;
    steps.out(DAC_DATA, green)?;
    steps.out(DAC_WRITE_INDEX, wanted.read_index())?;
    for _ in 0..components_before(wanted.component()) {
        steps.input(DAC_DATA)?;
    }
    Ok(())
}

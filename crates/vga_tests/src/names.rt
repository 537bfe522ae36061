//! Checking the names of refusals and faults.

use crate::checks::Checks;
use anyhow::Result;
use std::alloc::{AllocError, Global};
use vga_bits::{Fault, Refusal};

const REFUSALS: [(Refusal, &str); 13] = [
    (Refusal::NotDecoded, "E1 NotDecoded"),
    (Refusal::NotInProfile, "E2 NotInProfile"),
    (Refusal::NoMode, "E3 NoMode"),
    (Refusal::BadFunction, "E4 BadFunction"),
    (Refusal::BadMode, "E5 BadMode"),
    (Refusal::WrongKind, "E6 WrongKind"),
    (Refusal::BadPage, "E7 BadPage"),
    (Refusal::Outside, "E8 Outside"),
    (Refusal::CountPast, "E9 CountPast"),
    (Refusal::BadRegister, "E10 BadRegister"),
    (Refusal::BadBlock, "E11 BadBlock"),
    (Refusal::TooFar, "E12 TooFar"),
    (Refusal::BadHeight, "E13 BadHeight"),
];

const FAULTS: [(Fault, &str); 11] = [
    (Fault::FontSize, "F1 FontSize"),
    (Fault::BadMagic, "F2 BadMagic"),
    (Fault::BadVersion, "F3 BadVersion"),
    (Fault::BadStep(9), "F4 BadStep(9)"),
    (Fault::Truncated(16777215), "F5 Truncated(16777215)"),
    (Fault::TooLong, "F6 TooLong"),
    (
        Fault::BadLine(18446744073709551615),
        "F7 BadLine(18446744073709551615)",
    ),
    (Fault::ReadFault, "F8 ReadFault"),
    (Fault::WriteFault, "F9 WriteFault"),
    (Fault::OutOfMemory, "F10 OutOfMemory"),
    (Fault::TooMany(5), "F11 TooMany(5)"),
];

/// Whether a refusal is printed with this name.
fn is_refusal_printed(alloc: Global, refusal: Refusal, name: &str) -> Result<bool, AllocError> {
    let printed = format!(in alloc; "{refusal}")?;
    Ok(printed.as_str() == name)
}

/// Whether a fault is printed with this name.
fn is_fault_printed(alloc: Global, fault: Fault, name: &str) -> Result<bool, AllocError> {
    let printed = format!(in alloc; "{fault}")?;
    Ok(printed.as_str() == name)
}

/// Checks that refusals have their numbers and names, and are printed with them.
fn check_refusals(alloc: Global, checks: &mut Checks) -> Result<(), AllocError> {
    for (refusal, name) in REFUSALS {
        let is_printed = is_refusal_printed(alloc, refusal, name)?;
        checks.note("a refusal", refusal.name() == name && is_printed);
    }
    Ok(())
}

/// Checks that faults have their numbers, names and places, and are printed with them.
fn check_faults(alloc: Global, checks: &mut Checks) -> Result<(), AllocError> {
    for (fault, name) in FAULTS {
        let is_printed = is_fault_printed(alloc, fault, name)?;
        checks.note("a fault", fault.name().as_str() == name && is_printed);
    }
    Ok(())
}

/// Checks the names of refusals and faults.
pub fn check_names(alloc: Global) -> Result<Checks> {
    let mut checks = Checks::new();
    check_refusals(alloc, &mut checks)?;
    check_faults(alloc, &mut checks)?;
    Ok(checks)
}

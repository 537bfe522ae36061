//! Why a cycle is refused, in words.

use crate::cycle_reason::CycleReason;
use crate::digits::{Decimal, Hex};
use crate::group::Group;
use crate::left_out::LeftOut;
use std::fmt::{self, Display, Formatter, Write};

impl Group {
    /// Its name.
    fn name(self) -> &'static str {
        match self {
            Group::Sequencer => "sequencer",
            Group::GraphicsController => "graphics controller",
            Group::CrtController => "CRT controller",
            Group::AttributeController => "attribute controller",
        }
    }

    /// The names of its register and of the bit that the profile leaves out.
    fn bit_left_out(self) -> &'static str {
        match self {
            Group::GraphicsController => "graphics mode, shift register mode",
            _ => "underline location, count by four",
        }
    }
}

impl LeftOut {
    /// What it is called.
    fn name(self) -> &'static str {
        match self {
            LeftOut::InputStatus0 => "input status 0",
            LeftOut::SubsystemEnable => "subsystem enable",
            LeftOut::DacState => "the DAC state",
            LeftOut::FeatureControl => "feature control",
        }
    }
}

/// Where the CRT controller is, and how it is reached there.
fn write_other_crt_controller<W: Write>(
    f: &mut Formatter<W>,
    port: u16,
    base: u16,
    there: u16,
) -> fmt::Result {
    let bit = if base == 0x3D4 { "1" } else { "0" };
    let (port, base, there) = (Hex::port(port), Hex::port(base), Hex::port(there));
    write!(
        f,
        "The CRT controller is at {base} now, since bit 0 of miscellaneous output is {bit}. There, port {port} is {there}."
    )
}

/// Where the display memory answers.
fn write_window<W: Write>(
    f: &mut Formatter<W>,
    address: u32,
    map: u8,
    first: u32,
    last: u32,
) -> fmt::Result {
    let map = Decimal(map as u32);
    let (address, first, last) = (
        Hex::address(address),
        Hex::address(first),
        Hex::address(last),
    );
    write!(
        f,
        "Memory map is {map} (graphics controller 6, bits 3-2), and it decodes {first} to {last}. {address} lies outside."
    )
}

impl Display for CycleReason {
    fn fmt<W: Write>(&self, f: &mut Formatter<W>) -> fmt::Result {
        match *self {
            CycleReason::NoPort { port } => {
                let port = Hex::port(port);
                write!(f, "No part of the adapter decodes port {port}.")
            }
            CycleReason::OtherCrtController { port, base, there } => {
                write_other_crt_controller(f, port, base, there)
            }
            CycleReason::ReadOnly { port } => {
                let port = Hex::port(port);
                write!(f, "Port {port} can't be written.")
            }
            CycleReason::PortLeftOut { port, part } => {
                let (port, part) = (Hex::port(port), part.name());
                write!(
                    f,
                    "Port {port} would be {part}, which is left out of the adapter."
                )
            }
            CycleReason::NoRegister { group, index, last } => {
                let (group, index, last) = (group.name(), Hex::byte(index), Hex::byte(last));
                write!(
                    f,
                    "The index of the {group} is {index}, and its registers end at {last}."
                )
            }
            CycleReason::BitLeftOut { group, .. } => {
                let bit = group.bit_left_out();
                write!(
                    f,
                    "Bit 5 of {bit}, is left out of the adapter, so it can't be 1."
                )
            }
            CycleReason::FieldLeftOut { .. } => f.write_str(
                "In mode control of the CRT controller bits 0 and 1 must be 1, and bits 2 and 3 must be 0.",
            ),
            CycleReason::MemoryOff { .. } => f.write_str(
                "Display memory is off: enable RAM, bit 1 of miscellaneous output, is 0.",
            ),
            CycleReason::OutsideWindow {
                address,
                map,
                first,
                last,
            } => { write_window(f, address, map, first, last) }
            CycleReason::LastPort => f.write_str("Port FFFF is the last: a word has two bytes."),
            CycleReason::LastAddress => {
                f.write_str("Address FFFFFFFF is the last: a word has two bytes.")
            }
        }
    }
}

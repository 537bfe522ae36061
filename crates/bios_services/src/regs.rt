//! The registers of a call.
ghost use Rattle.std.specs.Prelude.{◌≡◌};
ghost use Rattle.bios_services.specs.Registers.{high as high_of, low as low_of};
ghost use Rattle.bios_services.specs.Registers.{with_high as with_high_of, with_low as with_low_of};

/// The registers that a caller hands in, and those that a service answers.
#[derive(Clone, Copy, PartialEq, Eq, Debug)]
pub struct Regs {
    pub ax: u16,
    pub bx: u16,
    pub cx: u16,
    pub dx: u16,
}

/// The high byte of a register.
pub(crate) fn high(register: u16) -> u8
    ensures { result ≡ high_of register }
{
    (register / 256) as u8
}

/// The low byte of a register.
pub(crate) fn low(register: u16) -> u8
    ensures { result ≡ low_of register }
{
    (register % 256) as u8
}

/// A register with another high byte.
pub(crate) fn with_high(register: u16, byte: u8) -> u16
    ensures { result ≡ with_high_of register byte }
{
    256 * byte as u16 + register % 256
}

/// A register with another low byte.
pub(crate) fn with_low(register: u16, byte: u8) -> u16
    ensures { result ≡ with_low_of register byte }
{
    256 * (register / 256) + byte as u16
}

//! The registers of a call.
ghost use Rattle.std.specs.Prelude.{◌≡◌};

use vga_script::is_name;

/// A register of a call of the BIOS.
#[derive(Clone, Copy, PartialEq, Eq, Debug)]
pub enum Register {
    /// AX.
    Ax,
    /// BX.
    Bx,
    /// CX.
    Cx,
    /// DX.
    Dx,
}

impl Register {
    /// The register that a word names.
    pub(crate) fn of_word(word: &[u8]) -> Option<Register> {
        if is_name(word, b"ax") {
            return Some(Register::Ax);
        }
        if is_name(word, b"bx") {
            return Some(Register::Bx);
        }
        if is_name(word, b"cx") {
            return Some(Register::Cx);
        }
        if is_name(word, b"dx") {
            return Some(Register::Dx);
        }
        None
    }

    /// The register of which a word names a half, as `AH`.
    pub(crate) fn of_half(word: &[u8]) -> Option<Register> {
        let [letter, half] = word else {
            return None;
        };
        if !matches!(*half, b'H' | b'h' | b'L' | b'l') {
            return None;
        }
        match *letter {
            b'A' | b'a' => Some(Register::Ax),
            b'B' | b'b' => Some(Register::Bx),
            b'C' | b'c' => Some(Register::Cx),
            b'D' | b'd' => Some(Register::Dx),
            _ => None,
        }
    }

    /// The name, in lower case.
    pub fn name(self) -> &'static str {
        match self {
            Register::Ax => "ax",
            Register::Bx => "bx",
            Register::Cx => "cx",
            Register::Dx => "dx",
        }
    }

    /// The place among the registers of a call, from 0.
    pub(crate) fn place(self) -> usize {
        match self {
            Register::Ax => 0,
            Register::Bx => 1,
            Register::Cx => 2,
            Register::Dx => 3,
        }
    }
}

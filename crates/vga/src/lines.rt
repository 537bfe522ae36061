//! The lines that the program itself writes to standard error.
ghost use Rattle.std.specs.Prelude.{◌≡◌, ◌≤◌, length, codes};
ghost use Rattle.vga_bits.specs.Fault.{fault_text};
ghost use Rattle.vga.specs.Lines.{line_with_program_name};

use arrayvec::ArrayString;
use vga_bits::Fault;

/// Room for `vga: `, the longest name of a fault, which has 34 bytes, and a newline.
const LINE_LEN: usize = 40;

/// A line that the program itself writes, with its newline.
pub type Line = ArrayString<LINE_LEN>;

/// The line with this text, of at most 34 bytes.
fn line(text: &str) -> Line
    requires { length text.now ≤ 34 }
    ensures { result.bytes ≡ line_with_program_name text.now }
{
    let mut line = Line::new();
    line.push_str("vga: ");
    line.push_str(text);
    line.push_str("\n");
    line
}

/// The line of a fault, as `vga: F1 FontSize`.
pub fn fault_line(fault: &Fault) -> Line
    ensures { result.bytes ≡ line_with_program_name (fault_text fault.now) }
{
    line(fault.name().as_str())
}

/// The line for words without a command or a path.
pub fn line_of_missing_command_or_path() -> Line
    ensures { result.bytes ≡ line_with_program_name (codes "Missing") }
{
    line("Missing")
}

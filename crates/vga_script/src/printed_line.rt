//! A line of printed text, before its newline.
ghost use Rattle.std.specs.Prelude.{◌≡◌, ◌+◌, ◌≤◌, ◌++◌, codes, length};
ghost use Rattle.vga_script.specs.Printing.{address_text, port_text};

use vga_bits::TextBuffer;

/// Room for the longest line without its block: `int`, four registers, and the word `block`.
const LINE_LEN: usize = 64;

/// The text of a line.
pub(crate) type Line = TextBuffer<LINE_LEN>;

/// A line of a name and a space.
pub(crate) fn named_line(name: &[u8]) -> Line
    requires { length name.now ≤ 16 }
    ensures items { result ≡ name.now ++ codes " " }
    ensures len { length result ≤ 17 }
{
    let mut line = Line::new();
    line.push(name);
    line.push(b" ");
    line
}

/// Appends the digits of a port to a line.
#[tactic(auto, unfolding(crate::specs::Printing::port_text))]
pub(crate) fn with_port(mut line: Line, port: u16) -> Line
    requires { length line ≤ 60 }
    ensures items { result ≡ line ++ port_text port }
    ensures len { length result ≤ length line + 4 }
{
    let digits = if port < 0x1000 { 3 } else { 4 };
    line.push_hex(port as u32, digits);
    line
}

/// Appends the digits of an address to a line.
#[tactic(auto, unfolding(crate::specs::Printing::address_text))]
pub(crate) fn with_address(mut line: Line, address: u32) -> Line
    requires { length line ≤ 56 }
    ensures items { result ≡ line ++ address_text address }
    ensures len { length result ≤ length line + 8 }
{
    let digits = if address < 0x10_0000 {
        5
    } else if address < 0x100_0000 {
        6
    } else if address < 0x1000_0000 {
        7
    } else {
        8
    };
    line.push_hex(address, digits);
    line
}

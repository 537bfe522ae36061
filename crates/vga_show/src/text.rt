//! Building the text of a dump: words, each after a blank.
ghost use Rattle.std.specs.Prelude.{◌≡◌, ◌+◌, ◌*◌, ◌≤◌, ◌++◌, length, slice_index, codes};
ghost use Rattle.std.specs.Prelude.{decimal};
ghost use Rattle.vga_bits.specs.Hex.{two_hex_digits, four_hex_digits};
ghost use Rattle.vga_show.specs.Lines.{longest_dump_len, words_after_blanks, two_hex_digits_each};

/// Room for the longest text: a line of 256 bytes of a plane.
const ROOM: usize = 782;

/// The text of a dump, or the head of a picture.
pub(crate) type DumpText = vga_bits::TextBuffer<ROOM>;

/// Appends a blank and the two digits of a byte.
pub(crate) fn push_spaced_byte(text: &mut DumpText, v: u8)
    requires { length text.old + 3 ≤ longest_dump_len }
    ensures items { text.new ≡ text.old ++ (codes " " ++ two_hex_digits v) }
    ensures len { length text.new ≡ length text.old + 3 }
{
    text.push(b" ");
    text.push_hex_byte(v);
}

/// Appends a blank and two digits for each byte.
#[tactic(auto, using(crate::proofs::TextLemmas::listing))]
pub(crate) fn push_spaced_bytes(text: &mut DumpText, bytes: &[u8])
    requires { length text.old + 3 * length bytes.now ≤ longest_dump_len }
    ensures items { text.new ≡ text.old ++ words_after_blanks
        (two_hex_digits_each (slice_index bytes.now) 0 (length bytes.now)) }
    ensures len { length text.new ≡ length text.old + 3 * length bytes.now }
{
    for i in 0..bytes.len() {
        push_spaced_byte(text, bytes[i]);
    }
}

/// Appends a blank and the four digits of a word.
pub(crate) fn push_spaced_word(text: &mut DumpText, v: u16)
    requires { length text.old + 5 ≤ longest_dump_len }
    ensures items { text.new ≡ text.old ++ (codes " " ++ four_hex_digits v) }
    ensures len { length text.new ≡ length text.old + 5 }
{
    text.push(b" ");
    text.push_hex_word(v);
}

/// Appends a blank, a name, a blank and the two digits of a byte.
pub(crate) fn push_byte_field(text: &mut DumpText, name: &[u8], v: u8)
    requires { length text.old + length name.now + 4 ≤ longest_dump_len }
    ensures items { text.new ≡ text.old ++ (codes " "
        ++ (name.now ++ (codes " " ++ two_hex_digits v))) }
    ensures len { length text.new ≡ length text.old + length name.now + 4 }
{
    text.push(b" ");
    text.push(name);
    push_spaced_byte(text, v);
}

/// Appends a blank, a name, a blank and the four digits of a word.
pub(crate) fn push_word_field(text: &mut DumpText, name: &[u8], v: u16)
    requires { length text.old + length name.now + 6 ≤ longest_dump_len }
    ensures items { text.new ≡ text.old ++ (codes " "
        ++ (name.now ++ (codes " " ++ four_hex_digits v))) }
    ensures len { length text.new ≡ length text.old + length name.now + 6 }
{
    text.push(b" ");
    text.push(name);
    push_spaced_word(text, v);
}

/// Appends a blank, a name, a blank and a number of at most ten digits in decimal.
pub(crate) fn push_decimal_field(text: &mut DumpText, name: &[u8], n: u32)
    requires { length text.old + length name.now + 12 ≤ longest_dump_len }
    ensures items { text.new ≡ text.old ++ (codes " " ++ (name.now ++ (codes " " ++ decimal n))) }
    ensures len { length text.new ≤ length text.old + length name.now + 12 }
{
    text.push(b" ");
    text.push(name);
    text.push(b" ");
    text.push_decimal(n);
}

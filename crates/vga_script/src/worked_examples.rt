//! Worked examples that show the definitions of the grammar right. Each is a contract of a function
//! that does nothing.
ghost use Rattle.std.specs.Prelude.{◌≡◌, [], ◌∷◌, ◌++◌, codes};
ghost use Rattle.vga_script.specs.Decoding.{IsFault};
ghost use Rattle.vga_script.specs.Examples.{frames_repeated, frames_repeated_bytes};
ghost use Rattle.vga_script.specs.Examples.{nothing_repeated};
ghost use Rattle.vga_script.specs.Examples.{three_times, three_times_bytes, two_steps};
ghost use Rattle.vga_script.specs.Examples.{two_steps_bytes};
ghost use Rattle.vga_script.specs.Item.{expanded, script_of_items};
ghost use Rattle.vga_script.specs.Printing.{printed_script, printed_line};
ghost use Rattle.vga_script.specs.Script.{IsTextFault};
ghost use Rattle.vga_script.specs.Spelling.{encoding, header, spelling, Spells};
ghost use Rattle.vga_script.specs.Text.{SpellsText};

use super::dump_range::Shown;
use super::step::Step;
use super::version::Version;
use vga_bits::Fault;

/// The bytes of each step: an opcode, then its fields with the low byte first.
fn steps_in_bytes()
    ensures script { encoding two_steps ≡ two_steps_bytes }
    ensures out_word { spelling (Step.OutWord 0x3CE 0xFF08) ≡ 2 ∷ 0xCE ∷ 0x03 ∷ 0x08 ∷ 0xFF ∷ [] }
    ensures input { spelling (Step.In 0x3DA) ≡ 3 ∷ 0xDA ∷ 0x03 ∷ [] }
    ensures input_word { spelling (Step.InWord 0x3C4) ≡ 4 ∷ 0xC4 ∷ 0x03 ∷ [] }
    ensures put { spelling (Step.Put 0xB8000 0x41) ≡ 5 ∷ 0x00 ∷ 0x80 ∷ 0x0B ∷ 0x00 ∷ 0x41 ∷ [] }
    ensures put_word { spelling (Step.PutWord 0x1234567 0x741)
        ≡ 6 ∷ 0x67 ∷ 0x45 ∷ 0x23 ∷ 0x01 ∷ 0x41 ∷ 0x07 ∷ [] }
    ensures get { spelling (Step.Get 0xA0000) ≡ 7 ∷ 0x00 ∷ 0x00 ∷ 0x0A ∷ 0x00 ∷ [] }
    ensures get_word { spelling (Step.GetWord 0xFFFFFFFF) ≡ 8 ∷ 0xFF ∷ 0xFF ∷ 0xFF ∷ 0xFF ∷ [] }
    ensures int { spelling (Step.Int 0x1002 0 1 0 (0xAA ∷ 0xBB ∷ []))
        ≡ 9 ∷ 0x02 ∷ 0x10 ∷ 0 ∷ 0 ∷ 1 ∷ 0 ∷ 0 ∷ 0 ∷ 2 ∷ 0 ∷ 0xAA ∷ 0xBB ∷ [] }
    ensures advance { spelling (Step.Advance 720) ≡ 0x0A ∷ 0xD0 ∷ 0x02 ∷ 0 ∷ 0 ∷ [] }
    ensures frame { spelling Step.Frame ≡ 0x0B ∷ [] }
    ensures registers { spelling (Step.Show Shown.Registers) ≡ 0x0C ∷ 0x00 ∷ [] }
    ensures dac { spelling (Step.Show (Shown.Dac 0x1F)) ≡ 0x0C ∷ 0x01 ∷ 0x1F ∷ [] }
    ensures beam { spelling (Step.Show Shown.Beam) ≡ 0x0C ∷ 0x02 ∷ [] }
    ensures latches { spelling (Step.Show Shown.Latches) ≡ 0x0C ∷ 0x03 ∷ [] }
    ensures plane { spelling (Step.Show (Shown.Plane 2 0xB800 256))
        ≡ 0x0C ∷ 0x04 ∷ 2 ∷ 0x00 ∷ 0xB8 ∷ 0x00 ∷ 0x01 ∷ [] }
    ensures bios_data { spelling (Step.Show Shown.BiosData) ≡ 0x0C ∷ 0x05 ∷ [] }
    ensures cells { spelling (Step.Show Shown.Cells) ≡ 0x0C ∷ 0x06 ∷ [] }
{}

/// The printed line of each step.
#[tactic(auto, unfolding(crate::specs::Printing::line_of_words, vga_bits::specs::Hex::hex, crate::specs::Printing::port_text, crate::specs::Printing::address_text, hex::specs::Hex::encode_with))]
fn steps_in_print()
    ensures script { printed_script two_steps
        ≡ codes "out 3C4 02\nint ax=0013 bx=0000 cx=0000 dx=0000\n" }
    ensures out_word { printed_line (Step.OutWord 0x1234 8) ≡ codes "outw 1234 0008\n" }
    ensures input { printed_line (Step.In 0x1F) ≡ codes "in 01F\n" }
    ensures input_word { printed_line (Step.InWord 0x3C4) ≡ codes "inw 3C4\n" }
    ensures put { printed_line (Step.Put 0xB8000 0x41) ≡ codes "put B8000 41\n" }
    ensures put_word { printed_line (Step.PutWord 0x1234567 0x741) ≡ codes "putw 1234567 0741\n" }
    ensures get { printed_line (Step.Get 0) ≡ codes "get 00000\n" }
    ensures get_word { printed_line (Step.GetWord 0xFFFFFFFF) ≡ codes "getw FFFFFFFF\n" }
    ensures int { printed_line (Step.Int 0x1002 0 1 0 (0xAA ∷ 0x0B ∷ []))
        ≡ codes "int ax=1002 bx=0000 cx=0001 dx=0000 block AA0B\n" }
    ensures advance { printed_line (Step.Advance 720) ≡ codes "advance 720\n" }
    ensures frame { printed_line Step.Frame ≡ codes "frame\n" }
    ensures registers { printed_line (Step.Show Shown.Registers) ≡ codes "show regs\n" }
    ensures dac { printed_line (Step.Show (Shown.Dac 0x1F)) ≡ codes "show dac 1F\n" }
    ensures beam { printed_line (Step.Show Shown.Beam) ≡ codes "show beam\n" }
    ensures latches { printed_line (Step.Show Shown.Latches) ≡ codes "show latches\n" }
    ensures plane { printed_line (Step.Show (Shown.Plane 2 0 256))
        ≡ codes "show plane 2 0000 256\n" }
    ensures bios_data { printed_line (Step.Show Shown.BiosData) ≡ codes "show bda\n" }
    ensures cells { printed_line (Step.Show Shown.Cells) ≡ codes "show cells\n" }
{}

/// A text with a comment and capitals spells two steps, and one without a value has a bad line.
fn texts_spelled()
    ensures good { SpellsText (codes "out 3c4 2 ; map mask\nINT ax=13\n") two_steps }
    ensures bad { IsTextFault (codes "out 3C4") (Fault.BadLine 1) }
{}

/// Bytes that spell no script, each with its fault.
fn bytes_faulty()
    ensures magic { IsFault (codes "VGAX") Fault.BadMagic }
    ensures short { IsFault (codes "VGAS") (Fault.Truncated 4) }
    ensures version { IsFault (codes "VGAS" ++ 9 ∷ []) Fault.BadVersion }
    ensures cut { IsFault (header Version.One ++ 1 ∷ 0xC4 ∷ 0x03 ∷ []) (Fault.Truncated 5) }
    ensures unknown { IsFault (header Version.One ++ 0xFF ∷ []) (Fault.BadStep 5) }
    ensures no_kind { IsFault (header Version.One ++ 0x0C ∷ []) (Fault.Truncated 5) }
    ensures other_kind { IsFault (header Version.One ++ 0x0C ∷ 0x07 ∷ []) (Fault.BadStep 5) }
    ensures past_the_end { IsFault (header Version.One
        ++ 0x0C ∷ 0x04 ∷ 0 ∷ 0xFF ∷ 0xFF ∷ 2 ∷ 0 ∷ [])
        (Fault.BadStep 5) }
    ensures no_repeat { IsFault (header Version.One ++ 0x0D ∷ 1 ∷ 0 ∷ 0x0E ∷ []) (Fault.BadStep 5) }
{}

/// Repeats in bytes and in print, and the steps that they mean.
#[tactic(auto, unfolding(crate::specs::Item::repeated, crate::specs::Printing::line_of_words, vga_bits::specs::Hex::hex, crate::specs::Printing::port_text))]
fn repeats()
    ensures bytes { encoding three_times ≡ three_times_bytes }
    ensures steps { expanded three_times.items ≡ Step.Out 0x3C4 2 ∷ Step.Out 0x3C4 2
        ∷ Step.Out 0x3C4 2 ∷ [] }
    ensures text { printed_script three_times ≡ codes "version 2\nrepeat 3\nout 3C4 02\nend\n" }
{}

/// Bytes that spell repeats.
fn repeats_spelled()
    ensures none { Spells (codes "VGAS" ++ 2 ∷ []) (script_of_items Version.Two []) }
    ensures empty { Spells (codes "VGAS" ++ 2 ∷ 0x0D ∷ 0xFF ∷ 0xFF ∷ 0x0E ∷ []) nothing_repeated }
    ensures no_steps { expanded nothing_repeated.items ≡ [] }
    ensures frames { Spells (frames_repeated_bytes 256) (frames_repeated 256) }
{}

/// Bytes with a fault in or at a repeat.
fn repeats_faulty()
    ensures open { IsFault (header Version.Two ++ 0x0D ∷ 3 ∷ 0 ∷ 1 ∷ 0xC4 ∷ 0x03 ∷ 0x02 ∷ [])
        (Fault.Truncated 5) }
    ensures no_count { IsFault (header Version.Two ++ 0x0D ∷ 3 ∷ []) (Fault.Truncated 5) }
    ensures zero { IsFault (header Version.Two ++ 0x0D ∷ 0 ∷ 0 ∷ 0x0E ∷ []) (Fault.BadStep 5) }
    ensures end { IsFault (header Version.Two ++ 0x0E ∷ []) (Fault.BadStep 5) }
    ensures inner { IsFault (header Version.Two ++ 0x0D ∷ 1 ∷ 0 ∷ 0x0D ∷ 1 ∷ 0 ∷ 0x0E ∷ 0x0E ∷ [])
        (Fault.BadStep 8) }
    ensures inner_cut { IsFault (header Version.Two
        ++ 0x0D ∷ 1 ∷ 0 ∷ 3 ∷ 0xDA ∷ []) (Fault.Truncated 8) }
    ensures many { IsFault (frames_repeated_bytes 257) (Fault.TooMany 5) }
{}

/// A text with a repeat, and texts in which a line in or at a repeat is bad.
fn repeats_in_text()
    ensures block { SpellsText (codes "Version 2\nrepeat 03 ; times\n\n out 3c4 2\nEND")
        three_times }
    ensures no_end { IsTextFault (codes "version 2\nrepeat 3\nframe") (Fault.BadLine 2) }
    ensures inner { IsTextFault (codes "version 2\nrepeat 3\nend 3") (Fault.BadLine 3) }
    ensures no_version { IsTextFault (codes "repeat 3\nend") (Fault.BadLine 1) }
{}

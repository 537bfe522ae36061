//! Checks the definitions of a dot's colour on values worked out by hand. Each function has an
//! empty body: the prover computes its clauses.
ghost use Rattle.std.specs.Prelude.{◌≡◌, [], ◌∷◌};
ghost use Rattle.vga_dots.specs.SourceDot.{source_dot};
ghost use Rattle.vga_dots.specs.Fetch.{address_fetched_at_beam};
ghost use Rattle.vga_dots.specs.Colour.{nibble, colour_number, dot_colour};
ghost use Rattle.vga_dots.specs.Examples.{host_of_mode_7, crtc_of_mode_7, attr_of_mode_7};
ghost use Rattle.vga_dots.specs.Examples.{host_of_mode_12, crtc_of_mode_12, attr_of_mode_12};
ghost use Rattle.vga_dots.specs.Examples.{host_of_mode_13, crtc_of_mode_13, attr_of_mode_13};
ghost use Rattle.vga_dots.specs.Examples.{dac_with_grey};

/// Text, whose attribute 81 blinks and is underlined at scan line 15. A word of a counter is at
/// twice the counter. Row 18 of the glyph has dots 3 and 4. In the second half of 32 frames the
/// character is gone, with its underline, but the cursor at scan lines 13 and 14 stays; it is gone
/// in the second half of each 16 frames. Foreground 1 selects palette register 1, which holds 8.
#[tactic(auto, unfolding(crate::specs::Colour::nibble, crate::specs::Colour::colour_number, crate::specs::Colour::dot_colour, crate::specs::SourceDot::source_dot, crate::specs::SourceDot::panning_shift, crate::specs::SourceDot::fetch_address, crate::specs::Text::text_nibble, crate::specs::Text::cell_at, crate::specs::Text::is_foreground, crate::specs::Text::is_cursor_at, crate::specs::Text::is_blinked_away, crate::specs::Text::is_underlined, crate::specs::Text::is_glyph_dot, crate::specs::Text::glyph_row, vga_crtc::specs::Fields::cursor_location, vga_crtc::specs::Fields::cursor_start, vga_crtc::specs::Fields::is_cursor_off, vga_crtc::specs::Fields::cursor_end, vga_crtc::specs::Fields::underline_location, vga_crtc::specs::Fields::is_double_word, vga_crtc::specs::Fields::is_byte_mode, vga_crtc::specs::Fields::is_address_wrap))]
fn text_with_cursor_underline_and_blink()
    ensures address { address_fetched_at_beam host_of_mode_7 (crtc_of_mode_7 0 0 3) attr_of_mode_7
        ≡ 2 }
    ensures glyph { nibble host_of_mode_7 (crtc_of_mode_7 0 0 3) attr_of_mode_7 ≡ 1 }
    ensures beside_glyph { nibble host_of_mode_7 (crtc_of_mode_7 0 0 5) attr_of_mode_7 ≡ 0 }
    ensures underlined { nibble host_of_mode_7 (crtc_of_mode_7 0 15 8) attr_of_mode_7 ≡ 1 }
    ensures blinked_away { nibble host_of_mode_7 (crtc_of_mode_7 16 15 8) attr_of_mode_7 ≡ 0 }
    ensures cursor { nibble host_of_mode_7 (crtc_of_mode_7 16 13 8) attr_of_mode_7 ≡ 1 }
    ensures cursor_gone { nibble host_of_mode_7 (crtc_of_mode_7 24 13 8) attr_of_mode_7 ≡ 0 }
    ensures number { colour_number host_of_mode_7 (crtc_of_mode_7 0 0 3) attr_of_mode_7 ≡ 8 }
    ensures colour { dot_colour host_of_mode_7 (crtc_of_mode_7 0 0 3) attr_of_mode_7
        (dac_with_grey 0xFF 8 42) ≡ 42 ∷ 42 ∷ 42 ∷ [] }
{}

/// 16 colours. Dot 1 has bit 6 of planes 1 and 2: its four bits are 6, and palette register 6 holds
/// 14. Dot 0 has bit 7 of plane 3 alone, which colour plane enable 7 leaves out. If mode control
/// has bit 7, colour select 0B gives bits 5 and 4 too: 4 + 16 * 3 + 64 * 2.
#[tactic(auto, unfolding(crate::specs::Colour::nibble, crate::specs::Colour::colour_number, crate::specs::SourceDot::source_dot, crate::specs::SourceDot::panning_shift, crate::specs::SourceDot::fetch_address, crate::specs::Graphics::planar_nibble, crate::specs::Graphics::plane_bits, vga_crtc::specs::Fields::is_double_word, vga_crtc::specs::Fields::is_byte_mode))]
fn dots_of_16_colours()
    ensures four_bits { nibble host_of_mode_12 (crtc_of_mode_12 0 0 1) (attr_of_mode_12 0x01 0x0F 0)
        ≡ 6 }
    ensures number { colour_number host_of_mode_12 (crtc_of_mode_12 0 0 1)
        (attr_of_mode_12 0x01 0x0F 0) ≡ 0x14 }
    ensures select { colour_number host_of_mode_12 (crtc_of_mode_12 0 0 1)
        (attr_of_mode_12 0x81 0x0F 0x0B) ≡ 180 }
    ensures plane_3 { colour_number host_of_mode_12 (crtc_of_mode_12 0 0 0)
        (attr_of_mode_12 0x01 0x0F 0) ≡ 0x38 }
    ensures left_out { colour_number host_of_mode_12 (crtc_of_mode_12 0 0 0)
        (attr_of_mode_12 0x01 0x07 0) ≡ 0 }
{}

/// 256 colours. A double word of a counter is at four times the counter, and two dots have a byte.
/// Panning 2 moves the picture by one byte: dot 2 comes from dot 4, in plane 2, and dot 6 from the
/// next character. The DAC's mask 0F leaves 0A of 2A.
#[tactic(auto, unfolding(crate::specs::Colour::colour_number, crate::specs::Colour::dot_colour, crate::specs::SourceDot::source_dot, crate::specs::SourceDot::panning_shift, crate::specs::SourceDot::fetch_address, crate::specs::Graphics::packed_byte, vga_crtc::specs::Fields::is_double_word))]
fn dots_of_256_colours()
    ensures unpanned { colour_number host_of_mode_13 (crtc_of_mode_13 0 0 2) (attr_of_mode_13 0)
        ≡ 0x22 }
    ensures dot { (source_dot host_of_mode_13 (crtc_of_mode_13 0 0 2) (attr_of_mode_13 2)).dot ≡ 4 }
    ensures panned { colour_number host_of_mode_13 (crtc_of_mode_13 0 0 2) (attr_of_mode_13 2)
        ≡ 0x2A }
    ensures next { colour_number host_of_mode_13 (crtc_of_mode_13 0 0 6) (attr_of_mode_13 2)
        ≡ 0x88 }
    ensures masked { dot_colour host_of_mode_13 (crtc_of_mode_13 0 0 2) (attr_of_mode_13 2)
        (dac_with_grey 0x0F 0x0A 21) ≡ 21 ∷ 21 ∷ 21 ∷ [] }
{}

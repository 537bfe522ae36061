//! Laws of dots, for crates that build on them. Each function has an empty body: its clauses are
//! the law.
ghost use Rattle.std.specs.Prelude.{◌≡◌, ℕ, List, true};
ghost use Rattle.vga_bits.specs.Four.{Four};
ghost use Rattle.vga_host.specs.Host.{HostState};
ghost use Rattle.vga_host.specs.Graphics.{is_graphics};
ghost use Rattle.vga_crtc.specs.declared.beam.Beam.{Beam};
ghost use Rattle.vga_crtc.specs.Crtc.{CrtcState};
ghost use Rattle.vga_attr.specs.Attr.{AttrState};
ghost use Rattle.vga_dac.specs.Dac.{DacState};
ghost use Rattle.vga_dots.specs.Colour.{dot_colour};
ghost use Rattle.vga_dots.specs.Fetch.{DotSeesSameBytes};
ghost use Rattle.vga_dots.specs.Line.{with_beam_at_dot_of_character};
ghost use Rattle.vga_dots.specs.Repeat.{BeginAtSameFetch};
ghost use Rattle.vga_dots.specs.Seen.{DotsSeeSameRegisters};

/// In graphics, two lines have the same colours if they begin at the same counter and line compare
/// was reached before both or before neither. No colour depends on the scan line.
#[tactic(auto, using(crate::proofs::RepeatLemmas::same_colour))]
pub fn graphics_lines_depend_on_counter()
    ensures { (h : HostState) (c : CrtcState) (b : Beam) (a : AttrState) (d : DacState) (x k : ℕ) →
        is_graphics h ≡ true → BeginAtSameFetch b c.beam →
        dot_colour h (with_beam_at_dot_of_character (record c { beam = b }) x k) a d ≡ dot_colour h
        (with_beam_at_dot_of_character c x k) a d }
{}

/// A dot's colour depends only on the bytes of memory that the dot fetches and, in text, on the
/// glyphs.
#[tactic(auto, using(crate::proofs::FetchLemmas::same_colour))]
pub fn dots_see_what_they_fetch()
    ensures { (h : HostState) (c : CrtcState) (a : AttrState) (d : DacState)
        (memory : Four (List ℕ)) → DotSeesSameBytes h c a memory →
        dot_colour (record h { memory = memory }) c a d ≡ dot_colour h c a d }
{}

/// A dot's colour depends on no latch and no index, and on only four registers of the host path.
#[tactic(auto, using(crate::proofs::SeenLemmas::colour_alike))]
pub fn dots_see_four_registers()
    ensures { (h other : HostState) (c : CrtcState) (a : AttrState) (d : DacState) →
        DotsSeeSameRegisters h other → dot_colour other c a d ≡ dot_colour h c a d }
{}

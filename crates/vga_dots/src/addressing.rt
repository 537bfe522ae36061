//! Where characters are fetched. This file serves speed alone: what the registers say of every
//! address is looked up once for a line.
ghost use Rattle.std.specs.Prelude.{◌≡◌, ◌<◌, ◌≤◌, true, ℕ, List};
ghost use Rattle.vga_host.specs.Host.{HostState};
ghost use Rattle.vga_crtc.specs.Fields.{horizontal_display_end};
ghost use Rattle.vga_attr.specs.Attr.{AttrState};
ghost use Rattle.vga_dots.specs.SourceDot.{fetch_address};
ghost use Rattle.vga_host.specs.OffsetRun.{is_in_run};
ghost use Rattle.vga_dots.specs.Addressing.{addressing_of};
ghost use Rattle.vga_dots.specs.Fetch.{address_fetched_at_beam};
ghost use Rattle.vga_dots.specs.Line.{with_beam_at_dot_of_character};

use vga_crtc::{Crtc, Registers};
use vga_host::OffsetRun;

/// A bit that no counter has.
const NO_BIT: u32 = 16;

/// How a counter becomes a fetch address: by what it is multiplied, and which of its bits is added.
#[derive(Clone, Copy)]
pub(crate) struct Addressing {
    /// How far apart in each plane the addresses of two adjacent counters are.
    step: u16,
    /// Which bit of a counter is added.
    bit: u32,
}

impl Addressing {
    /// The addressing that some registers select.
    #[tactic(auto, unfolding(crate::specs::Addressing::addressing_of))]
    pub(crate) fn new(registers: &Registers) -> Addressing
        ensures { result ≡ addressing_of registers.now }
    {
        if registers.is_double_word() {
            Addressing {
                step: 4,
                bit: NO_BIT,
            }
        } else if registers.is_byte_mode() {
            Addressing {
                step: 1,
                bit: NO_BIT,
            }
        } else if registers.is_address_wrap() {
            Addressing { step: 2, bit: 15 }
        } else {
            Addressing { step: 2, bit: 13 }
        }
    }

    /// The address in each plane that a counter selects.
    #[inline(always)]
    pub(crate) fn address(self, counter: u16) -> u16
        requires { self.bit < 32 }
        ensures { (registers : List ℕ) → self ≡ addressing_of registers
            → result ≡ fetch_address registers counter }
    {
        let low = (counter as u32 >> self.bit) % 2;
        counter.wrapping_mul(self.step).wrapping_add(low as u16)
    }
}

/// The offsets in each plane that the displayed dots of the beam's line may fetch. The start of the
/// frame must have been taken.
#[tactic(auto, unfolding(crate::specs::Addressing::addressing_of))]
pub fn offsets_fetched_on_line(crtc: &Crtc) -> OffsetRun
    ensures { (h : HostState) (a : AttrState) (x k : ℕ) → x ≤ horizontal_display_end crtc.now.registers
        → is_in_run result (address_fetched_at_beam h (with_beam_at_dot_of_character crtc.now x k) a) ≡ true }
{
    let registers = crtc.fields();
    let step = Addressing::new(registers).step;
    // A panned line fetches one character more than it shows.
    let characters = registers.horizontal_display_end() as u16 + 2;
    OffsetRun {
        first: crtc.beam().base.wrapping_mul(step),
        count: characters * step,
    }
}

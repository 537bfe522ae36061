//! The sequencer: its registers, and their fields in the order of the registers. Its ports are in
//! `ports.rt`.
ghost use Rattle.std.specs.Prelude.{◌≡◌, ◌<◌, ◌⊎◌};
ghost use Rattle.vga_host.specs.Sequencer.{is_eight_dots, character_width, is_clock_halved, is_screen_off, character_map_a, character_map_b, is_chain_four};

use super::Host;

/// The registers whose fields the adapter uses.
pub(super) const CLOCKING_MODE: usize = 1;

pub(super) const MAP_MASK: usize = 2;

pub(super) const CHARACTER_MAP_SELECT: usize = 3;

pub(super) const MEMORY_MODE: usize = 4;

/// The last register.
pub(super) const LAST: u8 = 4;

/// The bits that the index keeps.
pub(super) const INDEX_MASK: u8 = 0x07;

/// The bits that the registers keep, from register 0.
pub(super) const SEQ_MASKS: [u8; 5] = [0x03, 0x3D, 0x0F, 0x3F, 0x0E];

impl Host {
    /// Whether a character has eight dots, and not nine.
    pub fn is_eight_dots(&self) -> bool
        ensures { result ≡ is_eight_dots self.now }
    {
        self.seq.bit(CLOCKING_MODE, 0)
    }

    /// How many dots a character has: 8 or 9.
    pub fn character_width(&self) -> u8
        ensures value { result ≡ character_width self.now }
        ensures known { (result ≡ 8) ⊎ (result ≡ 9) }
    {
        if self.is_eight_dots() { 8 } else { 9 }
    }

    /// Whether the dot clock runs at half its rate.
    pub fn is_clock_halved(&self) -> bool
        ensures { result ≡ is_clock_halved self.now }
    {
        self.seq.bit(CLOCKING_MODE, 3)
    }

    /// Whether the screen is off.
    pub fn is_screen_off(&self) -> bool
        ensures { result ≡ is_screen_off self.now }
    {
        self.seq.bit(CLOCKING_MODE, 5)
    }

    /// The map, 0 to 7, of the characters whose attribute has bit 3.
    pub fn character_map_a(&self) -> u8
        ensures value { result ≡ character_map_a self.now }
        ensures below { result < 8 }
    {
        let low = self.seq.field(CHARACTER_MAP_SELECT, 3, 2);
        low + 4 * self.seq.field(CHARACTER_MAP_SELECT, 5, 5)
    }

    /// The map, 0 to 7, of all other characters.
    pub fn character_map_b(&self) -> u8
        ensures value { result ≡ character_map_b self.now }
        ensures below { result < 8 }
    {
        let low = self.seq.field(CHARACTER_MAP_SELECT, 1, 0);
        low + 4 * self.seq.field(CHARACTER_MAP_SELECT, 4, 4)
    }

    /// Whether the two low bits of an address pick the plane.
    pub(super) fn is_chain_four(&self) -> bool
        ensures { result ≡ is_chain_four self.now }
    {
        self.access().chain_four
    }
}

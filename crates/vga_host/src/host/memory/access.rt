//! What the registers say of every cycle of memory. It is kept beside the registers, and recomputed
//! only when one is written or restored. This serves speed alone.
ghost use Rattle.std.specs.Prelude.{◌≡◌, ◌<◌, ◌+◌, ◌-◌, ◌*◌, ◌/◌, ◌%◌, ◌^◌, ◌==◌, ◌&&◌, ◌||◌};
ghost use Rattle.std.specs.Prelude.{nat_le, nat_lt, if◌then◌else◌, IsTrue, true, ℕ, List};
ghost use Rattle.std.specs.Prelude.{replicate};
ghost use Rattle.std.specs.Option.{SomeIff};
ghost use Rattle.vga_bits.specs.Bits.{is_set};
ghost use Rattle.vga_host.specs.Memory.Access.{IsAccess, IsAccessOfRegisters};
ghost use Rattle.vga_host.specs.Memory.Address.{is_decoded, window_offset, plane_offset, is_reached};
ghost use Rattle.vga_host.specs.Memory.Address.{is_memory_enabled as is_memory_enabled_of};
ghost use Rattle.vga_host.specs.Host.{HostState};
ghost use Rattle.vga_host.specs.Memory.Write.{StoresByteUnchanged};

use super::address::is_memory_enabled;
use crate::host::{Host, graphics, sequencer};
use vga_bits::RegFile;
use vga_planes::PlaneSet;

/// What the registers say of every cycle of memory.
#[derive(Clone, Copy)]
pub(crate) struct MemoryAccess {
    /// The window's first address, and how many addresses it has.
    pub start: u32,
    pub len: u32,
    /// Whether the two low bits of an address pick the plane.
    pub chain_four: bool,
    /// Whether the lowest bit of an address is left out of its offset in each plane.
    pub chain_odd_even: bool,
    /// Whether writes ignore whether an address is even or odd.
    pub odd_even_off: bool,
    /// The planes that the map mask allows to be written.
    pub map_mask: PlaneSet,
    /// Whether a write is known to store its byte unchanged in every plane that it reaches.
    pub stores_byte: bool,
    /// Whether a write stores the latches.
    pub stores_latches: bool,
}

impl MemoryAccess {
    /// The offset of an address in the window, or `None` if the address is not decoded. `misc` is
    /// the miscellaneous output register.
    pub(super) fn in_window(self, address: u32, misc: u8) -> Option<u16>
        ensures { (h : HostState) → IsAccess self h → SomeIff result
            (IsTrue (is_decoded h misc address)) (window_offset h address) }
    {
        let offset = address.wrapping_sub(self.start);
        if is_memory_enabled(misc) && offset < self.len {
            Some((offset % 65536) as u16)
        } else {
            None
        }
    }

    /// Whether all n addresses from the first on are decoded.
    pub(super) fn covers(self, first: u32, n: u32, misc: u8) -> bool
        requires small { self.start + self.len < 2 ^ 32 }
        requires few { first + n < 2 ^ 32 }
        ensures { result ≡ (is_memory_enabled_of misc && (nat_le self.start first
            && nat_le (first + n) (self.start + self.len))) }
    {
        is_memory_enabled(misc) && self.start <= first && first + n <= self.start + self.len
    }

    /// The offset in each plane, from the offset in the window.
    pub(super) fn offset(self, in_window: u16) -> u16
        ensures { (h : HostState) → IsAccess self h → result ≡ plane_offset h in_window }
    {
        if self.chain_four {
            in_window / 4 * 4
        } else if self.chain_odd_even {
            in_window / 2 * 2
        } else {
            in_window
        }
    }

    /// The planes that the address bits select for a write at an offset in the window.
    fn addressed(self, in_window: u16) -> PlaneSet
        ensures plane0 { is_set result 0 ≡ (if self.chain_four then 0 == in_window % 4
            else self.odd_even_off || (0 == in_window % 2)) }
        ensures plane1 { is_set result 1 ≡ (if self.chain_four then 1 == in_window % 4
            else self.odd_even_off || (1 == in_window % 2)) }
        ensures plane2 { is_set result 2 ≡ (if self.chain_four then 2 == in_window % 4
            else self.odd_even_off || (0 == in_window % 2)) }
        ensures plane3 { is_set result 3 ≡ (if self.chain_four then 3 == in_window % 4
            else self.odd_even_off || (1 == in_window % 2)) }
    {
        if self.chain_four {
            match in_window % 4 {
                0 => 0x01,
                1 => 0x02,
                2 => 0x04,
                _ => 0x08,
            }
        } else if self.odd_even_off {
            0x0F
        } else if in_window % 2 == 0 {
            0x05
        } else {
            0x0A
        }
    }

    /// The planes that a write at an offset in the window reaches.
    pub(super) fn reached(self, in_window: u16) -> PlaneSet
        ensures { (h : HostState) (p : ℕ) → IsAccess self h → p < 4
            → is_set result p ≡ is_reached h in_window p }
    {
        self.map_mask & self.addressed(in_window)
    }
}

/// The window's first address, and how many addresses it has, by the number of the memory map.
fn window(map: u8) -> (u32, u32)
    ensures start { result.0 ≡ (if nat_lt map 2 then 0xA0000 else if map == 2 then 0xB0000
        else 0xB8000) }
    ensures len { result.1 ≡ (if map == 0 then 0x20000 else if map == 1 then 0x10000
        else 0x8000) }
    ensures small { result.0 + result.1 < 2 ^ 32 }
{
    match map {
        0 => (0xA0000, 0x20000),
        1 => (0xA0000, 0x10000),
        2 => (0xB0000, 0x8000),
        _ => (0xB8000, 0x8000),
    }
}

/// Whether the graphics controller's registers let a write store its byte unchanged.
fn stores_byte(gfx: &RegFile<9>) -> bool
    ensures { result ≡ true → (h : HostState) → h.gfx ≡ gfx.now.values → StoresByteUnchanged h }
{
    // Each of these numbers can change what is written, if it is not 0.
    let mode = gfx.field(graphics::GRAPHICS_MODE, 1, 0);
    let rotate = gfx.field(graphics::DATA_ROTATE, 2, 0);
    let function = gfx.field(graphics::DATA_ROTATE, 4, 3);
    let own = gfx.read(graphics::ENABLE_SET_RESET);
    let mask = gfx.read(graphics::BIT_MASK);
    let changes = mode as u32 + rotate as u32 + function as u32 + own as u32;
    changes == 0 && mask == 0xFF
}

impl MemoryAccess {
    /// What the registers say when all of them are 0.
    pub(crate) fn of_zero_registers() -> MemoryAccess
        ensures { IsAccessOfRegisters result (replicate 5 0) (replicate 9 0) }
    {
        MemoryAccess {
            start: 0xA0000,
            len: 0x20000,
            chain_four: false,
            chain_odd_even: false,
            odd_even_off: false,
            map_mask: 0,
            stores_byte: false,
            stores_latches: false,
        }
    }

    /// Updates what the sequencer's registers say. The rest stays the same.
    pub(crate) fn with_sequencer(self, seq: &RegFile<5>) -> MemoryAccess
        ensures { (before gfx : List ℕ) → IsAccessOfRegisters self before gfx
            → IsAccessOfRegisters result seq.now.values gfx }
    {
        MemoryAccess {
            start: self.start,
            len: self.len,
            chain_four: seq.bit(sequencer::MEMORY_MODE, 3),
            chain_odd_even: self.chain_odd_even,
            odd_even_off: seq.bit(sequencer::MEMORY_MODE, 2),
            map_mask: seq.read(sequencer::MAP_MASK),
            stores_byte: self.stores_byte,
            stores_latches: self.stores_latches,
        }
    }

    /// Updates what the graphics controller's registers say. The rest stays the same.
    pub(crate) fn with_graphics(self, gfx: &RegFile<9>) -> MemoryAccess
        ensures { (seq before : List ℕ) → IsAccessOfRegisters self seq before
            → IsAccessOfRegisters result seq gfx.now.values }
    {
        let map = gfx.field(graphics::MISCELLANEOUS, 3, 2);
        let (start, len) = window(map);
        let mode = gfx.field(graphics::GRAPHICS_MODE, 1, 0);
        MemoryAccess {
            start,
            len,
            chain_four: self.chain_four,
            chain_odd_even: gfx.bit(graphics::MISCELLANEOUS, 1),
            odd_even_off: self.odd_even_off,
            map_mask: self.map_mask,
            stores_byte: stores_byte(gfx),
            stores_latches: mode == 1,
        }
    }
}

impl Host {
    /// What the registers say of every cycle.
    pub(crate) fn access(&self) -> MemoryAccess
        ensures access { IsAccess result self.now }
        ensures small { result.start + result.len < 2 ^ 32 }
    {
        self.access
    }
}

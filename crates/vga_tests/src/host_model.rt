//! A slow model of the host path that works on single bits: each byte is built from its eight bits.
//! It shares only the type of the memory with the crate under test.
ghost use Rattle.std.specs.Prelude.{◌≡◌, ◌<◌, ◌≤◌, ℕ};

use std::alloc::Global;
use vga_bits::Fault;
use vga_planes::{Latch, Planes};

/// Bit `i` of `n`.
pub fn bit(n: u8, i: usize) -> bool
    requires { i < 8 }
{
    (n >> i) & 1 == 1
}

/// The byte whose bit i is `bits[i]`.
pub fn byte(bits: [bool; 8]) -> u8 {
    let mut value = 0u8;
    for (i, is_one) in bits.iter().enumerate() {
        if *is_one {
            value |= 1 << i;
        }
    }
    value
}

/// Registers and memory of a host path, with each rule in terms of single bits.
#[derive(Drop)]
pub struct HostModel {
    pub planes: Planes,
    pub latches: [u8; 4],
    pub seq: [u8; 5],
    pub gfx: [u8; 9],
}

impl HostModel {
    pub fn new(alloc: Global) -> Result<HostModel, Fault> {
        Ok(HostModel {
            planes: Planes::new(alloc)?,
            latches: [0; 4],
            seq: [0; 5],
            gfx: [0; 9],
        })
    }

    fn is_chain_four(&self) -> bool {
        bit(self.seq[4], 3)
    }

    /// The offset of an address in the window, if the address is decoded.
    pub fn place(&self, address: u32) -> Option<u16> {
        let (first, last) = match (bit(self.gfx[6], 3), bit(self.gfx[6], 2)) {
            (false, false) => (0xA0000, 0xBFFFF),
            (false, true) => (0xA0000, 0xAFFFF),
            (true, false) => (0xB0000, 0xB7FFF),
            (true, true) => (0xB8000, 0xBFFFF),
        };
        if address < first || address > last {
            return None;
        }
        Some(((address - first) & 0xFFFF) as u16)
    }

    fn offset(&self, place: u16) -> u16 {
        if self.is_chain_four() {
            place & 0xFFFC
        } else if bit(self.gfx[6], 1) {
            place & 0xFFFE
        } else {
            place
        }
    }

    fn is_reached(&self, place: u16, plane: usize) -> bool
        requires { plane < 4 }
    {
        if !bit(self.seq[2], plane) {
            return false;
        }
        if self.is_chain_four() {
            return plane == (place & 3) as usize;
        }
        bit(self.seq[4], 2) || (plane & 1) == (place & 1) as usize
    }

    /// Bit `i` of the byte, rotated right.
    fn rotated_bit(&self, v: u8, i: usize) -> bool
        requires { i < 8 }
    {
        let count = (self.gfx[3] & 7) as usize;
        bit(v, (i + count) % 8)
    }

    /// What bit `i` of plane `plane` becomes, if the write reaches it.
    fn written_bit(&self, v: u8, plane: usize, i: usize) -> bool
        requires plane { plane < 4 }
        requires place { i < 8 }
    {
        let latch = bit(self.latches[plane], i);
        let set_reset = bit(self.gfx[0], plane);
        let (source, may_change) = match (bit(self.gfx[5], 1), bit(self.gfx[5], 0)) {
            (false, false) if bit(self.gfx[1], plane) => (set_reset, bit(self.gfx[8], i)),
            (false, false) => (self.rotated_bit(v, i), bit(self.gfx[8], i)),
            (false, true) => return latch,
            (true, false) => (bit(v, plane), bit(self.gfx[8], i)),
            (true, true) => (set_reset, bit(self.gfx[8], i) && self.rotated_bit(v, i)),
        };
        if !may_change {
            return latch;
        }
        match (bit(self.gfx[3], 4), bit(self.gfx[3], 3)) {
            (false, false) => source,
            (false, true) => source && latch,
            (true, false) => source || latch,
            (true, true) => source != latch,
        }
    }

    fn written_byte(&self, v: u8, plane: usize) -> u8
        requires { plane < 4 }
    {
        byte([
            self.written_bit(v, plane, 0),
            self.written_bit(v, plane, 1),
            self.written_bit(v, plane, 2),
            self.written_bit(v, plane, 3),
            self.written_bit(v, plane, 4),
            self.written_bit(v, plane, 5),
            self.written_bit(v, plane, 6),
            self.written_bit(v, plane, 7),
        ])
    }

    /// Writes a byte at an offset in the window.
    pub fn put(&mut self, place: u16, v: u8) {
        let offset = self.offset(place);
        for plane in 0..4usize {
            if self.is_reached(place, plane) {
                let new = self.written_byte(v, plane);
                self.planes.store(offset, Latch::new([new; 4]), 1 << plane);
            }
        }
    }

    /// Bit `i` of the answer to a read at an offset in the window, from the latches just loaded.
    fn read_bit(&self, place: u16, i: usize) -> bool
        requires { i < 8 }
    {
        if bit(self.gfx[5], 3) {
            for plane in 0..4usize {
                let is_compared = bit(self.gfx[7], plane);
                if is_compared && bit(self.latches[plane], i) != bit(self.gfx[2], plane) {
                    return false;
                }
            }
            return true;
        }
        let odd = (place & 1) as usize;
        let plane = if self.is_chain_four() {
            (place & 3) as usize
        } else if bit(self.gfx[5], 4) {
            if bit(self.gfx[4], 1) { 2 + odd } else { odd }
        } else {
            (self.gfx[4] & 3) as usize
        };
        bit(self.latches[plane], i)
    }

    /// Reads a byte at an offset in the window.
    pub fn get(&mut self, place: u16) -> u8 {
        let offset = self.offset(place);
        for plane in 0..4usize {
            self.latches[plane] = self.planes.byte(plane, offset);
        }
        byte([
            self.read_bit(place, 0),
            self.read_bit(place, 1),
            self.read_bit(place, 2),
            self.read_bit(place, 3),
            self.read_bit(place, 4),
            self.read_bit(place, 5),
            self.read_bit(place, 6),
            self.read_bit(place, 7),
        ])
    }
}

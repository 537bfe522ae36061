//! Compares the host path with the slow model, on pseudo-random registers, addresses and bytes.
ghost use Rattle.std.specs.Prelude.{◌≡◌, ◌<◌};

use crate::host_model::HostModel;
use crate::random_registers::next_byte;
use anyhow::Result;
use rand_core::Rng;
use rand_pcg::Pcg32;
use std::alloc::Global;
use std::fmt;
use vga_bits::{Fault, Refusal};
use vga_host::{GRAPHICS_DATA, GRAPHICS_INDEX, Host, SEQUENCER_DATA, SEQUENCER_INDEX};
use vga_planes::Planes;

/// How many settings of the registers are compared, unless fewer are asked for.
pub const SETTINGS: u32 = 40_000;

/// How many cycles are compared on each.
const CYCLES: u32 = 8;

/// The miscellaneous output register with the display memory switched on.
const MEMORY_ON: u8 = 0x02;

const SEQ_MASKS: [u8; 5] = [0x03, 0x3D, 0x0F, 0x3F, 0x0E];

const GFX_MASKS: [u8; 9] = [0x0F, 0x0F, 0x0F, 0x1F, 0x03, 0x5B, 0x0F, 0x0F, 0xFF];

/// What first differs between a host path and the model.
#[derive(Clone, Copy, Debug, PartialEq, Eq)]
enum Mismatch {
    /// The answer to a read at an address.
    Get(u32),
    /// The answer to a write at an address.
    Put(u32),
    /// The latch of a plane, after a cycle at an address.
    Latch(usize, u32),
    /// The byte of a plane at an offset, after all cycles.
    Byte(usize, u16),
}

/// How the comparison of the host path ended.
#[derive(Clone, Copy, PartialEq, Eq)]
pub struct PathOutcome {
    cycles: u32,
    mismatch: Option<Mismatch>,
}

impl PathOutcome {
    /// Whether nothing differs.
    pub fn is_alike(&self) -> bool {
        self.mismatch.is_none()
    }
}

impl fmt::Display for PathOutcome {
    fn fmt<W: fmt::Write>(&self, f: &mut fmt::Formatter<W>) -> fmt::Result {
        let cycles = self.cycles;
        match self.mismatch {
            None => write!(f, "{cycles} cycles alike"),
            Some(mismatch) => write!(f, "differs after {cycles} cycles: {mismatch:?}"),
        }
    }
}

/// A host path and its slow model, which get the same registers and cycles.
#[derive(Drop)]
struct Paths {
    host: Host,
    model: HostModel,
}

/// An address of the adapter's 128 KiB or just outside. There are few offsets, so that they recur.
fn next_address(random: &mut Pcg32) -> u32 {
    let word = random.next_u32();
    0x9FFF0 + (word >> 31) * 0x10000 + ((word >> 30) & 1) * 0x8000 + (word & 0x3F)
}

impl Paths {
    fn new(alloc: Global) -> Result<Paths, Fault> {
        Ok(Paths {
            host: Host::new(Planes::new(alloc)?),
            model: HostModel::new(alloc)?,
        })
    }

    /// Sets all registers of both to new values.
    fn set_registers(&mut self, random: &mut Pcg32) -> Result<(), Refusal> {
        for i in 0..5u8 {
            let v = next_byte(random) & SEQ_MASKS[i as usize];
            self.host.out(SEQUENCER_INDEX, i)?;
            self.host.out(SEQUENCER_DATA, v)?;
            self.model.seq[i as usize] = v;
        }
        for i in 0..9u8 {
            let v = next_byte(random) & GFX_MASKS[i as usize];
            self.host.out(GRAPHICS_INDEX, i)?;
            self.host.out(GRAPHICS_DATA, v)?;
            self.model.gfx[i as usize] = v;
        }
        Ok(())
    }

    fn get_mismatch(&mut self, address: u32) -> Option<Mismatch> {
        let wanted = match self.model.place(address) {
            Some(place) => Ok(self.model.get(place)),
            None => Err(Refusal::NotDecoded),
        };
        if self.host.get(address, MEMORY_ON) == wanted {
            None
        } else {
            Some(Mismatch::Get(address))
        }
    }

    fn put_mismatch(&mut self, address: u32, v: u8) -> Option<Mismatch> {
        let wanted = match self.model.place(address) {
            Some(place) => Ok(self.model.put(place, v)),
            None => Err(Refusal::NotDecoded),
        };
        if self.host.put(address, v, MEMORY_ON) == wanted {
            None
        } else {
            Some(Mismatch::Put(address))
        }
    }

    fn latch_mismatch(&self, address: u32) -> Option<Mismatch> {
        for plane in 0..4usize {
            if self.host.latch().byte(plane) != self.model.latches[plane] {
                return Some(Mismatch::Latch(plane, address));
            }
        }
        None
    }

    /// Compares a cycle, and the latches that it leaves.
    fn cycle_mismatch(&mut self, random: &mut Pcg32) -> Option<Mismatch> {
        let address = next_address(random);
        let mismatch = if next_byte(random) & 1 == 0 {
            self.get_mismatch(address)
        } else {
            let v = next_byte(random);
            self.put_mismatch(address, v)
        };
        mismatch.or(self.latch_mismatch(address))
    }

    fn memory_mismatch(&self) -> Option<Mismatch> {
        for offset in 0..=0xFFFFu16 {
            for plane in 0..4usize {
                if self.host.planes().byte(plane, offset) != self.model.planes.byte(plane, offset) {
                    return Some(Mismatch::Byte(plane, offset));
                }
            }
        }
        None
    }
}

/// Compares cycles on `settings` pseudo-random settings, and then the whole memory.
pub fn compare_host_path(alloc: Global, settings: u32) -> Result<PathOutcome> {
    let mut random = Pcg32::new(0x5EED, 1);
    let mut paths = Paths::new(alloc)?;
    let mut cycles = 0;
    for _ in 0..settings {
        paths.set_registers(&mut random)?;
        for _ in 0..CYCLES {
            let mismatch = paths.cycle_mismatch(&mut random);
            if mismatch.is_some() {
                return Ok(PathOutcome { cycles, mismatch });
            }
            cycles = cycles.saturating_add(1);
        }
    }
    let mismatch = paths.memory_mismatch();
    Ok(PathOutcome { cycles, mismatch })
}

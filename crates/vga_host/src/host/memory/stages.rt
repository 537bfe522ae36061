//! The stages of a cycle of memory, told and not done.
ghost use Rattle.std.specs.Prelude.{◌≡◌, ◌↔◌, IsTrue, IsSome, IfSome};
ghost use Rattle.vga_host.specs.Memory.Address.{is_decoded};
ghost use Rattle.vga_host.specs.Memory.Stages.{AreWriteStages, AreReadStages};

use crate::host::Host;
use vga_planes::{Latch, PlaneSet};

/// The stages of a write: where it leads, and what each makes of the byte. `data` and `combined`
/// have a byte for each plane, that of plane 0 lowest. In write mode 1 the latches are stored as
/// they are, so `rotated`, `data`, `combined` and `mask` don't matter.
#[derive(Drop)]
pub struct WriteStages {
    /// The offset in the window.
    pub in_window: u16,
    /// The offset in each plane.
    pub offset: u16,
    /// The write mode, 0 to 3.
    pub write_mode: u8,
    /// The byte, rotated right.
    pub rotated: u8,
    /// What goes into the function: the rotated byte, set/reset, or a bit of the byte.
    pub data: u32,
    /// What comes out of the function, which combines the data with the latches.
    pub combined: u32,
    /// The bits that may change. The others are those of the latches.
    pub mask: u8,
    /// The byte of each plane before the write.
    pub before: Latch,
    /// The byte that each plane gets if the write reaches it.
    pub written: Latch,
    /// The planes that the write reaches.
    pub reached: PlaneSet,
}

/// The stages of a read: where it leads, the bytes that it loads into the latches, and the byte
/// that it returns.
#[derive(Drop)]
pub struct ReadStages {
    /// The offset in the window.
    pub in_window: u16,
    /// The offset in each plane.
    pub offset: u16,
    /// The byte of each plane, which the latch gets.
    pub loaded: Latch,
    /// Whether the read compares colours, as read mode 1 does. Then `plane` doesn't matter.
    pub is_compare: bool,
    /// The plane whose byte read mode 0 returns.
    pub plane: u8,
    /// The byte that the read returns.
    pub value: u8,
}

impl Host {
    /// The stages of a write of `v` to an address; `None` if the display memory does not decode it.
    /// `misc` is the miscellaneous output register. Nothing is written.
    pub fn stages_of_put(&self, address: u32, v: u8, misc: u8) -> Option<WriteStages>
        ensures decoded { IsSome result ↔ IsTrue (is_decoded self.now misc address) }
        ensures stages { IfSome result (λ stages. AreWriteStages self.now address v stages) }
    {
        let access = self.access();
        let in_window = access.in_window(address, misc)?;
        let offset = access.offset(in_window);
        Some(WriteStages {
            in_window,
            offset,
            write_mode: self.write_mode(),
            rotated: self.rotated(v),
            data: self.data(v),
            combined: self.combined(v),
            mask: self.effective_bit_mask(v),
            before: self.planes.load(offset),
            written: self.written(v),
            reached: access.reached(in_window),
        })
    }

    /// The stages of a read of an address; `None` if the display memory does not decode it. `misc`
    /// is the miscellaneous output register. No latch is loaded.
    pub fn stages_of_get(&self, address: u32, misc: u8) -> Option<ReadStages>
        ensures decoded { IsSome result ↔ IsTrue (is_decoded self.now misc address) }
        ensures stages { IfSome result (λ stages. AreReadStages self.now address stages) }
    {
        let access = self.access();
        let in_window = access.in_window(address, misc)?;
        let offset = access.offset(in_window);
        let loaded = self.planes.load(offset);
        Some(ReadStages {
            in_window,
            offset,
            loaded,
            is_compare: self.is_read_compare(),
            plane: self.picked_plane(in_window) as u8,
            value: self.read_byte(in_window, loaded),
        })
    }
}

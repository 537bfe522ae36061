//! Which addresses the display memory decodes, and where a write reaches no glyph.
ghost use Rattle.std.specs.Prelude.{◌≡◌, ◌<◌, ◌≤◌, ◌+◌, ◌^◌, false, IfSome};
ghost use Rattle.vga_host.specs.Graphics.{is_graphics};
ghost use Rattle.vga_host.specs.Memory.Address.{is_memory_enabled as is_memory_enabled_of};
ghost use Rattle.vga_host.specs.Memory.Address.{is_decoded, decoded_among, window_offset, window_start, window_len};
ghost use Rattle.vga_host.specs.Memory.Address.{plane_offset, is_reached};
ghost use Rattle.vga_host.specs.Memory.Access.{IsAccess};
ghost use Rattle.vga_host.specs.OffsetRun.{is_in_run};

use super::access::MemoryAccess;
use crate::host::Host;
use crate::offset_run::OffsetRun;
use vga_bits::is_set;

/// The plane that contains the glyphs of text.
const PLANE_OF_GLYPHS: u32 = 2;

/// Whether the miscellaneous output register lets the display memory answer the processor.
pub(super) fn is_memory_enabled(misc: u8) -> bool
    ensures { result ≡ is_memory_enabled_of misc }
{
    is_set(misc, 1)
}

impl Host {
    /// The first and the last address of the window, by the memory map. The display memory answers
    /// there if miscellaneous output lets it answer at all.
    pub fn window(&self) -> (u32, u32)
        ensures first { result.0 ≡ window_start self.now }
        ensures last { result.1 + 1 ≡ window_start self.now + window_len self.now }
    {
        let access = self.access();
        (access.start, access.start + access.len - 1)
    }

    /// Whether the display memory decodes an address. `misc` is the miscellaneous output register.
    pub fn decodes(&self, address: u32, misc: u8) -> bool
        ensures { result ≡ is_decoded self.now misc address }
    {
        let access = self.access();
        is_memory_enabled(misc) && access.start <= address && address < access.start + access.len
    }

    /// How many of the n addresses from `first` on the display memory decodes. `misc` is the
    /// miscellaneous output register.
    pub fn decoded_among(&self, first: u32, n: u32, misc: u8) -> u32
        requires { first + n < 2 ^ 32 }
        ensures value { result ≡ decoded_among self.now misc first n }
        ensures few { result ≤ n }
    {
        let access = self.access();
        if !is_memory_enabled(misc) {
            return 0;
        }
        let start = first.max(access.start);
        let end = (first + n).min(access.start + access.len);
        end.saturating_sub(start)
    }

    /// The offset in each plane of a write to an address. It is `None` if the address is not
    /// decoded, or if the write, in text, reaches the plane of glyphs.
    pub fn write_offset_unless_glyphs(&self, address: u32, misc: u8) -> Option<u16>
        ensures offset { IfSome result (λ o. o
            ≡ plane_offset self.now (window_offset self.now address)) }
        ensures beside { IfSome result (λ o. is_graphics self.now ≡ false
            → is_reached self.now (window_offset self.now address) 2 ≡ false) }
    {
        let access = self.access();
        let Some(in_window) = access.in_window(address, misc) else {
            return None;
        };
        let set = access.reached(in_window);
        if is_set(set, PLANE_OF_GLYPHS) && !self.is_graphics() {
            return None;
        }
        Some(access.offset(in_window))
    }

    /// Whether a write at an offset in the window reaches an offset of the run, or, in text, the plane
    /// of glyphs.
    #[inline(always)]
    pub(super) fn reaches_run_or_glyphs(
        &self,
        access: MemoryAccess,
        in_window: u16,
        run: OffsetRun,
    ) -> bool
        requires { IsAccess access self.now }
        ensures apart { result ≡ false
            → is_in_run run (plane_offset self.now in_window) ≡ false }
        ensures beside { result ≡ false → is_graphics self.now ≡ false
            → is_reached self.now in_window 2 ≡ false }
    {
        run.contains(access.offset(in_window))
            || (is_set(access.reached(in_window), PLANE_OF_GLYPHS) && !self.is_graphics())
    }
}

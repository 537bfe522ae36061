//! A run of offsets in each plane.
ghost use Rattle.std.specs.Prelude.{◌≡◌};
ghost use Rattle.vga_host.specs.OffsetRun.{is_in_run};

/// Offsets in a row, from the first on. Offset 0 follows offset FFFF.
#[derive(Clone, Copy)]
pub struct OffsetRun {
    /// The first offset.
    pub first: u16,
    /// How many offsets there are.
    pub count: u16,
}

impl OffsetRun {
    /// Whether an offset is in the run.
    #[inline(always)]
    pub fn contains(self, offset: u16) -> bool
        ensures { result ≡ is_in_run self offset }
    {
        offset.wrapping_sub(self.first) < self.count
    }
}

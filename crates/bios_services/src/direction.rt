//! The direction in which rows of characters move.
ghost use Rattle.std.specs.Prelude.{◌≡◌, ◌≤◌, ◌+◌};
ghost use Rattle.bios_services.specs.Bounds.{bound_of_rows_in_windows};
ghost use Rattle.bios_services.specs.Bands.{first_row_to_fill as first_row_to_fill_of};

/// The direction in which rows of characters move.
#[derive(Clone, Copy)]
pub enum Direction {
    Up,
    Down,
}

impl Direction {
    /// The first of the rows that are to be filled after `count` rows have moved.
    pub(crate) fn first_row_to_fill(self, top: u32, count: u32) -> u32
        requires { top + count ≤ bound_of_rows_in_windows }
        ensures value { result ≡ first_row_to_fill_of self top count }
        ensures inside { result ≤ top + count }
    {
        match self {
            Direction::Up => top + count,
            Direction::Down => top,
        }
    }
}

//! How rows of characters go up or down.

use crate::direction::Direction;

/// How rows of characters move: up or down, by how many rows, and the attribute or colour of the
/// rows that they leave.
#[derive(Clone, Copy)]
pub struct RowShift {
    pub direction: Direction,
    pub rows: u32,
    /// The attribute in text, the colour in graphics.
    pub colour: u8,
}

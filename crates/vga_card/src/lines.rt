//! The dots of a frame, line by line.

/// What was drawn of a frame.
#[derive(Clone, Copy, Debug, PartialEq, Eq)]
pub struct DrawnLines<'a> {
    /// How many dots each of the 1,024 lines has that can have dots, at most 2,304. A line without
    /// dots has 0.
    pub widths: &'a [u32],
    /// Red, green and blue of each dot in turn, 0 to 63 each: those of line 0 from the left, then
    /// those of line 1, and so on.
    pub bytes: &'a [u8],
}

//! The colour in which a character is written.

/// The colour in which a character is written.
#[derive(Clone, Copy)]
pub struct Colouring {
    /// The colour of its pixels in graphics, or the attribute in text.
    pub colour: u8,
    /// Whether the colour becomes the attribute of a cell of text. Else the cell keeps its own.
    pub is_attribute: bool,
}

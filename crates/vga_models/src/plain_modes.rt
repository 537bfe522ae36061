//! The six modes: how each divides its screen, text by the height of its characters, and the
//! colours that it begins with. They were written from docs/MODES.md and docs/SERVICES.md, and
//! share nothing with the crates under test.
ghost use Rattle.std.specs.Prelude.{◌<◌, ◌≤◌};

/// What a screen is made of.
#[derive(Clone, Copy, PartialEq, Eq)]
pub enum Kind {
    Text,
    SixteenColours,
    Colours256,
}

/// How a mode divides its screen, and what a mode set gives it.
#[derive(Clone, Copy)]
pub struct PlainMode {
    pub number: u8,
    pub kind: Kind,
    /// Columns and rows of characters.
    pub columns: u8,
    pub rows: u8,
    /// Scan lines of a character.
    pub height: u8,
    pub pages: u8,
    /// How many cells of text a page has, including those it does not show.
    pub distance: u16,
    pub cursor_type: u16,
    pub palette: [u8; 16],
    /// The width and the height of a pixel, in dots and lines.
    pub dots: u8,
    pub lines: u8,
    /// How many dots a line has and how many lines a frame has, displayed or not.
    pub line_dots: u16,
    pub frame_lines: u16,
}

impl PlainMode {
    /// How many dots a frame has, displayed or not.
    pub fn frame_dots(self) -> u32 {
        self.line_dots as u32 * self.frame_lines as u32
    }
}

const SIXTY_FOUR_COLOURS: [u8; 16] = [
    0x00, 0x01, 0x02, 0x03, 0x04, 0x05, 0x14, 0x07, 0x38, 0x39, 0x3A, 0x3B, 0x3C, 0x3D, 0x3E, 0x3F,
];

const MONOCHROME: [u8; 16] = [
    0x00, 0x08, 0x08, 0x08, 0x08, 0x08, 0x08, 0x08, 0x10, 0x18, 0x18, 0x18, 0x18, 0x18, 0x18, 0x18,
];

const SIXTEEN_BRIGHT: [u8; 16] = [
    0x00, 0x01, 0x02, 0x03, 0x04, 0x05, 0x06, 0x07, 0x10, 0x11, 0x12, 0x13, 0x14, 0x15, 0x16, 0x17,
];

const IN_ORDER: [u8; 16] = [0, 1, 2, 3, 4, 5, 6, 7, 8, 9, 10, 11, 12, 13, 14, 15];

pub const MODE_3: PlainMode = PlainMode {
    number: 0x03,
    kind: Kind::Text,
    columns: 80,
    rows: 25,
    height: 16,
    pages: 8,
    distance: 2048,
    cursor_type: 0x0D0E,
    palette: SIXTY_FOUR_COLOURS,
    dots: 1,
    lines: 1,
    line_dots: 900,
    frame_lines: 449,
};

const MODE_7: PlainMode = PlainMode {
    number: 0x07,
    kind: Kind::Text,
    columns: 80,
    rows: 25,
    height: 16,
    pages: 8,
    distance: 2048,
    cursor_type: 0x0D0E,
    palette: MONOCHROME,
    dots: 1,
    lines: 1,
    line_dots: 900,
    frame_lines: 449,
};

const MODE_0D: PlainMode = PlainMode {
    number: 0x0D,
    kind: Kind::SixteenColours,
    columns: 40,
    rows: 25,
    height: 8,
    pages: 8,
    distance: 0,
    cursor_type: 0,
    palette: SIXTEEN_BRIGHT,
    dots: 1,
    lines: 2,
    line_dots: 400,
    frame_lines: 449,
};

const MODE_10: PlainMode = PlainMode {
    number: 0x10,
    kind: Kind::SixteenColours,
    columns: 80,
    rows: 25,
    height: 14,
    pages: 2,
    distance: 0,
    cursor_type: 0,
    palette: SIXTY_FOUR_COLOURS,
    dots: 1,
    lines: 1,
    line_dots: 800,
    frame_lines: 449,
};

const MODE_12: PlainMode = PlainMode {
    number: 0x12,
    kind: Kind::SixteenColours,
    columns: 80,
    rows: 30,
    height: 16,
    pages: 1,
    distance: 0,
    cursor_type: 0,
    palette: SIXTY_FOUR_COLOURS,
    dots: 1,
    lines: 1,
    line_dots: 800,
    frame_lines: 525,
};

const MODE_13: PlainMode = PlainMode {
    number: 0x13,
    kind: Kind::Colours256,
    columns: 40,
    rows: 25,
    height: 8,
    pages: 1,
    distance: 0,
    cursor_type: 0,
    palette: IN_ORDER,
    dots: 2,
    lines: 2,
    line_dots: 800,
    frame_lines: 449,
};

/// The six modes.
pub const MODES: [PlainMode; 6] = [MODE_3, MODE_7, MODE_0D, MODE_10, MODE_12, MODE_13];

/// The mode with this number, if it exists.
pub fn plain_mode(number: u8) -> Option<PlainMode> {
    MODES.iter().copied().find(|mode| mode.number == number)
}

/// The heights that characters of text can have.
pub const HEIGHTS: [u8; 3] = [8, 14, 16];

/// What text has with characters of a height: rows, pages, the distance of pages, and the cursor's
/// lines.
#[derive(Clone, Copy)]
struct TextCut {
    height: u8,
    rows: u8,
    pages: u8,
    distance: u16,
    cursor_type: u16,
}

/// What text has with characters of each height.
const TEXT_CUTS: [TextCut; 3] = [
    TextCut {
        height: 8,
        rows: 50,
        pages: 4,
        distance: 4096,
        cursor_type: 0x0607,
    },
    TextCut {
        height: 14,
        rows: 28,
        pages: 4,
        distance: 4096,
        cursor_type: 0x0B0C,
    },
    TextCut {
        height: 16,
        rows: 25,
        pages: 8,
        distance: 2048,
        cursor_type: 0x0D0E,
    },
];

/// A text mode with characters of another height, if text can have that height.
pub fn with_height(mode: PlainMode, height: u8) -> Option<PlainMode> {
    let cut = TEXT_CUTS.iter().copied().find(|cut| cut.height == height)?;
    Some(PlainMode {
        rows: cut.rows,
        height: cut.height,
        pages: cut.pages,
        distance: cut.distance,
        cursor_type: cut.cursor_type,
        ..mode
    })
}

/// `v` if bit `i` of `n` is 1, otherwise 0.
fn value_if_bit_is_set(n: u8, i: u8, v: u8) -> u8
    requires { i < 8 }
    ensures { result ≤ v }
{
    if (n >> i) & 1 == 1 { v } else { 0 }
}

/// Red, green and blue by bits 2 to 0, brighter if bit `bright` is 1. Without that bit colour 6 is
/// brown.
fn bright_colour(n: u8, bright: u8) -> [u8; 3]
    requires { bright < 8 }
{
    let more = value_if_bit_is_set(n, bright, 0x15);
    let green = if n & 7 == 6 && more == 0 {
        0x15
    } else {
        value_if_bit_is_set(n, 1, 0x2A)
    };
    [
        value_if_bit_is_set(n, 2, 0x2A).saturating_add(more),
        green.saturating_add(more),
        value_if_bit_is_set(n, 0, 0x2A).saturating_add(more),
    ]
}

/// Red, green and blue by bits 2 to 0, each made brighter by one of bits 5 to 3.
fn colour_of_64(n: u8) -> [u8; 3] {
    [
        value_if_bit_is_set(n, 2, 0x2A).saturating_add(value_if_bit_is_set(n, 5, 0x15)),
        value_if_bit_is_set(n, 1, 0x2A).saturating_add(value_if_bit_is_set(n, 4, 0x15)),
        value_if_bit_is_set(n, 0, 0x2A).saturating_add(value_if_bit_is_set(n, 3, 0x15)),
    ]
}

/// Grey by bit 3, brighter by bit 4.
fn monochrome_colour(n: u8) -> [u8; 3] {
    if (n >> 3) & 1 == 0 {
        [0; 3]
    } else {
        [0x2A + value_if_bit_is_set(n, 4, 0x15); 3]
    }
}

/// Of 256 colours: sixteen bright ones, sixteen greys, and all others by the bits of the number.
fn colour_of_256(n: u8) -> [u8; 3] {
    if n < 0x10 {
        bright_colour(n, 3)
    } else if n < 0x20 {
        [((n as u16 - 16) * 63 / 15) as u8; 3]
    } else {
        [(n >> 5) * 9, ((n >> 2) & 7) * 9, (n & 3) * 21]
    }
}

/// Red, green and blue of an entry of the DAC, as a mode set leaves it.
pub fn default_colour(mode: u8, n: u8) -> [u8; 3] {
    match mode {
        0x07 => monochrome_colour(n),
        0x0D => bright_colour(n, 4),
        0x13 => colour_of_256(n),
        _ => colour_of_64(n),
    }
}

//! Why a call of the video BIOS is refused, with the numbers that decide it.
ghost use Rattle.std.specs.Prelude.{◌≡◌};
ghost use Rattle.bios_services.specs.CallReasons.{refusal_of};

use vga_bits::Refusal;

/// Why a call of the video BIOS is refused. Each number is the call's, the mode's or the BIOS
/// data's.
#[derive(Clone, Copy, PartialEq, Eq, Debug)]
pub enum CallReason {
    /// No mode is set, and every function but 00 needs one.
    NoModeSet {
        /// The function, which AH names.
        function: u8,
    },
    /// There is no such function, or it has no such subfunction.
    NoService {
        /// The function, which AH names.
        function: u8,
        /// AL, by which some functions choose a subfunction.
        al: u8,
        /// BL, by which functions 11 and 12 do.
        bl: u8,
    },
    /// There is no such mode.
    NoSuchMode {
        /// The mode: the low seven bits of AL.
        mode: u8,
    },
    /// The mode is text, which has no pixels.
    NoPixels {
        /// The mode that is set.
        mode: u8,
    },
    /// The mode is graphics, which shows no glyphs from a character map.
    NoCharacterMap {
        /// The mode that is set.
        mode: u8,
    },
    /// The mode has no such page.
    NoPage {
        /// The page that the call names.
        page: u8,
        /// How many pages the mode has.
        pages: u8,
    },
    /// The cursor of the page stands past its last cell.
    CursorOutside {
        /// The page that the call names.
        page: u8,
        /// The number of the cell at its cursor, counted row by row from 0.
        cell: u32,
        /// How many cells a page has.
        cells: u32,
    },
    /// The page has no cell where characters are to be typed.
    PositionOutside {
        /// The row of the cursor position.
        row: u8,
        /// Its column.
        column: u8,
        /// How many rows a page has.
        rows: u16,
        /// How many columns.
        columns: u16,
    },
    /// The page has no such pixel.
    PixelOutside {
        /// The pixel's column.
        x: u16,
        /// Its line.
        y: u16,
        /// How many columns of pixels a page has.
        width: u32,
        /// How many lines of them.
        height: u32,
    },
    /// The cells pass the last one of the page.
    CellsPast {
        /// How many cells are to be written.
        count: u16,
        /// The number of the first, counted row by row from 0.
        first: u32,
        /// How many cells a page has.
        cells: u32,
    },
    /// The glyphs pass that of the last character, FF.
    GlyphsPast {
        /// How many glyphs are to be loaded.
        count: u16,
        /// The character of the first.
        first: u16,
    },
    /// There is no such palette register.
    NoPaletteRegister {
        /// The register's number.
        register: u8,
    },
    /// A value that neither clears blinking nor sets it.
    NoBlinking {
        /// The value, which BL holds.
        value: u8,
    },
    /// The DAC has no such entry.
    NoEntry {
        /// The entry's number.
        entry: u16,
    },
    /// The DAC has not so many entries from the first on.
    NoEntries {
        /// How many entries the call names.
        count: u16,
        /// The first one's number.
        first: u16,
    },
    /// The block has another length than the one that the service reads.
    WrongBlock {
        /// How many bytes the block has.
        len: usize,
        /// How many the service reads.
        wanted: usize,
    },
    /// The mode has no characters of this height.
    NoHeight {
        /// How many scan lines a glyph has.
        height: u8,
        /// The mode that is set.
        mode: u8,
    },
}

impl CallReason {
    /// The refusal that it explains.
    pub fn refusal(self) -> Refusal
        ensures { result ≡ refusal_of self }
    {
        match self {
            CallReason::NoModeSet { .. } => Refusal::NoMode,
            CallReason::NoService { .. } => Refusal::BadFunction,
            CallReason::NoSuchMode { .. } => Refusal::BadMode,
            CallReason::NoPixels { .. } => Refusal::WrongKind,
            CallReason::NoCharacterMap { .. } => Refusal::WrongKind,
            CallReason::NoPage { .. } => Refusal::BadPage,
            CallReason::CursorOutside { .. } => Refusal::Outside,
            CallReason::PositionOutside { .. } => Refusal::Outside,
            CallReason::PixelOutside { .. } => Refusal::Outside,
            CallReason::CellsPast { .. } => Refusal::CountPast,
            CallReason::GlyphsPast { .. } => Refusal::CountPast,
            CallReason::NoPaletteRegister { .. } => Refusal::BadRegister,
            CallReason::NoBlinking { .. } => Refusal::BadRegister,
            CallReason::NoEntry { .. } => Refusal::BadRegister,
            CallReason::NoEntries { .. } => Refusal::BadRegister,
            CallReason::WrongBlock { .. } => Refusal::BadBlock,
            CallReason::NoHeight { .. } => Refusal::BadHeight,
        }
    }
}

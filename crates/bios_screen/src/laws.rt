//! Laws of plain screens: from a state that shows a screen, a service leads to a state that shows
//! the next screen, with the screen's answer or refusal. Each is a contract of a function that does
//! nothing.
ghost use Rattle.std.specs.Prelude.{ℕ, ◌≡◌, ◌<◌, Bool, true, List, Some, None, Err};
ghost use Rattle.vga_bits.specs.declared.refusal.Refusal.TheVariants.{BadFunction, BadMode};
ghost use Rattle.vga_card.specs.Bounds.{IsCard};
ghost use Rattle.vga_card.specs.Card.{CardState};
ghost use Rattle.bios_modes.specs.Bda.{BiosData};
ghost use Rattle.bios_modes.specs.Fonts.{FontSet};
ghost use Rattle.bios_services.specs.declared.regs.Regs.{Regs};
ghost use Rattle.bios_services.specs.declared.scroll.Scroll.{Scroll};
ghost use Rattle.bios_services.specs.declared.cell_run.CellRun.{CellRun};
ghost use Rattle.bios_services.specs.declared.strings.StringCall.{StringCall};
ghost use Rattle.bios_services.specs.declared.colours.ColourService.{ColourService};
ghost use Rattle.bios_services.specs.declared.call.Call.TheVariants.{SetMode, ReadTable};
ghost use Rattle.bios_services.specs.declared.call.Call.TheVariants.{LoadGlyphs, InMode};
ghost use Rattle.bios_services.specs.declared.tables.TableService.{TableService};
ghost use Rattle.bios_services.specs.declared.glyph_load.GlyphLoad.{GlyphLoad};
ghost use Rattle.bios_services.specs.declared.call.Service.{Service};
ghost use Rattle.bios_services.specs.Calls.{call_of};
ghost use Rattle.bios_services.specs.declared.call.Service.TheVariants.{SetCursorType, SetCursor};
ghost use Rattle.bios_services.specs.declared.call.Service.TheVariants.{ReadCursor, SelectPage};
ghost use Rattle.bios_services.specs.declared.call.Service.TheVariants.{ReadCell, WriteCells};
ghost use Rattle.bios_services.specs.declared.call.Service.TheVariants.{ScrollUp, ScrollDown};
ghost use Rattle.bios_services.specs.declared.call.Service.TheVariants.{WritePixel, ReadPixel};
ghost use Rattle.bios_services.specs.declared.call.Service.TheVariants.{Teletype, WriteString};
ghost use Rattle.bios_services.specs.declared.call.Service.TheVariants.{Colours, ReadMode};
ghost use Rattle.bios_services.specs.declared.call.Service.TheVariants.{ReadAdapter, ReadDisplay};
ghost use Rattle.bios_modes.specs.declared.modes.ModeRow.{ModeRow};
ghost use Rattle.bios_modes.specs.Modes.{mode_row};
ghost use Rattle.bios_modes.specs.Bounds.{IsBda};
ghost use Rattle.bios_screen.specs.Screen.{Screen};
ghost use Rattle.bios_screen.specs.Shown.{shown};
ghost use Rattle.bios_screen.specs.AfterCall.{OverscanFitsByte, ServiceLeadsToNextScreen};
ghost use Rattle.bios_screen.specs.AfterCall.{TextServiceLeadsToNext, ModeSetShowsFreshScreen};
ghost use Rattle.bios_screen.specs.AfterCall.{after_call};
ghost use Rattle.bios_modes.specs.Bounds.{AreBytes, AreFonts};
ghost use Rattle.bios_screen.specs.Called.{AreRegistersWords, ServiceCallLeadsToScreen};
ghost use Rattle.bios_screen.specs.Called.{GlyphCallLeadsToScreen, TableCallLeavesScreen};
ghost use Rattle.bios_screen.specs.Called.{CallRunsOutOfMemory};
ghost use Rattle.bios_screen.specs.Called.{ScreenStaysShown};

/// Function 00, with the memory cleared: in every mode of the table, it leads from any state to one
/// that shows the fresh screen of the mode's row.
pub fn mode_set_shows_fresh_screen()
    ensures { (mode : ℕ) (row : ModeRow) → mode_row mode ≡ Some row → ModeSetShowsFreshScreen mode
        row }
{}

/// Functions 03, 0F, 12 and 1A: cursor, mode, adapter and display are answered.
pub fn reading_services_lead_to_screens()
    ensures cursor { (page : ℕ) → ServiceLeadsToNextScreen (ReadCursor page) }
    ensures mode { ServiceLeadsToNextScreen ReadMode }
    ensures adapter { ServiceLeadsToNextScreen ReadAdapter }
    ensures display { ServiceLeadsToNextScreen ReadDisplay }
{}

/// Functions 01, 02 and 05: the cursor's type, its position on a page, and the active page are set.
pub fn cursor_services_lead_to_screens()
    ensures kind { (cursor_type : ℕ) → ServiceLeadsToNextScreen (SetCursorType cursor_type) }
    ensures position { (page position : ℕ) → position < 65536 → ServiceLeadsToNextScreen
        (SetCursor page position) }
    ensures page { (page : ℕ) → ServiceLeadsToNextScreen (SelectPage page) }
{}

/// Functions 08, 09 and 0A: the cell at the cursor is read, and cells from it on are written, in
/// graphics as pixels.
pub fn cell_services_lead_to_screens()
    ensures read { (page : ℕ) → ServiceLeadsToNextScreen (ReadCell page) }
    ensures written { (cells : CellRun) → cells.character < 256 → cells.colouring.colour < 256 →
        ServiceLeadsToNextScreen (WriteCells cells) }
{}

/// Functions 06 and 07: a window of the active page goes up or down, in graphics by its pixels.
pub fn scroll_services_lead_to_screens()
    ensures up { (window : Scroll) → window.fill < 256 → ServiceLeadsToNextScreen
        (ScrollUp window) }
    ensures down { (window : Scroll) → window.fill < 256 → ServiceLeadsToNextScreen
        (ScrollDown window) }
{}

/// Functions 0E and 13: a character is typed at the cursor of the active page, and a string from a
/// position on.
pub fn typing_services_lead_to_screens()
    ensures character { (character colour : ℕ) → character < 256 → colour < 256 →
        ServiceLeadsToNextScreen (Teletype character colour) }
    ensures string { (call : StringCall) → call.colour < 256 → ServiceLeadsToNextScreen
        (WriteString call) }
{}

/// Function 10: palette, overscan, blinking and DAC are set and answered.
pub fn colour_services_lead_to_screens()
    ensures { (service : ColourService) → OverscanFitsByte service → ServiceLeadsToNextScreen
        (Colours service) }
{}

/// Functions 0C and 0D in text, which has no pixels.
pub fn pixel_calls_are_refused_in_text()
    ensures written { (page x y colour : ℕ) → TextServiceLeadsToNext (WritePixel page x y colour) }
    ensures read { (page x y : ℕ) → TextServiceLeadsToNext (ReadPixel page x y) }
{}

/// Functions 0C and 0D in graphics: a pixel is written and read.
pub fn pixel_services_lead_to_screens()
    ensures written { (page x y colour : ℕ) → colour < 256 → ServiceLeadsToNextScreen
        (WritePixel page x y colour) }
    ensures read { (page x y : ℕ) → ServiceLeadsToNextScreen (ReadPixel page x y) }
{}

/// From every state that shows a screen, a call for a service gives the screen's reply or refusal,
/// and leads to a state that shows the next screen; so does a call that loads glyphs of text. A
/// call for a table replies with that of the screen, and leaves the screen, also if its allocation
/// fails. A call for no service, or for a mode that does not exist, changes nothing.
pub fn calls_lead_to_screens()
    ensures served { (service : Service) (fonts : FontSet) (r : Regs) (block : List ℕ)
        (c : CardState) (d : BiosData) (s : Screen) →
        IsCard c → IsBda d → AreRegistersWords r → AreBytes block → shown c d ≡ Some s →
        call_of r ≡ Some (InMode service) → ServiceCallLeadsToScreen service fonts r block c d s }
    ensures table { (service : TableService) (fonts : FontSet) (r : Regs) (block : List ℕ)
        (c : CardState) (d : BiosData) (s : Screen) →
        IsCard c → shown c d ≡ Some s → call_of r ≡ Some (ReadTable service) →
        TableCallLeavesScreen service fonts r block c d s }
    ensures loaded { (load : GlyphLoad) (fonts : FontSet) (r : Regs) (block : List ℕ)
        (c : CardState) (d : BiosData) (s : Screen) →
        IsCard c → AreBytes block → AreFonts fonts → shown c d ≡ Some s →
        call_of r ≡ Some (LoadGlyphs load) → GlyphCallLeadsToScreen load fonts r block c d s }
    ensures memory { (fonts : FontSet) (r : Regs) (block : List ℕ) (c y : CardState)
        (d after : BiosData) (s : Screen) →
        shown c d ≡ Some s → CallRunsOutOfMemory fonts r block c d y after → ScreenStaysShown c s y
        after }
    ensures unknown { (fonts : FontSet) (r : Regs) (block : List ℕ) (c : CardState) (d : BiosData)
        (s : Screen) →
        shown c d ≡ Some s → call_of r ≡ None → after_call fonts r block c d
        ≡ (c, (Err BadFunction, d)) }
    ensures mode { (mode : ℕ) (keeps : Bool) (fonts : FontSet) (r : Regs) (block : List ℕ)
        (c : CardState) (d : BiosData) →
        call_of r ≡ Some (SetMode mode keeps) → mode_row mode ≡ None →
        after_call fonts r block c d ≡ (c, (Err BadMode, d)) }
{}

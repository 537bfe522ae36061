//! Laws of the dots of plain screens, with services between them. Each is a contract of a function
//! that does nothing.
ghost use Rattle.std.specs.Prelude.{◌≡◌, ◌+◌, ◌<◌, ℕ, List, length, Some};
ghost use Rattle.vga_crtc.specs.Raster.{IsFrameStart};
ghost use Rattle.vga_card.specs.Bounds.{IsCard};
ghost use Rattle.vga_card.specs.Card.{CardState};
ghost use Rattle.vga_card.specs.Dots.{dots};
ghost use Rattle.bios_modes.specs.Bda.{BiosData};
ghost use Rattle.bios_modes.specs.Bounds.{IsBda, AreBytes, AreFonts};
ghost use Rattle.bios_modes.specs.Fonts.{FontSet};
ghost use Rattle.bios_services.specs.declared.regs.Regs.{Regs};
ghost use Rattle.bios_services.specs.declared.call.Service.{Service};
ghost use Rattle.bios_services.specs.declared.call.Call.TheVariants.{ReadTable, LoadGlyphs, InMode};
ghost use Rattle.bios_services.specs.declared.tables.TableService.{TableService};
ghost use Rattle.bios_services.specs.declared.glyph_load.GlyphLoad.{GlyphLoad};
ghost use Rattle.bios_services.specs.Cursor.{start_address};
ghost use Rattle.bios_services.specs.Calls.{call_of};
ghost use Rattle.bios_screen.specs.Screen.{Screen};
ghost use Rattle.bios_screen.specs.Shown.{shown};
ghost use Rattle.bios_screen.specs.AfterCall.{after_call};
ghost use Rattle.bios_screen.specs.Step.{next, refusal_on};
ghost use Rattle.bios_screen.specs.Loaded.{load_refusal_on, load_glyphs};
ghost use Rattle.bios_screen.specs.Called.{AreRegistersWords, screen_unless_refused};
ghost use Rattle.bios_screen.specs.Drawing.{Drawing, total_dots_of_frame_in_mode, take_dots, MayLoadGlyphs};
ghost use Rattle.bios_screen.specs.Whole.{PictureFitsFrame, FrameEndsAtDotZero, FrameIsWholePicture};
ghost use Rattle.bios_screen.specs.Follows.{BeamIsAtDotOfFrameFromAddress, DotsJoinPicture, CardFollowsDrawing, EndsFrame};

/// A service that sets no mode leaves the mode and the layout of a screen.
pub fn services_keep_the_layout()
    ensures mode { (fonts : FontSet) (s : Screen) (service : Service) (block : List ℕ) →
        (next fonts s service block).mode ≡ s.mode }
    ensures layout { (fonts : FontSet) (s : Screen) (service : Service) (block : List ℕ) →
        (next fonts s service block).layout ≡ s.layout }
{}

/// Dots of a plain screen: any number of dots may be split in two; a frame is the least number of
/// dots, at least one, that leads to dot 0; its picture is the one so far and the dots that
/// remained, and the picture of a whole frame is that of the active page.
pub fn frames_are_dots()
    ensures split { (m n : ℕ) (b : Drawing) → take_dots (m + n) b ≡ take_dots n (take_dots m b) }
    ensures frame { (b : Drawing) → b.dot < total_dots_of_frame_in_mode b.screen.mode → FrameEndsAtDotZero b }
    ensures whole { (b : Drawing) → PictureFitsFrame b.screen → b.dot ≡ 0 →
        b.dot < total_dots_of_frame_in_mode b.screen.mode → FrameIsWholePicture b }
{}

/// Dots join what is drawn of the current frame, whatever that is, in the colours of the shown
/// screen. An adapter that follows a screen follows it through any number of dots, and at the end
/// of a frame gives the picture that they collected. At the first dot of a frame, dot 0, it follows
/// each screen that it shows.
pub fn dots_follow_screens()
    ensures begins { (c : CardState) (d : BiosData) (b : Drawing) → IsCard c →
        shown c d ≡ Some b.screen → b.dot ≡ 0 → IsFrameStart c.crtc.beam → CardFollowsDrawing c d b }
    ensures starts { (c : CardState) (d : BiosData) (b : Drawing) → CardFollowsDrawing c d b → b.dot ≡ 0 →
        IsFrameStart c.crtc.beam }
    ensures joins { (c : CardState) (d : BiosData) (s : Screen) (page n : ℕ) → IsCard c →
        shown c d ≡ Some s → page < s.layout.pages → n < total_dots_of_frame_in_mode s.mode →
        (n ≡ 0 → page ≡ s.page) → BeamIsAtDotOfFrameFromAddress c (start_address d page) n → DotsJoinPicture c s page n }
    ensures dots { (n : ℕ) (c : CardState) (d : BiosData) (b : Drawing) → IsCard c → CardFollowsDrawing c d b →
        CardFollowsDrawing (dots n c) d (take_dots n b) }
    ensures frame { (c : CardState) (d : BiosData) (b : Drawing) → IsCard c → CardFollowsDrawing c d b →
        EndsFrame c d b }
{}

/// After a call between two dots that sets no mode, the adapter follows the next screen. After a
/// load of glyphs it does so if that came at dot 0 of a frame, or was refused.
pub fn calls_follow_screens()
    ensures served { (service : Service) (fonts : FontSet) (r : Regs) (block : List ℕ)
        (c : CardState) (d : BiosData) (b : Drawing) →
        IsCard c → IsBda d → AreRegistersWords r → AreBytes block → CardFollowsDrawing c d b →
        call_of r ≡ Some (InMode service) →
        CardFollowsDrawing (after_call fonts r block c d).0 (after_call fonts r block c d).1.1
        (record b {
          screen = screen_unless_refused (refusal_on b.screen service (length block)) b.screen
              (next fonts b.screen service block);
        }) }
    ensures loaded { (load : GlyphLoad) (fonts : FontSet) (r : Regs) (block : List ℕ)
        (c : CardState) (d : BiosData) (b : Drawing) →
        IsCard c → AreBytes block → AreFonts fonts → CardFollowsDrawing c d b → MayLoadGlyphs b load (length block) →
        call_of r ≡ Some (LoadGlyphs load) →
        CardFollowsDrawing (after_call fonts r block c d).0 (after_call fonts r block c d).1.1
        (record b {
          screen = screen_unless_refused (load_refusal_on b.screen load (length block))
              b.screen (load_glyphs fonts b.screen load block);
        }) }
    ensures table { (service : TableService) (fonts : FontSet) (r : Regs) (block : List ℕ)
        (c : CardState) (d : BiosData) (b : Drawing) →
        IsCard c → CardFollowsDrawing c d b → call_of r ≡ Some (ReadTable service) →
        CardFollowsDrawing (after_call fonts r block c d).0 (after_call fonts r block c d).1.1 b }
{}

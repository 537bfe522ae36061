//! Laws of frames, whatever a mode shows: the numbers of its lines and the colour of each dot give
//! the picture that a frame draws. Each is a contract of a function that does nothing.
ghost use Rattle.std.specs.Prelude.{◌≡◌, ℕ, List, Some};
ghost use Rattle.vga_crtc.specs.Beam.{first_counter};
ghost use Rattle.vga_crtc.specs.Raster.{IsFrameStart};
ghost use Rattle.vga_card.specs.Bounds.{IsCard};
ghost use Rattle.vga_card.specs.Picture.{Dot};
ghost use Rattle.vga_card.specs.Card.{CardState};
ghost use Rattle.vga_card.specs.Frames.{concatenated_dots};
ghost use Rattle.bios_modes.specs.Bda.{BiosData};
ghost use Rattle.bios_screen.specs.Screen.{Screen};
ghost use Rattle.bios_screen.specs.Shown.{shown};
ghost use Rattle.bios_screen.specs.Framed.{FrameDrawsScreen};
ghost use Rattle.bios_screen.specs.Raster.{Raster, IsRaster, HasRaster, IsAtDot, Colours};
ghost use Rattle.bios_screen.specs.Raster.{DrawsDotColours};
ghost use Rattle.bios_screen.specs.Raster.{PictureDotsDrawn, GoesOnWithinFrame, FrameEnded};
ghost use Rattle.bios_screen.specs.Raster.{FrameDrawn};
ghost use Rattle.bios_screen.specs.Raster.{picture_dot, dots_of_frame, IsPictureOf};

/// Any number of dots, from any dot of a frame on, draws the dots of the picture among them, and
/// moves the adapter on by that number. The frame ends with its last dot, and leaves the adapter at
/// the first dot of the next frame.
pub fn dots_are_picture()
    ensures places { (m : Raster) (c : CardState) (start n : ℕ) (f : Colours) → HasRaster m c →
        IsAtDot m c start n → DrawsDotColours m c start f → PictureDotsDrawn m c n f }
    ensures on { (m : Raster) (c : CardState) (start n : ℕ) → HasRaster m c → IsAtDot m c start n →
        GoesOnWithinFrame m c start n }
    ensures ended { (m : Raster) (c : CardState) (start n : ℕ) (f : Colours) → HasRaster m c →
        IsAtDot m c start n → DrawsDotColours m c start f → FrameEnded m c n f }
    ensures begun { (m : Raster) (c : CardState) → HasRaster m c → IsFrameStart c.crtc.beam →
        IsAtDot m c (first_counter c.crtc.registers) 0 }
{}

/// All dots of a frame are a picture, however many calls drew them; so is one whole frame.
pub fn frame_is_picture()
    ensures all { (m : Raster) (drawn : List Dot) (f : Colours) → IsRaster m →
        drawn ≡ concatenated_dots (picture_dot m f) (dots_of_frame m) → IsPictureOf m drawn f }
    ensures whole { (m : Raster) (c : CardState) (f : Colours) → HasRaster m c →
        IsFrameStart c.crtc.beam → DrawsDotColours m c (first_counter c.crtc.registers) f
        → FrameDrawn m c f }
{}

/// From a state that shows a screen, at the first dot of a frame, a frame draws the screen's
/// picture, and leaves the screen with the next frame number, again at the first dot of a frame.
pub fn frame_draws_screen()
    ensures { (c : CardState) (d : BiosData) (s : Screen) → IsCard c → shown c d ≡ Some s →
        IsFrameStart c.crtc.beam → FrameDrawsScreen c d s }
{}

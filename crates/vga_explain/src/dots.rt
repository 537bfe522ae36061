//! Where a dot comes from.
ghost use Rattle.std.specs.Prelude.{◌≡◌, ◌↔◌, IsSome, IfSome};
ghost use Rattle.vga_crtc.specs.Beam.{IsBeam};
ghost use Rattle.vga_dots.specs.DotTrace.{IsDotTrace};
ghost use Rattle.vga_explain.specs.Dots.{display_with_beam};

use vga_card::{Card, Regs};
use vga_crtc::Beam;
use vga_dots::{DotTrace, trace_dot};

/// Where the colour of the dot at a beam comes from, by the registers and the display memory as
/// they are now; `None` if a number of the beam is out of its bounds. At the first dot of a frame
/// the frame's start is taken first, as the clock takes it.
///
/// The beam may be the adapter's own, or one of a dot that was drawn before or is still to come. The
/// answer for such a dot is true of the picture if nothing that decides its colour has changed in
/// between.
///
/// From the IBM PS/2 Hardware Interface Technical Reference, Video Subsystems.
pub fn source_of_dot(card: &Card, beam: Beam) -> Option<DotTrace>
    ensures bounds { IsSome result ↔ IsBeam beam }
    ensures source { IfSome result (IsDotTrace (display_with_beam card.now beam)) }
{
    if !beam.is_in_bounds() {
        return None;
    }
    let Regs {
        host,
        crtc,
        attr,
        dac,
        ..
    } = card.regs();
    let mut crtc = crtc.with_beam(beam);
    crtc.take_start();
    Some(trace_dot(host, &crtc, attr, dac))
}

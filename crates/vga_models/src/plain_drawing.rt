//! How far the frame of a plain screen is drawn, dot by dot, after docs/SCREENS.md.
ghost use Rattle.std.specs.Prelude.{◌≡◌, ◌<◌};

use crate::plain_modes::PlainMode;
use crate::plain_screen::PlainScreen;
use std::alloc::{AllocError, Global};

/// How far a frame is drawn.
#[derive(Drop)]
pub struct PlainDrawing {
    /// The dot of the frame that comes next.
    dot: u32,
    /// The page that the frame shows: the one that was active at its first dot.
    page: u8,
    /// Red, green and blue of each dot of the picture so far.
    picture: Vec<u8>,
}

impl PlainDrawing {
    /// A frame before its first dot.
    pub fn new(alloc: Global) -> PlainDrawing {
        PlainDrawing {
            dot: 0,
            page: 0,
            picture: Vec::new(alloc),
        }
    }

    /// Whether the frame's first dot comes next.
    pub fn is_at_first_dot(&self) -> bool {
        self.dot == 0
    }

    /// How many dots are left of a frame of a mode.
    pub fn dots_left_of_frame(&self, mode: PlainMode) -> u32 {
        mode.frame_dots().saturating_sub(self.dot)
    }

    /// The bytes of the picture so far; at the first dot, those of the frame that ended.
    pub fn picture(&self) -> &[u8] {
        self.picture.as_slice()
    }

    /// At the first dot of a frame, begins its picture, of the page that is then active.
    fn begin_at_first_dot(&mut self, active: u8) {
        if self.dot == 0 {
            self.page = active;
            self.picture.clear();
        }
    }

    /// Goes on to the next dot; after the last one, to the first of the next frame.
    fn go_to_next_dot(&mut self, screen: &mut PlainScreen<'_>) {
        self.dot = self.dot.saturating_add(1);
        if self.dot >= screen.mode.frame_dots() {
            self.dot = 0;
            screen.end_frame();
        }
    }

    /// Adds the colour of the next dot to the picture, if the dot is in it.
    fn draw_dot(&mut self, screen: &PlainScreen<'_>) -> Result<(), AllocError> {
        let line_dots = screen.mode.line_dots.max(1) as u32;
        let x = self.dot % line_dots;
        let y = self.dot / line_dots;
        if let Some(colour) = screen.dot_colour(self.page, x, y) {
            self.picture.extend_from_slice(&colour)?;
        }
        Ok(())
    }

    /// Takes a dot: its colour joins the picture. After the last dot the screen has the next
    /// frame's number.
    fn take_dot(&mut self, screen: &mut PlainScreen<'_>) -> Result<(), AllocError> {
        self.begin_at_first_dot(screen.page);
        self.draw_dot(screen)?;
        self.go_to_next_dot(screen);
        Ok(())
    }

    /// Takes dots, past the ends of frames if need be.
    pub fn take_dots(
        &mut self,
        screen: &mut PlainScreen<'_>,
        count: u32,
    ) -> Result<(), AllocError> {
        for _ in 0..count {
            self.take_dot(screen)?;
        }
        Ok(())
    }
}

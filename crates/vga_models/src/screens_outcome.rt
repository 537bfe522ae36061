//! The result of a comparison with plain screens.

use crate::difference::Difference;
use std::fmt;

/// The result of the comparison with plain screens.
#[derive(Clone, Copy)]
pub struct ScreensOutcome {
    pub services: u32,
    pub refused: u32,
    pub frames: u32,
    pub difference: Option<Difference>,
}

impl ScreensOutcome {
    /// Whether nothing differs.
    pub fn is_alike(&self) -> bool {
        self.difference.is_none()
    }
}

impl fmt::Display for ScreensOutcome {
    fn fmt<W: fmt::Write>(&self, f: &mut fmt::Formatter<W>) -> fmt::Result {
        let services = self.services;
        let refused = self.refused;
        let frames = self.frames;
        match self.difference {
            None => write!(
                f,
                "{services} services ({refused} refused) and {frames} frames alike"
            ),
            Some(difference) => {
                write!(
                    f,
                    "differs after {services} services and {frames} frames: {difference:?}"
                )
            }
        }
    }
}

//! How scripts begin.

/// How a script begins: with a mode set, and then perhaps a subfunction of 11 that gives text
/// another height.
#[derive(Clone, Copy)]
pub struct Beginning {
    pub mode: u8,
    pub font: Option<u8>,
}

/// Each mode, and text with characters of each height.
pub const BEGINNINGS: [Beginning; 10] = [
    Beginning {
        mode: 0x03,
        font: None,
    },
    Beginning {
        mode: 0x03,
        font: Some(0x11),
    },
    Beginning {
        mode: 0x03,
        font: Some(0x12),
    },
    Beginning {
        mode: 0x07,
        font: None,
    },
    Beginning {
        mode: 0x07,
        font: Some(0x11),
    },
    Beginning {
        mode: 0x07,
        font: Some(0x12),
    },
    Beginning {
        mode: 0x0D,
        font: None,
    },
    Beginning {
        mode: 0x10,
        font: None,
    },
    Beginning {
        mode: 0x12,
        font: None,
    },
    Beginning {
        mode: 0x13,
        font: None,
    },
];

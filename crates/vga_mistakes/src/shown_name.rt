//! The words that say what is shown.

use vga_script::is_name;

/// The word that says what a step shows.
#[derive(Clone, Copy, PartialEq, Eq, Debug)]
pub enum ShownName {
    /// `regs`.
    Registers,
    /// `dac`.
    Dac,
    /// `beam`.
    Beam,
    /// `latches`.
    Latches,
    /// `plane`.
    Plane,
    /// `bda`.
    BiosData,
    /// `cells`.
    Cells,
}

impl ShownName {
    /// The name that a word is, in either case.
    pub(crate) fn of_word(word: &[u8]) -> Option<ShownName> {
        if is_name(word, b"regs") {
            return Some(ShownName::Registers);
        }
        if is_name(word, b"dac") {
            return Some(ShownName::Dac);
        }
        if is_name(word, b"beam") {
            return Some(ShownName::Beam);
        }
        if is_name(word, b"latches") {
            return Some(ShownName::Latches);
        }
        if is_name(word, b"plane") {
            return Some(ShownName::Plane);
        }
        if is_name(word, b"bda") {
            return Some(ShownName::BiosData);
        }
        if is_name(word, b"cells") {
            return Some(ShownName::Cells);
        }
        None
    }

    /// The word, in lower case.
    pub fn name(self) -> &'static str {
        match self {
            ShownName::Registers => "regs",
            ShownName::Dac => "dac",
            ShownName::Beam => "beam",
            ShownName::Latches => "latches",
            ShownName::Plane => "plane",
            ShownName::BiosData => "bda",
            ShownName::Cells => "cells",
        }
    }
}

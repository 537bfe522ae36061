//! What the program is asked to do.

/// A job, with the paths that the words name. A path is a word as it was given.
#[derive(Clone, Copy, Debug, PartialEq, Eq)]
pub enum Job<'a> {
    /// Assemble the text of a script, and write its binary form.
    Asm {
        /// The path of the text.
        text: &'a str,
        /// The path of the binary form.
        script: &'a str,
    },
    /// Print a binary script as text.
    Dis {
        /// The path of the script.
        script: &'a str,
    },
    /// Run a binary script with a font file, and write its report.
    Run {
        /// The path of the script.
        script: &'a str,
        /// The path of the font file.
        fonts: &'a str,
        /// How many steps run at most before the card's state is dumped; or None to run all,
        /// without dumps.
        until: Option<u32>,
    },
    /// Assemble the text of a script, run it with a font file, and write its report.
    Go {
        /// The path of the text.
        text: &'a str,
        /// The path of the font file.
        fonts: &'a str,
        /// How many steps run at most before the card's state is dumped; or None to run all,
        /// without dumps.
        until: Option<u32>,
    },
}

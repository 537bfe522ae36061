//! Usage errors.

/// Why the words of a command line name no job.
#[derive(Debug, Drop)]
pub enum WordsError {
    /// The command-line parser refuses the words, or was asked for help.
    Refused(clap::Error),
    /// The command-line parser accepts the words, but its matches lack a command or a path.
    Missing,
}

//! Collecting the checks of a group.

use std::fmt;

/// The checks of a group: how many passed before the first that failed, and what that one checks.
/// Checks after a failure are not counted.
#[derive(Clone, Copy)]
pub struct Checks {
    passed: u32,
    failed: Option<&'static str>,
}

impl Checks {
    /// No checks so far.
    pub fn new() -> Checks {
        Checks {
            passed: 0,
            failed: None,
        }
    }

    /// Notes whether the next check passed, and what it checks.
    pub fn note(&mut self, what: &'static str, has_passed: bool) {
        if self.failed.is_some() {
            return;
        }
        if has_passed {
            self.passed = self.passed.saturating_add(1);
        } else {
            self.failed = Some(what);
        }
    }

    /// Whether each check passed.
    pub fn have_passed(&self) -> bool {
        self.failed.is_none()
    }
}

impl fmt::Display for Checks {
    fn fmt<W: fmt::Write>(&self, f: &mut fmt::Formatter<W>) -> fmt::Result {
        let passed = self.passed;
        match self.failed {
            None => write!(f, "{passed} checks passed"),
            Some(what) => write!(f, "failed after {passed} checks: {what}"),
        }
    }
}

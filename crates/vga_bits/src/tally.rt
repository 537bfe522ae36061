//! How many comparisons passed and failed.
ghost use Rattle.std.specs.Prelude.{◌≡◌, ◌==◌, if◌then◌else◌};
ghost use Rattle.vga_bits.specs.Tally.{saturating_increment};

use std::fmt;

/// How many comparisons of a test passed and how many failed. It is printed as in `12 passed, 0
/// failed`.
#[derive(Clone, Copy)]
pub struct ComparisonTally {
    pub passed: u64,
    pub failed: u64,
}

impl ComparisonTally {
    /// No comparison yet.
    pub fn new() -> ComparisonTally
        ensures passed { result.passed ≡ 0 }
        ensures failed { result.failed ≡ 0 }
    {
        ComparisonTally {
            passed: 0,
            failed: 0,
        }
    }

    /// Counts one comparison. Each count stops at the largest number of 64 bits.
    pub fn count(&mut self, has_passed: bool)
        ensures passed { self.new.passed ≡ (if has_passed then saturating_increment self.old.passed
            else self.old.passed) }
        ensures failed { self.new.failed ≡ (if has_passed then self.old.failed
            else saturating_increment self.old.failed) }
    {
        if has_passed {
            self.passed = self.passed.saturating_add(1);
        } else {
            self.failed = self.failed.saturating_add(1);
        }
    }

    /// The exit status of a program that compares: 1 if any comparison failed, else 0.
    pub fn status(&self) -> u8
        ensures { result ≡ (if self.now.failed == 0 then 0 else 1) }
    {
        if self.failed == 0 { 0 } else { 1 }
    }
}

impl fmt::Display for ComparisonTally {
    fn fmt<W: fmt::Write>(&self, f: &mut fmt::Formatter<W>) -> fmt::Result {
        let passed = self.passed;
        let failed = self.failed;
        write!(f, "{passed} passed, {failed} failed")
    }
}

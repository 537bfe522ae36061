//! The line of a step, whose number is counted up from step to step.
ghost use Rattle.std.specs.Prelude.{◌≡◌, ◌+◌, ◌<◌, ◌^◌, false};
ghost use Rattle.vga_bits.specs.Tracked.{inner_of, has_failed, WritesWholeOrPrefix};
ghost use Rattle.vga_run.specs.Answer.{Short};
ghost use Rattle.vga_run.specs.Report.{line as line_of};

use super::answer::Answer;
use super::step_line::{Line, line_of_number, put_answer, replace_line_by_number, write_text};
use std::io::Write;
use std::marker::Model;
use vga_bits::{Fault, Tracked};

/// The line of a step. It begins with the step's number and a blank, which stay in place from step
/// to step, since printing a number anew takes longer than many a step.
///
/// Contracts see the number.
#[derive(Drop)]
pub(crate) struct NumberedLine {
    number: usize,
    line: Line,
    prefix: usize,
}

impl Model for NumberedLine {
    ghost use Rattle.std.specs.Prelude.{ℕ};
    ghost use Rattle.vga_run.specs.Report.{BeginsWithNumber};

    ghost Value = { ℕ };

    ghost view = { λ l. l.number };

    ghost invariant = { λ l. BeginsWithNumber l.line l.prefix l.number };
}

impl NumberedLine {
    /// The line of the step with this number.
    #[tactic(auto, using(crate::proofs::NumberLemmas::number_first))]
    pub(crate) fn of_step(number: usize) -> NumberedLine
        ensures { result ≡ number }
    {
        let line = line_of_number(number);
        let prefix = line.len();
        NumberedLine {
            number,
            line,
            prefix,
        }
    }

    /// The number.
    pub(crate) fn number(&self) -> usize
        ensures { result ≡ self.now }
    {
        self.number
    }

    /// Goes on to the next step. The number is printed anew only if its last two digits are 99.
    #[tactic(auto, using(crate::proofs::NumberLemmas::prefix_is_long, crate::proofs::NumberLemmas::prefix_is_within))]
    pub(crate) fn count_up(&mut self)
        requires { self.old + 1 < 2 ^ 64 }
        ensures { self.new ≡ self.old + 1 }
    {
        let last = self.line.as_slice()[self.prefix - 2];
        self.number += 1;
        if last < b'9' {
            self.line.set(self.prefix - 2, last + 1);
        } else if self.prefix > 2 && self.line.as_slice()[self.prefix - 3] < b'9' {
            let tens = self.line.as_slice()[self.prefix - 3];
            self.line.set(self.prefix - 3, tens + 1);
            self.line.set(self.prefix - 2, b'0');
        } else {
            replace_line_by_number(&mut self.line, self.number);
            self.prefix = self.line.len();
        }
    }

    /// Writes the line with this answer.
    #[tactic(auto, unfolding(crate::specs::Report::line, crate::specs::Report::number_text), using(std::proofs::lemmas::List::append_assoc, crate::proofs::NumberLemmas::prefix_is_short, crate::proofs::NumberLemmas::prefix_is_within, crate::proofs::NumberLemmas::number_behind))]
    #[inline(always)]
    pub(crate) fn write<W: Write>(
        &mut self,
        out: &mut Tracked<W>,
        answer: Answer,
    ) -> Result<(), Fault>
        requires { has_failed out.old ≡ false }
        ensures text { WritesWholeOrPrefix (W.contents (inner_of out.old)) (W.contents (inner_of out.new))
            (has_failed out.new) result (line_of self.old (Short answer)) }
        ensures number { self.new ≡ self.old }
    {
        put_answer(&mut self.line, self.prefix, answer);
        write_text(out, self.line.as_slice())
    }
}

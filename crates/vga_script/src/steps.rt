//! The steps that a script means, read one after another from its bytes.
ghost use Rattle.std.specs.Prelude.{◌≡◌, ◌≤◌, length, drop, IfErr, IfOk, IfSome};
ghost use Rattle.vga_script.specs.Decoding.{IsFault};
ghost use Rattle.vga_script.specs.Beginning.{script_of_bytes};
ghost use Rattle.vga_script.specs.Item.{expanded, step_limit};
ghost use Rattle.vga_script.specs.Spelled.{SpellsExpanded, TakesFirstStep};
ghost use Rattle.vga_script.specs.Spelling.{Spells, script_limit};
ghost use Rattle.vga_script.specs.Step.{IsInRange};

use super::judge::check_script;
use super::opcode::HEADER_LEN;
use super::progress::{ScriptPosition, move_to_next_step};
use super::step::Step;
use super::step_bytes::step_at;
use std::marker::Model;
use vga_bits::Fault;

/// The steps that a script means, read one after another from the bytes that spell it. Reading
/// allocates nothing. Contracts see the list of the steps that are left.
#[derive(Drop)]
pub struct Steps<'a> {
    /// What follows.
    rest: &'a [u8],
    /// In a repeat, the bytes from its first step on; outside repeats, nothing.
    body: &'a [u8],
    /// How many more times the repeat is taken once its end is reached.
    left: u16,
}

impl<'a> Model for Steps<'a> {
    ghost use Rattle.std.specs.Prelude.{List};
    ghost use Rattle.vga_script.specs.Progress.{StandsInOrOutsideRepeat, steps_left};
    ghost use Rattle.vga_script.specs.declared.step.Step.{Step};

    ghost Value = { List Step };

    ghost view = { λ s. steps_left s.left s.body.now s.rest.now };

    ghost invariant = { λ s. StandsInOrOutsideRepeat s.body.now s.rest.now };
}

impl<'a> Steps<'a> {
    /// The steps of a script that these bytes spell.
    #[tactic(auto, using(crate::proofs::StepsLemmas::behind_header, crate::proofs::StepsLemmas::items_stand, crate::proofs::StepsLemmas::items_left))]
    pub(crate) fn of_script(bytes: &'a [u8]) -> Steps<'a>
        requires { Spells bytes.now (script_of_bytes bytes.now) }
        ensures { result ≡ expanded (script_of_bytes bytes.now).items }
    {
        let (header, items) = bytes.split_at(HEADER_LEN);
        Steps {
            rest: items,
            body: header.split_at(0).0,
            left: 0,
        }
    }

    /// The steps that the script in some bytes means.
    ///
    /// If the bytes spell no script, the error is the fault that `decode` returns. It is never
    /// `OutOfMemory`.
    #[tactic(auto, using(crate::proofs::StepsLemmas::few_steps))]
    pub fn of(bytes: &'a [u8]) -> Result<Steps<'a>, Fault>
        ensures found { IfOk result (λ steps. (length bytes.now ≤ script_limit)
            × SpellsExpanded bytes.now steps) }
        ensures few { IfOk result (λ steps. length steps ≤ step_limit) }
        ensures fault { IfErr result (λ e. IsFault bytes.now e) }
    {
        check_script(bytes)?;
        Ok(Steps::of_script(bytes))
    }

    /// Takes the next step, if one is left.
    #[tactic(auto, using(crate::proofs::ProgressLemmas::step_taken))]
    #[inline(always)]
    pub fn next(&mut self) -> Option<Step<'a>>
        ensures first { TakesFirstStep self.old self.new result }
        ensures range { IfSome result (λ step. IsInRange step) }
    {
        if self.rest.is_empty() {
            return None;
        }
        if let Ok((step, others)) = step_at(self.rest) {
            self.rest = others;
            return Some(step);
        }
        let progress = move_to_next_step(ScriptPosition {
            rest: self.rest,
            body: self.body,
            left: self.left,
        });
        self.rest = progress.rest;
        self.body = progress.body;
        self.left = progress.left;
        if self.rest.is_empty() {
            return None;
        }
        match step_at(self.rest) {
            Ok((step, others)) => {
                self.rest = others;
                Some(step)
            }
            Err(_) => None, // A step stands there.
        }
    }

    /// Skips the first `count` steps, or all if there are fewer.
    pub fn pass_over(&mut self, count: usize)
        ensures { self.new ≡ drop count self.old }
    {
        'steps: for _ in 0..count {
            let Some(_) = self.next() else {
                return;
            };
        }
    }
}

//! Cutting the advances of a script into shorter ones.
ghost use Rattle.std.specs.Prelude.{◌≤◌, ◌<◌};

use rand_core::Rng;
use rand_pcg::Pcg32;
use std::alloc::{AllocError, Global};

/// The most dots of a part: a few more than an adapter draws at once.
const LONGEST_PART: u32 = 140;

/// How the advances of a script are cut.
#[derive(Clone, Copy)]
pub enum Cut {
    /// Into single dots.
    SingleDots,
    /// Into parts of pseudo-random lengths.
    Parts,
}

impl Cut {
    /// The name of the parts.
    pub fn name(self) -> &'static str {
        match self {
            Cut::SingleDots => "single dots",
            Cut::Parts => "parts",
        }
    }

    /// The longest advance that is cut: a line or two, or a frame.
    fn most_dots_of_an_advance(self) -> u32 {
        match self {
            Cut::SingleDots => 1_800,
            Cut::Parts => 450_000,
        }
    }

    /// How many of the remaining dots come next.
    fn next_part(self, random: &mut Pcg32, left: u32) -> u32
        requires { 0 < left }
        ensures some { 0 < result }
        ensures few { result ≤ left }
    {
        match self {
            Cut::SingleDots => 1,
            Cut::Parts => left.min(1 + (random.next_u32() >> 8) % LONGEST_PART),
        }
    }

    /// The number of dots in a line, if the line is an advance that is cut.
    fn dots_of(self, line: &str) -> Option<u32> {
        let (step, _) = line.split_once(';').unwrap_or((line, ""));
        let mut words = step.split_whitespace();
        if words.next() != Some("advance") {
            return None;
        }
        let dots = words.next()?.parse::<u32>().ok()?;
        if dots <= self.most_dots_of_an_advance() {
            Some(dots)
        } else {
            None
        }
    }

    /// Appends an advance of `dots` dots, cut into parts.
    fn push_advance(
        self,
        text: &mut String,
        random: &mut Pcg32,
        dots: u32,
    ) -> Result<(), AllocError> {
        let mut left = dots;
        for _ in 0..dots {
            if left == 0 {
                break;
            }
            let part = self.next_part(random, left);
            writeln!(text, "advance {part}")?;
            left -= part;
        }
        Ok(())
    }

    /// The text with its advances cut, except those of too many dots; None if it has none to cut.
    pub fn of_text(self, alloc: Global, text: &str) -> Result<Option<String>, AllocError> {
        if !text.lines().any(|line| self.dots_of(line).is_some()) {
            return Ok(None);
        }
        let mut random = Pcg32::new(0x5EED, 1);
        let mut whole = String::new(alloc);
        for line in text.lines() {
            match self.dots_of(line) {
                Some(dots) => self.push_advance(&mut whole, &mut random, dots)?,
                None => writeln!(whole, "{line}")?,
            }
        }
        Ok(Some(whole))
    }
}

/// The answer in a line of a report, without the step's number.
fn answer_of(line: &str) -> &str {
    match line.split_once(' ') {
        Some((step, answer)) if step.parse::<u32>().is_ok() => answer,
        _ => line,
    }
}

/// The answers of a report, without step numbers and without steps that only answer `ok`.
pub fn answers(alloc: Global, report: &str) -> Result<String, AllocError> {
    let mut text = String::new(alloc);
    for line in report.lines() {
        let answer = answer_of(line);
        if answer != "ok" {
            writeln!(text, "{answer}")?;
        }
    }
    Ok(text)
}

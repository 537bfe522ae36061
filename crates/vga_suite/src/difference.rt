//! Finding where a report differs from the expected one.

use std::alloc::{AllocError, Global};
use std::fmt;
use std::str::SplitTerminator;

/// Stands for the missing line at the end of a text.
const END: &str = "the end";

/// The first line of an expected text that the report does not have.
#[derive(Drop)]
pub struct Difference {
    number: usize,
    got: String,
    expected: String,
}

impl fmt::Display for Difference {
    fn fmt<W: fmt::Write>(&self, f: &mut fmt::Formatter<W>) -> fmt::Result {
        let number = self.number;
        let got = self.got.as_str();
        let expected = self.expected.as_str();
        write!(f, "line {number}: {got}, not {expected}")
    }
}

/// The difference at the expected line of this number.
fn difference_at(
    alloc: Global,
    number: usize,
    got: Option<&str>,
    expected: &str,
) -> Result<Option<Difference>, AllocError> {
    Ok(Some(Difference {
        number,
        got: String::from_str(alloc, got.unwrap_or(END))?,
        expected: String::from_str(alloc, expected)?,
    }))
}

/// The first and the last step of a line such as `1-13 ok`, which stands for the lines `1 ok` to
/// `13 ok`.
fn range_of_done_steps(line: &str) -> Option<(u64, u64)> {
    let (first, last) = line.strip_suffix(" ok")?.split_once('-')?;
    let first = first.parse().ok()?;
    let last = last.parse().ok()?;
    if first < last {
        Some((first, last))
    } else {
        None
    }
}

/// Takes the next line, which must be this one.
fn take_line(
    alloc: Global,
    lines: &mut SplitTerminator<'_, char>,
    number: usize,
    expected: &str,
) -> Result<Option<Difference>, AllocError> {
    match lines.next() {
        Some(line) if line == expected => Ok(None),
        got => difference_at(alloc, number, got, expected),
    }
}

/// Takes the next lines, which must say that the steps from the first to the last are done.
fn take_done_lines(
    alloc: Global,
    lines: &mut SplitTerminator<'_, char>,
    number: usize,
    first: u64,
    last: u64,
) -> Result<Option<Difference>, AllocError> {
    for step in first..=last {
        let line = format!(in alloc; "{step} ok")?;
        let difference = take_line(alloc, lines, number, line.as_str())?;
        if difference.is_some() {
            return Ok(difference);
        }
    }
    Ok(None)
}

/// The first line of the expected text that the report does not have; or the line after its last,
/// if the report goes on.
pub fn first_difference(
    alloc: Global,
    report: &str,
    expected: &str,
) -> Result<Option<Difference>, AllocError> {
    let mut lines = report.split_terminator('\n');
    let mut number = 1usize;
    for line in expected.split_terminator('\n') {
        let found = match range_of_done_steps(line) {
            Some((first, last)) => take_done_lines(alloc, &mut lines, number, first, last)?,
            None => take_line(alloc, &mut lines, number, line)?,
        };
        if found.is_some() {
            return Ok(found);
        }
        number = number.saturating_add(1);
    }
    match lines.next() {
        None => Ok(None),
        got => difference_at(alloc, number, got, END),
    }
}

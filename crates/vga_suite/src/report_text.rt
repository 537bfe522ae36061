//! A report as text.

use super::lines::split_line;
use super::picture::Picture;
use std::alloc::{AllocError, Global};
use std::str::from_utf8;

/// The picture after a line that announces one, and what follows it.
fn picture_behind<'a>(line: &[u8], others: &'a [u8]) -> Option<(Picture<'a>, &'a [u8])> {
    let (_, len) = from_utf8(line).ok()?.split_once(" picture ")?;
    let (ppm, others) = others.split_at_checked(len.parse().ok()?)?;
    let others = others.strip_prefix(b"\n")?;
    Some((Picture::of_ppm(ppm)?, others))
}

/// Appends a line and a newline.
fn push_line(alloc: Global, text: &mut String, line: &[u8]) -> Result<(), AllocError> {
    text.push_str(String::from_utf8_lossy(alloc, line)?.as_str())?;
    text.push_str("\n")
}

/// Appends a line that announces a picture, and the picture: its rows if the expected text has this
/// line without a digest, otherwise its digest.
fn push_picture(
    alloc: Global,
    text: &mut String,
    line: &[u8],
    picture: &Picture,
    expected: &str,
) -> Result<(), AllocError> {
    let line = String::from_utf8_lossy(alloc, line)?;
    let head = picture.head(alloc, line.as_str())?;
    text.push_str(head.as_str())?;
    if expected.lines().any(|line| line == head.as_str()) {
        text.push_str("\n")?;
        return picture.push_rows(text);
    }
    text.push_str(" ")?;
    text.push_str(picture.digest(alloc)?.as_str())?;
    text.push_str("\n")
}

/// Shows a report as text, with each picture in the form that the expected text has.
pub fn shown_report(alloc: Global, report: &[u8], expected: &str) -> Result<String, AllocError> {
    let mut text = String::new(alloc);
    let mut rest = report;
    for _ in 0..report.len() {
        let Some((line, others)) = split_line(rest) else {
            break;
        };
        rest = match picture_behind(line, others) {
            Some((picture, others)) => {
                push_picture(alloc, &mut text, line, &picture, expected)?;
                others
            }
            None => {
                push_line(alloc, &mut text, line)?;
                others
            }
        };
    }
    if !rest.is_empty() {
        push_line(alloc, &mut text, rest)?;
        text.push_str("no newline")?;
    }
    Ok(text)
}

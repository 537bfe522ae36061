//! A picture in a report.
ghost use Rattle.std.specs.Prelude.{◌<◌, IfSome};

use super::lines::split_line;
use md5::{Digest, Md5};
use std::alloc::{AllocError, Global};
use std::str::from_utf8;

/// A picture, with its width and its height as the digits of its header.
#[derive(Clone, Copy)]
pub struct Picture<'a> {
    ppm: &'a [u8],
    width: &'a str,
    height: &'a str,
    row_len: usize,
    dots: &'a [u8],
    ghost has_width: { 0 < row_len },
}

/// Splits a PPM into the line that gives its size, and its dots.
fn split_ppm(ppm: &[u8]) -> Option<(&[u8], &[u8])> {
    let (size, others) = split_line(ppm.strip_prefix(b"P6\n")?)?;
    Some((size, others.strip_prefix(b"63\n")?))
}

/// How many bytes a row has, if the dots are exactly `height` rows of `width` dots, and there are
/// some.
fn row_len(width: &str, height: &str, dots: &[u8]) -> Option<usize>
    ensures { IfSome result (λ n. 0 < n) }
{
    let row_len = width.parse::<usize>().ok()?.checked_mul(3)?;
    let len = height.parse::<usize>().ok()?.checked_mul(row_len)?;
    if 0 < row_len && len == dots.len() {
        Some(row_len)
    } else {
        None
    }
}

impl<'a> Picture<'a> {
    /// The picture of a PPM.
    pub fn of_ppm(ppm: &'a [u8]) -> Option<Picture<'a>> {
        let (size, dots) = split_ppm(ppm)?;
        let (width, height) = from_utf8(size).ok()?.split_once(' ')?;
        let row_len = row_len(width, height, dots)?;
        Some(Picture {
            ppm,
            width,
            height,
            row_len,
            dots,
        })
    }

    /// The line that announces the picture, with its size added, as in `1 picture 37 9x1`.
    pub fn head(&self, alloc: Global, line: &str) -> Result<String, AllocError> {
        let width = self.width;
        let height = self.height;
        format!(in alloc; "{line} {width}x{height}")
    }

    /// The MD5 digest of its PPM, in hexadecimal.
    pub fn digest(&self, alloc: Global) -> Result<String, AllocError> {
        hex::encode(alloc, Md5::digest(self.ppm))
    }

    /// Appends its rows, one per line.
    pub fn push_rows(&self, text: &mut String) -> Result<(), AllocError> {
        for row in self.dots.chunks_exact(self.row_len) {
            push_row(text, row)?;
        }
        Ok(())
    }
}

/// Appends a run of equal dots: red, green and blue, and how many there are, as in `3F0015*9`.
fn push_run(text: &mut String, run: &[[u8; 3]]) -> Result<(), AllocError> {
    let Some([red, green, blue]) = run.first() else {
        return Ok(());
    };
    write!(text, "{red:02X}{green:02X}{blue:02X}")?;
    match run.len() {
        1 => Ok(()),
        count => write!(text, "*{count}"),
    }
}

/// Appends the dots of a row, and a newline.
fn push_row(text: &mut String, row: &[u8]) -> Result<(), AllocError> {
    let (dots, _) = row.as_chunks::<3>();
    for (i, run) in dots.chunk_by(|dot, next| dot == next).enumerate() {
        if i > 0 {
            text.push_str(" ")?;
        }
        push_run(text, run)?;
    }
    text.push_str("\n")
}

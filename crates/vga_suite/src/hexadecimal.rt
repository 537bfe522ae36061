//! Reading bytes that are written in hexadecimal.

use anyhow::{Context, Result};
use std::alloc::Global;

/// Reads the byte that a word spells, and how many times it stands there: `0B`, or `0B*3`.
fn byte_and_count(word: &str) -> Option<(u8, usize)> {
    let (digits, count) = match word.split_once('*') {
        Some((digits, count)) => (digits, count.parse().ok()?),
        None => (word, 1),
    };
    let mut byte = [0u8];
    hex::decode_to_slice(digits, &mut byte).ok()?;
    Some((byte[0], count))
}

/// Appends the bytes of a line. What follows `;` is a comment.
fn push_line(bytes: &mut Vec<u8>, line: &str) -> Result<()> {
    let (spelled, _) = line.split_once(';').unwrap_or((line, ""));
    for word in spelled.split_whitespace() {
        let (byte, count) = byte_and_count(word).context(format_args!("no bytes: {word}"))?;
        for _ in 0..count {
            bytes.push(byte)?;
        }
    }
    Ok(())
}

/// Reads the bytes that a text spells.
pub fn bytes_of(alloc: Global, text: &str) -> Result<Vec<u8>> {
    let mut bytes = Vec::new(alloc);
    for line in text.lines() {
        push_line(&mut bytes, line)?;
    }
    Ok(bytes)
}

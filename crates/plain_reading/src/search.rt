//! `seek` beside a plain search through the lines that `show --positions` prints.

use anyhow::{Result, bail};
use std::alloc::Global;

/// A line: a record's position, a blank and the record.
#[derive(Clone, Copy)]
pub struct Line<'a> {
    /// Where the record stands.
    pub position: u64,
    /// The record, which has no newline.
    pub record: &'a str,
}

/// The lines that are shown of a file.
pub fn lines_of(alloc: Global, shown: &[u8]) -> Result<Vec<Line<'_>>> {
    let texts = text_lines(alloc, shown)?;
    let mut lines = Vec::new(alloc);
    for text in &texts {
        add_line(&mut lines, text)?;
    }
    Ok(lines)
}

/// The lines of a text.
pub(crate) fn text_lines(alloc: Global, bytes: &[u8]) -> Result<Vec<&str>> {
    match str::from_utf8(bytes) {
        Ok(text) => Ok(text.split_terminator('\n').collect(alloc)?),
        Err(_) => bail!("records that are no text"),
    }
}

/// Adds the line of this text.
fn add_line<'a>(lines: &mut Vec<Line<'a>>, text: &'a str) -> Result<()> {
    let Some((digits, record)) = text.split_once(' ') else {
        bail!("a line without a position");
    };
    let position = digits.parse()?;
    Ok(lines.push(Line { position, record })?)
}

/// Which line is the first one of a record at the position or past it.
pub fn first_at(lines: &[Line<'_>], position: u64) -> Option<usize> {
    for (number, line) in lines.iter().enumerate() {
        if position <= line.position {
            return Some(number);
        }
    }
    None
}

/// Whether a search for the key may find the line of this number, or none: one that isn't less, and is the first of all or stands
/// behind one that is less. Where records are in order that is the first one that isn't less.
pub fn may_find(lines: &[Line<'_>], key: &str, found: Option<usize>) -> bool {
    let number = found.unwrap_or(lines.len());
    let Some((before, rest)) = lines.split_at_checked(number) else {
        return false;
    };
    let is_behind_less = match before.last() {
        Some(line) => is_less(line, key),
        None => true,
    };
    let is_not_less = match rest.first() {
        Some(line) => !is_less(line, key),
        None => found.is_none(),
    };
    is_behind_less && is_not_less
}

/// Whether the record is less than the key.
fn is_less(line: &Line<'_>, key: &str) -> bool {
    line.record.as_bytes() < key.as_bytes()
}

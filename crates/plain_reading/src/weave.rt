//! `collect` beside a plain look at the records of each file and at those of the made one.

use crate::search::text_lines;
use crate::walk::walked;
use anyhow::{Result, bail};
use std::alloc::Global;

/// The line that is shown of a record of a made file.
#[derive(Clone, Copy)]
struct Shown<'a> {
    /// The record's position.
    position: &'a str,
    record: &'a str,
    /// Whether it was found to be of some file.
    found: bool,
}

/// Whether the printed lines, each a file's number and a position, give each record of each file, as they are shown of it, in
/// order a place of its own in the made file, one behind another, and leave none out.
pub fn is_woven(alloc: Global, files: &[Vec<u8>], made: &[u8], printed: &[u8]) -> Result<bool> {
    let (shown, notes) = walked(alloc, made)?;
    if !notes.is_empty() || !(printed.is_empty() || printed.ends_with(b"\n")) {
        return Ok(false);
    }
    let mut records = records_of(alloc, &shown)?;
    Ok(are_woven(alloc, &mut records, files, printed)? && are_found(&records))
}

/// The records of these lines, of no file yet.
fn records_of(alloc: Global, shown: &[u8]) -> Result<Vec<Shown<'_>>> {
    let lines = text_lines(alloc, shown)?;
    let mut records = Vec::new(alloc);
    for line in &lines {
        let (position, record) = split_line(line)?;
        records.push(Shown {
            position,
            record,
            found: false,
        })?;
    }
    Ok(records)
}

/// What stands before the first blank of a line, and behind it.
fn split_line(line: &str) -> Result<(&str, &str)> {
    match line.split_once(' ') {
        Some(parts) => Ok(parts),
        None => bail!("a line without a position"),
    }
}

/// Whether all of these were found to be of some file.
fn are_found(records: &[Shown<'_>]) -> bool {
    for record in records {
        if !record.found {
            return false;
        }
    }
    true
}

/// Whether the printed lines give each record of each file a place of its own among these.
fn are_woven(
    alloc: Global,
    records: &mut [Shown<'_>],
    files: &[Vec<u8>],
    printed: &[u8],
) -> Result<bool> {
    let Ok(printed) = text_lines(alloc, printed) else {
        return Ok(false);
    };
    let mut begin = 0;
    for (number, file) in files.iter().enumerate() {
        match end_of_woven(alloc, records, number, file, &printed, begin)? {
            Some(end) => begin = end,
            None => return Ok(false),
        }
    }
    Ok(begin == printed.len())
}

/// Where the printed lines of the file of a number end that begin at a place, if they give each of its records such a place.
fn end_of_woven(
    alloc: Global,
    records: &mut [Shown<'_>],
    number: usize,
    file: &[u8],
    printed: &[&str],
    begin: usize,
) -> Result<Option<usize>> {
    let own = text_lines(alloc, file)?;
    let end = begin.saturating_add(own.len());
    match printed.get(begin..end) {
        Some(places) if is_one_woven(alloc, records, number, &own, places)? => Ok(Some(end)),
        _ => Ok(None),
    }
}

/// Whether these printed lines give each record that is shown of the file of a number a place of its own.
fn is_one_woven(
    alloc: Global,
    records: &mut [Shown<'_>],
    number: usize,
    shown: &[&str],
    printed: &[&str],
) -> Result<bool> {
    let number = format!(in alloc; "{number}")?;
    are_in_order(records, number.as_str(), shown, printed)
}

/// The same of a number in digits.
fn are_in_order(
    records: &mut [Shown<'_>],
    number: &str,
    shown: &[&str],
    printed: &[&str],
) -> Result<bool> {
    let mut from = 0;
    for (line, place) in shown.iter().zip(printed) {
        let (_, record) = split_line(line)?;
        match place_of(records, from, place, number, record) {
            Some(next) => from = next,
            None => return Ok(false),
        }
    }
    Ok(true)
}

/// Finds the place that a printed line gives a record of the file of a number, from a place on. The next one, if the record
/// stands there and is of no file yet.
fn place_of(
    records: &mut [Shown<'_>],
    from: usize,
    printed: &str,
    number: &str,
    record: &str,
) -> Option<usize> {
    let (file, position) = printed.split_once(' ')?;
    if file != number {
        return None;
    }
    for at in from..records.len() {
        let shown = records.get_mut(at)?;
        if shown.position == position {
            let is_own = !shown.found && shown.record == record;
            shown.found = true;
            return is_own.then_some(at.saturating_add(1));
        }
    }
    None
}

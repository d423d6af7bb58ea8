//! `seek` of each position and of each record, beside a plain search through what `show --positions` prints.

use crate::running::{alone, run_in_memory, run_line};
use crate::tries::Tries;
use anyhow::{Result, bail};
use case_text::given::Given;
use case_text::left::Left;
use case_text::words::{number_of, range_of};
use plain_reading::search::{Line, first_at, lines_of, may_find};
use std::alloc::{AllocError, Global};
use std::ops::Range;
use std::thread::Threads;

/// Seeks what the words say in the last file: `at A..B`, each of these positions, or `keys`, each record, or `keys A..B`, those
/// with these numbers. One more word behind these says how far they lie apart.
pub(crate) fn try_sought<R: Threads + Sync>(
    rt: &R,
    alloc: Global,
    tries: &mut Tries,
    given: &Given,
    words: &[String],
) -> Result<()> {
    let Some((what, numbers)) = words.split_first() else {
        bail!("what is sought?");
    };
    let given = alone(alloc, given.last_file()?.bytes.to_vec(alloc)?)?;
    let shown = run_line(rt, alloc, tries, &given, "show --positions F")?;
    if shown.status != 0 {
        bail!("the file is refused");
    }
    let lines = lines_of(alloc, &shown.out)?;
    if lines.is_empty() {
        bail!("the file has no records");
    }
    match what.as_str() {
        "at" => try_positions(rt, alloc, tries, &given, &lines, numbers),
        "keys" => try_keys(rt, alloc, tries, &given, &lines, numbers),
        _ => bail!("no positions and no keys: {what}"),
    }
}

/// The numbers of `A..B` or `A..B STEP`: from where to where, and how far they lie apart.
fn numbers_of(words: &[String]) -> Result<(Range<usize>, usize)> {
    match words {
        [range] => Ok((range_of(range.as_str())?, 1)),
        [range, step] => Ok((range_of(range.as_str())?, number_of(step.as_str())?)),
        _ => bail!("not one range"),
    }
}

/// Seeks each of these positions.
fn try_positions<R: Threads + Sync>(
    rt: &R,
    alloc: Global,
    tries: &mut Tries,
    given: &Given,
    lines: &[Line<'_>],
    words: &[String],
) -> Result<()> {
    let (range, step) = numbers_of(words)?;
    for position in range.step_by(step.max(1)) {
        let sought = format!(in alloc; "--at={position}")?;
        let found = found_by(rt, alloc, tries, given, lines, sought)?;
        if found != first_at(lines, position as u64) {
            bail!("the position {position} finds another record");
        }
    }
    Ok(())
}

/// Seeks each of these records, or each record of the file.
fn try_keys<R: Threads + Sync>(
    rt: &R,
    alloc: Global,
    tries: &mut Tries,
    given: &Given,
    lines: &[Line<'_>],
    words: &[String],
) -> Result<()> {
    let (range, step) = if words.is_empty() {
        (0..lines.len(), 1)
    } else {
        numbers_of(words)?
    };
    for number in range.step_by(step.max(1)) {
        let key = record_of(lines, number)?;
        let sought = format!(in alloc; "--key={key}")?;
        let found = found_by(rt, alloc, tries, given, lines, sought)?;
        if !may_find(lines, key, found) {
            bail!("the key of record {number} finds another record");
        }
    }
    Ok(())
}

/// The record of this number.
fn record_of<'a>(lines: &[Line<'a>], number: usize) -> Result<&'a str> {
    match lines.get(number) {
        Some(line) => Ok(line.record),
        None => bail!("no record {number}"),
    }
}

/// Which of the lines a run of `seek` finds with this word, if any.
fn found_by<R: Threads + Sync>(
    rt: &R,
    alloc: Global,
    tries: &mut Tries,
    given: &Given,
    lines: &[Line<'_>],
    sought: String,
) -> Result<Option<usize>> {
    let words = command_of_seek(alloc, sought)?;
    let left = run_in_memory(rt, alloc, &words, given, &mut tries.runs)?;
    if left.status == 11
        && left.out.is_empty()
        && left.notes.as_slice() == b"not found\n".as_slice()
    {
        return Ok(None);
    }
    if left.status != 0 || !left.notes.is_empty() {
        bail!("what is found is no record, or more is said");
    }
    Ok(Some(number_in(alloc, lines, &left)?))
}

/// The words of `seek` with this one.
fn command_of_seek(alloc: Global, sought: String) -> Result<Vec<String>, AllocError> {
    let mut words = Vec::new(alloc);
    words.push(String::from_str(alloc, "seek")?)?;
    words.push(sought)?;
    words.push(String::from_str(alloc, "F")?)?;
    Ok(words)
}

/// Which of the lines the one line is that a run printed.
fn number_in(alloc: Global, lines: &[Line<'_>], left: &Left) -> Result<usize> {
    let found = lines_of(alloc, &left.out)?;
    let [found] = found.as_slice() else {
        bail!("not one record is found");
    };
    for (number, line) in lines.iter().enumerate() {
        if line.position == found.position && line.record == found.record {
            return Ok(number);
        }
    }
    bail!("what is found is no record, or more is said")
}

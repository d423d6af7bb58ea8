//! What one command left of a file beside what another one did.

use crate::search::lines_of;
use anyhow::{Result, bail};
use case_text::left::Left;
use std::alloc::Global;

/// Checks how `verify` and `show` refused a file, or didn't.
pub fn check_refusal(verified: &Left, shown: &Left) -> Result<()> {
    if verified.status > 1 || shown.status > 1 {
        bail!("verify or show has another status");
    }
    if verified.status > shown.status {
        bail!("verify refuses what show doesn't");
    }
    if verified.notes != shown.notes && !is_unread(text_of(&shown.notes)) {
        bail!("verify and show refuse for other reasons");
    }
    Ok(())
}

/// Checks that `show` left the front of what is recovered.
pub fn check_front(shown: &Left, recovered: &Left) -> Result<()> {
    if shown.status == 0 && shown.out != recovered.out {
        bail!("show has not all records of a whole file");
    }
    if !recovered.out.starts_with(&shown.out) {
        bail!("show has other records than show --recover");
    }
    Ok(())
}

/// Checks that `seek` finds the first record that is shown. Where none is, it finds none in a whole file, and of another one
/// tells the same fault or goes on past it.
pub fn check_first(found: &Left, shown: &Left) -> Result<()> {
    let line = first_line(text_of(&shown.out));
    let is_right = if !line.is_empty() {
        has_ended(found, 0, line.as_bytes(), b"")
    } else if shown.status == 0 {
        has_ended(found, 11, b"", b"not found\n")
    } else {
        has_ended(found, 1, b"", &shown.notes) || goes_past(found, text_of(&shown.notes))
    };
    if !is_right {
        bail!("seek finds another record than the first that is shown, or ends otherwise");
    }
    Ok(())
}

/// The first line of a text, with its newline.
fn first_line(text: &str) -> &str {
    let mut lines = text.split_inclusive('\n');
    lines.next().unwrap_or("")
}

/// Whether a run ended with this status, printed this and told this.
fn has_ended(left: &Left, status: u8, out: &[u8], notes: &[u8]) -> bool {
    left.status == status && left.out.as_slice() == out && left.notes.as_slice() == notes
}

/// Whether `seek` went on past the fault that a line tells, to a record, to another fault or to the file's end: it isn't one by
/// which no chunk is passed.
fn goes_past(found: &Left, line: &str) -> bool {
    let stops = line.ends_with(" Short\n")
        || line.ends_with(" HeaderHash\n")
        || line.ends_with(" Truncated\n");
    !stops && matches!(found.status, 0 | 1 | 11)
}

/// Checks that `ranges` answers what `show` does, but prints nothing of a refused file.
pub fn check_parts(left: &Left, shown: &Left) -> Result<()> {
    let printed = match shown.status {
        0 => shown.out.as_slice(),
        _ => b"",
    };
    let is_told = left.status == shown.status && left.notes == shown.notes;
    if !is_told || left.out.as_slice() != printed {
        bail!("ranges answers otherwise than show");
    }
    Ok(())
}

/// Checks that the command makes nothing of a refused file, and prints nothing.
pub fn check_unmade(left: &Left, command: &str) -> Result<()> {
    if !left.made.is_empty() || !left.out.is_empty() {
        bail!("{command} makes or prints something of a refused file");
    }
    Ok(())
}

/// The line of the first file's fault, where another one tells of the only file's.
pub fn refused_first(alloc: Global, shown: &Left) -> Result<Vec<u8>> {
    let notes = text_of(&shown.notes);
    let told = match notes.strip_prefix("refused ") {
        Some(fault) => format!(in alloc; "refused 0 {fault}")?,
        None => String::from_str(alloc, notes)?,
    };
    Ok(told.into_bytes())
}

/// A line for each record that is shown with its position, as one of the first file.
pub fn places(alloc: Global, shown: &[u8]) -> Result<Vec<u8>> {
    let mut places = String::new(alloc);
    for line in lines_of(alloc, shown)? {
        writeln!(places, "0 {}", line.position)?;
    }
    Ok(places.into_bytes())
}

/// Whether a run told of these ranges, and its status says whether there are some.
pub fn has_notes(left: &Left, notes: &[u8]) -> bool {
    let status = if notes.is_empty() { 0 } else { 9 };
    left.status == status && left.notes.as_slice() == notes
}

/// The lines of what `show --recover` skipped, but those of chunks that `repair` copies unread.
pub fn told_by_repair(alloc: Global, recovered: &Left) -> Result<String> {
    let mut told = String::new(alloc);
    for line in text_of(&recovered.notes).split_inclusive('\n') {
        if !is_unread(line) {
            told.push_str(line)?;
        }
    }
    Ok(told)
}

/// Whether a line tells of a chunk that `verify` leaves unread, `show --recover` skips and `repair` copies unread.
fn is_unread(line: &str) -> bool {
    line.ends_with(" Compressed\n") || line.ends_with(" Transposed\n")
}

/// The text that bytes are, or none.
fn text_of(bytes: &[u8]) -> &str {
    str::from_utf8(bytes).unwrap_or("")
}

//! Hostile files through `append`.

use crate::running::{alone, run_line};
use crate::tries::Tries;
use anyhow::{Result, bail};
use case_text::files::GivenFile;
use case_text::given::Given;
use case_text::hostile::begins_of;
use case_text::left::Left;
use std::alloc::Global;
use std::thread::Threads;

/// The line that is put behind each file.
const LINE: &[u8] = b"x\n";

/// Where a file is refused, and why.
#[derive(Clone, Copy)]
struct Refusal<'a> {
    place: usize,
    why: &'a str,
}

impl<'a> Refusal<'a> {
    /// The one that a line tells, if it does.
    fn told(notes: &'a [u8]) -> Option<Refusal<'a>> {
        let line = str::from_utf8(notes).ok()?;
        let (place, why) = line
            .strip_prefix("refused ")?
            .strip_suffix('\n')?
            .split_once(' ')?;
        let place = place.parse().ok()?;
        Some(Refusal { place, why })
    }

    /// Whether no line is put behind the file, which may be cut at any fault or not.
    fn stops(&self, may_cut: bool) -> bool {
        match self.why {
            "NoSignature" => true,
            "Short" | "Truncated" => false,
            _ => !may_cut,
        }
    }
}

/// Puts a line behind the file.
pub(crate) fn try_growth<R: Threads + Sync>(
    rt: &R,
    alloc: Global,
    tries: &mut Tries,
    file: &[u8],
    verified: &Left,
) -> Result<()> {
    let given = growing(alloc, file)?;
    try_append(rt, alloc, tries, &given, verified, false)?;
    try_append(rt, alloc, tries, &given, verified, true)
}

/// Puts a line behind what is given, which may be cut at any fault or not.
fn try_append<R: Threads + Sync>(
    rt: &R,
    alloc: Global,
    tries: &mut Tries,
    given: &Given,
    verified: &Left,
    may_cut: bool,
) -> Result<()> {
    let line = if may_cut {
        "append --cut F"
    } else {
        "append --every=1 F"
    };
    let left = run_line(rt, alloc, tries, given, line)?;
    try_appended(rt, alloc, tries, verified, &left, may_cut)
}

/// The line, and a file that grows.
fn growing(alloc: Global, file: &[u8]) -> Result<Given> {
    let mut given = Given::new(alloc);
    given.grown = Some(GivenFile::new(file.to_vec(alloc)?));
    given.input = Some(LINE.to_vec(alloc)?);
    Ok(given)
}

/// Tries the commands on what `append` left, which may cut the file at any fault or not.
fn try_appended<R: Threads + Sync>(
    rt: &R,
    alloc: Global,
    tries: &mut Tries,
    verified: &Left,
    left: &Left,
    may_cut: bool,
) -> Result<()> {
    let file = left.old.as_slice();
    if file.is_empty() {
        return try_grown(rt, alloc, tries, file, left);
    }
    match Refusal::told(&verified.notes) {
        Some(refusal) if refusal.stops(may_cut) => check_refused(left, verified),
        Some(refusal) => {
            let kept = kept_of(alloc, file, &refusal)?;
            try_grown(rt, alloc, tries, file.get(..kept).unwrap_or(file), left)
        }
        None => try_grown(rt, alloc, tries, file, left),
    }
}

/// Checks how a file was refused.
fn check_refused(left: &Left, verified: &Left) -> Result<()> {
    let is_refused = left.status == 1 && left.notes == verified.notes;
    if !is_refused || left.grown != left.old || !left.out.is_empty() {
        bail!("append doesn't refuse the file as verify does, or changes it");
    }
    Ok(())
}

/// How many bytes of a file are kept: up to the chunk of its fault. A block header that is wrong lies in the last chunk that
/// begins before it.
fn kept_of(alloc: Global, file: &[u8], refusal: &Refusal<'_>) -> Result<usize> {
    if refusal.why != "BlockHeader" {
        return Ok(refusal.place);
    }
    let mut kept = 0;
    for begin in begins_of(alloc, file)? {
        if begin <= refusal.place {
            kept = begin;
        }
    }
    Ok(kept)
}

/// Checks that the file has what is kept of the old one, and one record behind it.
fn try_grown<R: Threads + Sync>(
    rt: &R,
    alloc: Global,
    tries: &mut Tries,
    kept: &[u8],
    left: &Left,
) -> Result<()> {
    if left.status != 0 || left.out != counts(alloc, kept, left)? {
        bail!("append ends otherwise, or counts otherwise");
    }
    if !left.grown.starts_with(kept) {
        bail!("append keeps less");
    }
    let front = alone(alloc, kept.to_vec(alloc)?)?;
    let before = run_line(rt, alloc, tries, &front, "show --recover F")?;
    try_whole(rt, alloc, tries, &left.grown, &before)
}

/// Checks that a file is whole, and has one record more than what was shown before.
fn try_whole<R: Threads + Sync>(
    rt: &R,
    alloc: Global,
    tries: &mut Tries,
    file: &[u8],
    before: &Left,
) -> Result<()> {
    let whole = alone(alloc, file.to_vec(alloc)?)?;
    let after = run_line(rt, alloc, tries, &whole, "show --recover F")?;
    let verified = run_line(rt, alloc, tries, &whole, "verify F")?;
    if verified.status != 0 || after.out.strip_prefix(before.out.as_slice()) != Some(LINE) {
        bail!("the grown file isn't whole, or has other records");
    }
    Ok(())
}

/// What is printed where so much was kept of the old file and one record was put.
fn counts(alloc: Global, kept: &[u8], left: &Left) -> Result<Vec<u8>> {
    let dropped = left.old.len().saturating_sub(kept.len());
    let (kept, bytes) = (kept.len(), left.grown.len());
    let told = format!(in alloc; "kept {kept}\ndropped {dropped}\nrecords 1\nbytes {bytes}\n")?;
    Ok(told.into_bytes())
}

//! Hostile files through `join` and `collect`.

use crate::running::{alone, run_line};
use crate::tries::Tries;
use anyhow::{Result, bail};
use case_text::files::copy;
use case_text::given::Given;
use case_text::left::Left;
use plain_reading::agreement::{check_unmade, places, refused_first};
use std::alloc::Global;
use std::thread::Threads;

/// Joins a file with itself, where this is what `verify` and `show --recover` left.
pub(crate) fn try_joined<R: Threads + Sync>(
    rt: &R,
    alloc: Global,
    tries: &mut Tries,
    given: &Given,
    verified: &Left,
    recovered: &Left,
) -> Result<()> {
    let mut given = alone(alloc, given.last_file()?.bytes.to_vec(alloc)?)?;
    copy(alloc, &mut given.files, 2)?;
    let left = run_line(rt, alloc, tries, &given, "join F F G")?;
    if left.status != verified.status || left.notes != refused_first(alloc, verified)? {
        bail!("join ends otherwise than verify");
    }
    if left.status == 0 {
        return try_twice(rt, alloc, tries, &left, recovered);
    }
    check_unmade(&left, "join")
}

/// Checks that the file that `join` made is that of its report, and has the records twice that were recovered.
fn try_twice<R: Threads + Sync>(
    rt: &R,
    alloc: Global,
    tries: &mut Tries,
    left: &Left,
    recovered: &Left,
) -> Result<()> {
    let made = alone(alloc, left.made.to_vec(alloc)?)?;
    let verified = run_line(rt, alloc, tries, &made, "verify G")?;
    if verified.status != 0 || verified.out != left.out {
        bail!("the joined file isn't that of the report");
    }
    let again = run_line(rt, alloc, tries, &made, "show --recover G")?;
    let records = recovered.out.as_slice();
    if again.out.strip_prefix(records) != Some(records) {
        bail!("the joined file has other records");
    }
    Ok(())
}

/// Collects the records of one file.
pub(crate) fn try_collected<R: Threads + Sync>(
    rt: &R,
    alloc: Global,
    tries: &mut Tries,
    given: &Given,
    shown: &Left,
) -> Result<()> {
    let left = run_line(rt, alloc, tries, given, "collect F G")?;
    if left.status != shown.status || left.notes != refused_first(alloc, shown)? {
        bail!("collect ends otherwise than show");
    }
    if left.status == 0 {
        return try_made(rt, alloc, tries, &left, shown);
    }
    check_unmade(&left, "collect")
}

/// Checks that the file that `collect` made has the records that were shown, at the positions that it told.
fn try_made<R: Threads + Sync>(
    rt: &R,
    alloc: Global,
    tries: &mut Tries,
    left: &Left,
    shown: &Left,
) -> Result<()> {
    let made = alone(alloc, left.made.to_vec(alloc)?)?;
    let again = run_line(rt, alloc, tries, &made, "show G")?;
    if again.status != 0 || again.out != shown.out {
        bail!("the collected file has other records");
    }
    let placed = run_line(rt, alloc, tries, &made, "show --hex --positions G")?;
    if left.out != places(alloc, &placed.out)? {
        bail!("collect tells of other places");
    }
    Ok(())
}

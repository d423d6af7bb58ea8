//! Hostile files through each command that reads or grows one.

use crate::hostile_growth::try_growth;
use crate::hostile_joined::{try_collected, try_joined};
use crate::hostile_parts::{try_first, try_parts};
use crate::running::{alone, run_line};
use crate::tries::Tries;
use anyhow::{Result, bail};
use case_text::given::Given;
use case_text::hostile::{begins_of, hostile};
use case_text::left::Left;
use case_text::words::number_of;
use plain_reading::agreement::{check_front, check_refusal, has_notes, told_by_repair};
use plain_reading::walk::walked;
use std::alloc::Global;
use std::ops::Range;
use std::thread::Threads;

/// Makes hostile files of the last file, one for each seed from one on, so many, and tries the commands on each.
pub(crate) fn try_hostile<R: Threads + Sync>(
    rt: &R,
    alloc: Global,
    tries: &mut Tries,
    given: &Given,
    words: &[String],
) -> Result<()> {
    let seeds = seeds_of(words)?;
    let file = given.last_file()?.bytes.as_slice();
    let begins = begins_of(alloc, file)?;
    for seed in seeds {
        let made = alone(alloc, hostile(alloc, file, &begins, seed as u64)?)?;
        if let Err(why) = try_file(rt, alloc, tries, &made) {
            bail!("the file of seed {seed}: {why}");
        }
    }
    Ok(())
}

/// The seeds from the first one on, so many, of which there are some.
fn seeds_of(words: &[String]) -> Result<Range<usize>> {
    let [first, count] = words else {
        bail!("not a seed and a count");
    };
    let (first, count) = (number_of(first.as_str())?, number_of(count.as_str())?);
    if count == 0 {
        bail!("no hostile file");
    }
    match first.checked_add(count) {
        Some(end) => Ok(first..end),
        None => bail!("seeds past all numbers"),
    }
}

/// Tries the commands on a file.
fn try_file<R: Threads + Sync>(
    rt: &R,
    alloc: Global,
    tries: &mut Tries,
    given: &Given,
) -> Result<()> {
    let file = given.last_file()?.bytes.as_slice();
    let verified = run_line(rt, alloc, tries, given, "verify F")?;
    let shown = run_line(rt, alloc, tries, given, "show F")?;
    check_refusal(&verified, &shown)?;
    try_recovered(rt, alloc, tries, given, &verified, &shown)?;
    try_growth(rt, alloc, tries, file, &verified)?;
    try_first(rt, alloc, tries, given)?;
    try_parts(rt, alloc, tries, file, &shown)?;
    try_collected(rt, alloc, tries, given, &shown)
}

/// Tries `show --recover`, `repair` and `join`, where this is what `verify` and `show` left.
fn try_recovered<R: Threads + Sync>(
    rt: &R,
    alloc: Global,
    tries: &mut Tries,
    given: &Given,
    verified: &Left,
    shown: &Left,
) -> Result<()> {
    let recovered = run_line(rt, alloc, tries, given, "show --recover F")?;
    check_front(shown, &recovered)?;
    let placed = run_line(rt, alloc, tries, given, "show --recover --positions F")?;
    check_walk(alloc, given, &recovered, &placed)?;
    try_repair(rt, alloc, tries, given, &recovered)?;
    try_joined(rt, alloc, tries, given, verified, &recovered)
}

/// Checks that `show --recover` left what a plain walk over the file gives, without positions and with them.
fn check_walk(alloc: Global, given: &Given, recovered: &Left, placed: &Left) -> Result<()> {
    let (out, notes) = walked(alloc, &given.last_file()?.bytes)?;
    let is_walked = has_notes(recovered, &notes) && has_notes(placed, &notes);
    if !is_walked || placed.out != out {
        bail!("show --recover differs from the plain walk");
    }
    Ok(())
}

/// Tries `repair`, and the commands on the file that it makes, where this is what `show --recover` left.
fn try_repair<R: Threads + Sync>(
    rt: &R,
    alloc: Global,
    tries: &mut Tries,
    given: &Given,
    recovered: &Left,
) -> Result<()> {
    let repaired = run_line(rt, alloc, tries, given, "repair F G")?;
    let told = told_by_repair(alloc, recovered)?;
    if !has_notes(&repaired, told.as_str().as_bytes()) {
        bail!("repair tells of other ranges");
    }
    try_repaired(rt, alloc, tries, &repaired, recovered)
}

/// Tries the commands on the file that `repair` made.
fn try_repaired<R: Threads + Sync>(
    rt: &R,
    alloc: Global,
    tries: &mut Tries,
    repaired: &Left,
    recovered: &Left,
) -> Result<()> {
    let made = alone(alloc, repaired.made.to_vec(alloc)?)?;
    let verified = run_line(rt, alloc, tries, &made, "verify G")?;
    if verified.status != 0 || verified.out != repaired.out {
        bail!("the repaired file isn't that of the report");
    }
    let shown = run_line(rt, alloc, tries, &made, "show --recover G")?;
    if shown.out != recovered.out {
        bail!("the repaired file has other records");
    }
    Ok(())
}

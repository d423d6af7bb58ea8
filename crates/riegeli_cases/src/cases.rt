//! Cases, each for one or for many.

use crate::trial::Trial;
use crate::tries::Tries;
use anyhow::{Result, bail};
use case_text::each::Each;
use case_text::given::Object;
use case_text::words::{Statement, filled};
use std::alloc::Global;
use std::ops::Range;
use std::thread::Threads;

/// Carries out the statements of a case.
pub(crate) fn try_case<R: Threads + Sync>(
    rt: &R,
    alloc: Global,
    tries: &mut Tries,
    statements: &[Statement],
) -> Result<()> {
    let mut each = each_of(alloc, tries, statements)?;
    match each.numbers.take() {
        Some(numbers) => try_numbers(rt, alloc, tries, statements, &each, numbers),
        None => try_ways(rt, alloc, tries, statements, &each),
    }
}

/// Carries out the statements for each of these numbers.
fn try_numbers<R: Threads + Sync>(
    rt: &R,
    alloc: Global,
    tries: &mut Tries,
    statements: &[Statement],
    each: &Each,
    numbers: Range<usize>,
) -> Result<()> {
    for number in numbers {
        tries.number = Some(number);
        let filled = filled(alloc, statements, number)?;
        try_ways(rt, alloc, tries, &filled, each)?;
    }
    Ok(())
}

/// Carries out the statements for each way to cut calls.
fn try_ways<R: Threads + Sync>(
    rt: &R,
    alloc: Global,
    tries: &mut Tries,
    statements: &[Statement],
    each: &Each,
) -> Result<()> {
    if each.ways.is_empty() {
        return try_once(rt, alloc, tries, statements, &each.failing, &[]);
    }
    for (way, cuts) in each.ways.iter().enumerate() {
        tries.way = Some(way);
        try_once(rt, alloc, tries, statements, &each.failing, cuts)?;
    }
    Ok(())
}

/// Carries out the statements once, and forgets the names that they gave.
fn try_once<R: Threads + Sync>(
    rt: &R,
    alloc: Global,
    tries: &mut Tries,
    statements: &[Statement],
    failing: &[Object],
    cuts: &[u32],
) -> Result<()> {
    let count = tries.known.count();
    let mut trial = Trial::new(alloc, failing, cuts)?;
    let tried = trial.carry_out_all(rt, alloc, tries, statements);
    tries.known.forget(count);
    tried
}

/// What these statements are carried out for.
fn each_of(alloc: Global, tries: &mut Tries, statements: &[Statement]) -> Result<Each> {
    let mut each = Each::new(alloc);
    for statement in statements {
        if statement.kind() == "each" {
            tries.line = statement.line;
            each.take(alloc, statement.rest())?;
        }
    }
    if !each.ways.is_empty() {
        refuse_cuts(tries, statements)?;
    }
    tries.line = tries.case;
    Ok(each)
}

/// Refuses statements that cut calls.
fn refuse_cuts(tries: &mut Tries, statements: &[Statement]) -> Result<()> {
    for statement in statements {
        if statement.kind() == "cuts" {
            tries.line = statement.line;
            bail!("calls are cut in each of many ways");
        }
    }
    Ok(())
}

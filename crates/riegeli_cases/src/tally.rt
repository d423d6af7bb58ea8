//! Tries the cases of a file, and prints which of them fail, and how many there were.

use crate::cases::try_case;
use crate::tries::Tries;
use anyhow::{Error, Result, bail};
use case_text::words::Statement;
use std::alloc::Global;
use std::io;
use std::thread::Threads;

/// How many cases of a file there were.
#[derive(Clone, Copy)]
struct Tally {
    /// Cases that must not fail.
    cases: u64,
    /// Cases that must, and did.
    wrong: u64,
    /// Cases that failed and must not, or didn't and must.
    failed: u64,
}

/// Tries the cases of the file of this name. How many didn't end as they must.
pub(crate) fn try_file<R: Threads + Sync + Print>(
    rt: &R,
    alloc: Global,
    tries: &mut Tries,
    name: &str,
    statements: &[Statement],
) -> Result<u64> {
    let mut tally = Tally {
        cases: 0,
        wrong: 0,
        failed: 0,
    };
    tries.runs = 0;
    if let Err(error) = try_parts(rt, alloc, tries, &mut tally, statements) {
        bail!("{name}, line {}: {error}", tries.line);
    }
    print_tally(rt, name, tally, tries.runs)?;
    Ok(tally.failed)
}

/// Takes in the names and tries the cases that these statements are.
fn try_parts<R: Threads + Sync + Print>(
    rt: &R,
    alloc: Global,
    tries: &mut Tries,
    tally: &mut Tally,
    statements: &[Statement],
) -> Result<()> {
    let mut rest = statements;
    for _ in 0..statements.len() {
        let Some((first, after)) = rest.split_first() else {
            break;
        };
        let (body, after) = body_of(first, after);
        tries.begin(first.line);
        try_part(rt, alloc, tries, tally, first, body)?;
        rest = after;
    }
    Ok(())
}

/// The statements that belong to this one, if it is a case, and what follows.
fn body_of<'a>(
    first: &Statement,
    statements: &'a [Statement],
) -> (&'a [Statement], &'a [Statement]) {
    let size = match first.kind() {
        "let" => 0,
        _ => size_of_body(statements),
    };
    statements
        .split_at_checked(size)
        .unwrap_or((statements, &[]))
}

/// How many statements stand before the next name or case.
fn size_of_body(statements: &[Statement]) -> usize {
    for (size, statement) in statements.iter().enumerate() {
        if matches!(statement.kind(), "let" | "case" | "wrong") {
            return size;
        }
    }
    statements.len()
}

/// Takes in a name, or tries a case.
fn try_part<R: Threads + Sync + Print>(
    rt: &R,
    alloc: Global,
    tries: &mut Tries,
    tally: &mut Tally,
    first: &Statement,
    body: &[Statement],
) -> Result<()> {
    match first.kind() {
        "let" => tries.learn(rt, alloc, first),
        "case" => try_right(rt, alloc, tries, tally, first.rest(), body),
        "wrong" => try_wrong(rt, alloc, tries, tally, first.rest(), body),
        _ => bail!("a statement of no case"),
    }
}

/// The name of a case.
fn name_of(words: &[String]) -> Result<&str> {
    match words {
        [name] => Ok(name.as_str()),
        _ => bail!("a case without a name of one word"),
    }
}

/// Tries a case that must not fail.
fn try_right<R: Threads + Sync + Print>(
    rt: &R,
    alloc: Global,
    tries: &mut Tries,
    tally: &mut Tally,
    name: &[String],
    body: &[Statement],
) -> Result<()> {
    let name = name_of(name)?;
    tally.cases = tally.cases.saturating_add(1);
    if let Err(why) = try_case(rt, alloc, tries, body) {
        tally.failed = tally.failed.saturating_add(1);
        print_failure(rt, name, tries, &why)?;
    }
    Ok(())
}

/// Tries a case that must fail.
fn try_wrong<R: Threads + Sync + Print>(
    rt: &R,
    alloc: Global,
    tries: &mut Tries,
    tally: &mut Tally,
    name: &[String],
    body: &[Statement],
) -> Result<()> {
    let name = name_of(name)?;
    match try_case(rt, alloc, tries, body) {
        Ok(()) => {
            tally.failed = tally.failed.saturating_add(1);
            println!(rt; "{name} did not fail")?;
        }
        Err(why) => {
            tally.wrong = tally.wrong.saturating_add(1);
            print_failure(rt, name, tries, &why)?;
        }
    }
    Ok(())
}

/// Prints why a case failed, and where.
fn print_failure(rt: &impl Print, name: &str, tries: &Tries, why: &Error) -> io::Result<()> {
    print!(rt; "{name}, line {}", tries.line)?;
    if let Some(number) = tries.number {
        print!(rt; ", for {number}")?;
    }
    if let Some(way) = tries.way {
        print!(rt; ", cut in way {way}")?;
    }
    println!(rt; ": {why}{}", tries.got)
}

/// Prints how many cases of a file there were.
fn print_tally(rt: &impl Print, name: &str, tally: Tally, runs: u64) -> io::Result<()> {
    let (cases, wrong) = (tally.cases, tally.wrong);
    if cases > 0 || wrong == 0 {
        println!(rt; "{name}: {cases} cases, {runs} runs")?;
    }
    if wrong > 0 {
        println!(rt; "{name}: {wrong} cases that failed as they must")?;
    }
    Ok(())
}

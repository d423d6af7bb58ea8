//! Runs the program's worked cases over objects in memory, and prints how many there were and which of them failed.
//! `docs/CASES.md` has their language. The arguments name the files of cases, and standard input has names for all of them.
#![tactic(auto)]

mod cases;
mod faults;
mod hostile_files;
mod hostile_growth;
mod hostile_joined;
mod hostile_parts;
mod running;
mod sought;
mod stores;
mod tally;
mod trial;
mod tries;
mod written;

use anyhow::{Result, bail};
use case_text::words::{Statement, statements_of};
use std::alloc::Global;
use std::rt::Runtime;
use std::thread::Threads;
use std::{env, fs, io};
use tally::try_file;
use tries::Tries;

fn main(rt: HostRuntime) -> Result<()> {
    let alloc = rt.alloc();
    let mut tries = Tries::new(alloc);
    let names = io::read_to_string(alloc, rt.reader())?;
    let names = statements_of(alloc, names.as_str())?;
    learn_names(&rt, alloc, &mut tries, &names)?;
    let failed = try_files(&rt, alloc, &mut tries)?;
    if failed > 0 {
        bail!("{failed} cases failed that must not, or didn't that must");
    }
    Ok(())
}

/// Takes in the names of standard input.
fn learn_names<R: Threads + Sync>(
    rt: &R,
    alloc: Global,
    tries: &mut Tries,
    statements: &[Statement],
) -> Result<()> {
    for statement in statements {
        let line = statement.line;
        if statement.kind() != "let" {
            bail!("line {line}: standard input has names alone");
        }
        if let Err(error) = tries.learn(rt, alloc, statement) {
            bail!("line {line}: {error}");
        }
    }
    Ok(())
}

/// Tries the cases of the files that the arguments name. How many didn't end as they must.
fn try_files<R: Runtime<A = Global> + Threads + Sync>(
    rt: &R,
    alloc: Global,
    tries: &mut Tries,
) -> Result<u64> {
    let mut failed = 0_u64;
    for name in env::args(rt)?.skip(1) {
        let text = fs::read_to_string(rt, name.as_str())?;
        let statements = statements_of(alloc, text.as_str())?;
        let count = tries.known.count();
        failed = failed.saturating_add(try_file(rt, alloc, tries, name.as_str(), &statements)?);
        tries.known.forget(count);
    }
    Ok(failed)
}

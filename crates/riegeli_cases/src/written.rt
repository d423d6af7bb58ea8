//! Bytes that are the file of a run, or that words say.

use crate::running::run_in_memory;
use crate::tries::Tries;
use anyhow::{Result, bail};
use case_text::bytes::bytes_of;
use case_text::facts::{Fact, fact_without_bytes};
use case_text::given::Given;
use case_text::texts::command_of;
use case_text::words::number_of;
use std::alloc::Global;
use std::thread::Threads;

/// The bytes of these words, of which there are some, or of the file that a run makes.
pub(crate) fn said_bytes<R: Threads + Sync>(
    rt: &R,
    alloc: Global,
    tries: &mut Tries,
    words: &[String],
) -> Result<Vec<u8>> {
    match words {
        [first, rest @ ..] if first.as_str() == "written" => written(rt, alloc, tries, rest),
        _ => bytes_of(alloc, &tries.known, words),
    }
}

/// The file that words make of the bytes behind a `<`, silently.
fn written<R: Threads + Sync>(
    rt: &R,
    alloc: Global,
    tries: &mut Tries,
    words: &[String],
) -> Result<Vec<u8>> {
    let place = words.iter().position(|word| word.as_str() == "<");
    let Some((command, [_, input @ ..])) = place.and_then(|place| words.split_at_checked(place))
    else {
        bail!("no input");
    };
    let command = command_of(alloc, command)?;
    let mut given = Given::new(alloc);
    given.input = Some(bytes_of(alloc, &tries.known, input)?);
    let left = run_in_memory(rt, alloc, &command, &given, &mut tries.runs)?;
    if left.status != 0 || !left.out.is_empty() || !left.notes.is_empty() {
        bail!("the file isn't written silently");
    }
    Ok(left.made)
}

/// The fact that words say of the bytes of an object.
pub(crate) fn fact_of<R: Threads + Sync>(
    rt: &R,
    alloc: Global,
    tries: &mut Tries,
    words: &[String],
) -> Result<Fact> {
    match fact_without_bytes(alloc, words)? {
        Some(fact) => Ok(fact),
        None => fact_of_bytes(rt, alloc, tries, words),
    }
}

/// The fact that words say which say bytes, alone or behind the place where they stand.
fn fact_of_bytes<R: Threads + Sync>(
    rt: &R,
    alloc: Global,
    tries: &mut Tries,
    words: &[String],
) -> Result<Fact> {
    match words {
        [first, place, words @ ..] if first.as_str() == "at" => {
            let place = number_of(place.as_str())?;
            Ok(Fact::At(place, said_bytes(rt, alloc, tries, words)?))
        }
        _ => Ok(Fact::All(said_bytes(rt, alloc, tries, words)?)),
    }
}

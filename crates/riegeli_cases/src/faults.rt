//! Runs of which a call fails.

use crate::running::run_in_memory;
use crate::tries::Tries;
use anyhow::{Result, bail};
use case_text::given::{Given, Object};
use case_text::left::Left;
use plain_reading::answers::Answer;
use plain_reading::faults::fault_differences;
use std::alloc::Global;
use std::thread::Threads;

/// No run makes so many calls of an object.
const CALLS: u32 = 100_000;

/// Runs the words with one more call of the object failing.
fn run_failing<R: Threads + Sync>(
    rt: &R,
    alloc: Global,
    tries: &mut Tries,
    words: &[String],
    given: &mut Given,
    object: Object,
    call: u32,
) -> Result<Left> {
    given.fails.push((object, call))?;
    let left = run_in_memory(rt, alloc, words, given, &mut tries.runs);
    given.fails.pop();
    left
}

/// Runs the words with each call of the object failing in turn, until a run calls it less often and answers as it should. Fails
/// at the first run that does neither.
pub(crate) fn try_faults<R: Threads + Sync>(
    rt: &R,
    alloc: Global,
    tries: &mut Tries,
    words: &[String],
    given: &mut Given,
    answer: &Answer,
    object: Object,
) -> Result<()> {
    for call in 0..CALLS {
        let left = run_failing(rt, alloc, tries, words, given, object, call)?;
        if call > 0 && answer.differences(alloc, &left)?.as_str().is_empty() {
            return Ok(());
        }
        let told = fault_differences(alloc, answer, &left, object)?;
        tries.compare(with_call(alloc, object, call, told)?)?;
    }
    bail!("too many calls of {}", object.name())
}

/// What is told of a run, if anything, behind the call that failed.
fn with_call(alloc: Global, object: Object, call: u32, told: String) -> Result<String> {
    if told.as_str().is_empty() {
        return Ok(told);
    }
    let name = object.name();
    Ok(format!(in alloc; "\n  call {call} of {name} fails{told}")?)
}

//! By what table a run's coded chunks are found.
ghost use Rattle.std.specs.Prelude.{◌≡◌, ◌+◌, ◌-◌, ◌*◌, ◌++◌, min, IfOk, OnOk};
ghost use Rattle.chunk_workers.specs.RunPlaces.{places_in, places_of};

use crate::coded_runs::CodedRuns;
use std::alloc::AllocError;

/// Where the coded chunks of a run lie. Own.
#[derive(Clone, Copy, Debug)]
pub struct RunPlace {
    /// With which worker.
    pub worker: u32,
    /// Which of the worker's chunks is the first.
    pub first: u32,
}

/// Appends each number that workers drew, with the place of its run. `groups` is how many there are in all. A place that needs more
/// than 4 bytes counts as want of memory. Own.
pub fn append_places(
    places: &mut Vec<(u64, RunPlace)>,
    runs: &[CodedRuns],
    step: usize,
    groups: usize,
) -> Result<(), AllocError>
    ensures { OnOk result (places.new.items ≡ places.old.items ++ places_of step groups runs.now) }
{
    for i in 0..runs.len() {
        let worker = u32::try_from(i).or(Err(AllocError))?;
        append_worker(places, worker, runs[i].numbers(), step, groups)?;
    }
    Ok(())
}

/// Appends the numbers of one worker.
fn append_worker(
    places: &mut Vec<(u64, RunPlace)>,
    worker: u32,
    numbers: &[u64],
    step: usize,
    groups: usize,
) -> Result<(), AllocError>
    ensures { OnOk result (places.new.items ≡ places.old.items ++ places_in step groups worker 0 numbers.now) }
{
    let mut first = 0;
    for &number in numbers {
        places.push((number, RunPlace { worker, first }))?;
        first = place_behind(first, run_len(number, step, groups))?;
    }
    Ok(())
}

/// How many groups the run of this number has.
fn run_len(number: u64, step: usize, groups: usize) -> usize
    ensures { result ≡ min step (groups - number * step) }
{
    let begin = (number as usize).saturating_mul(step);
    step.min(groups.saturating_sub(begin))
}

/// The place behind so many chunks; want of memory where 4 bytes can't tell it.
fn place_behind(first: u32, count: usize) -> Result<u32, AllocError>
    ensures { IfOk result (λ next. next ≡ first + count) }
{
    let next = (first as usize).checked_add(count).ok_or(AllocError)?;
    u32::try_from(next).or(Err(AllocError))
}

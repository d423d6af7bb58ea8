//! A window of groups, coded by workers that draw runs of them.
ghost use Rattle.std.specs.Prelude.{◌≡◌, ◌≢◌, ℕ, ◌^◌, ◌<◌, ◌≤◌, List, [], ◌++◌, All, IfOk, OnOk, length, vec_len};
ghost use Rattle.std.specs.List.{flat_map};
ghost use Rattle.simple_chunk.specs.Costs.{cost_of};
ghost use Rattle.chunk_workers.specs.Coded.{AreCoded};
ghost use Rattle.chunk_workers.specs.Runs.{CanDraw, IsDrawn, groups_of_runs, run_count, run_of};
ghost use Rattle.chunk_workers.specs.Seats.{BelongsTo, drawn_by};

use crate::coded_chunks::CodedChunks;
use crate::coded_runs::CodedRuns;
use crate::coder::Coder;
use crate::draws::{DrawSeat, Draws};
use crate::workers::Worker;
use simple_chunk::RecordGroups;
use std::alloc::{AllocError, Global};
use std::thread;
use std::thread::Threads;

/// Codes the groups of a window in threads, one for each worker: it draws the number of a run, which has `step` groups, codes these
/// groups, and draws the next, until its seat has ended. Where no thread can be made, that is done here, for one worker after
/// another.
///
/// The draws are of as many numbers as there are runs, and there is a worker for each of their seats, none of which has drawn yet.
/// Each group costs at most 2^25. The seats come back ended, so `Draws::finish` tells that each run was coded once.
///
/// # Errors
///
/// Want of memory. The seats are gone then. Own.
pub fn encode_window<R: Threads + Sync, C: Coder + Sync>(
    rt: &R,
    alloc: Global,
    draws: &Draws,
    workers: Vec<Worker>,
    coder: &C,
    groups: &RecordGroups,
    step: usize,
) -> Result<(Vec<CodedRuns>, Vec<DrawSeat>), AllocError>
    requires step { 1 ≤ step }
    requires n { draws.now.n ≡ run_count step (length groups.now.groups) }
    requires seats { vec_len workers ≡ draws.now.workers }
    requires each { All (λ w. CanDraw draws.now w.seat w.runs) workers.items }
    requires short { All (λ group. cost_of group ≤ 2 ^ 25) groups.now.groups }
    ensures seats { IfOk result (λ r. vec_len r.1 ≡ draws.now.workers) }
    ensures each { IfOk result (λ r. All (λ seat. BelongsTo draws.now seat × (seat.hand.past ≢ [])) r.1.items) }
    ensures numbers { IfOk result (λ r. flat_map (λ x. x.numbers) r.0.items ≡ drawn_by r.1.items) }
    ensures coded { IfOk result (λ r. All (λ x. AreCoded (C.chunk_of coder.now) (groups_of_runs step groups.now.groups x.numbers) x.chunks) r.0.items) }
{
    let parts = thread::map_vec(
        rt,
        workers,
        &|worker| code_drawn(draws, worker, coder, groups, step),
    )?;
    let mut runs = Vec::with_capacity(alloc, parts.len())?;
    let mut ended = Vec::with_capacity(alloc, parts.len())?;
    for part in parts {
        let worker = part?;
        runs.push(worker.runs)?;
        ended.push(worker.seat)?;
    }
    Ok((runs, ended))
}

/// Codes the groups of the runs whose numbers one seat draws, until it has ended.
fn code_drawn<C: Coder>(
    draws: &Draws,
    worker: Worker,
    coder: &C,
    groups: &RecordGroups,
    step: usize,
) -> Result<Worker, AllocError>
    requires step { 1 ≤ step }
    requires n { draws.now.n ≡ run_count step (length groups.now.groups) }
    requires fresh { CanDraw draws.now worker.seat worker.runs }
    requires short { All (λ group. cost_of group ≤ 2 ^ 25) groups.now.groups }
    ensures { IfOk result (λ w. IsDrawn (C.chunk_of coder.now) draws.now step groups.now.groups w.seat w.runs) }
{
    let Worker { mut seat, runs } = worker;
    let CodedRuns {
        mut numbers,
        mut chunks,
    } = runs;
    while let Some(number) = draws.draw(&mut seat) {
        code_run(coder, groups, step, number as usize, &mut chunks)?;
        numbers.push(number)?;
    }
    Ok(Worker {
        seat,
        runs: CodedRuns { numbers, chunks },
    })
}

/// Codes the groups of a run.
fn code_run<C: Coder>(
    coder: &C,
    groups: &RecordGroups,
    step: usize,
    number: usize,
    chunks: &mut CodedChunks,
) -> Result<(), AllocError>
    requires step { 1 ≤ step }
    requires number { number < run_count step (length groups.now.groups) }
    requires short { All (λ group. cost_of group ≤ 2 ^ 25) groups.now.groups }
    ensures { OnOk result ((before : List (List (List ℕ))) → AreCoded (C.chunk_of coder.now) before chunks.old → AreCoded (C.chunk_of coder.now) (before ++ run_of step groups.now.groups number) chunks.new) }
{
    let all = groups.len();
    let begin = number * step;
    let count = step.min(all - begin);
    for i in begin..begin + count {
        coder.code(&groups.group(i), chunks)?;
    }
    Ok(())
}

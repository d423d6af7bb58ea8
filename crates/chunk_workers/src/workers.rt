//! Seats, each with memory for what its worker makes.
ghost use Rattle.std.specs.Prelude.{◌≡◌, ◌^◌, ◌≤◌, All, IfOk, vec_len};
ghost use Rattle.number_shares.specs.Machine.{empty_hand};
ghost use Rattle.chunk_workers.specs.Runs.{CanDraw, no_runs};
ghost use Rattle.chunk_workers.specs.Seats.{BelongsTo};

use crate::coded_runs::CodedRuns;
use crate::draws::{DrawSeat, Draws};
use std::alloc::{AllocError, Global};

/// A seat, and the runs that were coded at it. Own.
#[derive(Drop)]
pub struct Worker {
    /// The seat.
    pub seat: DrawSeat,
    /// The runs.
    pub runs: CodedRuns,
}

/// Draws of so many runs, and as many workers at their seats, which have drawn nothing. What `memory` holds is used for their runs
/// first, and forgotten. Own.
pub fn seat_workers(
    alloc: Global,
    runs: u64,
    workers: u32,
    memory: &mut Vec<CodedRuns>,
) -> Result<(Draws, Vec<Worker>), AllocError>
    requires runs { runs ≤ 2 ^ 32 }
    requires workers { (1 ≤ workers) × (workers ≤ 16) }
    ensures draws { IfOk result (λ d. (d.0.n ≡ runs) × (d.0.workers ≡ workers)) }
    ensures workers { IfOk result (λ d. vec_len d.1 ≡ workers) }
    ensures each { IfOk result (λ d. All (λ w. CanDraw d.0 w.seat w.runs) d.1.items) }
{
    let (draws, seats) = Draws::new(alloc, runs, workers)?;
    let ready = with_memory(alloc, &draws, seats, memory)?;
    Ok((draws, ready))
}

/// Seats that have drawn nothing, each with no runs.
fn with_memory(
    alloc: Global,
    draws: &Draws,
    seats: Vec<DrawSeat>,
    memory: &mut Vec<CodedRuns>,
) -> Result<Vec<Worker>, AllocError>
    requires { All (λ seat. BelongsTo draws.now seat × (seat.hand ≡ empty_hand)) seats.items }
    ensures len { IfOk result (λ ready. vec_len ready ≡ vec_len seats) }
    ensures each { IfOk result (λ ready. All (λ w. CanDraw draws.now w.seat w.runs) ready.items) }
{
    let mut ready = Vec::with_capacity(alloc, seats.len())?;
    for seat in seats {
        let runs = cleared(alloc, memory);
        ready.push(Worker { seat, runs })?;
    }
    Ok(ready)
}

/// No runs, in memory that is held, if any is.
fn cleared(alloc: Global, memory: &mut Vec<CodedRuns>) -> CodedRuns
    ensures { result ≡ no_runs }
{
    let Some(mut runs) = memory.pop() else {
        return CodedRuns::new(alloc);
    };
    runs.clear();
    runs
}

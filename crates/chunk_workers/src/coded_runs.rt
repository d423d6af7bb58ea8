//! Runs of groups, and the coded chunks of these groups.
ghost use Rattle.std.specs.Prelude.{◌≡◌, ◌^◌, ◌<◌, ◌≤◌, Some, length, slice_get};
ghost use Rattle.chunk_workers.specs.Runs.{no_runs, run_count};

use crate::coded_chunks::{CodedChunks, CodedHead};
use std::alloc::Global;
use std::marker::Model;

/// The numbers of runs, and the coded chunks of the groups of these, one after another. Own.
#[derive(Drop)]
pub struct CodedRuns {
    pub(crate) numbers: Vec<u64>,
    pub(crate) chunks: CodedChunks,
}

impl Model for CodedRuns {
    ghost use Rattle.chunk_workers.specs.Runs.{RunsValue};

    ghost Value = { RunsValue };

    ghost view = { λ r. record { numbers = r.numbers.items; chunks = r.chunks } };
}

impl CodedRuns {
    /// No runs. It takes no memory.
    pub fn new(alloc: Global) -> CodedRuns
        ensures { result ≡ no_runs }
    {
        CodedRuns {
            numbers: Vec::new(alloc),
            chunks: CodedChunks::new(alloc),
        }
    }

    /// Forgets the runs, and keeps their memory.
    pub fn clear(&mut self)
        ensures { self.new ≡ no_runs }
    {
        self.numbers.clear();
        self.chunks.clear();
    }

    /// The numbers of the runs.
    pub fn numbers(&self) -> &[u64]
        ensures { result.now ≡ self.now.numbers }
    {
        &self.numbers
    }

    /// How many chunks there are.
    pub fn len(&self) -> usize
        ensures { result ≡ length self.now.chunks }
    {
        self.chunks.len()
    }

    /// The chunk of this number, which counts from 0 and is below `len`: its head, and its data or its front.
    pub fn chunk(&self, i: usize) -> (&CodedHead, &[u8])
        requires { i < length self.now.chunks }
        ensures { slice_get self.now.chunks i ≡ Some (record { head = result.0.now; front = result.1.now }) }
    {
        self.chunks.get(i)
    }
}

/// How many runs there are of so many groups.
pub fn run_count(groups: usize, step: usize) -> usize
    requires step { (1 ≤ step) × (step ≤ 2 ^ 32) }
    requires groups { groups < 2 ^ 32 }
    ensures count { result ≡ run_count step groups }
    ensures few { result ≤ 2 ^ 32 }
{
    (groups + (step - 1)) / step
}

//! What makes the chunk of a group of records.
ghost use Rattle.std.specs.Prelude.{ℕ, ◌^◌, ◌≤◌, List, OnOk};
ghost use Rattle.chunk_header.specs.Chunks.{ChunkValue};
ghost use Rattle.simple_chunk.specs.Costs.{cost_of};
ghost use Rattle.chunk_workers.specs.Coded.{IsCodedAfter};

use crate::coded_chunks::CodedChunks;
use simple_chunk::RecordsRef;
use std::alloc::AllocError;

/// Makes the chunk of a group of records. Own.
pub trait Coder {
    /// The chunk of a list of records.
    ghost chunk_of: { Self → List (List ℕ) → ChunkValue };

    /// Appends the chunk of the group, which costs at most 2^25. It fails only for want of memory.
    fn code(&self, group: &RecordsRef<'_>, coded: &mut CodedChunks) -> Result<(), AllocError>
        requires { cost_of group.now ≤ 2 ^ 25 }
        ensures { OnOk result (IsCodedAfter (chunk_of self.now) group.now coded.old coded.new) };
}

/// Makes simple chunks without compression, with the shortest varints.
///
/// Riegeli/records file format specification, "Simple chunk with records".
#[derive(Clone, Copy, Debug)]
pub struct SimpleCoder;

impl Coder for SimpleCoder {
    ghost use Rattle.chunk_header.specs.SimpleChunks.{simple_chunk};

    ghost chunk_of = { λ _ records. simple_chunk records };

    fn code(&self, group: &RecordsRef<'_>, coded: &mut CodedChunks) -> Result<(), AllocError> {
        coded.push_simple(group)
    }
}

//! Coded chunks, in memory that goes round.
ghost use Rattle.std.specs.Prelude.{◌≡◌, ℕ, ◌^◌, ◌<◌, ◌≤◌, ◌↔◌, if◌then◌else◌, Some, List, [], ◌∷◌, ◌++◌, length, slice_get, IsTrue, IfOk, OnOk, OnErr};
ghost use Rattle.chunk_header.specs.Chunks.{ChunkValue, header_bytes};
ghost use Rattle.chunk_header.specs.SimpleChunks.{simple_chunk};
ghost use Rattle.chunk_header.specs.Views.{HasRightHash, IsHeaderOf, value_of_chunk};
ghost use Rattle.simple_chunk.specs.Costs.{cost_of};
ghost use Rattle.simple_chunk.specs.Sizes.{data_front};
ghost use Rattle.chunk_workers.specs.Coded.{IsCodedAfter};

use chunk_header::{Chunk, HEADER_SIZE, Header, Kind};
use simple_chunk::{Records, RecordsRef, append_front};
use std::alloc::{AllocError, Global};
use std::marker::Model;

/// The values of a group are copied where they have at most so many bytes: a small chunk is put as one piece then. Own.
const MOST_COPIED: usize = 4096;

/// What a coded chunk has beside its data. Own.
#[derive(Clone, Copy, Debug)]
pub struct CodedHead {
    /// The bytes of its header.
    pub header: [u8; HEADER_SIZE],
    /// How many records it holds.
    pub num_records: u64,
    /// Whether the records of its group, joined, end its data.
    pub takes_values: bool,
}

/// Coded chunks, each with its data, or with what stands in its data before the records, which stay where they are then. Own.
#[derive(Drop)]
pub struct CodedChunks {
    heads: Vec<CodedHead>,
    fronts: Records,
    /// Where a front is made.
    scratch: Vec<u8>,
}

impl Model for CodedChunks {
    ghost use Rattle.std.specs.Prelude.{◌≡◌, List, length};
    ghost use Rattle.chunk_workers.specs.Coded.{CodedValue, coded_of};

    ghost Value = { List CodedValue };

    ghost view = { λ c. coded_of c.heads.items c.fronts };

    ghost invariant = { λ c. length c.heads.items ≡ length c.fronts };
}

impl CodedChunks {
    /// No chunks. It takes no memory.
    pub fn new(alloc: Global) -> CodedChunks
        ensures { result ≡ [] }
    {
        CodedChunks {
            heads: Vec::new(alloc),
            fronts: Records::new(alloc),
            scratch: Vec::new(alloc),
        }
    }

    /// Forgets the chunks, and keeps their memory.
    pub fn clear(&mut self)
        ensures { self.new ≡ [] }
    {
        self.heads.clear();
        self.fronts.clear();
    }

    /// How many chunks there are.
    pub fn len(&self) -> usize
        ensures { result ≡ length self.now }
    {
        self.heads.len()
    }

    /// Whether there are no chunks.
    pub fn is_empty(&self) -> bool
        ensures { IsTrue result ↔ (self.now ≡ []) }
    {
        self.len() == 0
    }

    /// The chunk of this number, which counts from 0 and is below `len`: its head, and its data or its front.
    pub fn get(&self, i: usize) -> (&CodedHead, &[u8])
        requires { i < length self.now }
        ensures { slice_get self.now i ≡ Some (record { head = result.0.now; front = result.1.now }) }
    {
        (&self.heads[i], self.fronts.get(i))
    }

    /// Appends the simple chunk of a group, with the shortest varints.
    pub fn push_simple(&mut self, group: &RecordsRef<'_>) -> Result<(), AllocError>
        requires { cost_of group.now ≤ 2 ^ 25 }
        ensures { OnOk result (IsCodedAfter simple_chunk group.now self.old self.new) }
    {
        make_front(&mut self.scratch, group)?;
        let header = simple_header(&self.scratch, group);
        let takes_values = append_few(&mut self.scratch, group.values())?;
        let head = head_of(&header, takes_values);
        append_chunk(&mut self.heads, &mut self.fronts, head, &self.scratch)
    }

    /// Appends a chunk with all of its data.
    pub fn push(&mut self, chunk: &Chunk) -> Result<(), AllocError>
        requires { HasRightHash chunk.now }
        ensures { OnOk result ((chunk_of : List (List ℕ) → ChunkValue) (group : List (List ℕ)) → value_of_chunk chunk.now ≡ chunk_of group → IsCodedAfter chunk_of group self.old self.new) }
    {
        let head = head_of(&chunk.header, false);
        append_chunk(
            &mut self.heads,
            &mut self.fronts,
            head,
            chunk.bytes.as_slice(),
        )
    }
}

/// The head of a chunk of this header.
fn head_of(header: &Header, takes_values: bool) -> CodedHead
    ensures header { (k : ChunkValue) → IsHeaderOf header.now k → result.header ≡ header_bytes k }
    ensures records { result.num_records ≡ header.now.num_records }
    ensures takes { result.takes_values ≡ takes_values }
{
    CodedHead {
        header: header.to_bytes(),
        num_records: header.num_records,
        takes_values,
    }
}

/// Makes what stands in the data of the simple chunk of a group before the records.
fn make_front(front: &mut Vec<u8>, group: &RecordsRef<'_>) -> Result<(), AllocError>
    requires { cost_of group.now ≤ 2 ^ 25 }
    ensures { OnOk result (front.new.items ≡ data_front group.now) }
{
    front.clear();
    append_front(front, group)
}

/// The header of the simple chunk of a group, where this stands before the records.
fn simple_header(front: &[u8], group: &RecordsRef<'_>) -> Header
    requires few { cost_of group.now ≤ 2 ^ 25 }
    requires front { front.now ≡ data_front group.now }
    ensures { IsHeaderOf result (simple_chunk group.now) }
{
    let values = group.values();
    Header::of_parts(
        Kind::Simple.byte(),
        group.len() as u64,
        values.len() as u64,
        front,
        values,
    )
}

/// Appends the values where they are few, and tells whether they are left out.
fn append_few(front: &mut Vec<u8>, values: &[u8]) -> Result<bool, AllocError>
    ensures { IfOk result (λ left. front.new.items ++ (if left then values.now else []) ≡ front.old.items ++ values.now) }
{
    if values.len() > MOST_COPIED {
        return Ok(true);
    }
    front.extend_from_slice(values)?;
    Ok(false)
}

/// Appends a head and its front, or nothing.
fn append_chunk(
    heads: &mut Vec<CodedHead>,
    fronts: &mut Records,
    head: CodedHead,
    front: &[u8],
) -> Result<(), AllocError>
    ensures appends { OnOk result ((heads.new.items ≡ heads.old.items ++ head ∷ []) × (fronts.new ≡ fronts.old ++ front.now ∷ [])) }
    ensures heads_kept { OnErr result (heads.new.items ≡ heads.old.items) }
    ensures fronts_kept { OnErr result (fronts.new ≡ fronts.old) }
{
    heads.reserve(1)?;
    fronts.push(front)?;
    heads.push(head).unwrap();
    Ok(())
}

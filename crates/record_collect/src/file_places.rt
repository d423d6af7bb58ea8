//! Where records stand in the file of them.
ghost use Rattle.std.specs.Prelude.{◌≡◌, ◌+◌, ◌*◌, ◌^◌, ◌≤◌, IfOk, OnOk, length};
ghost use Rattle.block_layout.specs.Layout.{IsBoundary};
ghost use Rattle.simple_chunk.specs.Costs.{cost, cost_of};
ghost use Rattle.record_collect.specs.Batches.{in_turn};
ghost use Rattle.record_collect.specs.FilePlaces.{places_in_file};
ghost use Rattle.record_collect.specs.OpenChunks.{IsSound, PlacesOn, closes, end_of_open, next_place, opened_at, reach, ready_for, with_record};
ghost use Rattle.record_collect.specs.Limits.{limit};

use crate::gathered::Numbers;
use block_layout::chunk_end;
use simple_chunk::{RECORD_COST, Records};
use std::alloc::{AllocError, Global};

/// Where the first chunk of records begins: behind the signature.
const FIRST_CHUNK: u64 = 64;

/// The positions of records in the file that is written of them with this chunk size, from 1 to 2^24, without padding. The
/// records cost at most 2^26. It takes no memory but that of the positions. Own.
#[tactic(auto, using(crate::proofs::PlaceSteps::sound_first, crate::proofs::PlaceSteps::places_on_file))]
pub fn places(alloc: Global, records: &Records, size: u64) -> Result<Numbers, AllocError>
    requires some_size { 1 ≤ size }
    requires size { size ≤ 2 ^ 24 }
    requires most { cost_of records.now ≤ limit }
    ensures { IfOk result (λ places. places ≡ places_in_file records.now size) }
{
    let mut places = Vec::with_capacity(alloc, records.len())?;
    let mut chunk = OpenChunk::at(FIRST_CHUNK);
    chunk.place_all(records, size, &mut places)?;
    Ok(Numbers::of(places))
}

/// The same of the records of batches, one batch behind another. Own.
#[tactic(auto, using(crate::proofs::PlaceSteps::sound_first))]
pub fn places_in_turn(alloc: Global, batches: &[Records], size: u64) -> Result<Numbers, AllocError>
    requires some_size { 1 ≤ size }
    requires size { size ≤ 2 ^ 24 }
    requires most { cost_of (in_turn batches.now) ≤ limit }
    ensures { IfOk result (λ places. places ≡ places_in_file (in_turn batches.now) size) }
{
    let mut places = Vec::new(alloc);
    let mut chunk = OpenChunk::at(FIRST_CHUNK);
    for k in 0..batches.len() {
        chunk.place_all(&batches[k], size, &mut places)?;
    }
    Ok(Numbers::of(places))
}

/// The chunk of some records: where it begins, how many they are, and how many bytes their sizes take and they themselves.
#[derive(Clone, Copy)]
pub(crate) struct OpenChunk {
    begin: u64,
    records: u64,
    sizes: u64,
    values: u64,
}

impl OpenChunk {
    /// No records yet.
    fn at(begin: u64) -> OpenChunk
        ensures { result ≡ opened_at begin }
    {
        OpenChunk {
            begin,
            records: 0,
            sizes: 0,
            values: 0,
        }
    }

    /// Takes records, and puts their positions behind others.
    #[tactic(auto, using(crate::proofs::PlaceSteps::items_more, crate::proofs::PlaceSteps::cost_more))]
    fn place_all(
        &mut self,
        records: &Records,
        size: u64,
        places: &mut Vec<u64>,
    ) -> Result<(), AllocError>
        requires sound { IsSound self.old }
        requires near { reach self.old + 23 * cost_of records.now ≤ 2 ^ 32 }
        ensures places { OnOk result (PlacesOn size self.old places.old.items records.now self.new places.new.items) }
        ensures sound { IsSound self.new }
        ensures near { OnOk result (reach self.new ≤ reach self.old + 23 * cost_of records.now) }
    {
        for i in 0..records.len() {
            places.push(self.place(records.get(i), size))?;
        }
        Ok(())
    }

    /// Takes a record, behind the end where the chunk closes before it, and answers its position.
    fn place(&mut self, rec: &[u8], size: u64) -> u64
        requires sound { IsSound self.old }
        requires near { reach self.old + 23 * cost rec.now ≤ 2 ^ 32 }
        ensures place { result ≡ next_place (ready_for size (length rec.now) self.old) }
        ensures chunk { self.new ≡ with_record (length rec.now) (ready_for size (length rec.now) self.old) }
        ensures sound { IsSound self.new }
        ensures near { reach self.new ≤ reach self.old + 23 * cost rec.now }
    {
        let len = rec.len() as u64;
        *self = self.ready_for(len, size);
        self.push(len)
    }

    /// The chunk that a record of so many bytes goes into.
    #[tactic(auto, using(crate::proofs::PlaceSteps::closes_some, crate::proofs::PlaceSteps::sound_opened))]
    fn ready_for(&self, len: u64, size: u64) -> OpenChunk
        requires sound { IsSound self.now }
        requires near { reach self.now + 23 * (len + 8) ≤ 2 ^ 32 }
        ensures chunk { result ≡ ready_for size len self.now }
        ensures sound { IsSound result }
        ensures near { reach result ≤ reach self.now }
    {
        if self.closes(len, size) {
            OpenChunk::at(self.end())
        } else {
            *self
        }
    }

    /// Whether it closes before a record of so many bytes.
    fn closes(&self, len: u64, size: u64) -> bool
        requires { reach self.now + 23 * (len + 8) ≤ 2 ^ 32 }
        ensures { result ≡ closes size len self.now }
    {
        let cost = self.values + RECORD_COST * self.records;
        self.records != 0 && size < cost + (len + RECORD_COST)
    }

    /// Where it ends. It has a record.
    #[tactic(auto, using(crate::proofs::PlaceSteps::end_near, crate::proofs::PlaceSteps::end_boundary))]
    fn end(&self) -> u64
        requires some { 1 ≤ self.now.records }
        requires sound { IsSound self.now }
        requires near { reach self.now ≤ 2 ^ 32 }
        ensures end { result ≡ end_of_open self.now }
        ensures boundary { IsBoundary result }
        ensures near { result ≤ reach self.now }
    {
        let sizes_len = varint_wire::len(self.sizes) as u64;
        let data_size = 1 + sizes_len + self.sizes + self.values;
        let Some(end) = chunk_end(self.begin, data_size, self.records) else {
            unreachable!()
        };
        end
    }

    /// Takes a record of so many bytes, and answers its position.
    #[tactic(auto, using(crate::proofs::PlaceSteps::sound_more, crate::proofs::PlaceSteps::sizes_small))]
    fn push(&mut self, len: u64) -> u64
        requires sound { IsSound self.old }
        requires near { reach self.old + 23 * (len + 8) ≤ 2 ^ 32 }
        ensures place { result ≡ next_place self.old }
        ensures chunk { self.new ≡ with_record len self.old }
        ensures sound { IsSound self.new }
        ensures near { reach self.new ≡ reach self.old + 23 * (len + 8) }
    {
        let place = self.begin + self.records;
        self.records += 1;
        self.sizes += varint_wire::len(len) as u64;
        self.values += len;
        place
    }
}

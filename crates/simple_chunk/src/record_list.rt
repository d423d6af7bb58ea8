ghost use Rattle.std.specs.Prelude.{◌≡◌, ◌↔◌, ◌+◌, ◌^◌, ◌<◌, ◌≤◌, Some, [], ◌∷◌, ◌++◌, length, slice_get, slice_range, IsTrue, IfOk, OnOk, OnErr};
ghost use Rattle.std.specs.List.{AllByRecursion, concat};
ghost use Rattle.record_values.specs.Bytes.{AreBytes};
ghost use Rattle.simple_chunk.specs.Costs.{cost_of};
ghost use Rattle.simple_chunk.specs.Records.{parts_from, AreHeldEnds};

use crate::records_ref::{RecordsRef, record_at};
use record_values::Bytes;
use std::alloc::{AllocError, Global};
use std::marker::Model;
use std::mem;

/// What a record costs beside its bytes. Own.
pub const RECORD_COST: u64 = 8;

/// How many bytes the place takes where a record ends.
pub(crate) const END_SIZE: u64 = 4;

/// Fewer bytes than these are copied: their room serves the next record then.
const LEAST_MOVED: usize = 1 << 16;

/// A growing list of records, which contracts see as that list. They lie joined in one piece of memory. There are fewer than 2^32
/// of them, of fewer than 2^32 bytes together, so that an end takes 4 bytes and no cost overflows: more count as want of memory.
/// Own.
#[derive(Debug, Drop)]
pub struct Records {
    values: Bytes,
    ends: Vec<u32>,
}

impl Model for Records {
    ghost use Rattle.std.specs.Prelude.{ℕ, List, length};
    ghost use Rattle.simple_chunk.specs.Records.{parts_from, AreHeldEnds};

    ghost Value = { List (List ℕ) };

    ghost view = { λ r. parts_from 0 r.ends.items r.values };

    ghost invariant = { λ r. AreHeldEnds r.ends.items (length r.values) };
}

impl Records {
    /// No records. It takes no memory.
    pub fn new(alloc: Global) -> Records
        ensures { result ≡ [] }
    {
        Records {
            values: Bytes::new(alloc),
            ends: Vec::new(alloc),
        }
    }

    /// The records that end at these places of the values.
    pub(crate) fn joined(values: Bytes, ends: Vec<u32>) -> Records
        requires { AreHeldEnds ends.items (length values) }
        ensures { result ≡ parts_from 0 ends.items values }
    {
        Records { values, ends }
    }

    /// Appends a record. After want of memory the records are as before.
    pub fn push(&mut self, rec: &[u8]) -> Result<(), AllocError>
        ensures appends { OnOk result (self.new ≡ self.old ++ rec.now ∷ []) }
        ensures kept { OnErr result (self.new ≡ self.old) }
    {
        let end = next_end(&self.ends, self.values.as_slice(), rec)?;
        self.ends.reserve(1)?;
        self.values.push_all(rec)?;
        self.ends.push(end).unwrap();
        Ok(())
    }

    /// Appends a record. A long one that is the first, and takes half of its room or more, isn't copied, so `rec` may hold
    /// anything then. After want of memory both are as before.
    pub fn push_from(&mut self, rec: &mut Bytes) -> Result<(), AllocError>
        ensures appends { OnOk result (self.new ≡ self.old ++ rec.old ∷ []) }
        ensures kept { OnErr result (self.new ≡ self.old) }
        ensures rec_kept { OnErr result (rec.new ≡ rec.old) }
    {
        if !self.is_empty() || rec.len() < LEAST_MOVED || rec.len() < rec.room() / 2 {
            return self.push(rec.as_slice());
        }
        let end = next_end(&self.ends, self.values.as_slice(), rec.as_slice())?;
        self.ends.reserve(1)?;
        mem::swap(&mut self.values, rec);
        self.ends.push(end).unwrap();
        Ok(())
    }

    /// Forgets the records, and keeps their room.
    pub fn clear(&mut self)
        ensures { self.new ≡ [] }
    {
        self.values.clear();
        self.ends.clear();
    }

    /// Takes room for so many more bytes and records.
    pub fn reserve(&mut self, bytes: usize, records: usize) -> Result<(), AllocError>
        ensures { self.new ≡ self.old }
    {
        self.values.reserve(bytes)?;
        self.ends.reserve(records)
    }

    /// How many records there are.
    pub fn len(&self) -> usize
        ensures { result ≡ length self.now }
    {
        self.ends.len()
    }

    /// Whether there are no records.
    pub fn is_empty(&self) -> bool
        ensures { IsTrue result ↔ (self.now ≡ []) }
    {
        self.len() == 0
    }

    /// The record of this number, which counts from 0 and is below `len`.
    pub fn get(&self, i: usize) -> &[u8]
        requires { i < length self.now }
        ensures { slice_get self.now i ≡ Some result.now }
    {
        record_at(self.values.as_slice(), 0, &self.ends, i)
    }

    /// All records, where they lie.
    pub fn as_ref(&self) -> RecordsRef<'_>
        ensures { result ≡ self.now }
    {
        RecordsRef::all(self.values.as_slice(), &self.ends)
    }

    /// The records from one number to another, where they lie.
    pub fn range(&self, from: usize, to: usize) -> RecordsRef<'_>
        requires order { from ≤ to }
        requires within { to ≤ length self.now }
        ensures { result ≡ slice_range self.now from to }
    {
        RecordsRef::between(self.values.as_slice(), &self.ends, from, to)
    }

    /// All records joined.
    pub fn values(&self) -> &[u8]
        ensures value { result.now ≡ concat self.now }
        ensures are_bytes { AllByRecursion AreBytes self.now }
    {
        self.values.as_slice()
    }

    /// For how many bytes there is memory, with that for the places where the records end.
    pub(crate) fn room(&self) -> u64 {
        let ends = END_SIZE.saturating_mul(self.ends.capacity() as u64);
        ends.saturating_add(self.values.room() as u64)
    }

    /// What the records cost: for each its length and 8. Own.
    pub fn cost(&self) -> u64
        ensures { result ≡ cost_of self.now }
    {
        self.as_ref().cost()
    }

    /// How many bytes the records take, and the places where they end.
    pub(crate) fn size(&self) -> u64 {
        self.values.as_slice().len() as u64 + END_SIZE * self.ends.len() as u64
    }
}

/// Where a record ends that comes behind these; want of memory where a list can't hold it.
fn next_end(ends: &[u32], values: &[u8], rec: &[u8]) -> Result<u32, AllocError>
    ensures { IfOk result (λ end. (end ≡ length values.now + length rec.now) × (length ends.now + 1 < 2 ^ 32)) }
{
    to_u32(ends.len() + 1)?;
    to_u32(values.len() + rec.len())
}

/// The number in 4 bytes; want of memory where it is 2^32 or more.
pub(crate) fn to_u32(number: usize) -> Result<u32, AllocError>
    ensures { IfOk result (λ same. same ≡ number) }
{
    u32::try_from(number).or(Err(AllocError))
}

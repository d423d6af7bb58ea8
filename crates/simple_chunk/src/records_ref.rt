ghost use Rattle.std.specs.Prelude.{◌≡◌, ◌↔◌, ◌<◌, ◌≤◌, Some, [], length, drop, slice_get, slice_range, IsTrue};
ghost use Rattle.std.specs.List.{AllByRecursion, concat};
ghost use Rattle.record_values.specs.Bytes.{AreBytes};
ghost use Rattle.simple_chunk.specs.Costs.{cost_of};
ghost use Rattle.simple_chunk.specs.Records.{parts_from, record_begin, last_end, AreEnds, AreHeldEnds};

use crate::record_list::RECORD_COST;
use std::marker::Model;

/// Records that lie joined in memory of others, which contracts see as the list of them. Own.
#[derive(Debug, Drop)]
pub struct RecordsRef<'a> {
    /// The bytes up to where the last record ends, with those before the first.
    values: &'a [u8],
    /// Where the first record begins.
    begin: usize,
    ends: &'a [u32],
}

impl<'a> Model for RecordsRef<'a> {
    ghost use Rattle.std.specs.Prelude.{ℕ, List, ◌^◌, ◌<◌, length};
    ghost use Rattle.simple_chunk.specs.Records.{parts_from, AreEnds};

    ghost Value = { List (List ℕ) };

    ghost view = { λ r. parts_from r.begin r.ends.now r.values.now };

    ghost invariant = { λ r. AreEnds r.begin r.ends.now (length r.values.now) × (length r.ends.now < 2 ^ 32) };
}

impl<'a> RecordsRef<'a> {
    /// All records that end at these places of the values.
    pub(crate) fn all(values: &'a [u8], ends: &'a [u32]) -> RecordsRef<'a>
        requires { AreHeldEnds ends.now (length values.now) }
        ensures { result ≡ parts_from 0 ends.now values.now }
    {
        RecordsRef {
            values,
            begin: 0,
            ends,
        }
    }

    /// Of those records the ones from one number to another.
    pub(crate) fn between(
        values: &'a [u8],
        ends: &'a [u32],
        from: usize,
        to: usize,
    ) -> RecordsRef<'a>
        requires held { AreHeldEnds ends.now (length values.now) }
        requires order { from ≤ to }
        requires within { to ≤ length ends.now }
        ensures { result ≡ slice_range (parts_from 0 ends.now values.now) from to }
    {
        let begin = place_before(0, ends, from);
        let end = place_before(0, ends, to);
        RecordsRef {
            values: &values[..end],
            begin,
            ends: &ends[from..to],
        }
    }

    /// How many records there are.
    pub fn len(&self) -> usize
        ensures { result ≡ length self.now }
    {
        self.ends.len()
    }

    /// Whether there are no records.
    pub fn is_empty(&self) -> bool
        ensures { IsTrue result ↔ (self.now ≡ []) }
    {
        self.len() == 0
    }

    /// The record of this number, which counts from 0 and is below `len`.
    pub fn get(&self, i: usize) -> &[u8]
        requires { i < length self.now }
        ensures { slice_get self.now i ≡ Some result.now }
    {
        record_at(self.values, self.begin, self.ends, i)
    }

    /// All records joined.
    pub fn values(&self) -> &[u8]
        ensures value { result.now ≡ concat self.now }
        ensures are_bytes { AllByRecursion AreBytes self.now }
    {
        bytes_from(self.values, self.begin)
    }

    /// What the records cost: for each its length and 8. Own.
    pub fn cost(&self) -> u64
        ensures { result ≡ cost_of self.now }
    {
        self.values().len() as u64 + RECORD_COST * self.ends.len() as u64
    }
}

/// The bytes from a place on.
fn bytes_from(bytes: &[u8], begin: usize) -> &[u8]
    requires { begin ≤ length bytes.now }
    ensures value { result.now ≡ drop begin bytes.now }
    ensures are_bytes { AreBytes result.now }
{
    &bytes[begin..]
}

/// The record of this number, of those that end at these places of the values, of which the first begins at a place.
pub(crate) fn record_at<'a>(values: &'a [u8], begin: usize, ends: &[u32], i: usize) -> &'a [u8]
    requires held { AreEnds begin ends.now (length values.now) }
    requires within { i < length ends.now }
    ensures { slice_get (parts_from begin ends.now values.now) i ≡ Some result.now }
{
    let from = place_before(begin, ends, i);
    let to = ends[i] as usize;
    &values[from..to]
}

/// Where the part of this number begins, of those that end at these places, of which the first begins at a place.
pub(crate) fn place_before(begin: usize, ends: &[u32], i: usize) -> usize
    requires { i ≤ length ends.now }
    ensures { result ≡ record_begin begin ends.now i }
{
    if i == 0 { begin } else { ends[i - 1] as usize }
}

/// Where the last of those parts ends.
pub(crate) fn last_place(begin: usize, ends: &[u32]) -> usize
    ensures { result ≡ last_end begin ends.now }
{
    place_before(begin, ends, ends.len())
}

ghost use Rattle.std.specs.Prelude.{◌≡◌, ◌↔◌, ◌^◌, ◌<◌, Some, [], ◌∷◌, ◌++◌, length, slice_get, IsTrue, OnOk, OnErr};
ghost use Rattle.simple_chunk.specs.Costs.{cost_of};
ghost use Rattle.simple_chunk.specs.RecordGroups.{value_of};

use crate::record_list::{END_SIZE, Records, to_u32};
use crate::records_ref::{RecordsRef, last_place, place_before};
use std::alloc::{AllocError, Global};
use std::marker::Model;

/// Groups of records, and records behind them that are in no group yet. All records lie joined in one piece of memory, with the
/// numbers of records at which groups end. There are fewer than 2^32 groups: more count as want of memory. Own.
#[derive(Debug, Drop)]
pub struct RecordGroups {
    records: Records,
    cuts: Vec<u32>,
}

impl Model for RecordGroups {
    ghost use Rattle.std.specs.Prelude.{length};
    ghost use Rattle.simple_chunk.specs.RecordGroups.{AreHeldCuts, GroupsValue, cut_at};

    ghost Value = { GroupsValue };

    ghost view = { λ g. cut_at g.cuts.items g.records };

    ghost invariant = { λ g. AreHeldCuts g.cuts.items (length g.records) };
}

impl RecordGroups {
    /// No groups and no records. It takes no memory.
    pub fn new(alloc: Global) -> RecordGroups
        ensures { result ≡ value_of [] [] }
    {
        RecordGroups {
            records: Records::new(alloc),
            cuts: Vec::new(alloc),
        }
    }

    /// Appends a record, which is in no group yet. After want of memory all is as before.
    pub fn push_record(&mut self, rec: &[u8]) -> Result<(), AllocError>
        ensures appends { OnOk result (self.new ≡ value_of self.old.groups (self.old.ungrouped ++ rec.now ∷ [])) }
        ensures kept { OnErr result (self.new ≡ self.old) }
    {
        self.records.push(rec)
    }

    /// Makes a group of the records that are in none. After want of memory all is as before.
    pub fn close_group(&mut self) -> Result<(), AllocError>
        ensures closes { OnOk result (self.new ≡ value_of (self.old.groups ++ self.old.ungrouped ∷ []) []) }
        ensures kept { OnErr result (self.new ≡ self.old) }
    {
        to_u32(self.cuts.len() + 1)?;
        let cut = to_u32(self.records.len())?;
        self.cuts.push(cut)?;
        Ok(())
    }

    /// Forgets all, and keeps the memory.
    pub fn clear(&mut self)
        ensures { self.new ≡ value_of [] [] }
    {
        self.records.clear();
        self.cuts.clear();
    }

    /// How many groups there are.
    pub fn len(&self) -> usize
        ensures count { result ≡ length self.now.groups }
        ensures few { result < 2 ^ 32 }
    {
        self.cuts.len()
    }

    /// Whether there are no groups.
    pub fn is_empty(&self) -> bool
        ensures { IsTrue result ↔ (self.now.groups ≡ []) }
    {
        self.len() == 0
    }

    /// The group of this number, which counts from 0 and is below `len`.
    pub fn group(&self, i: usize) -> RecordsRef<'_>
        requires { i < length self.now.groups }
        ensures { slice_get self.now.groups i ≡ Some result }
    {
        let from = place_before(0, &self.cuts, i);
        let to = self.cuts[i] as usize;
        self.records.range(from, to)
    }

    /// How many records are in no group.
    pub fn ungrouped_len(&self) -> usize
        ensures { result ≡ length self.now.ungrouped }
    {
        self.ungrouped().len()
    }

    /// What the records that are in no group cost.
    pub fn ungrouped_cost(&self) -> u64
        ensures { result ≡ cost_of self.now.ungrouped }
    {
        self.ungrouped().cost()
    }

    /// The records that are in no group.
    fn ungrouped(&self) -> RecordsRef<'_>
        ensures { result ≡ self.now.ungrouped }
    {
        let from = last_place(0, &self.cuts);
        self.records.range(from, self.records.len())
    }

    /// How many bytes all records take, and the places where they and the groups end.
    pub fn size(&self) -> u64 {
        let cuts = END_SIZE * self.cuts.len() as u64;
        self.records.size().saturating_add(cuts)
    }
}

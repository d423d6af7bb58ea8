ghost use Rattle.std.specs.Prelude.{◌≡◌, ◌≢◌, ℕ, ◌^◌, ◌≤◌, true, false, None, Ok, List, [], ◌++◌, All, length, OnOk, OnErr};
ghost use Rattle.simple_chunk.specs.Costs.{cost_of};
ghost use Rattle.simple_chunk.specs.RecordGroups.{value_of};
ghost use Rattle.record_group.specs.Groups.{closes_before, groups};
ghost use Rattle.record_group.specs.Groupings.{IsPush, MayLimit, groups_from, new_grouping};

use crate::closing::closes;
use simple_chunk::RecordGroups;
use std::alloc::{AllocError, Global};
use std::marker::Model;
use std::mem;

/// Groups records in the order in which they come, in one piece of memory. The groups that closed stay in it until they are
/// handed over. Own.
#[derive(Drop)]
pub struct GroupBuffer {
    size: u64,
    every: Option<u64>,
    groups: RecordGroups,
}

impl Model for GroupBuffer {
    ghost use Rattle.std.specs.Prelude.{All, ◌^◌, ◌≤◌};
    ghost use Rattle.simple_chunk.specs.Costs.{cost_of};
    ghost use Rattle.record_group.specs.Groupings.{BufferValue, IsOpenGroup};

    ghost Value = { BufferValue };

    ghost view = { λ b. record {
      grouping = record { size = b.size; every = b.every; group = b.groups.ungrouped };
      closed = b.groups.groups;
    } };

    ghost invariant = { λ b. IsOpenGroup b.size b.every b.groups.ungrouped
        × All (λ group. cost_of group ≤ 2 ^ 25) b.groups.groups };
}

impl GroupBuffer {
    /// A buffer of no records yet. A group of several records costs at most `size`, which is from 1 to 2^24, and has at most
    /// `every` records, where that is a number, from 1 to 2^24. It takes no memory.
    #[tactic(auto, unfolding(crate::specs::Groups::groups))]
    pub fn new(alloc: Global, size: u64, every: Option<u64>) -> GroupBuffer
        requires { MayLimit size every }
        ensures grouping { result.grouping ≡ new_grouping size every }
        ensures closed { result.closed ≡ [] }
        ensures all { (records : List (List ℕ))
            → groups_from result.grouping records ≡ groups records size every }
    {
        GroupBuffer {
            size,
            every,
            groups: RecordGroups::new(alloc),
        }
    }

    /// Whether the open group closes before the record, which has at most 2^24 bytes.
    pub fn closes_before(&self, rec: &[u8]) -> bool
        requires { length rec.now ≤ 2 ^ 24 }
        ensures { result ≡ closes_before self.now.grouping.size self.now.grouping.every self.now.grouping.group rec.now }
    {
        closes(
            self.groups.ungrouped_cost(),
            self.groups.ungrouped_len(),
            self.size,
            self.every,
            rec.len(),
        )
    }

    /// Takes the next record, of at most 2^24 bytes, before which no group closes, into the open group. After want of memory
    /// the buffer is as before.
    pub fn append(&mut self, rec: &[u8]) -> Result<(), AllocError>
        requires short { length rec.now ≤ 2 ^ 24 }
        requires open { closes_before self.old.grouping.size self.old.grouping.every self.old.grouping.group rec.now ≡ false }
        ensures push { OnOk result (IsPush self.old.grouping rec.now None self.new.grouping) }
        ensures closed { self.new.closed ≡ self.old.closed }
        ensures kept { OnErr result (self.new ≡ self.old) }
    {
        self.groups.push_record(rec)
    }

    /// Takes the next record, of at most 2^24 bytes, where no group closes before it, and answers whether that is so. Where
    /// one does, and after want of memory, the buffer is as before.
    pub fn push_open(&mut self, rec: &[u8]) -> Result<bool, AllocError>
        requires { length rec.now ≤ 2 ^ 24 }
        ensures push { result ≡ Ok true → IsPush self.old.grouping rec.now None self.new.grouping }
        ensures closes { result ≡ Ok false → closes_before self.old.grouping.size self.old.grouping.every self.old.grouping.group rec.now ≡ true }
        ensures closed { self.new.closed ≡ self.old.closed }
        ensures kept { result ≢ Ok true → self.new ≡ self.old }
    {
        if self.closes_before(rec) {
            return Ok(false);
        }
        self.append(rec)?;
        Ok(true)
    }

    /// Closes the open group, if it has a record. After want of memory the buffer is as before.
    pub fn close(&mut self) -> Result<(), AllocError>
        ensures closed { OnOk result (self.new.closed ≡ self.old.closed ++ groups_from self.old.grouping []) }
        ensures grouping { OnOk result (self.new.grouping ≡ new_grouping self.old.grouping.size self.old.grouping.every) }
        ensures kept { OnErr result (self.new ≡ self.old) }
    {
        if self.groups.ungrouped_len() == 0 {
            return Ok(());
        }
        self.groups.close_group()
    }

    /// Gives the groups that closed, and takes the memory of `groups`, which has no records, for those that come. The records of
    /// the open group go with them, in no group.
    pub fn hand_over(&mut self, groups: &mut RecordGroups)
        requires empty { groups.old ≡ value_of [] [] }
        ensures groups { groups.new.groups ≡ self.old.closed }
        ensures costs { All (λ group. cost_of group ≤ 2 ^ 25) groups.new.groups }
        ensures grouping { self.new.grouping ≡ new_grouping self.old.grouping.size self.old.grouping.every }
        ensures closed { self.new.closed ≡ [] }
    {
        mem::swap(&mut self.groups, groups);
    }

    /// How many groups closed that are not handed over.
    pub fn groups(&self) -> usize
        ensures { result ≡ length self.now.closed }
    {
        self.groups.len()
    }

    /// Whether there is no record in it.
    pub fn is_empty(&self) -> bool
        ensures { result ≡ true → self.now.closed ≡ [] }
    {
        self.groups.is_empty() && self.groups.ungrouped_len() == 0
    }

    /// How many bytes it holds.
    pub fn size(&self) -> u64 {
        self.groups.size()
    }
}

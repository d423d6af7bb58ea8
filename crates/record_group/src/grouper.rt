ghost use Rattle.std.specs.Prelude.{◌≡◌, ◌≢◌, ℕ, ◌^◌, ◌≤◌, ◌↔◌, true, false, None, Ok, List, [], ◌∷◌, ◌++◌, length, IsNone, IfOk, IfSome, OnErr};
ghost use Rattle.std.specs.Option.{option_to_list};
ghost use Rattle.record_group.specs.Groups.{closes_before, groups};
ghost use Rattle.record_group.specs.Groupings.{IsGivenGroup, IsPush, MayLimit, groups_from, new_grouping};

use crate::closing::closes;
use record_values::Bytes;
use simple_chunk::Records;
use std::alloc::{AllocError, Global};
use std::marker::Model;
use std::mem;

/// Groups records in the order in which they come. A record costs its length and 8. A group closes before a record
/// with which it would cost more than the size, or where it has as many records as are wanted. Own.
#[derive(Debug, Drop)]
pub struct Grouper {
    alloc: Global,
    size: u64,
    every: Option<u64>,
    group: Records,
    /// How many bytes and records a group of several takes room for: what the last one needed, and an eighth more.
    room: (usize, usize),
    /// No records, in whose memory the next group opens.
    spare: Records,
    ghost no_records: { spare ≡ [] },
}

impl Model for Grouper {
    ghost use Rattle.record_group.specs.Groupings.{Grouping, IsOpenGroup};

    ghost Value = { Grouping };

    ghost view = { λ g. record { size = g.size; every = g.every; group = g.group } };

    ghost invariant = { λ g. IsOpenGroup g.size g.every g.group };
}

impl Grouper {
    /// A grouper of no records yet. A group of several records costs at most `size`, which is from 1 to 2^24, and has
    /// at most `every` records, where that is a number, from 1 to 2^24. It takes no memory.
    #[tactic(auto, unfolding(crate::specs::Groups::groups))]
    pub fn new(alloc: Global, size: u64, every: Option<u64>) -> Grouper
        requires { MayLimit size every }
        ensures value { result ≡ new_grouping size every }
        ensures all { (records : List (List ℕ))
            → groups_from result records ≡ groups records size every }
    {
        Grouper {
            alloc,
            size,
            every,
            group: Records::new(alloc),
            room: (0, 0),
            spare: Records::new(alloc),
        }
    }

    /// A grouper of no records yet, with the same size and number of records. It takes no memory.
    pub fn emptied(&self) -> Grouper
        ensures { result ≡ new_grouping self.now.size self.now.every }
    {
        Grouper {
            alloc: self.alloc,
            size: self.size,
            every: self.every,
            group: Records::new(self.alloc),
            room: (0, 0),
            spare: Records::new(self.alloc),
        }
    }

    /// As `push_from`, of a copy of the record.
    pub fn push(&mut self, rec: &[u8]) -> Result<Option<Records>, AllocError>
        requires { length rec.now ≤ 2 ^ 24 }
        ensures push { IfOk result (λ given. IsPush self.old rec.now given self.new) }
        ensures rest { IfOk result (λ given. (records : List (List ℕ))
            → groups_from self.old (rec.now ∷ records)
            ≡ option_to_list given ++ groups_from self.new records) }
        ensures given { IfOk result (λ given. IfSome given
            (IsGivenGroup self.old.size self.old.every)) }
        ensures kept { OnErr result (self.new ≡ self.old) }
    {
        let mut copy = Bytes::new(self.alloc);
        copy.push_all(rec)?;
        self.push_from(&mut copy)
    }

    /// Takes the next record, of at most 2^24 bytes, and gives the group that closes before it, if one does. A long record may
    /// open a group without being copied, so `rec` may hold anything then. After want of memory the grouper is as before.
    pub fn push_from(&mut self, rec: &mut Bytes) -> Result<Option<Records>, AllocError>
        requires { length rec.old ≤ 2 ^ 24 }
        ensures push { IfOk result (λ given. IsPush self.old rec.old given self.new) }
        ensures rest { IfOk result (λ given. (records : List (List ℕ))
            → groups_from self.old (rec.old ∷ records)
            ≡ option_to_list given ++ groups_from self.new records) }
        ensures given { IfOk result (λ given. IfSome given
            (IsGivenGroup self.old.size self.old.every)) }
        ensures kept { OnErr result (self.new ≡ self.old) }
    {
        if self.closes_before(rec.as_slice()) {
            let mut next = mem::replace(&mut self.spare, Records::new(self.alloc));
            if rec.len() as u64 > self.size / 2 {
                next.push_from(rec)?;
            } else {
                next.push(rec.as_slice())?;
            }
            self.room = self.room_needed();
            return Ok(Some(mem::replace(&mut self.group, next)));
        }
        self.reserve_room();
        self.group.push_from(rec)?;
        Ok(None)
    }

    /// Takes the next record, of at most 2^24 bytes, where no group closes before it, and answers whether that is so. Where
    /// one does, and after want of memory, the grouper is as before.
    pub fn push_open(&mut self, rec: &[u8]) -> Result<bool, AllocError>
        requires { length rec.now ≤ 2 ^ 24 }
        ensures push { result ≡ Ok true → IsPush self.old rec.now None self.new }
        ensures closes { result ≡ Ok false → closes_before self.old.size self.old.every self.old.group rec.now ≡ true }
        ensures kept { result ≢ Ok true → self.new ≡ self.old }
    {
        if self.closes_before(rec) {
            return Ok(false);
        }
        self.reserve_room();
        self.group.push(rec)?;
        Ok(true)
    }

    /// Takes records whose memory is to serve for the next group. They are forgotten.
    pub fn reuse(&mut self, mut records: Records)
        ensures { self.new ≡ self.old }
    {
        records.clear();
        self.spare = records;
    }

    /// The last group: the records since a group closed, or none where there are no such records. It takes no memory.
    pub fn finish(self) -> Option<Records>
        ensures none { IsNone result ↔ (self.group ≡ []) }
        ensures last { IfSome result (λ group. group ≡ self.group) }
        ensures rest { groups_from self [] ≡ option_to_list result }
        ensures given { IfSome result (IsGivenGroup self.size self.every) }
    {
        if self.group.is_empty() {
            None
        } else {
            Some(self.group)
        }
    }

    /// Takes room before the second record. Where there is none, each record asks for its own.
    fn reserve_room(&mut self)
        ensures { self.new ≡ self.old }
    {
        if self.group.len() == 1 {
            let (bytes, records) = self.room;
            let more = bytes.saturating_sub(self.group.values().len());
            let _ = self.group.reserve(more, records);
        }
    }

    /// How many bytes and records the open group has, and an eighth more, but no more bytes than one of several records has.
    fn room_needed(&self) -> (usize, usize) {
        let bytes = self.group.values().len();
        let records = self.group.len();
        let most = self.size as usize;
        (most.min(bytes + bytes / 8), records + records / 8)
    }

    /// Whether the open group closes before the record.
    fn closes_before(&self, rec: &[u8]) -> bool
        requires { length rec.now ≤ 2 ^ 24 }
        ensures { result ≡ closes_before self.now.size self.now.every self.now.group rec.now }
    {
        closes(
            self.group.cost(),
            self.group.len(),
            self.size,
            self.every,
            rec.len(),
        )
    }
}

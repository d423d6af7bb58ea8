ghost use Rattle.std.specs.Prelude.{◌≡◌, ◌+◌, ◌-◌, ◌*◌, ◌≤◌, ℕ, true, false, Option, Some, None, Ok, Err, IfOk, OnOk, IfSome, List};
ghost use Rattle.record_io.specs.Puts.{Taken, taken_by};
ghost use Rattle.record_io.specs.Calls.{HasSize, OnlyAsks, OnlyCounts};
ghost use Rattle.record_writer.specs.MadeFiles.{nothing_made};
ghost use Rattle.damage_skip.specs.Pieces.{Piece};
ghost use Rattle.damage_skip.specs.Policies.{IsTest, IsAllowedRegion, IsRefusedRegion};
ghost use Rattle.damage_skip.specs.Steps.{IsOnward};
ghost use Rattle.damage_skip.specs.declared.regions.Region.{Region};
ghost use Rattle.repair_copy.specs.Copies.{HasCopied, HasSkipped};
ghost use Rattle.repair_copy.specs.CopyEnds.{AnswersWalk, CopiesWalk, HasPutOut, IsCopyWithin, SkipsUpTo};
ghost use Rattle.repair_copy.specs.KnownRepairs.{RepairsKnown};
ghost use Rattle.repair_copy.specs.Repairs.{AnswersWithin, IsRepairWithin, Skips, Repairs};

use crate::copying::Copied;
use damage_skip::{Policy, Region, WalkEnd, Walker};
use record_io::{Failed, Sink, Store, Totals};
use std::alloc::Global;

/// What a repair made and passed over. Own.
#[derive(Clone, Copy, Debug, PartialEq, Eq)]
pub struct Repaired {
    /// What is counted over the made file.
    pub totals: Totals,
    /// How many regions were passed over.
    pub regions: u64,
}

/// Why a repair ended before the file did. Own.
#[derive(Clone, Copy, Debug, PartialEq, Eq)]
pub enum RepairEnd {
    /// The policy doesn't allow to pass over a region.
    Stopped(Region),
    /// The store failed.
    Store,
    /// What the repaired file is written to failed.
    Made,
    /// What the regions are told to failed.
    Notes,
    /// There was not enough memory.
    Memory,
}

impl From<Failed> for RepairEnd {
    ghost use Rattle.repair_copy.specs.declared.repairs.RepairEnd.TheVariants.{Made};

    ghost from_gives = { λ _ end. end ≡ Made };

    fn from(_: Failed) -> RepairEnd {
        RepairEnd::Made
    }
}

/// Repairs a file of so many bytes: makes the file of its intact chunks, and tells each region of it that is passed over in
/// a line `skipped`, where it begins and ends, and why. Compressed and transposed chunks are copied unread.
///
/// The file's size was told, and is at most 2^60. Of the repaired file up to 65,536 bytes gather before they are put.
/// What is held goes out before a line is put, and however the work ends.
///
/// Of a damaged file, in which each change shows by a hash, what is made has, behind the signature, the simple, metadata and
/// unread chunks of the undamaged file that are reached and untouched, in order. What is lost behind a changed header ends at or
/// before each intact block header from its chunk's begin on. Of the front of a file of chunks, it has those that the front has
/// whole, and one region is told for a chunk that is cut.
///
/// However the work ends, what was taken of the store is accounted for by the pieces up to some place and the one there, and no
/// region before that place is one that the policy doesn't allow to pass over.
///
/// # Errors
///
/// `Stopped` exactly where the next region is one that the policy doesn't allow to pass over: the file of all chunks before
/// it is made, and the lines of the regions before it are put. `Store` only where the store failed, and `Memory` only where
/// a chunk is to be read: what was put is that of the events up to some place, nothing where there is none, not even the
/// signature, and a front where `made` failed too. What was taken of the store is accounted for by the pieces up to that place
/// and the one there. `Made` and `Notes` only where that failed: what comes before the bytes that failed was put, and a front of
/// these and not all. Own.
pub fn repair<S: Store, F: Fn(&Region) -> bool + Drop, M: Sink, E: Sink>(
    alloc: Global,
    store: &mut S,
    size: u64,
    policy: Policy<F>,
    made: &mut M,
    notes: &mut E,
) -> Result<Repaired, RepairEnd>
    requires sized { HasSize (S.told store.old) size }
    requires test { IsTest F.Fn policy.test }
    ensures repairs { IfSome (S.bytes store.old) (Repairs F.Fn policy.test result (M.faults made.old) (M.faults made.new)
        (taken_by (M.taken made.old) None (E.taken notes.old)) (taken_by (M.taken made.new) None (E.taken notes.new))
        (S.handed store.new - S.handed store.old)) }
    ensures known { IfSome (S.bytes store.old) (RepairsKnown F.Fn policy.test result (M.faults made.old) (M.faults made.new)
        (taken_by (M.taken made.old) None (E.taken notes.old)) (taken_by (M.taken made.new) None (E.taken notes.new))) }
    ensures skips { Skips F.Fn policy.test result (E.taken notes.old) (E.taken notes.new) }
    ensures quiet { IfOk result (λ repaired. repaired.regions ≡ 0 → notes.new ≡ notes.old) }
    ensures bounds { AnswersWithin size result }
    ensures store { OnlyAsks S.bytes S.told S.name S.faults (result ≡ Err RepairEnd.Store) store.old store.new }
    ensures made { OnlyCounts M.lent M.faults (result ≡ Err RepairEnd.Made) made.old made.new }
    ensures notes { OnlyCounts E.lent E.faults (result ≡ Err RepairEnd.Notes) notes.old notes.new }
{
    let mut copied = Copied::new();
    let ended = copy_walk(alloc, store, size, policy, &mut copied, made, notes)?;
    end_repair(copied, ended, made)
}

/// Copies the events of a file of so many bytes, and tells how their walk ended: `None` at the file's end.
fn copy_walk<S: Store, F: Fn(&Region) -> bool + Drop, M: Sink, E: Sink>(
    alloc: Global,
    store: &mut S,
    size: u64,
    policy: Policy<F>,
    copied: &mut Copied,
    made: &mut M,
    notes: &mut E,
) -> Result<Option<WalkEnd>, RepairEnd>
    requires sized { HasSize (S.told store.old) size }
    requires test { IsTest F.Fn policy.test }
    requires none_copied { (copied.old.file ≡ nothing_made) × (copied.old.begun ≡ false) × (copied.old.regions ≡ 0) }
    ensures copies { IfSome (S.bytes store.old) (CopiesWalk F.Fn policy.test result copied.new
        (taken_by (M.taken made.old) None (E.taken notes.old)) (taken_by (M.taken made.new) None (E.taken notes.new))
        (S.handed store.new - S.handed store.old)) }
    ensures skipped { OnOk result (HasSkipped F.Fn policy.test copied.new.regions (E.taken notes.old) (E.taken notes.new)) }
    ensures skips { (end : RepairEnd) → result ≡ Err end
        → SkipsUpTo F.Fn policy.test end (E.taken notes.old) (E.taken notes.new) }
    ensures stop { (region : Region) → result ≡ Ok (Some (WalkEnd.Stopped region))
        → IsOnward size region.begin region.end × IsRefusedRegion F.Fn policy.test region }
    ensures within { OnOk result (IsCopyWithin size copied.new notes.old notes.new) }
    ensures store { OnlyAsks S.bytes S.told S.name S.faults (result ≡ Ok (Some WalkEnd.Store)) store.old store.new }
    ensures made { OnlyCounts M.lent M.faults (result ≡ Err RepairEnd.Made) made.old made.new }
    ensures notes { OnlyCounts E.lent E.faults (result ≡ Err RepairEnd.Notes) notes.old notes.new }
{
    let mut walker = Walker::new(size, true, policy).judging();
    loop {
        match walker.next(alloc, store) {
            Ok(Some(event)) => copied.put(&event, made, notes)?,
            Ok(None) => return Ok(None),
            Err(end) => return Ok(Some(end)),
        }
    }
}

/// Puts out what is held where a walk ended, and tells how the repair does.
fn end_repair<M: Sink>(
    mut copied: Copied,
    ended: Option<WalkEnd>,
    made: &mut M,
) -> Result<Repaired, RepairEnd>
    requires unbegun { copied.begun ≡ false → copied.file ≡ nothing_made }
    ensures answer { AnswersWalk ended result }
    ensures put { (before : Taken) (notes : Option (List ℕ)) (events : List Piece)
        → HasCopied before (taken_by (M.taken made.old) None notes) copied events
        → HasPutOut result (M.faults made.old) (M.faults made.new) before (taken_by (M.taken made.new) None notes) events }
    ensures regions { IfOk result (λ repaired. repaired.regions ≡ copied.regions) }
    ensures bounds { (size : ℕ) → copied.file.place ≤ 64 + 2 * size → copied.regions ≤ size → IfOk result (IsRepairWithin size) }
    ensures made { OnlyCounts M.lent M.faults (result ≡ Err RepairEnd.Made) made.old made.new }
{
    match ended {
        None => {
            copied.finish(made)?;
            Ok(Repaired {
                totals: copied.file.totals(),
                regions: copied.regions,
            })
        }
        Some(WalkEnd::Stopped(region)) => {
            copied.finish(made)?;
            Err(RepairEnd::Stopped(region))
        }
        Some(WalkEnd::Store) => {
            copied.break_off(made);
            Err(RepairEnd::Store)
        }
        Some(WalkEnd::Memory) => {
            copied.break_off(made);
            Err(RepairEnd::Memory)
        }
    }
}

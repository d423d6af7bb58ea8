ghost use Rattle.std.specs.Prelude.{◌≡◌, ◌≢◌, ◌^◌, ◌<◌, ◌≤◌, ◌⊎◌, ◌↔◌, true, [], Some, None, Err, IfSome, OnOk, length};
ghost use Rattle.record_io.specs.Calls.{OnlyCounts};
ghost use Rattle.damage_skip.specs.Bounds.{MaySkip};
ghost use Rattle.damage_skip.specs.declared.regions.Region.{Region};
ghost use Rattle.repair_copy.specs.RelaidFiles.{relaid};
ghost use Rattle.riegeli_c.specs.Reasons.{reason_number};
ghost use Rattle.riegeli_c.specs.Repairing.{TakesLess};
ghost use Rattle.riegeli_c.specs.Repairs.{GivesRepair, StopsRepair, TakesRepair, MeasuresRepair, ExceedsRoom, LoadsWalkedChunk, told_lines};

use crate::faults::reason_number;
use command_frame::MOST_FILE_BYTES;
use damage_skip::{Policy, Region, may_skip};
use record_io::Sink;
use repair_copy::{RepairEnd, Repaired, repair};
use slice_io::{SliceSink, SliceStore, VoidSink};
use std::alloc::Global;

/// How many bytes a line takes at most that tells a region.
const LINE: u64 = 64;

/// What a repair made.
#[repr(C)]
#[derive(Clone, Copy, Debug, Drop)]
pub struct RepairTold {
    /// How many bytes the repaired file has.
    pub bytes: u64,
    /// How many bytes the lines have that tell of regions.
    pub lines: u64,
}

/// Bytes of a file that are passed over.
#[repr(C)]
#[derive(Clone, Copy, Debug, Drop)]
pub struct RegionTold {
    /// Where they begin.
    pub begin: u64,
    /// Where they end.
    pub end: u64,
    /// The number of the reason.
    pub why: u32,
}

/// Repairs a file: makes the file of its intact chunks in `room`, and tells each region that is
/// passed over by a line in `lines`, as `skipped BEGIN END REASON`. Compressed and transposed
/// chunks are copied unread.
///
/// 0: the file is made; `repaired` says how many bytes it has, and how many its lines have. 1:
/// `region` has more than `most` bytes; the file of what comes before is made. 2: the file has more
/// than 2^60 bytes. 3: there is too little memory. 4: there is too little room; what `repaired`
/// says is enough, whatever `most` is.
#[unsafe(no_mangle)]
pub extern "C" fn riegeli_repair(
    alloc: Global,
    file: &[u8],
    most: u64,
    repaired: &mut RepairTold,
    room: &mut [u8],
    lines: &mut [u8],
    region: &mut RegionTold,
) -> u32
    ensures answers { result ≤ 4 }
    ensures given { result ≡ 0 → GivesRepair file.now most None repaired.new room.new lines.new }
    ensures stopped { result ≡ 1 → StopsRepair file.now most region.new repaired.new room.new lines.new }
    ensures within { (result ≡ 0) ⊎ (result ≡ 1)
        → (repaired.new.bytes ≤ length room.old) × (repaired.new.lines ≤ length lines.old) }
    ensures too_long { (result ≡ 2) ↔ (2 ^ 60 < length file.now) }
    ensures memory { result ≡ 3 → LoadsWalkedChunk (MaySkip (Some most)) file.now
        ⊎ (LoadsWalkedChunk (MaySkip None) file.now
        × ExceedsRoom file.now most (length room.old) (length lines.old)) }
    ensures room { result ≡ 4 → MeasuresRepair file.now repaired.new }
    ensures too_small { result ≡ 4 → ExceedsRoom file.now most (length room.old) (length lines.old) }
    ensures enough { (told : RepairTold) → MeasuresRepair file.now told
        → told.bytes ≤ length room.old → told.lines ≤ length lines.old → result ≢ 4 }
{
    if file.len() as u64 > MOST_FILE_BYTES {
        return 2;
    }
    let mut made = SliceSink::new(room);
    let mut notes = SliceSink::new(lines);
    let ended = repair_within(alloc, file, most, &mut made, &mut notes);
    *repaired = RepairTold {
        bytes: made.used() as u64,
        lines: notes.used() as u64,
    };
    match ended {
        Ok(_) => 0,
        Err(RepairEnd::Stopped(refused)) => {
            *region = region_told(&refused);
            1
        }
        Err(RepairEnd::Memory) => 3,
        Err(RepairEnd::Made | RepairEnd::Notes) => match room_needed(alloc, file) {
            Some(needed) => {
                *repaired = needed;
                4
            }
            None => 3,
        },
        Err(RepairEnd::Store) => unreachable!(),
    }
}

/// Repairs a file up to the first region of more than so many bytes.
fn repair_within<M: Sink, E: Sink>(
    alloc: Global,
    file: &[u8],
    most: u64,
    made: &mut M,
    notes: &mut E,
) -> Result<Repaired, RepairEnd>
    requires short { length file.now ≤ 2 ^ 60 }
    requires made { M.taken made.old ≡ Some [] }
    requires notes { E.taken notes.old ≡ Some [] }
    ensures whole { OnOk result (TakesRepair file.now most None (M.taken made.new) (E.taken notes.new)) }
    ensures stopped { (region : Region) → result ≡ Err (RepairEnd.Stopped region)
        → TakesRepair file.now most (Some region) (M.taken made.new) (E.taken notes.new) }
    ensures made_less { result ≡ Err RepairEnd.Made → TakesLess relaid file.now most (M.taken made.new) }
    ensures notes_less { result ≡ Err RepairEnd.Notes
        → TakesLess told_lines file.now most (E.taken notes.new) }
    ensures not_store { ¬ (result ≡ Err RepairEnd.Store) }
    ensures memory { result ≡ Err RepairEnd.Memory → LoadsWalkedChunk (MaySkip (Some most)) file.now }
    ensures made { OnlyCounts M.lent M.faults (result ≡ Err RepairEnd.Made) made.old made.new }
    ensures notes { OnlyCounts E.lent E.faults (result ≡ Err RepairEnd.Notes) notes.old notes.new }
{
    let mut store = SliceStore::new(file);
    let policy = Policy::new(|region: &Region| may_skip(Some(most), region));
    repair(alloc, &mut store, file.len() as u64, policy, made, notes)
}

/// How much room the repair of a file takes where no region is refused; `None` where there is too
/// little memory.
fn room_needed(alloc: Global, file: &[u8]) -> Option<RepairTold>
    requires { length file.now ≤ 2 ^ 60 }
    ensures measures { IfSome result (MeasuresRepair file.now) }
    ensures memory { result ≡ None → LoadsWalkedChunk (MaySkip None) file.now }
{
    let mut store = SliceStore::new(file);
    let policy = Policy::new(
        |_region: &Region| -> bool
            ensures { result ≡ true }
        { true },
    );
    match repair(
        alloc,
        &mut store,
        file.len() as u64,
        policy,
        &mut VoidSink,
        &mut VoidSink,
    ) {
        Ok(repaired) => Some(RepairTold {
            bytes: repaired.totals.bytes,
            lines: repaired.regions.saturating_mul(LINE),
        }),
        Err(RepairEnd::Memory) => None,
        Err(RepairEnd::Stopped(_)) => unreachable!(),
        Err(RepairEnd::Store) => unreachable!(),
        Err(RepairEnd::Made) => unreachable!(),
        Err(RepairEnd::Notes) => unreachable!(),
    }
}

/// A region as it is told.
fn region_told(region: &Region) -> RegionTold
    ensures begin { result.begin ≡ region.now.begin }
    ensures end { result.end ≡ region.now.end }
    ensures why { result.why ≡ reason_number region.now.why }
{
    RegionTold {
        begin: region.begin,
        end: region.end,
        why: reason_number(region.why),
    }
}

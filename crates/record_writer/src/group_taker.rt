ghost use Rattle.std.specs.Option.{option_to_list};
ghost use Rattle.std.specs.Prelude.{◌≡◌, ℕ, ◌+◌, ◌^◌, ◌≤◌, true, false, Ok, Option, List, [], ◌++◌, length, OnOk, OnErr};
ghost use Rattle.meta_chunk.specs.Files.{end_of_chunks};
ghost use Rattle.record_group.specs.Groups.{closes_before};
ghost use Rattle.record_group.specs.Groupings.{IsPush};
ghost use Rattle.record_writer.specs.FeedSteps.{ReadsNothing};
ghost use Rattle.record_writer.specs.MadeFiles.{AreGiven, chunks_of_groups, reach_of};
ghost use Rattle.record_writer.specs.Windows.{HasTakenNone, TakesGroups, open_after, with_record};
ghost use Rattle.record_writer.specs.OptionLimits.{AreInLimits};

use crate::cut_off::CutOff;
use crate::feed::{FeedEnd, RecordFeed, Stop};
use crate::options::WriteOptions;
use crate::pace::Pace;
use crate::window::Window;
use record_group::GroupBuffer;
use record_io::Bytes;
use std::alloc::{AllocError, Global};
use std::marker::Model;

/// A window of so many bytes is full while the work on those before is done.
const LEAST: u64 = 3 << 19;

/// A window of so many bytes is full also while that work goes on, where there are several workers. With one it is full with
/// `LEAST` bytes then too, so that it takes little memory.
const MOST: u64 = 1 << 22;

/// How many groups for each worker fill the first window, so that the workers begin soon.
const FIRST_GROUPS: usize = 4;

/// How many groups fill a later window, of whatever size.
const MOST_GROUPS: usize = 1 << 16;

/// How much fills the next window: so many groups of whatever size, or so many bytes while the work on those before goes on.
#[derive(Clone, Copy)]
struct Capacity {
    groups: usize,
    bytes: u64,
}

/// How much of a feed was taken. Own.
#[derive(Clone, Copy, Debug, PartialEq, Eq)]
pub(crate) enum FeedPart {
    /// A window of its groups.
    Window,
    /// All of its records, and the stop behind them.
    All(Option<Stop>),
}

/// Takes the groups of a feed's records, window by window. Contracts see the open group, and what groups are limited to: between
/// windows no other is held. Own.
#[derive(Drop)]
pub(crate) struct GroupTaker {
    alloc: Global,
    buffer: GroupBuffer,
    /// The record that was pulled last.
    rec: Bytes,
    capacity: Capacity,
}

impl Model for GroupTaker {
    ghost use Rattle.std.specs.Prelude.{◌≡◌, []};
    ghost use Rattle.record_group.specs.Groupings.{Grouping};

    ghost Value = { Grouping };

    ghost view = { λ t. t.buffer.grouping };

    ghost invariant = { λ t. t.buffer.closed ≡ [] };
}

impl GroupTaker {
    /// One that has taken no record. It takes no memory.
    pub fn new(alloc: Global, options: &WriteOptions) -> GroupTaker
        requires in_limits { AreInLimits options.now }
        ensures { HasTakenNone result options.now }
    {
        GroupTaker {
            alloc,
            buffer: GroupBuffer::new(alloc, options.size, options.every),
            rec: Bytes::new(alloc),
            capacity: Capacity {
                groups: options.workers as usize * FIRST_GROUPS,
                bytes: if options.workers == 1 { LEAST } else { MOST },
            },
        }
    }

    /// Takes the feed's next records, and hands each group that closes to an empty window, until that is full. At the end of the
    /// feed, also where that is a stop, the last group is in it.
    pub fn take_groups<L: RecordFeed>(
        &mut self,
        feed: &mut L,
        window: &mut Window,
        pace: &Pace,
    ) -> Result<FeedPart, CutOff>
        requires feed_going { L.going feed.old ≡ true }
        requires empty { window.old.groups ≡ [] }
        ensures { TakesGroups L.rest L.bound L.going L.origin L.faults feed.old feed.new self.old self.new window.new.groups result }
    {
        let part = fill(
            self.alloc,
            &mut self.buffer,
            &mut self.rec,
            feed,
            self.capacity,
            pace,
        );
        window.fill(&mut self.buffer);
        self.capacity.groups = MOST_GROUPS;
        if part == Ok(FeedPart::Window) {
            self.buffer.append(self.rec.as_slice())?;
        }
        part
    }
}

/// Takes the feed's next records into an empty buffer, until a group closes with which a window is full: the record before which
/// it closed is left in `rec`. At the end of the feed, also where that is a stop, the last group closes.
fn fill<L: RecordFeed>(
    alloc: Global,
    buffer: &mut GroupBuffer,
    rec: &mut Bytes,
    feed: &mut L,
    capacity: Capacity,
    pace: &Pace,
) -> Result<FeedPart, CutOff>
    requires feed_going { L.going feed.old ≡ true }
    requires empty { buffer.old.closed ≡ [] }
    ensures taken { TakesGroups L.rest L.bound L.going L.origin L.faults feed.old feed.new buffer.old.grouping
        (open_after result buffer.new.grouping rec.new) buffer.new.closed result }
    ensures none_open { OnOk result (buffer.new.grouping.group ≡ []) }
    ensures short { result ≡ Ok FeedPart.Window → length rec.new ≤ 2 ^ 24 }
{
    let stop = loop {
        take_held(buffer, feed)?;
        match feed.pull(alloc, rec) {
            Ok(true) => {}
            Ok(false) => break None,
            Err(FeedEnd::Stop(stop)) => break Some(stop),
            Err(FeedEnd::Failed) => return Err(CutOff::Input),
            Err(FeedEnd::Memory) => return Err(CutOff::Memory),
        }
        if close_before(buffer, rec.as_slice())? && is_enough(buffer, capacity, pace) {
            return Ok(FeedPart::Window);
        }
        buffer.append(rec.as_slice())?;
    };
    buffer.close()?;
    Ok(FeedPart::All(stop))
}

/// Takes the records that the feed holds, up to one before which a group closes.
fn take_held<L: RecordFeed>(buffer: &mut GroupBuffer, feed: &mut L) -> Result<(), AllocError>
    ensures taken { AreGiven (L.rest feed.old) (L.rest feed.new) buffer.old.grouping buffer.new.grouping [] }
    ensures closed { buffer.new.closed ≡ buffer.old.closed }
    ensures lowers { L.bound feed.new ≤ L.bound feed.old }
    ensures in_reach { (place : ℕ) → reach_of place buffer.new.grouping (L.bound feed.new) ≤ reach_of place buffer.old.grouping (L.bound feed.old) }
    ensures keeps { ReadsNothing L.going L.origin L.faults feed.old feed.new }
{
    while feed.push_held(buffer)? {}
    Ok(())
}

/// Closes the open group where that closes before the record, and answers whether it does. The record then has its place in the
/// open group. After want of memory the buffer is as before.
fn close_before(buffer: &mut GroupBuffer, rec: &[u8]) -> Result<bool, AllocError>
    requires short { length rec.now ≤ 2 ^ 24 }
    ensures pushes { OnOk result ((given : Option (List (List ℕ)))
        × IsPush buffer.old.grouping rec.now given (with_record buffer.new.grouping rec.now)
        × (buffer.new.closed ≡ buffer.old.closed ++ option_to_list given)) }
    ensures goes_in { OnOk result (closes_before buffer.new.grouping.size buffer.new.grouping.every buffer.new.grouping.group rec.now ≡ false) }
    ensures none_open { result ≡ Ok true → buffer.new.grouping.group ≡ [] }
    ensures in_reach { OnOk result ((place : ℕ) → reach_of (end_of_chunks place (chunks_of_groups buffer.new.closed)) (with_record buffer.new.grouping rec.now) 0
        ≤ reach_of (end_of_chunks place (chunks_of_groups buffer.old.closed)) buffer.old.grouping (length rec.now + 1)) }
    ensures kept { OnErr result (buffer.new ≡ buffer.old) }
{
    if !buffer.closes_before(rec) {
        return Ok(false);
    }
    buffer.close()?;
    Ok(true)
}

/// Whether a window is full with the groups that closed.
fn is_enough(buffer: &GroupBuffer, capacity: Capacity, pace: &Pace) -> bool {
    let bytes = if pace.is_behind() {
        capacity.bytes
    } else {
        LEAST
    };
    buffer.groups() >= capacity.groups || buffer.size() >= bytes || pace.has_failed()
}

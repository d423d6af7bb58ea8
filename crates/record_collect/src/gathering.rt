//! Files whose records are gathered, by threads.
ghost use Rattle.std.specs.Prelude.{◌≡◌, ◌≤◌, IfErr, IfOk, OnOk, Ok, Err, length, map, vec_len};
ghost use Rattle.std.specs.List.{AllByRecursion};
ghost use Rattle.record_io.specs.ManyStores.{AreOnlyAsked, IfAllTell};
ghost use Rattle.record_collect.specs.declared.gathering.StoppedAt.{StoppedAt};
ghost use Rattle.record_collect.specs.Ends.{ArePassesOf, IsGatheredBy, IsGatheredOf, IsInOneList, TellsFirst};
ghost use Rattle.record_collect.specs.Takings.{AreSized, BelongsWhere, IsFirstStopped, IsRead};

use crate::batches::Batches;
use crate::collector::{Collector, Pass};
use crate::feeding::Fed;
use crate::gathered::Gathered;
use crate::slots::feed_into;
use chunk_reader::{Fault, ReadEnd};
use record_io::Store;
use std::alloc::{AllocError, Global};
use std::thread::Threads;

/// Why files were not gathered. Own.
#[derive(Clone, Copy, Debug, PartialEq, Eq)]
pub enum GatherEnd {
    /// A file is refused.
    Refused {
        /// Which of the files, by its number from 0.
        index: u64,
        /// Its fault.
        fault: Fault,
    },
    /// A record has more than 2^24 bytes, or the records cost more than 2^26 together: for each its length and 8.
    TooMuch,
    /// A store failed.
    Store,
    /// There was not enough memory.
    Memory,
}

/// A file that was not read to its end, by its number from 0, and why. Own.
#[derive(Clone, Copy)]
struct StoppedAt {
    index: u64,
    end: ReadEnd,
}

impl From<StoppedAt> for GatherEnd {
    ghost use Rattle.record_collect.specs.Ends.{gather_end_of};

    ghost from_gives = { λ stopped end. end ≡ gather_end_of stopped.index stopped.end };

    fn from(stopped: StoppedAt) -> GatherEnd {
        let index = stopped.index;
        match stopped.end {
            ReadEnd::Refused(fault) => GatherEnd::Refused { index, fault },
            ReadEnd::Store => GatherEnd::Store,
            ReadEnd::Memory => GatherEnd::Memory,
        }
    }
}

/// Gathers the records of 1 to 16 files into one list, as `gather_batches` does. Own.
///
/// # Errors
///
/// Those of `gather_batches`.
pub fn gather<R: Threads + Sync, S: Store + Send>(
    rt: &R,
    alloc: Global,
    stores: &mut [S],
    sizes: &[u64],
) -> Result<Gathered, GatherEnd>
    requires many { (1 ≤ length stores.old) × (length stores.old ≤ 16) }
    requires sized { AreSized S.told stores.old sizes.now }
    ensures many { IfOk result (λ made. length made.numbers ≡ length stores.old) }
    ensures gathered { IfAllTell S.bytes stores.old (IsGatheredOf result) }
    ensures complete { IfAllTell S.bytes stores.old (TellsFirst result) }
    ensures stores { AreOnlyAsked S.bytes S.told S.name S.faults (result ≡ Err GatherEnd.Store) stores.old stores.new }
{
    match gather_batches(rt, alloc, stores, sizes) {
        Ok(batches) => in_one_list(alloc, &batches),
        Err(end) => Err(end),
    }
}

/// Gathered records in one list.
fn in_one_list(alloc: Global, batches: &Batches) -> Result<Gathered, GatherEnd>
    ensures { IsInOneList result batches.now }
{
    match Gathered::of_batches(alloc, batches) {
        Ok(made) => Ok(made),
        Err(AllocError) => Err(GatherEnd::Memory),
    }
}

/// Gathers the records of 1 to 16 files by threads: one reads each store to its end or its fault, strictly, and puts the records
/// of each chunk into one collector, so that what is held of all costs no more than 2^26. They stand in the order of their
/// receipts. `sizes` are those that the stores told, in their order, each at most 2^60. Own.
///
/// # Errors
///
/// `Refused` exactly with the fault of the first file that has one. `TooMuch` exactly where no file has a fault, and a record
/// has more than 2^24 bytes or the records cost more than 2^26 together. `Store` only where a store failed.
pub fn gather_batches<R: Threads + Sync, S: Store + Send>(
    rt: &R,
    alloc: Global,
    stores: &mut [S],
    sizes: &[u64],
) -> Result<Batches, GatherEnd>
    requires many { (1 ≤ length stores.old) × (length stores.old ≤ 16) }
    requires sized { AreSized S.told stores.old sizes.now }
    ensures many { IfOk result (λ made. length made.numbers ≡ length stores.old) }
    ensures gathered { IfAllTell S.bytes stores.old (IsGatheredOf result) }
    ensures complete { IfAllTell S.bytes stores.old (TellsFirst result) }
    ensures stores { AreOnlyAsked S.bytes S.told S.name S.faults (result ≡ Err GatherEnd.Store) stores.old stores.new }
{
    let Ok((collector, passes)) = Collector::new(alloc, stores.len() as u32) else {
        return Err(GatherEnd::Memory);
    };
    let Ok(mut fed) = ready_fed(alloc, passes) else {
        return Err(GatherEnd::Memory);
    };
    feed_into(rt, sizes, &collector, &mut fed, stores);
    all_gathered(alloc, collector, fed)
}

/// What was gathered of files, where every one was read to its end and the records are not too much.
fn all_gathered(
    alloc: Global,
    collector: Collector,
    fed: Vec<Result<Fed, ReadEnd>>,
) -> Result<Batches, GatherEnd>
    requires count { vec_len fed ≡ collector.passes }
    requires belongs { AllByRecursion (λ f. IfOk f (BelongsWhere collector)) fed.items }
    ensures { IsGatheredBy result fed.items }
{
    let (passes, are_whole) = passes_of(alloc, fed)?;
    match collector.finish_batches(alloc, passes) {
        Ok(made) if are_whole => Ok(made),
        Ok(_) => Err(GatherEnd::TooMuch),
        Err(AllocError) => Err(GatherEnd::Memory),
    }
}

/// The passes of files that were all read to their ends and have no record that is too long, and whether none of the passes
/// ended.
fn passes_of(alloc: Global, fed: Vec<Result<Fed, ReadEnd>>) -> Result<(Vec<Pass>, bool), GatherEnd>
    ensures passes { IfOk result (λ r. ArePassesOf fed.items r.0.items r.1) }
    ensures ended { IfErr result (λ end. IsGatheredBy (Err end) fed.items) }
{
    check_all_read(&fed)?;
    let Ok(mut passes) = Vec::with_capacity(alloc, fed.len()) else {
        return Err(GatherEnd::Memory);
    };
    let mut are_whole = true;
    for one in fed {
        match one {
            Ok(Fed::Whole(pass)) => passes.push_reserved(pass),
            Ok(Fed::Full(pass)) => {
                passes.push_reserved(pass);
                are_whole = false;
            }
            Ok(Fed::TooLong) => return Err(GatherEnd::TooMuch),
            Err(_) => unreachable!(),
        }
    }
    Ok((passes, are_whole))
}

/// Each pass as what is fed before a file is read.
fn ready_fed(alloc: Global, passes: Vec<Pass>) -> Result<Vec<Result<Fed, ReadEnd>>, AllocError>
    ensures { IfOk result (λ fed. fed.items ≡ map (λ pass. Ok (Fed.Whole pass)) passes.items) }
{
    let mut fed = Vec::with_capacity(alloc, passes.len())?;
    for pass in passes {
        fed.push_reserved(Ok(Fed::Whole(pass)));
    }
    Ok(fed)
}

/// Stops at the first file that was not read to its end.
fn check_all_read(fed: &[Result<Fed, ReadEnd>]) -> Result<(), StoppedAt>
    ensures read { OnOk result (AllByRecursion IsRead fed.now) }
    ensures stopped { (stopped : StoppedAt) → result ≡ Err stopped → IsFirstStopped fed.now stopped.index stopped.end }
{
    for index in 0..fed.len() {
        if let Err(end) = fed[index] {
            return Err(StoppedAt {
                index: index as u64,
                end,
            });
        }
    }
    Ok(())
}

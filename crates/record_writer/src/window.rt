//! Groups of records whose chunks are encoded, and then put, together.
ghost use Rattle.std.specs.Prelude.{◌≡◌, ◌^◌, ◌<◌, ◌≤◌, true, false, [], All, length, map, IfOk, IsErr, OnOk};
ghost use Rattle.chunk_header.specs.SimpleChunks.{simple_chunk};
ghost use Rattle.simple_chunk.specs.Costs.{cost_of};
ghost use Rattle.chunk_workers.specs.Runs.{run_count, run_of};
ghost use Rattle.chunk_workers.specs.RunPlaces.{IsRunPlace};
ghost use Rattle.ordered_writer.specs.Reorders.{HasEachFrom, reordering_from, with_each};
ghost use Rattle.record_group.specs.Groupings.{new_grouping};
ghost use Rattle.record_writer.specs.EncodedWindows.{AreInOrder, AreRunsOf, CanBeEncoded, EncodesSimply};
ghost use Rattle.record_writer.specs.MadeFiles.{LaysTo, MayLay, chunks_of_groups};
ghost use Rattle.record_writer.specs.Windows.{IsEncoded, IsReady};

use crate::made_file::MadeFile;
use chunk_workers::{
    CodedRuns, Coder, RunPlace, append_places, encode_window, run_count, seat_workers,
};
use ordered_writer::Reorder;
use record_group::GroupBuffer;
use record_io::{Failed, Sink};
use simple_chunk::RecordGroups;
use std::alloc::{AllocError, Global};
use std::marker::Model;
use std::mem;
use std::thread::Threads;

/// A window of more bytes is put before the next one is taken.
const LARGE: u64 = 1 << 23;

/// How many runs there are for each worker, where there are that many groups: so the workers end at about the same time.
const RUNS: usize = 8;

/// How many groups a run has at most.
const LONGEST_RUN: usize = 1 << 12;

/// Groups in one piece of memory, and their chunks, which so many workers encode before they are put. Own.
#[derive(Drop)]
pub(crate) struct Window {
    alloc: Global,
    workers: u32,
    groups: RecordGroups,
    /// How many groups a run has, but for the last one.
    step: usize,
    /// What each worker encoded, in memory that goes round.
    runs: Vec<CodedRuns>,
    /// Where the chunks of each run are, once the groups are encoded.
    order: Option<Reorder<RunPlace>>,
}

impl Model for Window {
    ghost use Rattle.std.specs.Prelude.{◌^◌, ◌≤◌, All, is_some};
    ghost use Rattle.std.specs.Option.{ForSome};
    ghost use Rattle.simple_chunk.specs.Costs.{cost_of};
    ghost use Rattle.record_writer.specs.EncodedWindows.{AreInOrder};
    ghost use Rattle.record_writer.specs.Windows.{WindowValue};

    ghost Value = { WindowValue };

    ghost view = { λ w. record { groups = w.groups.groups; encoded = is_some w.order } };

    ghost invariant = { λ w. (1 ≤ w.workers)
        × (w.workers ≤ 16)
        × All (λ group. cost_of group ≤ 2 ^ 25) w.groups.groups
        × ForSome w.order (AreInOrder w.step w.groups.groups w.runs.items) };
}

impl Window {
    /// A window without a group, for 1 to 16 workers. It takes no memory.
    pub fn new(alloc: Global, workers: u32) -> Window
        requires { (1 ≤ workers) × (workers ≤ 16) }
        ensures { result ≡ record { groups = []; encoded = false } }
    {
        Window {
            alloc,
            workers,
            groups: RecordGroups::new(alloc),
            step: 1,
            runs: Vec::new(alloc),
            order: None,
        }
    }

    /// Whether it has no group.
    pub fn is_empty(&self) -> bool
        ensures { result ≡ true → self.now.groups ≡ [] }
    {
        self.groups.is_empty()
    }

    /// Whether it has too many bytes to be held while others are taken.
    pub fn is_large(&self) -> bool {
        self.groups.size() > LARGE
    }

    /// Takes the groups that closed in a buffer, which gets the memory of this window for the next ones.
    pub fn fill(&mut self, buffer: &mut GroupBuffer)
        requires empty { self.old.groups ≡ [] }
        ensures groups { self.new.groups ≡ buffer.old.closed }
        ensures grouping { buffer.new.grouping ≡ new_grouping buffer.old.grouping.size buffer.old.grouping.every }
        ensures closed { buffer.new.closed ≡ [] }
    {
        self.groups.clear();
        self.order = None;
        buffer.hand_over(&mut self.groups);
    }

    /// Encodes the chunks of the groups, by as many workers as there are, each of which draws the numbers of runs.
    pub fn encode<R: Threads + Sync, C: Coder + Sync>(
        &mut self,
        rt: &R,
        coder: &C,
    ) -> Result<(), AllocError>
        requires { EncodesSimply (C.chunk_of coder.now) }
        ensures { OnOk result (IsEncoded self.old self.new) }
    {
        if self.groups.is_empty() {
            return Ok(());
        }
        let step = step_of(self.groups.len(), self.workers);
        self.order = None;
        self.step = step;
        encode_runs(
            rt,
            self.alloc,
            self.workers,
            coder,
            &self.groups,
            step,
            &mut self.runs,
        )?;
        self.order = Some(order_of(self.alloc, &self.groups, &self.runs, step)?);
        Ok(())
    }

    /// Puts the chunks of the groups, one after another, of which none is left then.
    ///
    /// # Errors
    ///
    /// `Failed` only where the sink failed. It took a prefix of what was held and the chunks, and not all.
    pub fn put<M: Sink>(&mut self, file: &mut MadeFile, made: &mut M) -> Result<(), Failed>
        requires ready { IsReady self.old }
        requires may_lay { MayLay file.old (chunks_of_groups self.old.groups) }
        ensures emptied { OnOk result (self.new.groups ≡ []) }
        ensures laid { LaysTo M.taken M.lent M.faults (IsErr result) result file.old file.new (chunks_of_groups self.old.groups)
            made.old made.new }
    {
        if let Some(order) = self.order.take() {
            put_runs(&self.groups, &self.runs, self.step, order, file, made)?;
        }
        self.clear();
        Ok(())
    }

    /// As `put`, and puts out what was held before, by itself, and what is held of the chunks.
    ///
    /// # Errors
    ///
    /// `Failed` only where the sink failed. It took a prefix of what was held and the chunks, and not all.
    pub fn put_out<M: Sink>(&mut self, file: &mut MadeFile, made: &mut M) -> Result<(), Failed>
        requires ready { IsReady self.old }
        requires may_lay { MayLay file.old (chunks_of_groups self.old.groups) }
        ensures emptied { OnOk result (self.new.groups ≡ []) }
        ensures laid { LaysTo M.taken M.lent M.faults (IsErr result) result file.old file.new (chunks_of_groups self.old.groups)
            made.old made.new }
    {
        file.flush(made)?;
        self.put(file, made)?;
        file.flush(made)
    }

    /// Forgets the groups, and keeps their memory unless it is large.
    fn clear(&mut self)
        ensures { self.new ≡ record { groups = []; encoded = false } }
    {
        if self.is_large() {
            self.groups = RecordGroups::new(self.alloc);
        }
        self.groups.clear();
        self.order = None;
    }
}

/// How many groups a run has, of so many in all and for so many workers.
fn step_of(groups: usize, workers: u32) -> usize
    requires { 1 ≤ workers }
    ensures { (1 ≤ result) × (result ≤ 2 ^ 32) }
{
    (groups / (RUNS * workers as usize)).clamp(1, LONGEST_RUN)
}

/// Encodes the chunks of groups by so many workers, run by run, in the memory of these runs.
fn encode_runs<R: Threads + Sync, C: Coder + Sync>(
    rt: &R,
    alloc: Global,
    workers: u32,
    coder: &C,
    groups: &RecordGroups,
    step: usize,
    runs: &mut Vec<CodedRuns>,
) -> Result<(), AllocError>
    requires workers { (1 ≤ workers) × (workers ≤ 16) }
    requires step { (1 ≤ step) × (step ≤ 2 ^ 32) }
    requires encodes { EncodesSimply (C.chunk_of coder.now) }
    requires groups { CanBeEncoded groups.now.groups }
    ensures { OnOk result (AreRunsOf step groups.now.groups runs.new.items) }
{
    let count = run_count(groups.len(), step);
    let (draws, seated) = seat_workers(alloc, count as u64, workers, runs)?;
    let (encoded, seats) = encode_window(rt, alloc, &draws, seated, coder, groups, step)?;
    draws.finish(seats);
    *runs = encoded;
    Ok(())
}

/// Where the chunks of each run are, by the numbers of runs of so many groups.
fn order_of(
    alloc: Global,
    groups: &RecordGroups,
    runs: &[CodedRuns],
    step: usize,
) -> Result<Reorder<RunPlace>, AllocError>
    requires step { (1 ≤ step) × (step ≤ 2 ^ 32) }
    requires groups { CanBeEncoded groups.now.groups }
    requires runs { AreRunsOf step groups.now.groups runs.now }
    ensures { IfOk result (AreInOrder step groups.now.groups runs.now) }
{
    let count = groups.len();
    let mut places = Vec::new(alloc);
    append_places(&mut places, runs, step, count)?;
    in_order(alloc, run_count(count, step), places)
}

/// Places of which each number below `count` has one, by rising numbers.
fn in_order(
    alloc: Global,
    count: usize,
    places: Vec<(u64, RunPlace)>,
) -> Result<Reorder<RunPlace>, AllocError>
    requires some { 1 ≤ count }
    requires few { count ≤ 2 ^ 32 }
    requires each { HasEachFrom 0 count (map (λ place. place.0) places.items) }
    ensures { IfOk result (λ order. order ≡ with_each (reordering_from 0 count) places.items) }
{
    let mut order = Reorder::new(alloc, 0, count)?;
    for (number, place) in places {
        order.hold(number, place);
    }
    Ok(order)
}

/// Puts the chunks of groups, run by run.
///
/// # Errors
///
/// `Failed` only where the sink failed. It took a prefix of what was held and the chunks, and not all.
fn put_runs<M: Sink>(
    groups: &RecordGroups,
    runs: &[CodedRuns],
    step: usize,
    mut order: Reorder<RunPlace>,
    file: &mut MadeFile,
    made: &mut M,
) -> Result<(), Failed>
    requires order { AreInOrder step groups.now.groups runs.now order }
    requires short { All (λ group. cost_of group ≤ 2 ^ 25) groups.now.groups }
    requires may_lay { MayLay file.old (chunks_of_groups groups.now.groups) }
    ensures { LaysTo M.taken M.lent M.faults (IsErr result) result file.old file.new (chunks_of_groups groups.now.groups)
        made.old made.new }
{
    while let Some(place) = order.next() {
        let number = order.wanted() - 1;
        put_run(groups, runs, step, number as usize, place, file, made)?;
    }
    Ok(())
}

/// Puts the chunks of the groups of a run.
///
/// # Errors
///
/// `Failed` only where the sink failed. It took a prefix of what was held and the chunks, and not all.
fn put_run<M: Sink>(
    groups: &RecordGroups,
    runs: &[CodedRuns],
    step: usize,
    number: usize,
    place: RunPlace,
    file: &mut MadeFile,
    made: &mut M,
) -> Result<(), Failed>
    requires step { 1 ≤ step }
    requires number { number < run_count step (length groups.now.groups) }
    requires place { IsRunPlace simple_chunk step groups.now.groups runs.now number place }
    requires short { All (λ group. cost_of group ≤ 2 ^ 25) groups.now.groups }
    requires may_lay { MayLay file.old (chunks_of_groups (run_of step groups.now.groups number)) }
    ensures { LaysTo M.taken M.lent M.faults (IsErr result) result file.old file.new (chunks_of_groups (run_of step groups.now.groups number))
        made.old made.new }
{
    let all = groups.len();
    let begin = number * step;
    let count = step.min(all - begin);
    let coded = &runs[place.worker as usize];
    for i in 0..count {
        let group = groups.group(begin + i);
        let (head, front) = coded.chunk(place.first as usize + i);
        file.put_coded(made, head, front, &group)?;
    }
    Ok(())
}

ghost use Rattle.std.specs.Prelude.{◌≡◌, ◌≢◌, ℕ, ◌≤◌, true, List, [], ◌++◌, Err, IfOk, IsErr, OnOk};
ghost use Rattle.record_io.specs.Calls.{OnlyCounts};
ghost use Rattle.record_writer.specs.EncodedWindows.{EncodesSimply};
ghost use Rattle.record_writer.specs.MadeFiles.{LaysTo, MayLay, chunks_of_groups};
ghost use Rattle.record_writer.specs.OptionLimits.{AreInLimits};
ghost use Rattle.record_writer.specs.Windows.{HasTakenNone, HaveNoGroup, IsEncoded, IsReady, StandInOrder, TakesGroups};

use crate::cut_off::CutOff;
use crate::feed::RecordFeed;
use crate::group_taker::{FeedPart, GroupTaker};
use crate::made_file::MadeFile;
use crate::options::WriteOptions;
use crate::pace::Pace;
use crate::window::Window;
use chunk_workers::Coder;
use record_io::{Failed, Sink};
use std::alloc::{AllocError, Global};
use std::mem;
use std::thread::{Threads, join_mut};

/// The window that is put next, and those behind it, which are encoded and taken meanwhile. Own.
#[derive(Drop)]
pub(crate) struct Pipeline {
    /// Its chunks can be put.
    pub next: Window,
    pub coming: Coming,
    pub pace: Pace,
}

/// The window that is encoded next, one to take groups meanwhile, and what takes them. Own.
#[derive(Drop)]
pub(crate) struct Coming {
    pub taken: Window,
    pub free: Window,
    pub taker: GroupTaker,
}

impl Pipeline {
    /// Three windows without a group, and a taker that has taken no record. It takes no memory.
    pub fn new(alloc: Global, options: &WriteOptions) -> Pipeline
        requires in_limits { AreInLimits options.now }
        ensures windows { HaveNoGroup result.next result.coming.taken result.coming.free }
        ensures taker { HasTakenNone result.coming.taker options.now }
    {
        Pipeline {
            next: Window::new(alloc, options.workers),
            coming: Coming {
                taken: Window::new(alloc, options.workers),
                free: Window::new(alloc, options.workers),
                taker: GroupTaker::new(alloc, options),
            },
            pace: Pace::new(),
        }
    }

    /// Takes the first window. At the end of the feed, also where that is a stop, the last group is in it.
    pub fn begin<L: RecordFeed>(&mut self, feed: &mut L) -> Result<FeedPart, CutOff>
        requires windows { HaveNoGroup self.old.next self.old.coming.taken self.old.coming.free }
        requires feed_going { L.going feed.old ≡ true }
        ensures taken { TakesGroups L.rest L.bound L.going L.origin L.faults feed.old feed.new self.old.coming.taker self.new.coming.taker
            (self.new.next.groups ++ self.new.coming.taken.groups) result }
        ensures windows { StandInOrder self.new.next self.new.coming.free }
    {
        let part = self.coming.take(feed, &self.pace);
        self.move_on();
        part
    }

    /// Puts the window whose chunks are encoded while the one behind it is encoded and the next one is taken, and moves each a
    /// step on. At the end of the feed, also where that is a stop, the last group is taken too.
    ///
    /// # Errors
    ///
    /// Only where the sink failed, or there was no memory to encode. The sink took a prefix of what was held and the chunks, and
    /// not all where it failed. What was encoded and taken is not to be put.
    pub fn go_on<R: Threads + Sync, C: Coder + Sync, L: RecordFeed, M: Sink + Send>(
        &mut self,
        rt: &R,
        coder: &C,
        file: &mut MadeFile,
        feed: &mut L,
        made: &mut M,
    ) -> Result<Result<FeedPart, CutOff>, CutOff>
        requires encodes { EncodesSimply (C.chunk_of coder.now) }
        requires feed_going { L.going feed.old ≡ true }
        requires may_lay { MayLay file.old (chunks_of_groups self.old.next.groups) }
        requires windows { StandInOrder self.old.next self.old.coming.free }
        ensures laid { LaysTo M.taken M.lent M.faults (result ≡ Err CutOff.Made) result file.old
            file.new
            (chunks_of_groups self.old.next.groups) made.old made.new }
        ensures taken { IfOk result (λ part. (more : List (List (List ℕ)))
            × (self.new.next.groups ++ self.new.coming.taken.groups ≡ self.old.coming.taken.groups ++ more)
            × TakesGroups L.rest L.bound L.going L.origin L.faults feed.old feed.new self.old.coming.taker self.new.coming.taker more part) }
        ensures windows { OnOk result (StandInOrder self.new.next self.new.coming.free) }
        ensures feed { OnlyCounts L.origin L.faults (result ≡ Err CutOff.Input) feed.old feed.new }
    {
        let (laid, (encoded, part)) = if self.next.is_empty() || self.next.is_large() {
            let laid = self.next.put(file, made);
            (
                laid,
                self.coming.encode_and_take(rt, coder, feed, &self.pace),
            )
        } else {
            self.put_beside(rt, coder, file, feed, made)
        };
        laid?;
        encoded?;
        self.move_on();
        Ok(part)
    }

    /// Puts the window whose chunks are encoded while the one behind it is encoded and the next one is taken.
    fn put_beside<R: Threads + Sync, C: Coder + Sync, L: RecordFeed, M: Sink + Send>(
        &mut self,
        rt: &R,
        coder: &C,
        file: &mut MadeFile,
        feed: &mut L,
        made: &mut M,
    ) -> (
        Result<(), Failed>,
        (Result<(), AllocError>, Result<FeedPart, CutOff>),
    )
        requires encodes { EncodesSimply (C.chunk_of coder.now) }
        requires feed_going { L.going feed.old ≡ true }
        requires may_lay { MayLay file.old (chunks_of_groups self.old.next.groups) }
        requires windows { StandInOrder self.old.next self.old.coming.free }
        ensures laid { LaysTo M.taken M.lent M.faults (IsErr result.0) result.0 file.old file.new
            (chunks_of_groups self.old.next.groups) made.old made.new }
        ensures emptied { OnOk result.0 (self.new.next.groups ≡ []) }
        ensures encoded { OnOk result.1.0 (IsEncoded self.old.coming.taken self.new.coming.taken) }
        ensures taken { TakesGroups L.rest L.bound L.going L.origin L.faults feed.old feed.new self.old.coming.taker self.new.coming.taker
            self.new.coming.free.groups result.1.1 }
    {
        let Pipeline {
            next: window,
            coming,
            pace,
        } = self;
        pace.begin_put();
        join_mut(
            rt,
            &mut || {
                let put = window.put_out(file, made);
                pace.end_put(put.is_err());
                put
            },
            &mut || -> (Result<(), AllocError>, Result<FeedPart, CutOff>)
                requires encodes { EncodesSimply (C.chunk_of coder.now) }
                requires feed_going { L.going feed.now ≡ true }
                requires free { coming.now.free.groups ≡ [] }
            { coming.encode_and_take(rt, coder, feed, pace) },
        )
    }

    /// Puts all groups: those whose chunks are encoded, while the others are encoded, and then these.
    ///
    /// # Errors
    ///
    /// Only where the sink failed, or there was no memory to encode. The sink took a prefix of what was held and the chunks, and
    /// not all where it failed.
    pub fn finish<R: Threads + Sync, C: Coder + Sync, M: Sink + Send>(
        &mut self,
        rt: &R,
        coder: &C,
        file: &mut MadeFile,
        made: &mut M,
    ) -> Result<(), CutOff>
        requires encodes { EncodesSimply (C.chunk_of coder.now) }
        requires may_lay { MayLay file.old (chunks_of_groups (self.old.next.groups ++ self.old.coming.taken.groups)) }
        requires ready { IsReady self.old.next }
        ensures laid { LaysTo M.taken M.lent M.faults (result ≡ Err CutOff.Made) result file.old
            file.new
            (chunks_of_groups (self.old.next.groups ++ self.old.coming.taken.groups)) made.old made.new }
        ensures no_feed { result ≢ Err CutOff.Input }
    {
        let (put, encoded) = self.put_and_encode(rt, coder, file, made);
        put?;
        encoded?;
        self.coming.taken.put(file, made)?;
        Ok(())
    }

    /// Puts the window whose chunks are encoded while the one behind it is encoded.
    fn put_and_encode<R: Threads + Sync, C: Coder + Sync, M: Sink + Send>(
        &mut self,
        rt: &R,
        coder: &C,
        file: &mut MadeFile,
        made: &mut M,
    ) -> (Result<(), Failed>, Result<(), AllocError>)
        requires encodes { EncodesSimply (C.chunk_of coder.now) }
        requires may_lay { MayLay file.old (chunks_of_groups self.old.next.groups) }
        requires ready { IsReady self.old.next }
        ensures laid { LaysTo M.taken M.lent M.faults (IsErr result.0) result.0 file.old file.new
            (chunks_of_groups self.old.next.groups) made.old made.new }
        ensures encoded { OnOk result.1 (IsEncoded self.old.coming.taken self.new.coming.taken) }
    {
        let Pipeline {
            next: window,
            coming,
            ..
        } = self;
        if window.is_empty() || coming.taken.is_empty() {
            let put = window.put(file, made);
            return (put, coming.taken.encode(rt, coder));
        }
        join_mut(
            rt,
            &mut || window.put_out(file, made),
            &mut || -> Result<(), AllocError>
                requires encodes { EncodesSimply (C.chunk_of coder.now) }
            { coming.taken.encode(rt, coder) },
        )
    }

    /// Hands the window that was encoded on to be put, and the one that was taken to be encoded. The window that was put is free.
    fn move_on(&mut self)
        requires put { self.old.next.groups ≡ [] }
        requires encoded { IsReady self.old.coming.taken }
        ensures same { self.new.next.groups ++ self.new.coming.taken.groups ≡ self.old.coming.taken.groups ++ self.old.coming.free.groups }
        ensures windows { StandInOrder self.new.next self.new.coming.free }
        ensures same_taker { self.new.coming.taker ≡ self.old.coming.taker }
    {
        mem::swap(&mut self.next, &mut self.coming.taken);
        mem::swap(&mut self.coming.taken, &mut self.coming.free);
    }
}

impl Coming {
    /// Encodes the window that was taken while the next one is taken.
    fn encode_and_take<R: Threads + Sync, C: Coder + Sync, L: RecordFeed>(
        &mut self,
        rt: &R,
        coder: &C,
        feed: &mut L,
        pace: &Pace,
    ) -> (Result<(), AllocError>, Result<FeedPart, CutOff>)
        requires encodes { EncodesSimply (C.chunk_of coder.now) }
        requires feed_going { L.going feed.old ≡ true }
        requires free { self.old.free.groups ≡ [] }
        ensures encoded { OnOk result.0 (IsEncoded self.old.taken self.new.taken) }
        ensures taken { TakesGroups L.rest L.bound L.going L.origin L.faults feed.old feed.new self.old.taker self.new.taker self.new.free.groups result.1 }
    {
        if self.taken.is_empty() {
            return (self.taken.encode(rt, coder), self.take(feed, pace));
        }
        let Coming { taken, free, taker } = self;
        pace.begin_encode();
        join_mut(
            rt,
            &mut || -> Result<(), AllocError>
                requires encodes { EncodesSimply (C.chunk_of coder.now) }
            {
                let encoded = taken.encode(rt, coder);
                pace.end_encode();
                encoded
            },
            &mut || -> Result<FeedPart, CutOff>
                requires feed_going { L.going feed.now ≡ true }
                requires free { free.now.groups ≡ [] }
            { taker.take_groups(feed, free, pace) },
        )
    }

    /// Takes the next window.
    fn take<L: RecordFeed>(&mut self, feed: &mut L, pace: &Pace) -> Result<FeedPart, CutOff>
        requires feed_going { L.going feed.old ≡ true }
        requires free { self.old.free.groups ≡ [] }
        ensures taken { TakesGroups L.rest L.bound L.going L.origin L.faults feed.old feed.new self.old.taker self.new.taker self.new.free.groups result }
        ensures same { self.new.taken ≡ self.old.taken }
    {
        self.taker.take_groups(feed, &mut self.free, pace)
    }
}

ghost use Rattle.std.specs.Prelude.{◌≡◌, ◌-◌, ◌^◌, ◌≤◌, true, Ok, Err, Some, None, IfSome};
ghost use Rattle.record_io.specs.Calls.{OnlyAsks};
ghost use Rattle.chunk_reader.specs.Reasons.{Applies, NoneOf, loading_reasons};
ghost use Rattle.damage_skip.specs.DamagedWalks.{WalksInRemains};
ghost use Rattle.damage_skip.specs.Policies.{IsTest};
ghost use Rattle.damage_skip.specs.Steps.{IsPieceFrom};
ghost use Rattle.damage_skip.specs.Walks.{TakesByCall, IsAtFront, StandsIn, MayGoOn, WalksOn, IsAllowedEvent, IsRefusedStop, Refuses, event_of};
ghost use Rattle.damage_skip.specs.Walkers.{progress_of, test_of, IsJudging};
ghost use Rattle.damage_skip.specs.declared.events.Event.{Event};
ghost use Rattle.damage_skip.specs.declared.regions.Region.{Region};

use crate::events::{Event, WalkEnd};
use crate::pieces::{Found, NextPiece, piece_at};
use crate::policies::Policy;
use crate::progress::Progress;
use crate::regions::Region;
use record_io::Store;
use std::alloc::Global;

/// Walks a file from its front to its end, past all damage that a policy allows to pass over. Own.
#[derive(Drop)]
pub struct Walker<F> {
    progress: Progress,
    policy: Policy<F>,
}

impl<F: Fn(&Region) -> bool + Drop> Walker<F> {
    /// A walk of a file of so many bytes, from its front. With `unread_ok`, compressed and
    /// transposed chunks are given in place of being passed over.
    pub fn new(size: u64, unread_ok: bool, policy: Policy<F>) -> Walker<F>
        ensures begins { IsAtFront size unread_ok true (progress_of result) }
        ensures test { test_of result ≡ policy.test }
    {
        Walker {
            progress: Progress {
                size,
                unread_ok,
                decodes: true,
                place: 0,
                stopped: None,
            },
            policy,
        }
    }

    /// The walk that only judges simple chunks: an intact one is an event that is kept, and its records take no memory.
    pub fn judging(mut self) -> Walker<F>
        ensures { IsJudging self result }
    {
        self.progress.decodes = false;
        self
    }

    /// The next event of the file; `None` exactly at its end. The file's size was told and is the walker's, at most 2^60.
    ///
    /// In a damaged file, in which each change shows by a hash, the walk goes from chunk to chunk of the undamaged one: from one
    /// whose header is intact to the next, and from another one to that which holds the first intact block header from its
    /// begin on. So what is lost behind a changed header ends at or before each intact block header from its chunk's begin on. The
    /// front of a file of chunks gives what the file gives up to the last chunk that the front has whole, and one region for a
    /// chunk that is cut.
    ///
    /// No more is handed out than the pieces account for that are passed: a chunk that can be loaded for no more than it has, and
    /// for none behind a block that contradicts it; another piece for a chunk header, or what the file has from there if that is
    /// less, and for the headers of blocks, within its chunk up to the first that contradicts it, or where no chunk header can be
    /// read up to the first that stands. Where no event comes, and not the file's end, what stands at the walk's place is added:
    /// of a chunk that can be loaded all that it has.
    ///
    /// # Errors
    ///
    /// `Stopped` exactly where the next event is a region that the policy doesn't allow to pass over, and again at each later
    /// call. `Store` only where the store failed. `Memory` only where a chunk is at hand whose header is right, which lies
    /// in the file and whose data isn't too large. After these two no event is lost, and the call may be made again.
    pub fn next<S: Store>(&mut self, alloc: Global, store: &mut S) -> Result<Option<Event>, WalkEnd>
        requires may { MayGoOn F.Fn (test_of self.old) (S.bytes store.old) (S.told store.old) (progress_of self.old) }
        ensures stands { StandsIn (S.bytes store.old) (S.told store.old) (progress_of self.new) }
        ensures goes_on { WalksOn (S.bytes store.old) (progress_of self.old) (progress_of self.new) result }
        ensures remains { WalksInRemains (S.bytes store.old) (progress_of self.old) (progress_of self.new) result }
        ensures same_test { test_of self.new ≡ test_of self.old }
        ensures event { (event : Event) → result ≡ Ok (Some event)
            → IsAllowedEvent F.Fn (test_of self.old) (progress_of self.old) (progress_of self.new).place event }
        ensures ended { result ≡ Ok None → (progress_of self.new).place ≡ (progress_of self.old).size }
        ensures refused { (region : Region) → result ≡ Err (WalkEnd.Stopped region) → (progress_of self.old).stopped ≡ None
            → IsRefusedStop F.Fn (test_of self.old) (progress_of self.new).size (progress_of self.new).place region }
        ensures again { (region : Region) → (progress_of self.old).stopped ≡ Some region
            → (result ≡ Err (WalkEnd.Stopped region)) × (self.new ≡ self.old) × (store.new ≡ store.old) }
        ensures memory { result ≡ Err WalkEnd.Memory
            → IfSome (S.bytes store.old) (λ file. NoneOf (Applies file (progress_of self.new).place) loading_reasons) }
        ensures takes { IfSome (S.bytes store.old) (λ file. TakesByCall (progress_of self.old).unread_ok file
            (progress_of self.old).place (progress_of self.new).place result (S.handed store.new - S.handed store.old)) }
        ensures store { OnlyAsks S.bytes S.told S.name S.faults (result ≡ Err WalkEnd.Store) store.old store.new }
    {
        if let Some(region) = self.progress.stopped {
            return Err(WalkEnd::Stopped(region));
        }
        while self.progress.place < self.progress.size {
            let place = self.progress.place;
            let piece = piece_at(alloc, store, self.progress)?;
            if let Some(region) = self.refused(&piece) {
                self.progress.stopped = Some(region);
                return Err(WalkEnd::Stopped(region));
            }
            self.progress.place = piece.end;
            if let Some(event) = event(place, piece) {
                return Ok(Some(event));
            }
        }
        Ok(None)
    }

    /// The region that a piece at the place is, where the policy doesn't allow to pass over it.
    fn refused(&self, piece: &NextPiece) -> Option<Region>
        requires in_reach { self.now.progress.size ≤ 2 ^ 60 }
        requires test { IsTest F.Fn self.now.policy.test }
        requires piece { IsPieceFrom self.now.progress piece.now }
        ensures { Refuses F.Fn self.now.policy.test self.now.progress.place piece.now result }
    {
        let Found::Skipped(why) = &piece.what else {
            return None;
        };
        let region = Region {
            begin: self.progress.place,
            end: piece.end,
            why: *why,
        };
        if self.policy.allows(&region) {
            None
        } else {
            Some(region)
        }
    }
}

/// What a piece that begins at a place is told as; `None` where nothing is told of it.
fn event(begin: u64, piece: NextPiece) -> Option<Event>
    ensures { result ≡ event_of begin piece }
{
    match piece.what {
        Found::Records(records, chunk) => Some(Event::Records {
            begin,
            records,
            chunk,
        }),
        Found::Kept(chunk, unread) => Some(Event::Kept {
            begin,
            chunk,
            unread,
        }),
        Found::SignatureOrPadding => None,
        Found::Skipped(why) => Some(Event::Skipped(Region {
            begin,
            end: piece.end,
            why,
        })),
    }
}

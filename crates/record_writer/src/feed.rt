ghost use Rattle.std.specs.Prelude.{◌≡◌, ◌≢◌, ℕ, ◌≤◌, true, false, Bool, Option, IfSome, OnOk};
ghost use Rattle.record_io.specs.Calls.{OnlyCounts};
ghost use Rattle.record_writer.specs.Feeds.{Rest, stop_alone};
ghost use Rattle.record_writer.specs.FeedSteps.{GivesNext, HandsNone, HandsOn, IsAtEnd, Origin, ReadsNothing, no_origin};

use record_group::GroupBuffer;
use record_io::{Bytes, Failed};
use std::alloc::{AllocError, Global};

/// Why no more records are taken. Own.
#[derive(Clone, Copy, Debug, PartialEq, Eq)]
pub enum Stop {
    /// A record has more than 2^24 bytes.
    TooLong,
    /// The input goes past its limit.
    InputTooLong,
    /// A line is not in the form that it should have.
    BadLine,
}

/// Why a feed gives no record. Own.
#[derive(Clone, Copy, Debug, PartialEq, Eq)]
pub enum FeedEnd {
    /// It is at its end, which is this stop.
    Stop(Stop),
    /// What the feed reads failed.
    Failed,
    /// There was not enough memory.
    Memory,
}

impl From<AllocError> for FeedEnd {
    ghost use Rattle.record_writer.specs.declared.feed.FeedEnd.TheVariants.{Memory};

    ghost from_gives = { λ _ end. end ≡ Memory };

    fn from(_: AllocError) -> FeedEnd {
        FeedEnd::Memory
    }
}

impl From<Failed> for FeedEnd {
    ghost use Rattle.record_writer.specs.declared.feed.FeedEnd.TheVariants.{Failed as failed};

    ghost from_gives = { λ _ end. end ≡ failed };

    fn from(_: Failed) -> FeedEnd {
        FeedEnd::Failed
    }
}

/// Records that come one after another. Own.
pub trait RecordFeed {
    /// What the feed has not given yet: records, and a stop where one ends them. A feed need not show it.
    ghost rest: { Self → Option Rest };

    /// A number that each record lowers by more than its length, and that no call raises.
    ghost bound: { Self → ℕ };

    /// How many faults there were.
    ghost faults: { Self → ℕ };

    /// What the feed reads, and how many bytes of that it leaves in any case. No call changes either.
    ghost origin: { Self → Origin } = { λ _. no_origin };

    /// Whether the feed may be asked for a record: no call of it failed. One that may always be asked need not say so.
    ghost going: { Self → Bool } = { λ _. true };

    /// Gives one record: `into` then has its bytes alone, 2^24 or fewer, and the answer is true. False says that the feed
    /// is at its end without a stop. A call that fails is the feed's last.
    ///
    /// # Errors
    ///
    /// `Stop` where no record is left and this stop follows, `Failed` only where what the feed reads failed, and
    /// `Memory`.
    fn pull(&mut self, alloc: Global, into: &mut Bytes) -> Result<bool, FeedEnd>
        requires { going self.old ≡ true }
        ensures going { OnOk result (going self.new ≡ true) }
        ensures gives { result ≡ Ok true → GivesNext (rest self.old) (rest self.new)
            (bound self.old) (bound self.new) into.new }
        ensures at_end { result ≡ Ok false → IsAtEnd (rest self.old) (rest self.new) }
        ensures stop { (s : Stop) → result ≡ Err (FeedEnd.Stop s) → IfSome (rest self.old) (λ r. r ≡ stop_alone s) }
        ensures never_rises { bound self.new ≤ bound self.old }
        ensures counts { OnlyCounts origin faults (result ≡ Err FeedEnd.Failed) self.old self.new };

    /// Puts the next record into the open group of a buffer, so that it is copied once, where the feed holds all of it and that
    /// group doesn't close before it, and answers whether that is so. Else, and after want of memory, both are as before. A feed
    /// need not do so.
    fn push_held(&mut self, into: &mut GroupBuffer) -> Result<bool, AllocError>
        ensures pushed { result ≡ Ok true → HandsOn (rest self.old) (rest self.new) (bound self.old) (bound self.new)
            into.old.grouping into.new.grouping }
        ensures kept { result ≢ Ok true → HandsNone (rest self.old) (rest self.new) (bound self.old) (bound self.new)
            into.old.grouping into.new.grouping }
        ensures closed { into.new.closed ≡ into.old.closed }
        ensures keeps { ReadsNothing going origin faults self.old self.new }
    {
        Ok(false)
    }
}

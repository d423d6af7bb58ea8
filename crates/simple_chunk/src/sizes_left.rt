ghost use Rattle.std.specs.Prelude.{◌≡◌, ◌↔◌, ℕ, ◌≤◌, List, [], ◌++◌, length, take, IsTrue, IsFalse};
ghost use Rattle.simple_chunk.specs.SizesLeft.{SizesValue, AreLeft};

use std::marker::Model;
use varint_wire::{Feed, Step};

/// Sizes of records that come in pieces: how many are still to come, and how many bytes their records have
/// together. Own.
#[derive(Drop)]
pub(crate) struct SizesLeft {
    count: u64,
    whole: u64,
    feed: Feed,
}

impl Model for SizesLeft {
    ghost use Rattle.simple_chunk.specs.SizesLeft.{SizesValue};

    ghost Value = { SizesValue };

    ghost view = { λ s. record { count = s.count; whole = s.whole; held = s.feed } };
}

impl SizesLeft {
    /// So many sizes, which make so many bytes together.
    pub(crate) fn new(count: u64, whole: u64) -> SizesLeft
        ensures { result ≡ record { count = count; whole = whole; held = [] } }
    {
        SizesLeft {
            count,
            whole,
            feed: Feed::new(),
        }
    }

    /// Takes the next bytes of the sizes. It answers `false` only where the sizes can't begin so, and need not be
    /// asked any more then.
    #[inline(never)]
    pub(crate) fn take(&mut self, bytes: &[u8]) -> bool
        ensures right { IsTrue result → (rest : List ℕ) → AreLeft self.old (bytes.now ++ rest) ↔ AreLeft self.new rest }
        ensures wrong { IsFalse result → (rest : List ℕ) → ¬ AreLeft self.old (bytes.now ++ rest) }
    {
        let (_, others) = bytes.split_at(self.take_small(bytes));
        for byte in others {
            let size = match self.feed.push(*byte) {
                Step::More => continue,
                Step::Value(size) => size,
                Step::Long => return false,
            };
            if self.count == 0 || size > self.whole {
                return false;
            }
            self.count -= 1;
            self.whole -= size;
        }
        true
    }

    /// Takes the sizes of one byte that the bytes begin with, as most sizes are, and answers how many of them it took.
    fn take_small(&mut self, bytes: &[u8]) -> usize
        ensures some { result ≤ length bytes.now }
        ensures right { (rest : List ℕ) → AreLeft self.old (take result bytes.now ++ rest) ↔ AreLeft self.new rest }
    {
        if !self.feed.is_new() {
            return 0;
        }
        let mut count = self.count;
        let mut whole = self.whole;
        for byte in bytes {
            let size = u64::from(*byte);
            if size >= 0x80 || count == 0 || size > whole {
                break;
            }
            count -= 1;
            whole -= size;
        }
        let taken = self.count - count;
        self.count = count;
        self.whole = whole;
        taken as usize
    }

    /// Whether no size is still to come.
    pub(crate) fn are_all(&self) -> bool
        ensures { IsTrue result ↔ AreLeft self.now [] }
    {
        self.feed.is_new() && self.count == 0 && self.whole == 0
    }
}

ghost use Rattle.std.specs.Prelude.{◌≡◌, ◌+◌, ◌^◌, ◌<◌, ◌≤◌, true, Some, None, [], ◌∷◌, All, length, IfSome, IfNone};
ghost use Rattle.std.specs.List.{AllByRecursion, flat_map};
ghost use Rattle.record_writer.specs.FeedSteps.{feed_bound, first_length, left_of};

use crate::feed::{FeedEnd, RecordFeed};
use record_group::GroupBuffer;
use record_io::Bytes;
use simple_chunk::Records;
use std::alloc::{AllocError, Global};
use std::slice;

/// The records of lists, one list behind another, as a feed without a stop. It borrows them, and takes memory for none of its
/// own. Own.
#[derive(Drop)]
pub struct RecordsFeed<'a> {
    /// The lists, from the one of the record on that was given last.
    lists: &'a [Records],
    /// How many records of the first of them were given.
    at: usize,
    ghost short: { All (λ r. length r ≤ 2 ^ 24) (flat_map (λ list. list) lists.now) },
    ghost within: { at ≤ first_length lists.now },
}

impl<'a> RecordsFeed<'a> {
    /// These records, each of at most 2^24 bytes. It takes no memory.
    pub fn new(records: &'a Records) -> RecordsFeed<'a>
        requires short { AllByRecursion (λ r. length r ≤ 2 ^ 24) records.now }
        ensures rest { ⟦<RecordsFeed<'a> as RecordFeed>⟧.rest result ≡ Some (record { records = records.now; stop = None }) }
        ensures bound { ⟦<RecordsFeed<'a> as RecordFeed>⟧.bound result ≡ feed_bound records.now }
        ensures faults { ⟦<RecordsFeed<'a> as RecordFeed>⟧.faults result ≡ 0 }
        ensures going { ⟦<RecordsFeed<'a> as RecordFeed>⟧.going result ≡ true }
    {
        RecordsFeed::of_lists(slice::from_ref(records))
    }

    /// The records of these lists, one list behind another, each of at most 2^24 bytes. It takes no memory.
    pub fn of_lists(lists: &'a [Records]) -> RecordsFeed<'a>
        requires short { AllByRecursion (λ r. length r ≤ 2 ^ 24) (flat_map (λ list. list) lists.now) }
        ensures rest { ⟦<RecordsFeed<'a> as RecordFeed>⟧.rest result
            ≡ Some (record { records = flat_map (λ list. list) lists.now; stop = None }) }
        ensures bound { ⟦<RecordsFeed<'a> as RecordFeed>⟧.bound result ≡ feed_bound (flat_map (λ list. list) lists.now) }
        ensures faults { ⟦<RecordsFeed<'a> as RecordFeed>⟧.faults result ≡ 0 }
        ensures going { ⟦<RecordsFeed<'a> as RecordFeed>⟧.going result ≡ true }
    {
        RecordsFeed { lists, at: 0 }
    }

    /// The record that comes next, if one is left. It stands in the first list then.
    fn next_record(&mut self) -> Option<&'a [u8]>
        ensures same { left_of self.new.lists.now self.new.at ≡ left_of self.old.lists.now self.old.at }
        ensures some { IfSome result (λ next. left_of self.new.lists.now self.new.at ≡ next.now ∷ left_of self.new.lists.now (self.new.at + 1)) }
        ensures short { IfSome result (λ next. length next.now ≤ 2 ^ 24) }
        ensures more { IfSome result (λ _. self.new.at < first_length self.new.lists.now) }
        ensures fits { IfSome result (λ _. self.new.at + 1 < 2 ^ 64) }
        ensures none { IfNone result (left_of self.new.lists.now self.new.at ≡ []) }
    {
        while let Some((first, behind)) = self.lists.split_first() {
            if self.at < first.len() {
                return Some(first.get(self.at));
            }
            *self = RecordsFeed {
                lists: behind,
                at: 0,
            };
        }
        None
    }
}

impl<'a> RecordFeed for RecordsFeed<'a> {
    ghost rest = { λ f. Some (record { records = left_of f.lists.now f.at; stop = None }) };

    ghost bound = { λ f. feed_bound (left_of f.lists.now f.at) };

    ghost faults = { λ _. 0 };

    fn pull(&mut self, _alloc: Global, into: &mut Bytes) -> Result<bool, FeedEnd> {
        let Some(next) = self.next_record() else {
            return Ok(false);
        };
        into.clear();
        into.push_all(next)?;
        self.at += 1;
        Ok(true)
    }

    fn push_held(&mut self, into: &mut GroupBuffer) -> Result<bool, AllocError> {
        let Some(next) = self.next_record() else {
            return Ok(false);
        };
        if !into.push_open(next)? {
            return Ok(false);
        }
        self.at += 1;
        Ok(true)
    }
}

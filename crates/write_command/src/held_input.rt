ghost use Rattle.std.specs.Prelude.{◌≡◌, ◌+◌, ◌<◌, ◌≤◌, ◌↔◌, IsTrue, is_some, [], None, drop, length, IfOk, IfSome, OnErr};
ghost use Rattle.record_io.specs.Outside.{Gives};
ghost use Rattle.record_io.specs.Seen.{Counts};
ghost use Rattle.command_frame.specs.OpenLines.{NoneEnds};
ghost use Rattle.write_command.specs.LineFeeds.{LineEndsAt};

use crate::line_ends::LineEnds;
use record_io::{Failed, Source};
use std::marker::Model;

/// How many bytes are held at most.
const SIZE: usize = 65536;

/// Bytes of an input that were taken and not used yet, which contracts see as that list.
#[derive(Drop)]
pub(crate) struct HeldInput {
    bytes: [u8; SIZE],
    begin: usize,
    end: usize,
    ends: LineEnds,
}

impl Model for HeldInput {
    ghost use Rattle.std.specs.Prelude.{List, ℕ, ◌≤◌, slice_range};
    ghost use Rattle.write_command.specs.LineEnds.{KnowsEnds};

    ghost Value = { List ℕ };

    ghost view = { λ w. slice_range w.bytes w.begin w.end };

    ghost invariant = { λ w. (w.begin ≤ w.end) × (w.end ≤ 65536) × KnowsEnds w.bytes w.begin w.end w.ends.base w.ends.mask };
}

impl HeldInput {
    /// No bytes.
    pub fn new() -> HeldInput
        ensures { result ≡ [] }
    {
        HeldInput {
            bytes: [0; SIZE],
            begin: 0,
            end: 0,
            ends: LineEnds::none(),
        }
    }

    /// The bytes.
    pub fn as_slice(&self) -> &[u8]
        ensures value { result.now ≡ self.now }
        ensures short { length self.now ≤ 65536 }
    {
        &self.bytes[self.begin..self.end]
    }

    /// Whether there are no bytes.
    pub fn is_empty(&self) -> bool
        ensures { IsTrue result ↔ (self.now ≡ []) }
    {
        self.begin == self.end
    }

    /// How many bytes the first line has, where its end is held.
    #[inline(always)]
    pub fn line_end(&mut self) -> Option<usize>
        ensures found { IfSome result (LineEndsAt self.old) }
        ensures none { result ≡ None → NoneEnds self.old }
        ensures same { self.new ≡ self.old }
    {
        self.ends.first(&self.bytes, self.begin, self.end)
    }

    /// Drops the first line, of so many bytes, and its end.
    #[inline(always)]
    pub fn skip_line(&mut self, len: usize)
        requires { LineEndsAt self.old len }
        ensures { self.new ≡ drop (len + 1) self.old }
    {
        self.ends.pass(&self.bytes, self.begin, self.end);
        self.begin += len + 1;
    }

    /// Drops all bytes.
    pub fn clear(&mut self)
        ensures { self.new ≡ [] }
    {
        self.begin = 0;
        self.end = 0;
        self.ends = LineEnds::none();
    }

    /// Takes the next bytes of the input, at most so many, where none are held, and answers how many: 0 exactly
    /// at the end.
    pub fn fill<I: Source>(&mut self, input: &mut I, most: u64) -> Result<usize, Failed>
        requires empty { self.old ≡ [] }
        requires some { 0 < most }
        ensures count { IfOk result (λ n. length self.new ≡ n) }
        ensures fits { length self.new ≤ most }
        ensures given { Gives (I.left input.old) (I.left input.new) self.new }
        ensures at_end { IfOk result (λ n. IfSome (I.left input.old) (λ bytes. (n ≡ 0) ↔ (bytes ≡ []))) }
        ensures told { is_some (I.left input.new) ≡ is_some (I.left input.old) }
        ensures kept { OnErr result (self.new ≡ []) }
        ensures counts { Counts result (I.faults input.old) (I.faults input.new) }
    {
        self.begin = 0;
        self.end = 0;
        self.ends = LineEnds::none();
        let size = most.min(SIZE as u64) as usize;
        self.end = input.take(&mut self.bytes[..size])?;
        self.ends = LineEnds::of(&self.bytes);
        Ok(self.end)
    }
}

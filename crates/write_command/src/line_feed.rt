ghost use Rattle.std.specs.Prelude.{◌≡◌, ◌+◌, ◌^◌, ◌<◌, ◌≤◌, ℕ, [], ◌∷◌, ◌++◌, Option, Some, ◌⊎◌, true, false, length, take, option_map, unwrap_or, None, Ok, Err, IfOk, IfSome, OnOk, IsErr};
ghost use Rattle.record_io.specs.Calls.{OnlyCounts};
ghost use Rattle.command_frame.specs.OpenLines.{NoneEnds};
ghost use Rattle.write_command.specs.Input.{line_limit, taken_from};
ghost use Rattle.write_command.specs.LineFeeds.{AsksNothing, GivesLine, LineEndsAt, origin_of, text_of, rest_of};
ghost use Rattle.record_writer.specs.Feeds.{stop_alone};
ghost use Rattle.record_writer.specs.FeedSteps.{IsAtEnd};
ghost use Rattle.hex.specs.Hex.{decode_of};
ghost use Rattle.hex.specs.declared.error.FromHexError.{FromHexError};

use crate::held_input::HeldInput;
use hex::FromHexError;
use record_group::GroupBuffer;
use record_io::{Bytes, Failed, Source};
use record_writer::{FeedEnd, RecordFeed, Stop};
use std::alloc::{AllocError, Global};

/// The lines of an input as a feed of records.
///
/// A line is the bytes before a byte 10, or those after the last one if there are any, and has at most 2^24 bytes, or 2^25
/// hexadecimal digits.
/// Of the input at most `limit` bytes are read, and one more to see that it goes past, however often lines are asked for. At
/// most 64 KiB of it are held, beside the line that is given.
#[derive(Drop)]
pub struct LineFeed<'a, I: Source> {
    input: &'a mut I,
    hex: bool,
    /// How many more bytes are asked of the input: those that the limit still allows and one more, or none once its
    /// end was seen, or the byte past its limit, which is then held.
    asked: u64,
    held: HeldInput,
    /// How many bytes the last line had that was pulled, for which a long one takes room at once.
    room: usize,
    ghost all_given: { asked ≡ 0 → length held ≤ 1 },
    ghost ended: { asked ≡ 0 → held ≡ [] → unwrap_or (I.left input.now) [] ≡ [] },
}

impl<'a, I: Source> LineFeed<'a, I> {
    /// The lines of what the input has left, of which `limit` bytes are read, 2^40 or fewer. With `hex` each line has the
    /// digits of its record in the hexadecimal form. It takes no memory.
    pub fn new(_alloc: Global, input: &'a mut I, hex: bool, limit: u64) -> LineFeed<'a, I>
        requires limit { limit ≤ 2 ^ 40 }
        ensures rest { ⟦<LineFeed<'a, I> as RecordFeed>⟧.rest result
            ≡ option_map (λ bytes. taken_from bytes hex limit) (I.left input.old) }
        ensures bound { ⟦<LineFeed<'a, I> as RecordFeed>⟧.bound result ≡ limit + 1 }
        ensures faults { ⟦<LineFeed<'a, I> as RecordFeed>⟧.faults result ≡ I.faults input.old }
        ensures origin { ⟦<LineFeed<'a, I> as RecordFeed>⟧.origin result ≡ origin_of input.entry.ghost_name (limit + 1) (I.left input.old) }
    {
        LineFeed {
            input,
            hex,
            asked: limit + 1,
            held: HeldInput::new(),
            room: 0,
        }
    }

    /// How many bytes the next line has, where its end is held.
    fn line_end(&mut self) -> Option<usize>
        ensures found { IfSome result (LineEndsAt self.old.held) }
        ensures none { result ≡ None → NoneEnds self.old.held }
        ensures same_held { self.new.held ≡ self.old.held }
        ensures asks { AsksNothing self.old self.new (λ f. f.hex) (λ f. f.asked) (λ f. f.input.now) (λ f. f.input.ghost_name) }
    {
        self.held.line_end()
    }

    /// Takes bytes of the input where none are held, and answers whether some are held then.
    fn refill(&mut self) -> Result<bool, FeedEnd>
        ensures some { result ≡ Ok true → 0 < length self.new.held }
        ensures asking { result ≡ Ok true → 0 < self.new.asked }
        ensures at_end { result ≡ Ok false → (self.new.held ≡ []) × (self.new.asked ≡ 0) }
        ensures text { IfOk result (λ _. text_of self.new.held (I.left self.new.input.now)
            ≡ text_of self.old.held (I.left self.old.input.now)) }
        ensures bound { result ≡ Ok true
            → length self.new.held + self.new.asked ≡ length self.old.held + self.old.asked }
        ensures past { (s : Stop) → result ≡ Err (FeedEnd.Stop s) → (s ≡ Stop.InputTooLong)
            × (length self.old.held + self.old.asked ≡ 1)
            × IfSome (text_of self.old.held (I.left self.old.input.now)) (λ bytes. 0 < length bytes) }
        ensures never_rises { length self.new.held + self.new.asked ≤ length self.old.held + self.old.asked }
        ensures same_form { self.new.hex ≡ self.old.hex }
        ensures counts { OnlyCounts ⟦<LineFeed<'a, I> as RecordFeed>⟧.origin ⟦<LineFeed<'a, I> as RecordFeed>⟧.faults
            (result ≡ Err FeedEnd.Failed) self.old self.new }
    {
        self.fill()?;
        if self.held.is_empty() {
            return Ok(false);
        }
        if self.asked == 0 {
            return Err(FeedEnd::Stop(Stop::InputTooLong));
        }
        Ok(true)
    }

    /// Takes bytes of the input where none are held and some are still asked: as many as the limit allows, or the one past it.
    fn fill(&mut self) -> Result<(), Failed>
        ensures ended { OnOk result (self.new.held ≡ [] → self.new.asked ≡ 0) }
        ensures text { text_of self.new.held (I.left self.new.input.now) ≡ text_of self.old.held (I.left self.old.input.now) }
        ensures bound { 0 < length self.new.held
            → length self.new.held + self.new.asked ≡ length self.old.held + self.old.asked }
        ensures never_rises { length self.new.held + self.new.asked ≤ length self.old.held + self.old.asked }
        ensures same_form { self.new.hex ≡ self.old.hex }
        ensures counts { OnlyCounts ⟦<LineFeed<'a, I> as RecordFeed>⟧.origin ⟦<LineFeed<'a, I> as RecordFeed>⟧.faults
            (IsErr result) self.old self.new }
    {
        if self.asked == 0 || !self.held.is_empty() {
            return Ok(());
        }
        let allowed = self.asked - 1;
        let taken = self.held.fill(&mut *self.input, allowed.max(1))?;
        if taken == 0 {
            self.asked = 0;
            return Ok(());
        }
        self.asked -= taken as u64;
        Ok(())
    }

    /// The next line, and whether there is one.
    fn pull_line(&mut self, line: &mut Bytes) -> Result<bool, FeedEnd>
        ensures next { result ≡ Ok true → GivesLine self.old.hex (⟦<LineFeed<'a, I> as RecordFeed>⟧.rest self.old)
            (⟦<LineFeed<'a, I> as RecordFeed>⟧.rest self.new) line.new }
        ensures short { result ≡ Ok true → length line.new ≤ line_limit self.old.hex }
        ensures lowers { result ≡ Ok true → length self.new.held + self.new.asked + length line.new + 1 ≤ length self.old.held + self.old.asked }
        ensures at_end { result ≡ Ok false → IsAtEnd
            (⟦<LineFeed<'a, I> as RecordFeed>⟧.rest self.old)
            (⟦<LineFeed<'a, I> as RecordFeed>⟧.rest self.new) }
        ensures stop { (s : Stop) → result ≡ Err (FeedEnd.Stop s) → IfSome (⟦<LineFeed<'a, I> as RecordFeed>⟧.rest self.old) (λ r. r ≡ stop_alone s) }
        ensures never_rises { length self.new.held + self.new.asked ≤ length self.old.held + self.old.asked }
        ensures same_form { self.new.hex ≡ self.old.hex }
        ensures counts { OnlyCounts ⟦<LineFeed<'a, I> as RecordFeed>⟧.origin ⟦<LineFeed<'a, I> as RecordFeed>⟧.faults
            (result ≡ Err FeedEnd.Failed) self.old self.new }
    {
        line.clear();
        while self.refill()? {
            match self.grow(line)? {
                LineState::Ended => {
                    self.room = line.len();
                    return Ok(true);
                }
                LineState::GoesOn => {}
                LineState::TooLong => return Err(FeedEnd::Stop(Stop::TooLong)),
            }
        }
        Ok(!line.is_empty())
    }

    /// Moves bytes that are held to the end of a line, up to the next byte 10, unless the line would be too long.
    fn grow(&mut self, line: &mut Bytes) -> Result<LineState, AllocError>
        requires some { 0 < length self.old.held }
        requires asking { 0 < self.old.asked }
        requires short { length line.old ≤ line_limit self.old.hex }
        ensures ended { result ≡ Ok LineState.Ended → (n : ℕ) ×
            ((line.new ≡ line.old ++ take n self.old.held)
            × (self.old.held ≡ take n self.old.held ++ 10 ∷ self.new.held) × NoneEnds (take n self.old.held)) }
        ensures runs { result ≡ Ok LineState.GoesOn → (line.new ≡ line.old ++ self.old.held) ×
            (self.new.held ≡ [])
            × NoneEnds self.old.held }
        ensures long { result ≡ Ok LineState.TooLong → (n : ℕ) × (NoneEnds (take n self.old.held)
            × (n ≤ length self.old.held) × (line_limit self.old.hex < length line.old + n)) }
        ensures short { IfOk result (λ _. length line.new ≤ line_limit self.old.hex) }
        ensures kept { (result ≡ Ok LineState.TooLong) ⊎ IsErr result → self.new.held ≡
            self.old.held }
        ensures asking { 0 < self.new.asked }
        ensures asks { AsksNothing self.old self.new (λ f. f.hex) (λ f. f.asked) (λ f. f.input.now) (λ f. f.input.ghost_name) }
    {
        let end = self.line_end();
        let held = self.held.as_slice();
        let piece = &held[..end.unwrap_or(held.len())];
        if piece.len() > most_bytes(self.hex) - line.len() {
            return Ok(LineState::TooLong);
        }
        if end.is_none() {
            // Where there is no room for as much as the last line, each piece asks for its own.
            let _ = line.reserve(self.room.saturating_sub(line.len()));
        }
        line.push_all(piece)?;
        let Some(len) = end else {
            self.held.clear();
            return Ok(LineState::GoesOn);
        };
        self.held.skip_line(len);
        Ok(LineState::Ended)
    }
}

/// What became of a line that was to get more bytes.
#[derive(Clone, Copy, Debug)]
enum LineState {
    /// It is at its end.
    Ended,
    /// It has all bytes that were held, and no end yet.
    GoesOn,
    /// It would have more bytes than a line may have, and stays as it was.
    TooLong,
}

/// Puts the bytes that a line's hexadecimal digits stand for in their place, and answers whether it has such digits.
fn decode_digits(alloc: Global, line: &mut Bytes) -> Result<bool, AllocError>
    ensures decoded { result ≡ Ok true → decode_of line.old ≡ Ok line.new }
    ensures bad { result ≡ Ok false → (e : FromHexError) × (decode_of line.old ≡ Err e) }
{
    match hex::decode(alloc, line.as_slice()) {
        Ok(bytes) => {
            *line = Bytes::from(bytes);
            Ok(true)
        }
        Err(FromHexError::OutOfMemory) => Err(AllocError),
        Err(_) => Ok(false),
    }
}

/// How many bytes a line may have.
fn most_bytes(hex: bool) -> usize
    ensures { result ≡ line_limit hex }
{
    if hex { 1 << 25 } else { 1 << 24 }
}

impl<'a, I: Source> RecordFeed for LineFeed<'a, I> {
    ghost rest = { λ f. rest_of f.hex (length f.held + f.asked) (text_of f.held (I.left f.input.now)) };

    ghost bound = { λ f. length f.held + f.asked };

    ghost faults = { λ f. I.faults f.input.now };

    ghost origin = { λ f. origin_of f.input.ghost_name f.asked (I.left f.input.now) };

    fn pull(&mut self, alloc: Global, into: &mut Bytes) -> Result<bool, FeedEnd> {
        if !self.pull_line(into)? {
            return Ok(false);
        }
        if !self.hex {
            return Ok(true);
        }
        if !decode_digits(alloc, into)? {
            return Err(FeedEnd::Stop(Stop::BadLine));
        }
        Ok(true)
    }

    fn push_held(&mut self, into: &mut GroupBuffer) -> Result<bool, AllocError> {
        if self.hex || self.asked == 0 {
            return Ok(false);
        }
        let Some(len) = self.line_end() else {
            return Ok(false);
        };
        if !into.push_open(&self.held.as_slice()[..len])? {
            return Ok(false);
        }
        self.held.skip_line(len);
        Ok(true)
    }
}

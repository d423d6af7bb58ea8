// A chunk laid piece by piece.

ghost use Rattle.std.specs.Prelude.{◌≡◌, ◌+◌, ◌^◌, ◌<◌, ◌≤◌, [], ◌++◌, min, length, IfOk, OnOk, OnErr, IsErr};
ghost use Rattle.block_layout.specs.Layout.{end_of};
ghost use Rattle.block_layout.specs.NextPlaces.{IsNextPlace, IsOnBoundary, usable_from};
ghost use Rattle.record_io.specs.Outside.{TakesShort};
ghost use Rattle.record_io.specs.Buffers.{TakesAndHolds};
ghost use Rattle.record_io.specs.Calls.{OnlyCounts, PutsThrough, PutsWithin};
ghost use Rattle.meta_chunk.specs.Laid.{laid_bytes};
ghost use Rattle.ordered_writer.specs.Layings.{SameSpan, laid_between};

use block_layout::{BLOCK_HEADER_SIZE, BLOCK_SIZE, BlockHeader};
use record_io::{Failed, PutBuffer, Sink};

// Zero bytes, for padding.
pub(crate) const ZEROS: [u8; 4096] = [0; 4096];

// Lays a chunk from its begin to its end: its header, its data, which lies in two parts, and zero bytes behind them.
pub(crate) fn lay_chunk<const N: usize, M: Sink>(
    buffer: &mut PutBuffer<N>,
    sink: &mut M,
    begin: u64,
    end: u64,
    header: &[u8],
    front: &[u8],
    rest: &[u8],
) -> Result<(), Failed>
    requires room { end_of begin (length header.now + length (front.now ++ rest.now)) ≤ end }
    requires from_boundary { IsOnBoundary begin }
    requires to_boundary { IsOnBoundary end }
    requires in_reach { end ≤ 2 ^ 62 }
    ensures sink { PutsWithin M.taken M.lent M.faults result N buffer.old buffer.new
        (laid_bytes begin end (header.now ++ (front.now ++ rest.now))) sink.old sink.new }
{
    let mut laying = Laying {
        begin,
        end,
        place: begin,
    };
    laying.put(buffer, sink, header)?;
    laying.put_both(buffer, sink, front, rest)?;
    laying.finish(buffer, sink)
}

// A chunk that is laid from its begin to its end, and where its next byte goes.
#[derive(Drop)]
struct Laying {
    begin: u64,
    end: u64,
    place: u64,
    ghost begun: { begin ≤ place },
    ghost within: { place ≤ end },
    ghost next_place: { IsNextPlace place },
    ghost to_boundary: { IsOnBoundary end },
    ghost in_reach: { end ≤ 2 ^ 62 },
}

impl Laying {
    // Lays the next of the chunk's bytes.
    fn put<const N: usize, M: Sink>(
        &mut self,
        buffer: &mut PutBuffer<N>,
        sink: &mut M,
        bytes: &[u8],
    ) -> Result<(), Failed>
        requires room { end_of self.old.place (length bytes.now) ≤ self.old.end }
        ensures moved { OnOk result (self.new.place ≡ end_of self.old.place (length bytes.now)) }
        ensures span { SameSpan self.old.begin self.new.begin self.old.end self.new.end }
        ensures sink { PutsWithin M.taken M.lent M.faults result N buffer.old buffer.new
            (laid_between self.old.begin self.old.end self.old.place (end_of self.old.place (length bytes.now)) bytes.now) sink.old sink.new }
    {
        let mut at = 0;
        while at < bytes.len() {
            at += self.put_run(buffer, sink, &bytes[at..])?;
        }
        Ok(())
    }

    // Lays bytes and others behind them.
    fn put_both<const N: usize, M: Sink>(
        &mut self,
        buffer: &mut PutBuffer<N>,
        sink: &mut M,
        front: &[u8],
        rest: &[u8],
    ) -> Result<(), Failed>
        requires room { end_of self.old.place (length (front.now ++ rest.now)) ≤ self.old.end }
        ensures moved { OnOk result (self.new.place ≡ end_of self.old.place (length (front.now ++ rest.now))) }
        ensures span { SameSpan self.old.begin self.new.begin self.old.end self.new.end }
        ensures sink { PutsWithin M.taken M.lent M.faults result N buffer.old buffer.new
            (laid_between self.old.begin self.old.end self.old.place
            (end_of self.old.place (length (front.now ++ rest.now))) (front.now ++ rest.now)) sink.old sink.new }
    {
        self.put(buffer, sink, front)?;
        self.put(buffer, sink, rest)
    }

    // Lays zero bytes up to the end.
    fn finish<const N: usize, M: Sink>(
        &mut self,
        buffer: &mut PutBuffer<N>,
        sink: &mut M,
    ) -> Result<(), Failed>
        ensures sink { PutsWithin M.taken M.lent M.faults result N buffer.old buffer.new
            (laid_between self.old.begin self.old.end self.old.place self.old.end []) sink.old sink.new }
    {
        while self.place < self.end {
            self.put_run(buffer, sink, &ZEROS)?;
        }
        Ok(())
    }

    // Lays as many of the bytes as stand before the next block and before the end, behind the block header where one
    // stands at the place, and answers how many these are.
    fn put_run<const N: usize, M: Sink>(
        &mut self,
        buffer: &mut PutBuffer<N>,
        sink: &mut M,
        bytes: &[u8],
    ) -> Result<usize, Failed>
        requires some { 0 < length bytes.now }
        requires before_end { self.old.place < self.old.end }
        ensures some_put { IfOk result (λ n. 0 < n) }
        ensures within { IfOk result (λ n. n ≤ length bytes.now) }
        ensures moved { IfOk result (λ n. self.new.place ≡ end_of self.old.place n) }
        ensures span { SameSpan self.old.begin self.new.begin self.old.end self.new.end }
        ensures whole { OnOk result (TakesAndHolds (M.taken sink.old) (M.taken sink.new)
            (buffer.old ++ laid_between self.old.begin self.old.end self.old.place self.new.place bytes.now) buffer.new) }
        ensures front { OnErr result (TakesShort (M.taken sink.old) (M.taken sink.new)
            (buffer.old ++ laid_between self.old.begin self.old.end self.old.place
            (min (end_of self.old.place (length bytes.now)) self.old.end) bytes.now)) }
        ensures emptied { OnErr result (buffer.new ≡ []) }
        ensures fits { length buffer.new ≤ N }
        ensures sink { OnlyCounts M.lent M.faults (IsErr result) sink.old sink.new }
    {
        self.put_block_header(buffer, sink)?;
        let room = (BLOCK_SIZE - self.place % BLOCK_SIZE).min(self.end - self.place);
        let count = bytes.len().min(room as usize);
        buffer.put(sink, &bytes[..count])?;
        self.place += count as u64;
        Ok(count)
    }

    // Lays the block header that stands at the place, where one does.
    fn put_block_header<const N: usize, M: Sink>(
        &mut self,
        buffer: &mut PutBuffer<N>,
        sink: &mut M,
    ) -> Result<(), Failed>
        requires before_end { self.old.place < self.old.end }
        ensures moved { OnOk result (self.new.place ≡ usable_from self.old.place) }
        ensures before_end { OnOk result (self.new.place < self.new.end) }
        ensures span { SameSpan self.old.begin self.new.begin self.old.end self.new.end }
        ensures sink { PutsThrough M.taken M.lent M.faults result buffer.old buffer.new
            (laid_between self.old.begin self.old.end self.old.place (usable_from self.old.place) []) sink.old sink.new }
    {
        if self.place % BLOCK_SIZE != 0 {
            return Ok(());
        }
        let header = BlockHeader {
            previous: self.place - self.begin,
            next: self.end - self.place,
        };
        buffer.put(sink, &header.to_bytes())?;
        self.place += BLOCK_HEADER_SIZE;
        Ok(())
    }
}

ghost use Rattle.std.specs.Prelude.{◌≡◌, ◌+◌, ◌≤◌, [], ◌++◌, length, map, take};
ghost use Rattle.std.specs.List.{concat};
ghost use Rattle.record_io.specs.Calls.{PutsTo, PutsThrough};

use crate::outside::{Failed, Sink, put_all};
use std::marker::Model;

/// Bytes on their way to a sink, which takes them in whole pieces of `N` bytes that begin at multiples of `N` in the file.
///
/// It stands beside the sink, which each call is given: always the same one. It takes no memory. What is held when it
/// is dropped is lost, so `flush` comes last. With `N` at 0 it holds nothing, and each piece goes straight through.
#[derive(Debug, Drop)]
pub struct PutBuffer<const N: usize> {
    held: [u8; N],
    count: usize,
    // How many bytes come between what is held and the next multiple of `N`. At a multiple nothing is held.
    room: usize,
}

impl<const N: usize> Model for PutBuffer<N> {
    ghost use Rattle.std.specs.Prelude.{List, ℕ, ◌+◌, ◌≤◌, take};

    ghost Value = { List ℕ };

    ghost view = { λ b. take b.count b.held };

    ghost invariant = { λ b. b.count + b.room ≤ N };
}

impl<const N: usize> PutBuffer<N> {
    /// A buffer that holds nothing, before the first byte of a file.
    pub fn new() -> PutBuffer<N>
        ensures { result ≡ [] }
    {
        PutBuffer::at(0)
    }

    /// A buffer that holds nothing, before the byte of a file at an offset.
    pub fn at(offset: u64) -> PutBuffer<N>
        ensures { result ≡ [] }
    {
        PutBuffer {
            held: [0; N],
            count: 0,
            room: room_at::<N>(offset),
        }
    }

    /// Puts the piece behind what is held. The sink takes what reaches the next multiple of `N`, with what is held, and then
    /// whole pieces of `N` bytes, which are not copied. The rest is held.
    ///
    /// # Errors
    ///
    /// `Failed` only where the sink failed. It took a front of what was held and the piece and not all, and nothing is held.
    pub fn put<M: Sink>(&mut self, sink: &mut M, piece: &[u8]) -> Result<(), Failed>
        ensures sink { PutsThrough M.taken M.lent M.faults result self.old self.new piece.now sink.old sink.new }
        ensures fits { length self.new ≤ N }
    {
        if piece.len() < self.room {
            self.room -= piece.len();
            hold(&mut self.held, &mut self.count, piece);
            return Ok(());
        }
        let (front, rest) = piece.split_at(self.room);
        self.put_out(sink, front)?;
        self.put_whole(sink, rest)
    }

    /// As `put`, but a piece of more than a quarter of `N` is never copied: what is held goes out, and then the piece. The
    /// multiples of `N` are counted from its end on.
    ///
    /// # Errors
    ///
    /// `Failed` only where the sink failed. It took a front of what was held and the piece and not all, and nothing is held.
    pub fn put_straight<M: Sink>(&mut self, sink: &mut M, piece: &[u8]) -> Result<(), Failed>
        ensures sink { PutsThrough M.taken M.lent M.faults result self.old self.new piece.now sink.old sink.new }
        ensures fits { length self.new ≤ N }
    {
        if piece.len() <= N / 4 {
            return self.put(sink, piece);
        }
        self.room = 0;
        self.flush(sink)?;
        put_all(sink, piece)
    }

    /// Puts pieces one behind another, each as `put` does.
    ///
    /// # Errors
    ///
    /// `Failed` only where the sink failed. It took a front of what was held and the pieces and not all, and nothing is held.
    pub fn put_each<M: Sink>(&mut self, sink: &mut M, pieces: &[&[u8]]) -> Result<(), Failed>
        ensures sink { PutsThrough M.taken M.lent M.faults result self.old self.new (concat (map (λ piece. piece.now) pieces.now)) sink.old sink.new }
    {
        for piece in pieces {
            self.put(sink, piece)?;
        }
        Ok(())
    }

    /// Puts out what is held. Nothing is held then.
    ///
    /// # Errors
    ///
    /// `Failed` only where the sink failed. It took a front of what was held and not all.
    pub fn flush<M: Sink>(&mut self, sink: &mut M) -> Result<(), Failed>
        ensures sink { PutsTo M.taken M.lent M.faults result self.old sink.old sink.new }
        ensures emptied { self.new ≡ [] }
    {
        let count = self.count;
        self.count = 0;
        put_all(sink, &self.held[..count])
    }

    // Puts out what is held and a piece that reaches the next multiple of `N`.
    fn put_out<M: Sink>(&mut self, sink: &mut M, piece: &[u8]) -> Result<(), Failed>
        requires { length self.old + length piece.now ≤ N }
        ensures sink { PutsTo M.taken M.lent M.faults result (self.old ++ piece.now) sink.old sink.new }
        ensures emptied { self.new ≡ [] }
    {
        self.room = 0;
        if self.count == 0 {
            return put_all(sink, piece);
        }
        hold(&mut self.held, &mut self.count, piece);
        self.flush(sink)
    }

    // Puts a piece that begins at a multiple of `N`, and holds what is left of it behind the last multiple.
    fn put_whole<M: Sink>(&mut self, sink: &mut M, piece: &[u8]) -> Result<(), Failed>
        requires { self.old ≡ [] }
        ensures sink { PutsThrough M.taken M.lent M.faults result [] self.new piece.now sink.old sink.new }
        ensures fits { length self.new ≤ N }
    {
        let over = piece.len().checked_rem(N).unwrap_or(0);
        let (whole, last) = piece.split_at(piece.len() - over);
        put_all(sink, whole)?;
        self.room = if over > 0 { N - over } else { 0 };
        self.count = 0;
        hold(&mut self.held, &mut self.count, last);
        Ok(())
    }
}

// How many bytes come between an offset and the next multiple of `N`.
fn room_at<const N: usize>(offset: u64) -> usize
    ensures { result ≤ N }
{
    match offset.checked_rem(N as u64) {
        Some(over) if over > 0 => N - over as usize,
        _ => 0,
    }
}

// Copies a piece behind the bytes that are held.
fn hold(held: &mut [u8], count: &mut usize, piece: &[u8])
    requires { count.old + length piece.now ≤ length held.old }
    ensures held { take count.new held.new ≡ take count.old held.old ++ piece.now }
    ensures count { count.new ≡ count.old + length piece.now }
{
    let end = *count + piece.len();
    held[*count..end].copy_from_slice(piece);
    *count = end;
}

ghost use Rattle.std.specs.Prelude.{◌≡◌, ◌+◌, ◌-◌, ◌<◌, ◌≤◌, ◌↔◌, [], length, take, max, min, slice_range, Some, IsTrue, IsErr, IfOk, IfSome, IsSomeAnd, OnOk, OnErr};
ghost use Rattle.record_io.specs.Calls.{AsksUpTo, HandlesSome};
ghost use Rattle.real_files.specs.AheadStores.{IsPartOf, LiesIn};

use record_io::{Failed, Store};
use std::marker::Model;

/// Bytes that stand at a place of a store, of which there are up to `N`.
#[derive(Debug, Drop)]
pub(crate) struct HeldPart<const N: usize> {
    bytes: [u8; N],
    count: usize,
    from: u64,
}

impl<const N: usize> Model for HeldPart<N> {
    ghost use Rattle.std.specs.Prelude.{◌≤◌, take};
    ghost use Rattle.real_files.specs.AheadStores.{Part};

    ghost Value = { Part };

    ghost view = { λ p. record { from = p.from; bytes = take p.count p.bytes } };

    ghost invariant = { λ p. p.count ≤ N };
}

impl<const N: usize> HeldPart<N> {
    /// No bytes. It takes no memory.
    pub(crate) fn new() -> HeldPart<N>
        ensures { result.bytes ≡ [] }
    {
        HeldPart {
            bytes: [0; N],
            count: 0,
            from: 0,
        }
    }

    /// Holds no bytes any more.
    pub(crate) fn clear(&mut self)
        ensures { self.new.bytes ≡ [] }
    {
        self.count = 0;
    }

    /// Puts bytes that begin at a place of the store into the front of the buffer, and answers how many: at least 1. Where
    /// the store is asked it is for at most so many and `N`, or for as many as the buffer has room for.
    pub(crate) fn serve<S: Store>(
        &mut self,
        store: &mut S,
        at: u64,
        size: u64,
        most: usize,
        buf: &mut [u8],
    ) -> Result<usize, Failed>
        requires told { S.told store.old ≡ Some size }
        requires within { at + length buf.old ≤ size }
        requires room { 0 < length buf.old }
        requires some { 0 < most }
        requires part { IsPartOf (S.bytes store.old) self.old }
        ensures some { HandlesSome result (length buf.old) }
        ensures given { IfOk result (λ n. IfSome (S.bytes store.old) (λ file. take n buf.new ≡ slice_range file at (at + n))) }
        ensures part { IsPartOf (S.bytes store.new) self.new }
        ensures store { AsksUpTo S.bytes S.told S.handed S.name S.faults (IsErr result)
            (max (min most N) (length buf.old))
            store.old store.new }
    {
        if !self.holds(at) {
            if buf.len() >= N / 2 {
                return ask(store, at, buf);
            }
            self.fill(store, at, size, most)?;
        }
        Ok(self.give(at, buf))
    }

    // Whether the byte at this place is held.
    fn holds(&self, at: u64) -> bool
        ensures { IsTrue result ↔ LiesIn self.now at }
    {
        at >= self.from && at - self.from < self.count as u64
    }

    // Copies what is held from this place on into the front of the buffer, and answers how many bytes.
    fn give(&self, at: u64, buf: &mut [u8]) -> usize
        requires held { LiesIn self.now at }
        requires room { 0 < length buf.old }
        ensures some { 0 < result }
        ensures fits { result ≤ length buf.old }
        ensures within { at + result ≤ self.now.from + length self.now.bytes }
        ensures given { take result buf.new ≡ slice_range self.now.bytes (at - self.now.from) (at - self.now.from + result) }
    {
        let bytes = &self.bytes[..];
        let held = &bytes[(at - self.from) as usize..self.count];
        let count = held.len().min(buf.len());
        buf[..count].copy_from_slice(&held[..count]);
        count
    }

    // Reads at most so many bytes from this place on. After a failure nothing is held.
    fn fill<S: Store>(
        &mut self,
        store: &mut S,
        at: u64,
        size: u64,
        most: usize,
    ) -> Result<(), Failed>
        requires told { S.told store.old ≡ Some size }
        requires below { at < size }
        requires room { 0 < N }
        requires wanted { 0 < most }
        ensures held { OnOk result (LiesIn self.new at) }
        ensures part { IsPartOf (S.bytes store.new) self.new }
        ensures emptied { OnErr result (self.new.bytes ≡ []) }
        ensures store { AsksUpTo S.bytes S.told S.handed S.name S.faults (IsErr result) (min most N)
            store.old store.new }
    {
        self.clear();
        let count = (size - at).min(most.min(N) as u64) as usize;
        self.count = ask(store, at, &mut self.bytes[..count])?;
        self.from = at;
        Ok(())
    }
}

// Reads bytes that all lie within the size that the store told.
fn ask<S: Store>(store: &mut S, at: u64, buf: &mut [u8]) -> Result<usize, Failed>
    requires within { IsSomeAnd (S.told store.old) (λ size. at + length buf.old ≤ size) }
    requires room { 0 < length buf.old }
    ensures some { HandlesSome result (length buf.old) }
    ensures given { IfOk result (λ n. IfSome (S.bytes store.old) (λ file. take n buf.new ≡ slice_range file at (at + n))) }
    ensures store { AsksUpTo S.bytes S.told S.handed S.name S.faults (IsErr result) (length buf.old)
        store.old store.new }
{
    store.read_at(at, buf)
}

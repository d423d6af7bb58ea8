ghost use Rattle.std.specs.Prelude.{◌≡◌, ◌+◌, ◌<◌, ◌≤◌, length, None, Some, IfOk, IsSomeAnd, OnErr, max, min};
ghost use Rattle.record_io.specs.Seen.{TellsSize, ReadsPiece, CutsAt, GrowsBy};
ghost use Rattle.real_files.specs.AheadStores.{PassesOn, most_asked, ahead_seen, told_by};

use crate::held_part::HeldPart;
use record_io::{Device, Failed, Store, counted, fault};
use std::marker::Model;

/// The bytes of a page: what is asked for is a multiple of it, where nothing is read ahead.
const PAGE: usize = 4096;

/// A store or a device over another one, of which it holds up to 64 KiB.
pub type ReadAhead<S> = ReadAheadBy<S, 65_536>;

/// A store or a device over another one that it owns, of whose bytes it holds up to `N`, so that small requests cost no call
/// of the other one. It takes no memory.
///
/// A request for bytes that are held is served from there. A request of at least half of `N` that isn't goes straight
/// through. Any other that goes on where the last answer ended is served once up to `N` bytes from there on were read ahead,
/// and one at another place once what it wants was read, in pages of 4 KiB. None is read past the told size. After a cut and a put
/// nothing is held.
#[derive(Drop)]
pub struct ReadAheadBy<S: Store, const N: usize> {
    inner: S,
    told: Option<u64>,
    held: HeldPart<N>,
    ended: Option<u64>,
    handed: u64,
    faults: u64,
}

impl<S: Store, const N: usize> Model for ReadAheadBy<S, N> {
    ghost use Rattle.real_files.specs.AheadStores.{ReadingAhead, IsReadingAhead};

    ghost Value = { ReadingAhead };

    ghost view = { λ s. record { bytes = S.bytes s.inner; said = s.told; ended = s.ended; handed = s.handed; inner_handed = S.handed s.inner; faults = s.faults; inner_faults = S.faults s.inner; name = S.name s.inner } };

    ghost invariant = { λ s. IsReadingAhead (S.bytes s.inner) (S.told s.inner) s.told s.held s.faults };
}

impl<S: Store + Drop, const N: usize> ReadAheadBy<S, N> {
    /// The bytes of this store, none of them held, and its size not told yet.
    pub fn new(inner: S) -> ReadAheadBy<S, N>
        ensures { result ≡ record { bytes = S.bytes inner; said = None; ended = None; handed = 0; inner_handed = S.handed inner; faults = 0; inner_faults = S.faults inner; name = S.name inner } }
    {
        ReadAheadBy {
            inner,
            told: None,
            held: HeldPart::new(),
            ended: None,
            handed: 0,
            faults: 0,
        }
    }

    // How many bytes are asked for at most, to answer a request of so many at a place.
    fn most_asked(&self, at: u64, wanted: usize) -> usize
        requires { 0 < wanted }
        ensures some { 0 < result }
        ensures most { result ≤ most_asked N self.now.ended at wanted }
    {
        if self.ended == Some(at) {
            N.max(wanted)
        } else {
            wanted.div_ceil(PAGE).saturating_mul(PAGE)
        }
    }
}

impl<S: Store + Drop, const N: usize> Store for ReadAheadBy<S, N> {
    ghost use Rattle.real_files.specs.AheadStores.{told_by-sized};

    ghost bytes = { λ s. s.bytes };

    ghost told = { λ s. told_by s.said s.bytes };

    ghost handed = { λ s. s.handed };

    ghost faults = { λ s. s.faults };

    ghost name = { λ s. s.name };

    ghost sized = { λ s. told_by-sized s.said s.bytes };

    fn size(&mut self) -> Result<u64, Failed>
        ensures tells { TellsSize result (ahead_seen self.old) (ahead_seen self.new) }
        ensures passes { PassesOn result self.old self.new }
        ensures same_ended { self.new.ended ≡ self.old.ended }
        ensures same_inner_handed { self.new.inner_handed ≡ self.old.inner_handed }
    {
        let size = counted(self.inner.size(), &mut self.faults)?;
        self.told = Some(size);
        Ok(size)
    }

    fn read_at(&mut self, at: u64, buf: &mut [u8]) -> Result<usize, Failed>
        requires below { IsSomeAnd (told_by self.old.said self.old.bytes) (λ size. at < size) }
        requires room { 0 < length buf.old }
        ensures reads { ReadsPiece result at (length buf.old) buf.new (ahead_seen self.old) (ahead_seen self.new) }
        ensures passes { PassesOn result self.old self.new }
        ensures ended { IfOk result (λ n. self.new.ended ≡ Some (at + n)) }
        ensures same_ended { OnErr result (self.new.ended ≡ self.old.ended) }
        ensures inner_handed { self.new.inner_handed
            ≤ self.old.inner_handed + min (most_asked N self.old.ended at (length buf.old))
            (max N (length buf.old)) }
    {
        let Some(size) = self.told else {
            return Err(fault(&mut self.faults));
        };
        let asked = self.most_asked(at, buf.len());
        let most = (size - at).min(buf.len() as u64) as usize;
        let front = &mut buf[..most];
        let given = self.held.serve(&mut self.inner, at, size, asked, front);
        let count = counted(given, &mut self.faults)?;
        self.handed = self.handed.saturating_add(count as u64);
        self.ended = Some(at + count as u64);
        Ok(count)
    }
}

impl<G: Device + Drop, const N: usize> Device for ReadAheadBy<G, N> {
    fn cut(&mut self, at: u64) -> Result<(), Failed>
        requires { IsSomeAnd (told_by self.old.said self.old.bytes) (λ size. at ≤ size) }
        ensures cuts { CutsAt result at (ahead_seen self.old) (ahead_seen self.new) }
        ensures passes { PassesOn result self.old self.new }
        ensures same_inner_handed { self.new.inner_handed ≡ self.old.inner_handed }
    {
        self.told = None;
        self.held.clear();
        counted(self.inner.cut(at), &mut self.faults)
    }

    fn put(&mut self, piece: &[u8]) -> Result<usize, Failed>
        requires { 0 < length piece.now }
        ensures grows { GrowsBy result piece.now (ahead_seen self.old) (ahead_seen self.new) }
        ensures passes { PassesOn result self.old self.new }
        ensures same_inner_handed { self.new.inner_handed ≡ self.old.inner_handed }
    {
        self.told = None;
        self.held.clear();
        counted(self.inner.put(piece), &mut self.faults)
    }
}

//! A real file that is read or grown, unless it is one that a standard stream is.
ghost use Rattle.std.specs.Prelude.{◌≡◌, ◌<◌, ◌≤◌, length, take, None, Some, true, IfOk, IsSomeAnd, OnOk};
ghost use Rattle.record_io.specs.Edge.{AppendsPiece, EndsBehind, ReadsAt, StaysOpen, unopened};
ghost use Rattle.record_io.specs.Seen.{CutsAt, GrowsBy, ReadsPiece, TellsSize};
ghost use Rattle.real_files.specs.Apart.{KeepsApart, apart_seen, unused};

use crate::apart::Apart;
use crate::streams::Behind;
use record_io::{Device, Failed, NamedFile, Opening, ReadAppend, ReadOnly, Store, counted};
use std::marker::Model;
use std::rt::Files;

/// A file that is read or grown, unless it is one of the given streams: what goes there would change it while it is read or stand
/// behind its records, or its own bytes would come in as lines.
///
/// The first call that asks its size or puts to it looks whether it is apart. Where it isn't, each such call fails, and the file
/// is neither opened nor grown. It takes no memory.
#[derive(Drop)]
pub struct ApartFile<'a, R: Files, O: Opening> {
    apart: Apart<'a, R>,
    file: NamedFile<'a, R, O>,
    faults: u64,
}

/// One that is read.
pub type ApartStore<'a, R> = ApartFile<'a, R, ReadOnly>;

/// One that is read, cut and grown at its end, and made if it isn't there.
pub type ApartDevice<'a, R> = ApartFile<'a, R, ReadAppend>;

impl<'a, R: Files, O: Opening> Model for ApartFile<'a, R, O> {
    ghost use Rattle.std.specs.Prelude.{◌≡◌, ◌<◌, ◌^◌, Some, true, is_some};
    ghost use Rattle.record_io.specs.Edge.{Opened};
    ghost use Rattle.real_files.specs.Apart.{ApartFrom};

    ghost Value = { ApartFrom Opened };

    ghost view = { λ f. record { apart = f.apart.seen; file = f.file; faults = f.faults } };

    ghost invariant = { λ f. (f.faults < 2 ^ 64) × (is_some f.file.told ≡ true → f.apart.seen ≡ Some true) };
}

impl<'a, R: Files, O: Opening> ApartFile<'a, R, O> {
    /// The file of this name, which is not opened yet, apart from those behind streams.
    pub fn named(rt: &'a R, path: &'a str, streams: &'a [Behind]) -> ApartFile<'a, R, O>
        ensures { result ≡ unused (unopened path.now) }
    {
        ApartFile {
            apart: Apart::new(rt, path, &[], streams),
            file: NamedFile::named(rt, path),
            faults: 0,
        }
    }
}

impl<'a, R: Files, O: Opening> Store for ApartFile<'a, R, O> {
    ghost bytes = { λ _. None };

    ghost told = { λ f. f.file.told };

    ghost handed = { λ f. f.file.handed };

    ghost faults = { λ f. f.faults };

    ghost sized = { λ _. tt };

    fn size(&mut self) -> Result<u64, Failed>
        ensures tells { TellsSize result (apart_seen self.old) (apart_seen self.new) }
        ensures keeps { KeepsApart (StaysOpen result self.old.file self.new.file) result self.old self.new }
        ensures ends { IfOk result (λ n. self.new.file.end ≡ Some n) }
    {
        self.apart.look(&mut self.faults)?;
        counted(self.file.size(), &mut self.faults)
    }

    fn read_at(&mut self, at: u64, buf: &mut [u8]) -> Result<usize, Failed>
        requires below { IsSomeAnd self.old.file.told (λ size. at < size) }
        ensures reads { ReadsPiece result at (length buf.old) buf.new (apart_seen self.old) (apart_seen self.new) }
        ensures keeps { KeepsApart (StaysOpen result self.old.file self.new.file) result self.old self.new }
        ensures apart { self.new.apart ≡ Some true }
        ensures same_opened { self.new.file.opened ≡ self.old.file.opened }
        ensures same_end { self.new.file.end ≡ self.old.file.end }
        ensures bytes { IfOk result (λ n. (before : R.File) × (after : R.File) × ReadsAt R.File.stream_position R.File.remaining before after at (take n buf.new)) }
    {
        counted(self.file.read_at(at, buf), &mut self.faults)
    }
}

impl<'a, R: Files> Device for ApartFile<'a, R, ReadAppend> {
    fn cut(&mut self, at: u64) -> Result<(), Failed>
        requires { IsSomeAnd self.old.file.told (λ size. at ≤ size) }
        ensures cuts { CutsAt result at (apart_seen self.old) (apart_seen self.new) }
        ensures keeps { KeepsApart (StaysOpen result self.old.file self.new.file) result self.old self.new }
        ensures apart { self.new.apart ≡ Some true }
        ensures same_opened { self.new.file.opened ≡ self.old.file.opened }
        ensures ends { OnOk result (self.new.file.end ≡ Some at) }
    {
        counted(self.file.cut(at), &mut self.faults)
    }

    fn put(&mut self, piece: &[u8]) -> Result<usize, Failed>
        ensures grows { GrowsBy result piece.now (apart_seen self.old) (apart_seen self.new) }
        ensures keeps { KeepsApart (StaysOpen result self.old.file self.new.file) result self.old self.new }
        ensures appends { AppendsPiece result piece.now self.old.file.contents
            self.new.file.contents }
        ensures ends { IfOk result (λ n. EndsBehind self.old.file.end self.new.file.end n) }
    {
        self.apart.look(&mut self.faults)?;
        counted(self.file.put(piece), &mut self.faults)
    }
}

//! A real file that is made, unless it is one that is read or that a standard stream is.
ghost use Rattle.std.specs.Prelude.{◌≡◌, None};
ghost use Rattle.record_io.specs.Edge.{AppendsPiece, StaysMade, unmade};
ghost use Rattle.record_io.specs.Seen.{TakesPiece};
ghost use Rattle.real_files.specs.Apart.{KeepsApart, made_seen, unused};

use crate::apart::Apart;
use crate::streams::Behind;
use record_io::{Failed, FileSink, Sink, counted};
use std::marker::Model;
use std::rt::Files;

/// A file that is made as by `FileSink`, unless it is one of the given files or streams, whose bytes would be lost.
///
/// The first call looks whether it is apart. Where it isn't, each call fails, and the file is neither opened nor emptied. It
/// takes no memory.
#[derive(Drop)]
pub struct ApartSink<'a, R: Files> {
    apart: Apart<'a, R>,
    file: FileSink<'a, R>,
    faults: u64,
}

impl<'a, R: Files> Model for ApartSink<'a, R> {
    ghost use Rattle.std.specs.Prelude.{◌<◌, ◌^◌};
    ghost use Rattle.record_io.specs.Edge.{Writing};
    ghost use Rattle.real_files.specs.Apart.{ApartFrom};

    ghost Value = { ApartFrom Writing };

    ghost view = { λ s. record { apart = s.apart.seen; file = s.file; faults = s.faults } };

    ghost invariant = { λ s. s.faults < 2 ^ 64 };
}

impl<'a, R: Files> ApartSink<'a, R> {
    /// The file of this name, which is not made yet, apart from those of the paths of files and from those behind streams.
    pub fn named(
        rt: &'a R,
        path: &'a str,
        files: &'a [String],
        streams: &'a [Behind],
    ) -> ApartSink<'a, R>
        ensures { result ≡ unused (unmade path.now) }
    {
        ApartSink {
            apart: Apart::new(rt, path, files, streams),
            file: FileSink::named(rt, path),
            faults: 0,
        }
    }
}

impl<'a, R: Files> Sink for ApartSink<'a, R> {
    ghost taken = { λ _. None };

    ghost faults = { λ s. s.faults };

    fn put(&mut self, piece: &[u8]) -> Result<usize, Failed>
        ensures takes { TakesPiece result piece.now (made_seen self.old) (made_seen self.new) }
        ensures keeps { KeepsApart (StaysMade result self.old.file self.new.file) result self.old self.new }
        ensures appends { AppendsPiece result piece.now self.old.file.contents
            self.new.file.contents }
    {
        self.apart.look(&mut self.faults)?;
        counted(self.file.put(piece), &mut self.faults)
    }
}

//! Real files as sinks, which show none of their bytes to a proof.
ghost use Rattle.std.specs.Prelude.{◌≡◌, None};
ghost use Rattle.record_io.specs.Seen.{TakesPiece};
ghost use Rattle.record_io.specs.Edge.{AppendsPiece, StaysMade, unmade, writing_seen};

use crate::outside::{Failed, Sink, fault};
use crate::std_calls::put_to;
use std::fs;
use std::marker::Model;
use std::rt::Files;

/// A file that is written from its front, reached through the runtime by its name.
///
/// It is made, and so made empty, at the first call. Where that fails, each call fails.
#[derive(Drop)]
pub struct FileSink<'a, R: Files> {
    rt: &'a R,
    path: &'a str,
    file: Option<Result<R::File, Failed>>,
    faults: u64,
}

impl<'a, R: Files> Model for FileSink<'a, R> {
    ghost use Rattle.std.specs.Prelude.{◌<◌, ◌^◌, is_ok, option_map};
    ghost use Rattle.record_io.specs.Edge.{Writing, written};

    ghost Value = { Writing };

    ghost view = { λ s. record { path = s.path.now; opened = option_map is_ok s.file; contents = written R.File.contents s.file; faults = s.faults } };

    ghost invariant = { λ s. s.faults < 2 ^ 64 };
}

impl<'a, R: Files> FileSink<'a, R> {
    /// The file of this name, which is not made yet.
    pub fn named(rt: &'a R, path: &'a str) -> FileSink<'a, R>
        ensures { result ≡ unmade path.now }
    {
        FileSink {
            rt,
            path,
            file: None,
            faults: 0,
        }
    }
}

impl<'a, R: Files> Sink for FileSink<'a, R> {
    ghost taken = { λ _. None };

    ghost faults = { λ s. s.faults };

    fn put(&mut self, piece: &[u8]) -> Result<usize, Failed>
        ensures takes { TakesPiece result piece.now (writing_seen self.old) (writing_seen self.new) }
        ensures appends { AppendsPiece result piece.now self.old.contents self.new.contents }
        ensures stays { StaysMade result self.old self.new }
    {
        let (rt, path) = (self.rt, self.path);
        match self
            .file
            .get_or_insert_with(|| fs::create(rt, path).or(Err(Failed)))
        {
            Ok(file) => put_to(file, piece, &mut self.faults),
            Err(_) => Err(fault(&mut self.faults)),
        }
    }
}

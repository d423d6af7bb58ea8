//! Real files as stores and as devices, which show none of their bytes to a proof.
ghost use Rattle.std.specs.Prelude.{◌≡◌, ◌<◌, ◌≤◌, length, take, None, Some, IfOk, IfSome, IsSomeAnd, OnOk};
ghost use Rattle.record_io.specs.FaultCounts.{faults_after};
ghost use Rattle.record_io.specs.Seen.{TellsSize, ReadsPiece, CutsAt, GrowsBy};
ghost use Rattle.record_io.specs.Edge.{AppendsPiece, EndsBehind, ReadsAt, StaysOpen, opened_seen, unopened};

use crate::outside::{Device, Failed, Store, counted, fault};
use crate::std_calls::{put_to, read_from, size_of};
use std::fs::{self, OpenFile, OpenOptions};
use std::marker::{Model, PhantomData};
use std::rt::Files;

/// How a file is opened.
pub trait Opening {
    /// Opens the file of this name. What is no regular file isn't opened: another may keep the caller waiting, even where
    /// it is opened.
    fn open<R: Files>(rt: &R, path: &str) -> Result<R::File, Failed>;
}

/// To be read, if it is there.
#[derive(Drop)]
pub struct ReadOnly;

impl Opening for ReadOnly {
    fn open<R: Files>(rt: &R, path: &str) -> Result<R::File, Failed> {
        match fs::metadata(rt, path) {
            Ok(about) if about.is_file() => fs::open(rt, path).or(Err(Failed)),
            _ => Err(Failed),
        }
    }
}

/// To be read, and to be written at its end, and made if it isn't there.
#[derive(Drop)]
pub struct ReadAppend;

impl Opening for ReadAppend {
    fn open<R: Files>(rt: &R, path: &str) -> Result<R::File, Failed> {
        match fs::metadata(rt, path) {
            Ok(about) if !about.is_file() => Err(Failed),
            _ => {
                let mut options = OpenOptions::new();
                options.read(true).append(true).create(true);
                options.open(rt, path).or(Err(Failed))
            }
        }
    }
}

/// A file that is reached through the runtime by its name, and opened at the first call. Where it couldn't be opened, each
/// call fails.
#[derive(Drop)]
pub struct NamedFile<'a, R: Files, O: Opening> {
    rt: &'a R,
    path: &'a str,
    opening: PhantomData<O>,
    file: Option<Result<R::File, Failed>>,
    told: Option<u64>,
    end: Option<u64>,
    handed: u64,
    faults: u64,
}

/// A file that is read at any place.
pub type FileStore<'a, R> = NamedFile<'a, R, ReadOnly>;

/// A file that is read at any place, cut, and grown at its end, and made if it isn't there.
///
/// What is put goes to the end of the file, so no byte before it is written over. Where the file ends is known from the size
/// that was told last, and from what was cut and put since. A cut and a put look at the size first, and fail where the file is
/// longer or shorter than that: somebody else has changed it, or a put was written and couldn't be flushed. They leave it as
/// it is then, until the size is asked again. A change that comes between that look and the cut or the put is found by the
/// next one alone, and one that keeps the size isn't found.
pub type FileDevice<'a, R> = NamedFile<'a, R, ReadAppend>;

impl<'a, R: Files, O: Opening> Model for NamedFile<'a, R, O> {
    ghost use Rattle.std.specs.Prelude.{◌<◌, ◌^◌, is_ok, option_map};
    ghost use Rattle.record_io.specs.Edge.{Opened, written};

    ghost Value = { Opened };

    ghost view = { λ f. record { path = f.path.now; opened = option_map is_ok f.file; told = f.told; end = f.end; contents = written R.File.contents f.file; handed = f.handed; faults = f.faults } };

    ghost invariant = { λ f. f.faults < 2 ^ 64 };
}

impl<'a, R: Files, O: Opening> NamedFile<'a, R, O> {
    /// The file of this name, which is not opened yet. It takes no memory.
    pub fn named(rt: &'a R, path: &'a str) -> NamedFile<'a, R, O>
        ensures { result ≡ unopened path.now }
    {
        NamedFile {
            rt,
            path,
            opening: PhantomData,
            file: None,
            told: None,
            end: None,
            handed: 0,
            faults: 0,
        }
    }
}

impl<'a, R: Files, O: Opening> Store for NamedFile<'a, R, O> {
    ghost bytes = { λ _. None };

    ghost told = { λ f. f.told };

    ghost handed = { λ f. f.handed };

    ghost faults = { λ f. f.faults };

    ghost sized = { λ _. tt };

    fn size(&mut self) -> Result<u64, Failed>
        ensures tells { TellsSize result (opened_seen self.old) (opened_seen self.new) }
        ensures stays { StaysOpen result self.old self.new }
        ensures ends { IfOk result (λ n. self.new.end ≡ Some n) }
    {
        let (rt, path) = (self.rt, self.path);
        match self.file.get_or_insert_with(|| O::open(rt, path)) {
            Ok(file) => {
                let size = size_of(file, &mut self.faults)?;
                self.told = Some(size);
                self.end = Some(size);
                Ok(size)
            }
            Err(_) => Err(fault(&mut self.faults)),
        }
    }

    fn read_at(&mut self, at: u64, buf: &mut [u8]) -> Result<usize, Failed>
        requires below { IsSomeAnd self.old.told (λ size. at < size) }
        ensures reads { ReadsPiece result at (length buf.old) buf.new (opened_seen self.old) (opened_seen self.new) }
        ensures stays { StaysOpen result self.old self.new }
        ensures same_opened { self.new.opened ≡ self.old.opened }
        ensures same_end { self.new.end ≡ self.old.end }
        ensures bytes { IfOk result (λ n. (before : R.File) × (after : R.File) × ReadsAt R.File.stream_position R.File.remaining before after at (take n buf.new)) }
    {
        let Some(size) = self.told else {
            return Err(fault(&mut self.faults));
        };
        let most = (size - at).min(buf.len() as u64) as usize;
        let Some(Ok(file)) = &mut self.file else {
            return Err(fault(&mut self.faults));
        };
        let count = read_from(file, at, &mut buf[..most], &mut self.faults)?;
        self.handed = self.handed.saturating_add(count as u64);
        Ok(count)
    }
}

impl<'a, R: Files> Device for NamedFile<'a, R, ReadAppend> {
    fn cut(&mut self, at: u64) -> Result<(), Failed>
        requires { IsSomeAnd self.old.told (λ size. at ≤ size) }
        ensures cuts { CutsAt result at (opened_seen self.old) (opened_seen self.new) }
        ensures stays { StaysOpen result self.old self.new }
        ensures same_opened { self.new.opened ≡ self.old.opened }
        ensures ends { OnOk result (self.new.end ≡ Some at) }
    {
        self.told = None;
        let Some(Ok(file)) = &self.file else {
            return Err(fault(&mut self.faults));
        };
        size_as_left(file, self.end, &mut self.faults)?;
        counted(file.set_len(at), &mut self.faults)?;
        self.end = Some(at);
        Ok(())
    }

    fn put(&mut self, piece: &[u8]) -> Result<usize, Failed>
        ensures grows { GrowsBy result piece.now (opened_seen self.old) (opened_seen self.new) }
        ensures stays { StaysOpen result self.old self.new }
        ensures appends { AppendsPiece result piece.now self.old.contents self.new.contents }
        ensures ends { IfOk result (λ n. EndsBehind self.old.end self.new.end n) }
    {
        self.told = None;
        let (rt, path) = (self.rt, self.path);
        match self.file.get_or_insert_with(|| ReadAppend::open(rt, path)) {
            Ok(file) => {
                let size = size_as_left(file, self.end, &mut self.faults)?;
                let count = put_to(file, piece, &mut self.faults)?;
                self.end = Some(size.saturating_add(count as u64));
                Ok(count)
            }
            Err(_) => Err(fault(&mut self.faults)),
        }
    }
}

/// The size of the open file, which must be a regular one that ends where it was left, where that is known.
fn size_as_left<F: OpenFile>(file: &F, end: Option<u64>, faults: &mut u64) -> Result<u64, Failed>
    ensures as_left { IfOk result (λ size. IfSome end (λ end. size ≡ end)) }
    ensures counted { faults.new ≡ faults_after result faults.old }
{
    let size = size_of(file, faults)?;
    match end {
        Some(end) if end != size => Err(fault(faults)),
        _ => Ok(size),
    }
}

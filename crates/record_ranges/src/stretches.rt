ghost use Rattle.std.specs.Prelude.{◌≡◌, ℕ, ◌+◌, ◌^◌, ◌<◌, ◌≤◌, false, [], ◌∷◌, IfSome, OnOk, Err, length};
ghost use Rattle.std.specs.List.{enumerate_from};
ghost use Rattle.record_io.specs.Calls.{HasSize, OnlyAsks};
ghost use Rattle.block_layout.specs.Layout.{IsBoundary};
ghost use Rattle.chunk_reader.specs.Contents.{IsJudged};
ghost use Rattle.record_ranges.specs.Ranges.{records_between};
ghost use Rattle.record_ranges.specs.Reads.{IsAnswered};
ghost use Rattle.record_ranges.specs.Stretches.{Adds, IsJudgedStretch, LiesWithin, TakesChunk, stretch_at};

use crate::keepers::Keeper;
use chunk_reader::{Judged, ReadEnd, What, strict_at};
use record_io::Store;
use record_seek::holder;
use simple_chunk::Records;
use std::alloc::{AllocError, Global};

/// A part of a file: the positions from one place up to another.
#[derive(Clone, Copy, Debug)]
pub(crate) struct Span {
    /// The first position.
    pub from: u64,
    /// The place behind the last position.
    pub to: u64,
}

/// What was read for a part of a file: chunks one after another, and of their records those of the part, kept in `K`.
#[derive(Debug, Drop)]
pub(crate) struct Stretch<K> {
    /// Where the first chunk begins.
    pub begin: u64,
    /// Where the last chunk begins, or the end where there is none.
    pub last: u64,
    /// Where the last chunk ends.
    pub end: u64,
    /// What the records of the part are kept in.
    pub kept: K,
}

impl<K: Keeper> Stretch<K> {
    /// No chunks yet, at a place.
    pub(crate) fn at(alloc: Global, place: u64) -> Stretch<K>
        ensures { result ≡ stretch_at K.kept_as place }
    {
        Stretch {
            begin: place,
            last: place,
            end: place,
            kept: K::none(alloc),
        }
    }

    /// Takes room for all records of a part.
    fn make_room(&mut self, span: Span) -> Result<(), AllocError>
        requires { span.from ≤ span.to }
        ensures { self.new ≡ self.old }
    {
        self.kept.make_room((span.to - span.from) as usize)
    }

    /// Goes on by a chunk that was judged, which is the next one.
    pub(crate) fn take(&mut self, judged: &Judged, span: Span) -> Result<(), AllocError>
        requires judged { (size place : ℕ) × (size ≤ 2 ^ 60) × IsJudged false size place judged.now }
        ensures begin { self.new.begin ≡ self.old.begin }
        ensures taken { OnOk result (TakesChunk K.kept_as judged.now span self.old self.new) }
    {
        if let What::Records(held) = &judged.what {
            take_records(held, judged.begin, span, &mut self.kept)?;
        }
        self.last = judged.begin;
        self.end = judged.end;
        Ok(())
    }
}

/// Keeps the records of a part of those of a chunk that begins at a place.
fn take_records<K: Keeper>(
    held: &Records,
    begin: u64,
    span: Span,
    kept: &mut K,
) -> Result<(), AllocError>
    requires { begin + length held.now < 2 ^ 64 }
    ensures { OnOk result (Adds K.kept_as kept.old kept.new (records_between span.from span.to (enumerate_from begin held.now))) }
{
    for number in 0..held.len() {
        take_record(held.get(number), begin + number as u64, span, kept)?;
    }
    Ok(())
}

/// Keeps the record at a position where it is one of a part.
#[tactic(auto, using(crate::proofs::Between::part_steps))]
fn take_record<K: Keeper>(
    bytes: &[u8],
    position: u64,
    span: Span,
    kept: &mut K,
) -> Result<(), AllocError>
    ensures { OnOk result (Adds K.kept_as kept.old kept.new (records_between span.from span.to ((position, bytes.now) ∷ []))) }
{
    if span.from <= position && position < span.to {
        kept.add(bytes)?;
    }
    Ok(())
}

/// Reads a part of a file of `size` bytes: the chunks from the one that holds the part's first position on, up to the first
/// that ends where the part does, or past that.
///
/// # Errors
///
/// `Refused` where no chunk is found to hold that position, or one of the chunks is refused. `Store` only where the store failed.
pub(crate) fn read_stretch<S: Store, K: Keeper>(
    alloc: Global,
    store: &mut S,
    size: u64,
    span: Span,
) -> Result<Stretch<K>, ReadEnd>
    requires sized { HasSize (S.told store.old) size }
    requires within { LiesWithin size span }
    ensures { IsAnswered K.kept_as S.bytes S.told S.name S.faults span store.old store.new result }
{
    match holder(store, size, span.from)? {
        Some(begin) => read_on(alloc, store, size, begin, span),
        None => Ok(Stretch::at(alloc, size)),
    }
}

/// Reads a part of a file from the chunk on that begins at a place.
fn read_on<S: Store, K: Keeper>(
    alloc: Global,
    store: &mut S,
    size: u64,
    begin: u64,
    span: Span,
) -> Result<Stretch<K>, ReadEnd>
    requires sized { HasSize (S.told store.old) size }
    requires within { LiesWithin size span }
    requires from { IsBoundary begin × (begin ≤ span.from) }
    ensures { IsAnswered K.kept_as S.bytes S.told S.name S.faults span store.old store.new result }
{
    let mut stretch = Stretch::at(alloc, begin);
    stretch.make_room(span)?;
    while stretch.end < span.to {
        read_next(alloc, store, size, span, &mut stretch)?;
    }
    Ok(stretch)
}

/// Reads the next chunk of a part, which is judged strictly.
fn read_next<S: Store, K: Keeper>(
    alloc: Global,
    store: &mut S,
    size: u64,
    span: Span,
    stretch: &mut Stretch<K>,
) -> Result<(), ReadEnd>
    requires sized { HasSize (S.told store.old) size }
    requires from { IsBoundary stretch.old.end × (stretch.old.end < size) }
    ensures begin { stretch.new.begin ≡ stretch.old.begin }
    ensures moved { OnOk result (IsBoundary stretch.new.end
        × (stretch.old.end < stretch.new.end) × (stretch.new.end ≤ size)) }
    ensures judged { OnOk result (IfSome (S.bytes store.old) (λ file.
        IsJudgedStretch K.kept_as file span stretch.old → IsJudgedStretch K.kept_as file span stretch.new)) }
    ensures store { OnlyAsks S.bytes S.told S.name S.faults (result ≡ Err ReadEnd.Store) store.old store.new }
{
    let judged = strict_at(alloc, store, size, stretch.end, false)?;
    stretch.take(&judged, span)?;
    Ok(())
}

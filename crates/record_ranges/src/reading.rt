ghost use Rattle.std.specs.Prelude.{◌≡◌, ℕ, ◌+◌, ◌^◌, ◌≤◌, ◌<◌, ◌⊎◌, All, Some, IfOk, IfSome, Err, false, List, Result, length, vec_len, map};
ghost use Rattle.record_io.specs.Calls.{HasSize, OnlyAsks};
ghost use Rattle.record_io.specs.ManyStores.{AreOnlyAsked};
ghost use Rattle.record_io.specs.Outside.{Rose};
ghost use Rattle.chunk_reader.specs.Faults.{IsFault};
ghost use Rattle.chunk_reader.specs.declared.reasons.Fault.{Fault};
ghost use Rattle.record_ranges.specs.Ranges.{RiseUpTo, AreRangesOf};
ghost use Rattle.record_ranges.specs.Reads.{IfAllTellSame, IsAmong, AreReadIn};
ghost use Rattle.record_ranges.specs.Stretches.{AreRangesIn, AreReadOf};

use crate::alone::{check_front, read_alone};
use crate::cut_places::Cuts;
use crate::file_parts::Parts;
use crate::keepers::Keeper;
use crate::meeting::{all_read, meet};
use crate::slots::{Setup, read_into};
use crate::stretches::{Span, Stretch};
use chunk_reader::ReadEnd;
use record_io::Store;
use simple_chunk::Records;
use std::alloc::{AllocError, Global};
use std::thread::Threads;

/// Reads a file of `size` bytes, at most 2^28, in parts between cuts, by threads: one store for each part, 1 to 16, which all
/// told that size. The cuts rise or stay equal, and none passes the size. The records of all parts are held.
///
/// What is said of the answer holds where all stores show the same bytes. Then `Ok` comes only of a file without fault, and
/// gives its parts: each record is in the part between whose cuts its position lies. Where parts don't meet, or one is refused,
/// the file is read anew from the first store, and that answer is given.
///
/// # Errors
///
/// `Refused` exactly with the fault of the file. `Store` only where a store failed.
pub fn read_ranges<R: Threads + Sync, S: Store + Send>(
    rt: &R,
    alloc: Global,
    stores: &mut [S],
    size: u64,
    cuts: &Cuts,
) -> Result<Parts, ReadEnd>
    requires many { (length stores.old ≡ length cuts.now + 1) × (length stores.old ≤ 16) }
    requires sized { All (λ s. S.told s ≡ Some size) stores.old × (size ≤ 2 ^ 28) }
    requires rise { RiseUpTo size 0 cuts.now }
    ensures ranges { IfOk result (λ parts. IfAllTellSame S.bytes stores.old (λ file. AreRangesOf file cuts.now parts)) }
    ensures refused { (fault : Fault) → result ≡ Err (ReadEnd.Refused fault)
        → IfAllTellSame S.bytes stores.old (λ file. IsFault false file fault) }
    ensures complete { IfAllTellSame S.bytes stores.old (λ file. (fault : Fault) → IsFault false file fault
        → (result ≡ Err (ReadEnd.Refused fault)) ⊎ (result ≡ Err ReadEnd.Store) ⊎ (result ≡ Err ReadEnd.Memory)) }
    ensures stores { AreOnlyAsked S.bytes S.told S.name S.faults (result ≡ Err ReadEnd.Store) stores.old stores.new }
{
    match read_stretches::<R, S, Records>(rt, alloc, stores, size, cuts) {
        Ok(stretches) => Ok(Parts { stretches }),
        Err(end) => Err(end),
    }
}

/// The same, and the records of each part are kept in `K`.
pub(crate) fn read_stretches<R: Threads + Sync, S: Store + Send, K: Keeper + Send>(
    rt: &R,
    alloc: Global,
    stores: &mut [S],
    size: u64,
    cuts: &Cuts,
) -> Result<Vec<Stretch<K>>, ReadEnd>
    requires many { (length stores.old ≡ length cuts.now + 1) × (length stores.old ≤ 16) }
    requires sized { All (λ s. S.told s ≡ Some size) stores.old × (size ≤ 2 ^ 28) }
    requires rise { RiseUpTo size 0 cuts.now }
    ensures ranges { IfOk result (λ parts. IfAllTellSame S.bytes stores.old (λ file. AreRangesIn K.kept_as file cuts.now parts.items)) }
    ensures refused { (fault : Fault) → result ≡ Err (ReadEnd.Refused fault)
        → IfAllTellSame S.bytes stores.old (λ file. IsFault false file fault) }
    ensures stores { AreOnlyAsked S.bytes S.told S.name S.faults (result ≡ Err ReadEnd.Store) stores.old stores.new }
{
    let Ok(spans) = cuts.spans(alloc, size) else {
        return Err(ReadEnd::Memory);
    };
    let Ok(mut answers) = unanswered(alloc, stores.len()) else {
        return Err(ReadEnd::Memory);
    };
    let setup = Setup { alloc, size };
    read_into(rt, &setup, &spans, &mut answers, stores);
    judged_parts(alloc, &mut stores[0], size, &spans, answers)
}

/// So many places for answers.
fn unanswered<K: Drop>(
    alloc: Global,
    count: usize,
) -> Result<Vec<Result<Stretch<K>, ReadEnd>>, AllocError>
    ensures { IfOk result (λ answers. vec_len answers ≡ count) }
{
    let mut answers = Vec::with_capacity(alloc, count)?;
    for _ in 0..count {
        answers.push_reserved(Err(ReadEnd::Memory));
    }
    Ok(answers)
}

/// The parts that were read, where they meet and the file begins as files do. Where they don't meet, or one was refused, they
/// are read anew from one store.
fn judged_parts<S: Store, K: Keeper>(
    alloc: Global,
    store: &mut S,
    size: u64,
    spans: &[Span],
    answers: Vec<Result<Stretch<K>, ReadEnd>>,
) -> Result<Vec<Stretch<K>>, ReadEnd>
    requires sized { HasSize (S.told store.old) size }
    requires some { 0 < length spans.now }
    ensures parts { IfOk result (λ parts. IfSome (S.bytes store.old) (λ file.
        AreReadIn K.kept_as file spans.now answers.items → AreReadOf K.kept_as file size spans.now parts.items)) }
    ensures refused { (fault : Fault) → result ≡ Err (ReadEnd.Refused fault)
        → IfSome (S.bytes store.old) (λ file. IsFault false file fault) }
    ensures cause { result ≡ Err ReadEnd.Store
        → IsAmong (Err ReadEnd.Store) answers.items ⊎ Rose (S.faults store.old) (S.faults store.new) }
    ensures store { OnlyAsks S.bytes S.told S.name S.faults ⊥ store.old store.new }
{
    match all_read(alloc, answers) {
        Ok(parts) if meet(&parts, size) => {
            check_front(alloc, store, size)?;
            Ok(parts)
        }
        Ok(_) | Err(ReadEnd::Refused(_)) => read_alone(alloc, store, size, spans),
        Err(ReadEnd::Store) => Err(ReadEnd::Store),
        Err(ReadEnd::Memory) => Err(ReadEnd::Memory),
    }
}

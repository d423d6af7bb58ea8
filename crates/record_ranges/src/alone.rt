ghost use Rattle.std.specs.Prelude.{◌≡◌, ◌<◌, IfOk, IfSome, OnOk, Ok, true, false};
ghost use Rattle.std.specs.List.{AllZip};
ghost use Rattle.record_io.specs.Calls.{HasSize};
ghost use Rattle.chunk_reader.specs.Faults.{BeginsWithSignature};
ghost use Rattle.chunk_reader.specs.Readers.{ReadsIn, ReadsOn, IsReadWhole};
ghost use Rattle.record_ranges.specs.Reads.{ReadsStrictly};
ghost use Rattle.record_ranges.specs.Stretches.{IsReadFromFront, IsReadSoFar};

use crate::keepers::Keeper;
use crate::stretches::{Span, Stretch};
use chunk_reader::{ReadEnd, Reader};
use record_io::Store;
use std::alloc::Global;

/// Sees that a file of `size` bytes begins as files do.
///
/// # Errors
///
/// `Refused` with the fault of the file where it doesn't. `Store` only where the store failed.
pub(crate) fn check_front<S: Store>(alloc: Global, store: &mut S, size: u64) -> Result<(), ReadEnd>
    requires sized { HasSize (S.told store.old) size }
    ensures signed { OnOk result (IfSome (S.bytes store.old) BeginsWithSignature) }
    ensures answered { ReadsStrictly S.bytes S.told S.name S.faults result store.old store.new }
{
    let mut reader = Reader::new(size, false);
    reader.next(alloc, store)?;
    Ok(())
}

/// Reads parts of a file of `size` bytes from one store, one after another, each from the file's front.
///
/// # Errors
///
/// `Refused` only with the fault of the file. `Store` only where the store failed.
pub(crate) fn read_alone<S: Store, K: Keeper>(
    alloc: Global,
    store: &mut S,
    size: u64,
    spans: &[Span],
) -> Result<Vec<Stretch<K>>, ReadEnd>
    requires sized { HasSize (S.told store.old) size }
    ensures read { IfOk result (λ parts. IfSome (S.bytes store.old) (λ file. AllZip (IsReadFromFront K.kept_as file) spans.now parts.items)) }
    ensures answered { ReadsStrictly S.bytes S.told S.name S.faults result store.old store.new }
{
    let mut parts = Vec::new(alloc);
    for &span in spans {
        let part = read_from_front(alloc, store, size, span)?;
        let Ok(()) = parts.push(part) else {
            return Err(ReadEnd::Memory);
        };
    }
    Ok(parts)
}

/// Reads a whole file of `size` bytes for the records of one part.
fn read_from_front<S: Store, K: Keeper>(
    alloc: Global,
    store: &mut S,
    size: u64,
    span: Span,
) -> Result<Stretch<K>, ReadEnd>
    requires sized { HasSize (S.told store.old) size }
    ensures read { IfOk result (λ part. IfSome (S.bytes store.old) (λ file. IsReadFromFront K.kept_as file span part)) }
    ensures answered { ReadsStrictly S.bytes S.told S.name S.faults result store.old store.new }
{
    let mut reader = Reader::new(size, false);
    let mut part = Stretch::at(alloc, 0);
    while take_next(alloc, store, &mut reader, span, &mut part)? {}
    Ok(part)
}

/// Takes of the next chunk the records of a part, and answers whether there was one.
fn take_next<S: Store, K: Keeper>(
    alloc: Global,
    store: &mut S,
    reader: &mut Reader,
    span: Span,
    part: &mut Stretch<K>,
) -> Result<bool, ReadEnd>
    requires strict { reader.old.unread_ok ≡ false }
    requires reads { ReadsIn (S.bytes store.old) (S.told store.old) reader.old }
    ensures goes_on { ReadsOn (S.bytes store.old) reader.old reader.new }
    ensures moved { result ≡ Ok true → reader.old.totals.bytes < reader.new.totals.bytes }
    ensures read { result ≡ Ok true → IfSome (S.bytes store.old) (λ file.
        IsReadSoFar K.kept_as file span reader.old.totals part.old.kept → IsReadSoFar K.kept_as file span reader.new.totals part.new.kept) }
    ensures ended { result ≡ Ok false → (part.new ≡ part.old) × (reader.new ≡ reader.old) × IsReadWhole (S.bytes store.old) reader.old }
    ensures answered { ReadsStrictly S.bytes S.told S.name S.faults result store.old store.new }
{
    let Some(judged) = reader.next(alloc, store)? else {
        return Ok(false);
    };
    part.take(&judged, span)?;
    Ok(true)
}

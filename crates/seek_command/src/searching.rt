ghost use Rattle.std.specs.Prelude.{◌≡◌, ◌≤◌, ◌^◌, Some, Err, IfOk, IfSome};
ghost use Rattle.record_io.specs.Calls.{HasSize, OnlyAsks};
ghost use Rattle.chunk_reader.specs.declared.reasons.Fault.{Fault};
ghost use Rattle.record_seek.specs.Begins.{StandsIfFound};
ghost use Rattle.record_seek.specs.Steps.{LoadsMetChunk, placed_of};
ghost use Rattle.seek_command.specs.Searches.{is_below, MayFind, IsKeyFault, MayGive, MayRefuse, TakesOf, TakesBySize};
ghost use Rattle.seek_command.specs.declared.seek_words.By.TheVariants as by;

use crate::seek_words::By;
use chunk_reader::ReadEnd;
use record_io::Store;
use record_seek::{Found, KeyTest, find, seek};
use std::alloc::Global;

/// The record that is looked for in a file of so many bytes, or `None` where there is none.
pub(crate) fn search<S: Store>(
    alloc: Global,
    by: &By,
    file: &mut S,
    size: u64,
) -> Result<Option<Found>, ReadEnd>
    requires { HasSize (S.told file.old) size }
    ensures gives { IfOk result (λ found. IfSome (S.bytes file.old) (λ bytes. MayGive by.now bytes (placed_of found))) }
    ensures refused { (fault : Fault) → result ≡ Err (ReadEnd.Refused fault) → IfSome (S.bytes file.old) (λ bytes. MayRefuse by.now bytes fault) }
    ensures handed { IfSome (S.bytes file.old) (λ bytes. TakesOf by.now bytes (S.handed file.old) (S.handed file.new)) }
    ensures by_size { TakesBySize by.now size (S.handed file.old) (S.handed file.new) }
    ensures file { OnlyAsks S.bytes S.told S.name S.faults (result ≡ Err ReadEnd.Store) file.old file.new }
{
    match by {
        By::At(position) => seek(alloc, file, size, *position),
        By::Key(key) => find_by_key(alloc, file, size, key.as_bytes()),
    }
}

/// A record of a file of `size` bytes, which were told, that isn't less than a key, behind one that is.
///
/// # Errors
///
/// Those of `find` of `record_seek`.
pub fn find_by_key<S: Store>(
    alloc: Global,
    file: &mut S,
    size: u64,
    key: &[u8],
) -> Result<Option<Found>, ReadEnd>
    requires { HasSize (S.told file.old) size }
    ensures found { IfOk result (λ found. IfSome (S.bytes file.old) (λ bytes. MayFind key.now bytes (placed_of found))) }
    ensures begin { IfOk result (StandsIfFound (S.bytes file.old)) }
    ensures refused { (fault : Fault) → result ≡ Err (ReadEnd.Refused fault) → IfSome (S.bytes file.old) (λ bytes. IsKeyFault bytes fault) }
    ensures memory { result ≡ Err ReadEnd.Memory → IfSome (S.bytes file.old) LoadsMetChunk }
    ensures handed { IfSome (S.bytes file.old) (λ bytes. TakesOf (by.Key key.now) bytes (S.handed file.old) (S.handed file.new)) }
    ensures file { OnlyAsks S.bytes S.told S.name S.faults (result ≡ Err ReadEnd.Store) file.old file.new }
{
    let test = KeyTest::new(
        |bytes: &[u8]| -> bool
            ensures { result ≡ is_below key.entry.now bytes.now }
        { bytes.cmp(key).is_lt() },
    );
    find(alloc, file, size, &test)
}

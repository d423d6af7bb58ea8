ghost use Rattle.std.specs.Prelude.{◌≡◌, ℕ, ◌+◌, ◌*◌, ◌^◌, ◌≤◌, Some, Err, IfOk, IfSome, slice_get};
ghost use Rattle.record_io.specs.Calls.{AsksUpTo, HasSize, OnlyCounts};
ghost use Rattle.record_io.specs.ManyStores.{AreOnlyAsked, IfAllTell};
ghost use Rattle.meta_chunk.specs.Files.{end_of_chunks};
ghost use Rattle.meta_chunk.specs.PaddingSizes.{padding_at};
ghost use Rattle.chunk_reader.specs.Progress.{AreInBounds};
ghost use Rattle.record_join.specs.Joined.{joined_at_most};
ghost use Rattle.record_join.specs.Joins.{totals_joined, AnswersFirst, CanBeJoined, TakesJoined, TakesNext};

use crate::copies::copy_file;
use chunk_reader::{Fault, VerifyEnd, verify};
use ordered_writer::{OrderedWriter, padded};
use record_io::{Failed, Sink, Store, Totals};

/// Why files were not joined. Own.
#[derive(Clone, Copy, Debug, PartialEq, Eq)]
pub enum JoinEnd {
    /// A file is refused.
    Refused {
        /// Which of the files, by its number from 0.
        index: u64,
        /// Its fault.
        fault: Fault,
    },
    /// A store failed.
    Store,
    /// The sink failed.
    Made,
}

impl From<Failed> for JoinEnd {
    ghost use Rattle.std.specs.Prelude.{◌≡◌};
    ghost use Rattle.record_join.specs.declared.joins.JoinEnd.TheVariants.{Made};

    ghost from_gives = { λ _ end. end ≡ Made };

    fn from(_failed: Failed) -> JoinEnd {
        JoinEnd::Made
    }
}

/// The totals of no files.
const NO_FILES: Totals = Totals {
    chunks: 0,
    records: 0,
    bytes: 0,
    unread: 0,
};

/// Puts files one after another, one or more, and counts what they make: behind each but the last goes the padding from its
/// end to a block, where the next one begins. `sizes` are those that the stores told, in their order; together with 131,072
/// bytes for each but the last they are at most 2^60. A file is judged before any of it, or of the padding before it, goes
/// out; compressed and transposed chunks are left unread, and copied. It takes no memory, and a store hands out no more than
/// twice its bytes. Own.
///
/// # Errors
///
/// `Refused` exactly with the fault of the first file that has one, and those before it are joined then. `Store` only where a
/// store failed: a front of the files was put then, or of those before the first with a fault. `Made` only where the sink
/// failed, which took a front of these and not all: so it never comes where the first file has a fault.
pub fn join<S: Store, M: Sink>(
    stores: &mut [S],
    sizes: &[u64],
    made: &mut M,
) -> Result<Totals, JoinEnd>
    requires sized { CanBeJoined S.told stores.old sizes.now }
    ensures joined { IfAllTell S.bytes stores.old (λ files.
        TakesJoined result files (M.taken made.old) (M.taken made.new)) }
    ensures first { IfAllTell S.bytes stores.old (AnswersFirst result) }
    ensures totals { IfOk result (λ totals. AreInBounds (joined_at_most sizes.now) totals) }
    ensures handed { (place : ℕ) (a b : S) (size : ℕ)
        → slice_get stores.old place ≡ Some a → slice_get stores.new place ≡ Some b → slice_get sizes.now place ≡ Some size
        → S.handed b ≤ S.handed a + 2 * size }
    ensures stores { AreOnlyAsked S.bytes S.told S.name S.faults (result ≡ Err JoinEnd.Store) stores.old stores.new }
    ensures made { OnlyCounts M.lent M.faults (result ≡ Err JoinEnd.Made) made.old made.new }
{
    let mut totals = NO_FILES;
    for (index, store) in stores.iter_mut().enumerate() {
        totals = join_file(store, sizes[index], index as u64, &totals, made)?;
    }
    Ok(totals)
}

/// Judges the file of this number and puts it behind those of these totals, with the padding between.
fn join_file<S: Store, M: Sink>(
    store: &mut S,
    size: u64,
    index: u64,
    before: &Totals,
    made: &mut M,
) -> Result<Totals, JoinEnd>
    requires sized { HasSize (S.told store.old) size }
    requires before { AreInBounds (2 ^ 60) before.now }
    ensures joined { IfSome (S.bytes store.old) (λ file.
        TakesNext result index before.now file (M.taken made.old) (M.taken made.new)) }
    ensures counted { IfOk result (λ totals. AreInBounds totals.bytes totals
        × (totals.bytes ≡ end_of_chunks before.now.bytes (padding_at before.now.bytes) + size)) }
    ensures store { AsksUpTo S.bytes S.told S.handed S.name S.faults (result ≡ Err JoinEnd.Store)
        (2 * size) store.old store.new }
    ensures made { OnlyCounts M.lent M.faults (result ≡ Err JoinEnd.Made) made.old made.new }
{
    let file = match verify(store, size) {
        Ok(file) => file,
        Err(VerifyEnd::Refused(fault)) => return Err(JoinEnd::Refused { index, fault }),
        Err(VerifyEnd::Store) => return Err(JoinEnd::Store),
    };
    let mut writer = OrderedWriter::resume(before.bytes);
    writer.pad(made)?;
    copy_file(store, size, made)?;
    Ok(totals_joined(before, &file))
}

/// The totals of files and of one more behind them, with the padding between.
fn totals_joined(before: &Totals, file: &Totals) -> Totals
    requires before { AreInBounds (2 ^ 60) before.now }
    requires file { AreInBounds (2 ^ 60) file.now }
    ensures value { result ≡ totals_joined before.now file.now }
    ensures bounds { AreInBounds result.bytes result }
{
    let begin = padded(before.bytes);
    Totals {
        chunks: before.chunks + u64::from(begin > before.bytes) + file.chunks,
        records: before.records + file.records,
        bytes: begin + file.bytes,
        unread: before.unread + file.unread,
    }
}

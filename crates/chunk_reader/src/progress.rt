ghost use Rattle.std.specs.Prelude.{◌≡◌, ◌+◌, ◌^◌, ◌<◌, ◌≤◌, Some, IfSome, OnOk, Err};
ghost use Rattle.record_io.specs.Calls.{AsksUpTo};
ghost use Rattle.chunk_reader.specs.Faults.{BeginsWithSignature};
ghost use Rattle.chunk_reader.specs.Progress.{totals_with_chunk, AreInBounds};
ghost use Rattle.chunk_reader.specs.declared.reasons.Fault.{Fault};

use crate::reasons::{Fault, VerifyEnd, Why};
use meta_chunk::SIGNATURE;
use record_io::{Store, Totals, get_exact};

/// Checks that a file of so many bytes begins with those that each file begins with.
pub(crate) fn check_signature<S: Store>(store: &mut S, size: u64) -> Result<(), VerifyEnd>
    requires told { S.told store.old ≡ Some size }
    ensures signed { OnOk result (IfSome (S.bytes store.old) BeginsWithSignature) }
    ensures long { OnOk result (64 ≤ size) }
    ensures refused { (fault : Fault) → result ≡ Err (VerifyEnd.Refused fault) → (fault.at ≡ 0) × (fault.why ≡ Why.NoSignature)
        × IfSome (S.bytes store.old) (λ file. ¬ BeginsWithSignature file) }
    ensures handed_at_most { S.handed store.new ≤ S.handed store.old + size }
    ensures store { AsksUpTo S.bytes S.told S.handed S.name S.faults (result ≡ Err VerifyEnd.Store)
        64 store.old store.new }
{
    let mut bytes = [0; SIGNATURE.len()];
    if size >= bytes.len() as u64 {
        get_exact(store, 0, &mut bytes)?;
        if bytes == SIGNATURE {
            return Ok(());
        }
    }
    Err(VerifyEnd::Refused(Fault {
        at: 0,
        why: Why::NoSignature,
    }))
}

/// The totals of no chunks.
pub(crate) const NO_CHUNKS: Totals = Totals {
    chunks: 0,
    records: 0,
    bytes: 0,
    unread: 0,
};

/// The totals of the chunk that each file begins with.
pub(crate) const SIGNATURE_ALONE: Totals = Totals {
    chunks: 1,
    records: 0,
    bytes: SIGNATURE.len() as u64,
    unread: 0,
};

/// The totals with one chunk more, which ends at a place and has so many records.
pub(crate) fn totals_with_chunk(totals: &Totals, end: u64, records: u64, unread: bool) -> Totals
    requires room { totals.now.bytes + records ≤ end }
    requires small { end ≤ 2 ^ 60 }
    requires bounds { AreInBounds end totals.now }
    ensures { result ≡ totals_with_chunk totals.now end records unread }
{
    Totals {
        chunks: totals.chunks + 1,
        records: totals.records + if unread { 0 } else { records },
        bytes: end,
        unread: totals.unread + u64::from(unread),
    }
}

ghost use Rattle.std.specs.Prelude.{◌≡◌, ◌+◌, ◌≤◌, Some, Err, IfSome, IsSomeAnd, length, slice_range};
ghost use Rattle.record_io.specs.Calls.{AsksUpTo, OnlyCounts};
ghost use Rattle.record_join.specs.Joins.{TakesCopied};

use crate::joins::JoinEnd;
use record_io::{Sink, Store, get_exact, put_all};

// How many bytes of a file are read and put at once.
const PIECE_SIZE: usize = 65536;

/// Puts a whole file of `size` bytes, which were told.
///
/// # Errors
///
/// `Store` only where the store failed: the sink took a front of the file then. `Made` only where
/// the sink failed, which took a front of it and not all. None other comes.
pub(crate) fn copy_file<S: Store, M: Sink>(
    store: &mut S,
    size: u64,
    made: &mut M,
) -> Result<(), JoinEnd>
    requires told { S.told store.old ≡ Some size }
    ensures copied { IfSome (S.bytes store.old) (λ file.
        TakesCopied result file (M.taken made.old) (M.taken made.new)) }
    ensures store { AsksUpTo S.bytes S.told S.handed S.name S.faults (result ≡ Err JoinEnd.Store)
        size store.old store.new }
    ensures made { OnlyCounts M.lent M.faults (result ≡ Err JoinEnd.Made) made.old made.new }
{
    let mut piece = [0; PIECE_SIZE];
    let mut at = 0;
    while at < size {
        let count = (size - at).min(PIECE_SIZE as u64) as usize;
        copy_piece(store, at, &mut piece[..count], made)?;
        at += count as u64;
    }
    Ok(())
}

/// Reads the bytes that begin at a place, as many as the piece has room for, and puts them.
fn copy_piece<S: Store, M: Sink>(
    store: &mut S,
    at: u64,
    piece: &mut [u8],
    made: &mut M,
) -> Result<(), JoinEnd>
    requires within { IsSomeAnd (S.told store.old) (λ size. at + length piece.old ≤ size) }
    ensures copied { IfSome (S.bytes store.old) (λ file.
        TakesCopied result (slice_range file at (at + length piece.old)) (M.taken made.old) (M.taken made.new)) }
    ensures store { AsksUpTo S.bytes S.told S.handed S.name S.faults (result ≡ Err JoinEnd.Store)
        (length piece.old) store.old store.new }
    ensures made { OnlyCounts M.lent M.faults (result ≡ Err JoinEnd.Made) made.old made.new }
{
    let Ok(()) = get_exact(store, at, piece) else {
        return Err(JoinEnd::Store);
    };
    put_all(made, piece)?;
    Ok(())
}

ghost use Rattle.std.specs.Prelude.{◌≡◌, ℕ, ◌^◌, ◌<◌, ◌≤◌, ◌↔◌, true, List, length};
ghost use Rattle.chunk_reader.specs.Reasons.{Applies, NoneOf, loading_reasons};
ghost use Rattle.chunk_reader.specs.declared.reasons.Why.{Why};
ghost use Rattle.damage_skip.specs.Pieces.{PieceKind, Skipped, IsPieceOf, records_of};
ghost use Rattle.riegeli_c.specs.Chunks.{AreGiven, IsTooSmall};
ghost use Rattle.riegeli_c.specs.Finding.{IsStatusFound, TellsNext, records_found, what_found, why_found};
ghost use Rattle.riegeli_c.specs.Recovers.{IsBadBegin, IsStatusOf, TellsPiece};

use crate::faults::reason_number;
use crate::reading::put_records;
use block_layout::is_boundary;
use chunk_reader::LoadEnd;
use command_frame::MOST_FILE_BYTES;
use damage_skip::{Found, NextPiece, Progress, piece_at};
use slice_io::SliceStore;
use std::alloc::Global;

/// What a piece of a file is, where that is read on past damage.
#[repr(C)]
#[derive(Clone, Copy, Debug, Drop)]
pub struct PieceTold {
    /// Where it begins, in bytes from the file's front.
    pub begin: u64,
    /// Where it ends, and the next one begins.
    pub end: u64,
    /// How many records it gives. The record of number i, from 0 on, has the position begin + i.
    pub records: u64,
    /// How many bytes they have together.
    pub bytes: u64,
    /// 1 it is a chunk that gives records, 2 one that has none (signature, metadata or padding), 3
    /// one that is compressed or transposed, and left unread, 4 a region: bytes that are passed
    /// over.
    pub what: u32,
    /// The number of the reason for which a region is passed over; 0 of a chunk.
    pub why: u32,
}

/// Finds the piece of a file that begins at a place: a chunk that is intact, or a region that is
/// passed over, up to where a walk past the damage goes on. The records of a chunk are given: their
/// bytes, one behind another, in `values`, and where each ends among these in `ends`. Compressed
/// and transposed chunks are left unread.
///
/// 0: the piece is a chunk, of which `piece` tells, and its records are given. 1: it is a region,
/// of which `piece` tells. 2: the file has more than 2^60 bytes or ends before the place, or no
/// piece can begin there. 3: there is too little memory. 4: there is too little room; `piece` tells
/// of the chunk all the same: `bytes` bytes of `values` and `records` numbers of `ends` are needed.
/// 5: the file ends at the place.
#[unsafe(no_mangle)]
pub extern "C" fn riegeli_recover(
    alloc: Global,
    file: &[u8],
    at: u64,
    piece: &mut PieceTold,
    values: &mut [u8],
    ends: &mut [u64],
) -> u32
    ensures answers { result ≤ 5 }
    ensures given { result ≡ 0 → (kind : PieceKind)
        × TellsPiece file.now at kind piece.new × (piece.new.what < 4)
        × AreGiven (records_of kind) values.new ends.new }
    ensures region { result ≡ 1 → (reason : Why) × TellsPiece file.now at (Skipped reason) piece.new }
    ensures bad { (result ≡ 2) ↔ IsBadBegin file.now at }
    ensures memory { result ≡ 3 → NoneOf (Applies file.now at) loading_reasons }
    ensures room { result ≡ 4 → (kind : PieceKind) × TellsPiece file.now at kind piece.new
        × IsTooSmall (records_of kind) values.old ends.old }
    ensures at_end { (result ≡ 5) ↔ ((length file.now ≤ 2 ^ 60) × (at ≡ length file.now)) }
    ensures exact { (end : ℕ) (kind : PieceKind) → ¬ IsBadBegin file.now at → at < length file.now
        → IsPieceOf true file.now at end kind → IsStatusOf kind values.old ends.old result }
{
    let size = file.len() as u64;
    if size > MOST_FILE_BYTES || at > size {
        return 2;
    }
    if at == size {
        return 5;
    }
    if !is_boundary(at) {
        return 2;
    }
    let mut store = SliceStore::new(file);
    let walk = Progress {
        size,
        unread_ok: true,
        decodes: true,
        place: at,
        stopped: None,
    };
    match piece_at(alloc, &mut store, walk) {
        Ok(next) => give_piece(at, &next, piece, values, ends),
        Err(LoadEnd::Memory) => 3,
        Err(LoadEnd::Store) => unreachable!(),
    }
}

/// Tells a piece, and gives its records where there is room.
fn give_piece(
    begin: u64,
    next: &NextPiece,
    told: &mut PieceTold,
    values: &mut [u8],
    ends: &mut [u64],
) -> u32
    ensures status { IsStatusFound next.now.what values.old ends.old result }
    ensures told { TellsNext begin next.now told.new }
    ensures given { result ≡ 0 → AreGiven (records_found next.now.what) values.new ends.new }
{
    *told = PieceTold {
        begin,
        end: next.end,
        records: 0,
        bytes: 0,
        what: what_found(&next.what),
        why: why_found(&next.what),
    };
    match &next.what {
        Found::Records(records, _) => {
            told.records = records.len() as u64;
            told.bytes = records.values().len() as u64;
            if put_records(records, values, ends) {
                0
            } else {
                4
            }
        }
        Found::Kept(_, _) | Found::SignatureOrPadding => 0,
        Found::Skipped(_) => 1,
    }
}

/// The number of what a piece is.
fn what_found(what: &Found) -> u32
    ensures { result ≡ what_found what.now }
{
    match what {
        Found::Records(_, _) => 1,
        Found::Kept(_, false) | Found::SignatureOrPadding => 2,
        Found::Kept(_, true) => 3,
        Found::Skipped(_) => 4,
    }
}

/// The number of the reason for which a piece is passed over.
fn why_found(what: &Found) -> u32
    ensures { result ≡ why_found what.now }
{
    match what {
        Found::Skipped(why) => reason_number(*why),
        _ => 0,
    }
}

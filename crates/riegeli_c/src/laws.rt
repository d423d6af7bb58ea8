//! Laws of the definitions that contracts cite. Nothing runs here.

ghost use Rattle.std.specs.Prelude.{◌≡◌, ◌↔◌, ℕ, ◌^◌, ◌<◌, ◌≤◌, Bool, true, false, Option, List, [], ◌∷◌, ◌++◌, length, map, take, drop};
ghost use Rattle.std.specs.List.{flat_map};
ghost use Rattle.chunk_header.specs.Chunks.{ChunkValue};
ghost use Rattle.chunk_reader.specs.Holders.{IsHolder};
ghost use Rattle.damage_skip.specs.FilePieces.{ArePieces, placed_in};
ghost use Rattle.damage_skip.specs.Pieces.{PieceKind, Piece, AreTiles, events_in, AreEvents, records_in};
ghost use Rattle.riegeli_c.specs.Parts.{IsPart, ArePartsFrom};
ghost use Rattle.riegeli_c.specs.Pieces.{AreToldFrom, unkept};
ghost use Rattle.riegeli_c.specs.Recovers.{IsBadBegin, TellsPiece};
ghost use Rattle.riegeli_c.specs.Seeks.{TellsFound};
ghost use Rattle.riegeli_c.specs.Splits.{IsFirstBegin};
ghost use Rattle.meta_chunk.specs.Files.{IsWellFormed, ArePlaced, begin_of, end_of_chunks, laid_each};
ghost use Rattle.record_group.specs.declared.pad.Pad.{Pad};
ghost use Rattle.record_group.specs.Groups.{chunks_of, file_of, record_chunks};
ghost use lib.Chars.{codes};
ghost use Rattle.damage_skip.specs.Regions.{region_text};
ghost use Rattle.damage_skip.specs.declared.regions.Region.{Region};
ghost use Rattle.riegeli_c.specs.Chunks.{AreGiven};
ghost use Rattle.riegeli_c.specs.Writes.{AreCuts, chunks_laid, records_cut, records_laid};
ghost use Rattle.riegeli_c.specs.WritingOn.{pad_behind};

use crate::recovering::PieceTold;
use crate::seeking::FoundAt;

/// A file that is asked from 0 on, and then always where the piece ends that was told, is told
/// piece by piece to its end: no place that is asked for is a bad one, each is past the one before,
/// and one thing is told there. The pieces that are told are those of the file. Own.
pub fn told_pieces_are_those_of_the_file()
    ensures begins { (file : List ℕ) → length file ≤ 2 ^ 60 → ¬ IsBadBegin file 0 }
    ensures onward { (file : List ℕ) (place : ℕ) (kind : PieceKind) (told : PieceTold)
        → ¬ IsBadBegin file place → place < length file → TellsPiece file place kind told
        → (place < told.end) × (¬ IsBadBegin file told.end) }
    ensures one { (file : List ℕ) (place : ℕ) (kind that : PieceKind) (told other : PieceTold)
        → TellsPiece file place kind told → TellsPiece file place that other
        → (kind ≡ that) × (told ≡ other) }
    ensures tiles { (file : List ℕ) (place : ℕ) (told : List PieceTold) (pieces : List Piece)
        → AreToldFrom file place told pieces → AreTiles true file place (length file) pieces }
    ensures told { (file : List ℕ) (place : ℕ) (pieces : List Piece)
        → AreTiles true file place (length file) pieces
        → (told : List PieceTold) × AreToldFrom file place told pieces }
{}

/// Where unread chunks are passed over, a file comes apart in the same pieces, but for these, which
/// are regions then; so its records are the same, with their positions. Own.
pub fn unread_chunks_are_passed_over()
    ensures tiles { (file : List ℕ) (from to : ℕ) (pieces : List Piece)
        → AreTiles true file from to pieces → AreTiles false file from to (map unkept pieces) }
    ensures events { (file : List ℕ) (pieces events : List Piece)
        → ArePieces true file pieces → AreEvents false file events → events ≡ events_in (map unkept pieces) }
    ensures records { (file : List ℕ) (pieces events : List Piece)
        → ArePieces true file pieces → AreEvents false file events → records_in events ≡ records_in pieces }
    ensures placed { (file : List ℕ) (pieces events : List Piece)
        → ArePieces true file pieces → AreEvents false file events → placed_in events ≡ placed_in pieces }
{}

/// The line that tells a region of a file of at most 2^60 bytes has at most 61. Own.
pub fn region_lines_are_short()
    ensures { (region : Region) → region.begin ≤ 2 ^ 60 → region.end ≤ 2 ^ 60
        → length (region_text (codes "skipped") region) ≤ 61 }
{}

/// The records that end at places of values, where these are good, are what a chunk's records are
/// given as: their bytes are the values one behind another, and they end there. No other records
/// are. Own.
pub fn records_are_cut()
    ensures given { (values ends : List ℕ) → AreCuts 0 ends (length values)
        → AreGiven (records_cut values ends) values ends }
    ensures count { (values ends : List ℕ) → length (records_cut values ends) ≡ length ends }
{}

/// What is laid at a file's front where no record follows is the file of the records, and what is
/// laid further on are the chunks of records from there on. It holds all records. Own.
pub fn written_at_once()
    ensures chunks { (records : List (List ℕ)) (size : ℕ) (every : Option ℕ) (pad : Pad)
        → chunks_laid 0 records size every pad true ≡ chunks_of records size every pad }
    ensures file { (records : List (List ℕ)) (size : ℕ) (every : Option ℕ) (pad : Pad)
        → laid_each 0 (chunks_laid 0 records size every pad true) ≡ file_of records size every pad }
    ensures behind { (place : ℕ) (records : List (List ℕ)) (size : ℕ) (every : Option ℕ) (pad : Pad)
        → 0 < place
        → chunks_laid place records size every pad true
        ≡ record_chunks place records size every pad }
    ensures all { (records : List (List ℕ)) (size : ℕ) (every : Option ℕ)
        → records_laid records size every true ≡ records }
{}

/// What is laid where more records follow, and behind it what is laid of the records that were not,
/// with more behind them and without the padding before, is what is laid of all of them at once:
/// the same chunks, bytes and records. Own.
pub fn written_in_pieces()
    ensures front { (records : List (List ℕ)) (size : ℕ) (every : Option ℕ) (last : Bool)
        → take (length (records_laid records size every last)) records
        ≡ records_laid records size every last }
    ensures chunks { (place : ℕ) (records more : List (List ℕ))
        (size : ℕ) (every : Option ℕ) (pad : Pad) (last : Bool)
        → let first = chunks_laid place records size every pad false in
        let rest = drop (length (records_laid records size every false)) records ++ more in
        chunks_laid place (records ++ more) size every pad last
        ≡ first ++ chunks_laid (end_of_chunks place first) rest size every (pad_behind pad) last }
    ensures bytes { (place : ℕ) (records more : List (List ℕ))
        (size : ℕ) (every : Option ℕ) (pad : Pad) (last : Bool)
        → let first = chunks_laid place records size every pad false in
        let rest = drop (length (records_laid records size every false)) records ++ more in
        let place_then = end_of_chunks place first in
        laid_each place (chunks_laid place (records ++ more) size every pad last)
        ≡ laid_each place first
        ++ laid_each place_then (chunks_laid place_then rest size every (pad_behind pad) last) }
    ensures records { (records more : List (List ℕ)) (size : ℕ) (every : Option ℕ) (last : Bool)
        → records_laid (records ++ more) size every last
        ≡ records_laid records size every false
        ++ records_laid (drop (length (records_laid records size every false)) records ++ more)
        size every last }
{}

/// Where many read the parts of a file of chunks, each from where it is split at one position up to
/// where it is split at the next, each chunk is read in the part in which it begins. So the parts
/// between the front and the end, in order, have the records of the file with their positions, each
/// once. A part is one list of records, and parts that meet are one. Own.
pub fn parts_have_each_record_once()
    ensures begins { (ks : List ChunkValue) (position place i : ℕ)
        → IsFirstBegin ks position place → i < length ks
        → (position ≤ begin_of ks i) ↔ (place ≤ begin_of ks i) }
    ensures some { (ks : List ChunkValue) (file : List ℕ) (from to : ℕ)
        → IsWellFormed ks file → length file ≤ 2 ^ 60 → from ≤ to
        → (part : List (ℕ × List ℕ)) × IsPart ks file from to part }
    ensures one { (ks : List ChunkValue) (file : List ℕ) (from to : ℕ) (a b : List (ℕ × List ℕ))
        → IsPart ks file from to a → IsPart ks file from to b → a ≡ b }
    ensures joined { (ks : List ChunkValue) (file : List ℕ) (from middle to : ℕ) (a b : List (ℕ × List ℕ))
        → IsPart ks file from middle a → IsPart ks file middle to b → IsPart ks file from to (a ++ b) }
    ensures whole { (ks : List ChunkValue) (file cuts : List ℕ)
        (parts : List (List (ℕ × List ℕ))) (placed : List (ℕ × List ℕ))
        → IsWellFormed ks file → length file ≤ 2 ^ 60 → ArePlaced ks placed
        → ArePartsFrom ks file 0 (cuts ++ length file ∷ []) parts → flat_map (λ part. part) parts ≡ placed }
{}

/// In a file of chunks a record that is found by its key is told with the chunk that holds its
/// position. Own.
pub fn found_chunks_hold_their_positions()
    ensures { (ks : List ChunkValue) (file key : List ℕ) (told : FoundAt) (bytes : List ℕ)
        → IsWellFormed ks file → length file ≤ 2 ^ 60 → TellsFound file key told bytes
        → IsHolder file told.position told.begin }
{}

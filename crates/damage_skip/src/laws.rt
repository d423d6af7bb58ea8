//! Laws of the definitions that contracts cite. Nothing runs here.

ghost use Rattle.std.specs.List.{AllByRecursion};
ghost use Rattle.std.specs.List.Sorted.{IsStrictlyIncreasing};
ghost use Rattle.std.specs.Prelude.{◌≡◌, ◌≢◌, ◌⊎◌, ◌↔◌, ℕ, ◌+◌, ◌^◌, ◌<◌, ◌≤◌, Bool, true, false, List, [], ◌∷◌, ◌++◌, Some, length, take, map, slice_get};
ghost use Rattle.block_layout.specs.Layout.{chunk_header_size, IsBlock, IsBoundary, end_of};
ghost use Rattle.chunk_header.specs.Chunks.{ChunkValue};
ghost use Rattle.chunk_reader.specs.Faults.{IsAllowed};
ghost use Rattle.chunk_reader.specs.declared.reasons.Why.{Why};
ghost use Rattle.chunk_reader.specs.declared.reasons.Why.TheVariants as why;
ghost use Rattle.damage_skip.specs.Damage.{Intact, IsDamaged, IsNext, AreReached, AreLostUpToABlock, DamageLeavesEach, untouched};
ghost use Rattle.damage_skip.specs.DamagedWalks.{IsReachedAt};
ghost use Rattle.damage_skip.specs.FilePieces.{IsSettled, ArePieces, placed_in, AreFound};
ghost use Rattle.damage_skip.specs.Pieces.{PieceKind, Skipped, Piece, IsFoundAs, IsPieceOf, AreTiles, is_event, events_in, AreEvents, records_in};
ghost use Rattle.damage_skip.specs.Resyncs.{IsResync};
ghost use Rattle.damage_skip.specs.Walks.{GoesOn, IsMet};
ghost use Rattle.meta_chunk.specs.Files.{IsWellFormedChunk, IsReadable, IsWellFormed, IsFileOf, AreRecordsOf, ArePlaced, begin_of};

/// From a place below its end a file is read on at one place, which is past that: a boundary of the file, or its end. Own.
pub fn reading_goes_on_past_damage()
    ensures past { (file : List ℕ) (place to : ℕ)
        → place < length file → IsResync file place to
        → (place < to) × (to ≤ length file) × (IsBoundary to ⊎ (to ≡ length file)) }
    ensures one { (file : List ℕ) (place to other : ℕ)
        → IsResync file place to → IsResync file place other → to ≡ other }
    ensures some { (file : List ℕ) (place : ℕ) → (to : ℕ) × IsResync file place to }
{}

/// At each place of a file below its end one piece begins. It ends past that place, at a boundary of the file or at its end.
/// Own.
pub fn one_piece_begins_at_a_place()
    ensures one { (unread_ok : Bool) (file : List ℕ) (begin end other : ℕ) (what that : PieceKind)
        → IsPieceOf unread_ok file begin end what → IsPieceOf unread_ok file begin other that
        → (end ≡ other) × (what ≡ that) }
    ensures past { (unread_ok : Bool) (file : List ℕ) (begin end : ℕ) (what : PieceKind)
        → begin < length file → IsPieceOf unread_ok file begin end what
        → (begin < end) × (end ≤ length file) × (IsBoundary end ⊎ (end ≡ length file)) }
    ensures some { (unread_ok : Bool) (file : List ℕ) (begin : ℕ)
        → (end : ℕ) × (what : PieceKind) × IsPieceOf unread_ok file begin end what }
{}

/// From each place of a file there is one list of pieces to its end, and up to a place one at most: of two lists from a
/// place, that which reaches further begins with the other. So a file has one list of pieces, and one of events. Own.
pub fn a_file_has_one_list_of_pieces()
    ensures one { (unread_ok : Bool) (file : List ℕ) (from to : ℕ) (ps qs : List Piece)
        → AreTiles unread_ok file from to ps → AreTiles unread_ok file from to qs → ps ≡ qs }
    ensures front { (unread_ok : Bool) (file : List ℕ) (from to further : ℕ) (ps qs : List Piece)
        → to ≤ further → AreTiles unread_ok file from to ps
        → AreTiles unread_ok file from further qs
        → (rest : List Piece) × (qs ≡ ps ++ rest) × AreTiles unread_ok file to further rest }
    ensures to_end { (unread_ok : Bool) (file : List ℕ) (from : ℕ)
        → from ≤ length file
        → (pieces : List Piece) × AreTiles unread_ok file from (length file) pieces }
    ensures pieces { (unread_ok : Bool) (file : List ℕ)
        → (pieces : List Piece) × ArePieces unread_ok file pieces }
    ensures one_events { (unread_ok : Bool) (file : List ℕ) (es fs : List Piece)
        → AreEvents unread_ok file es → AreEvents unread_ok file fs → es ≡ fs }
    ensures events { (unread_ok : Bool) (file : List ℕ)
        → (events : List Piece) × AreEvents unread_ok file events }
{}

/// Pieces behind others are pieces, whose events are behind those of the others, and pieces come apart between any two. The
/// pieces of a file begin at boundaries that rise, end in the file, the last of them at its end, and each position of the
/// file lies in one. Each piece that is an event stands among the events as it is, and no other does: the events begin at
/// places that rise, and none is made of two pieces. Own.
pub fn pieces_tile_the_file()
    ensures joined { (unread_ok : Bool) (file : List ℕ) (from middle to : ℕ) (ps qs : List Piece)
        → AreTiles unread_ok file from middle ps → AreTiles unread_ok file middle to qs
        → AreTiles unread_ok file from to (ps ++ qs) }
    ensures parted { (unread_ok : Bool) (file : List ℕ) (from to : ℕ) (ps qs : List Piece)
        → AreTiles unread_ok file from to (ps ++ qs)
        → (middle : ℕ) × AreTiles unread_ok file from middle ps
        × AreTiles unread_ok file middle to qs }
    ensures events { (ps qs : List Piece) → events_in (ps ++ qs) ≡ events_in ps ++ events_in qs }
    ensures boundary { (unread_ok : Bool) (file : List ℕ) (pieces : List Piece)
        → ArePieces unread_ok file pieces
        → AllByRecursion (λ piece. IsBoundary piece.begin) pieces }
    ensures within { (unread_ok : Bool) (file : List ℕ) (pieces : List Piece)
        → ArePieces unread_ok file pieces
        → AllByRecursion (λ piece. (piece.begin < piece.end) × (piece.end ≤ length file)) pieces }
    ensures rise { (unread_ok : Bool) (file : List ℕ) (pieces : List Piece)
        → ArePieces unread_ok file pieces
        → IsStrictlyIncreasing (map (λ piece. piece.begin) pieces) }
    ensures last { (unread_ok : Bool) (file : List ℕ) (pieces : List Piece) (piece : Piece)
        → ArePieces unread_ok file (pieces ++ piece ∷ []) → piece.end ≡ length file }
    ensures holder { (unread_ok : Bool) (file : List ℕ) (pieces : List Piece) (position : ℕ)
        → ArePieces unread_ok file pieces → position < length file
        → (j : ℕ) × (piece : Piece) × (slice_get pieces j ≡ Some piece)
        × (piece.begin ≤ position) × (position < piece.end) }
    ensures events_hold { (pieces : List Piece) (j : ℕ) (piece : Piece)
        → slice_get pieces j ≡ Some piece → is_event piece.what ≡ true
        → (i : ℕ) × (slice_get (events_in pieces) i ≡ Some piece) }
    ensures events_are { (pieces : List Piece) (i : ℕ) (event : Piece)
        → slice_get (events_in pieces) i ≡ Some event → (j : ℕ) × (slice_get pieces j ≡ Some event) }
    ensures events_rise { (unread_ok : Bool) (file : List ℕ) (pieces : List Piece)
        → ArePieces unread_ok file pieces
        → IsStrictlyIncreasing (map (λ event. event.begin) (events_in pieces)) }
{}

/// A walk begins at the front of a file and goes on piece by piece to the file's end, where it gave the events of the file,
/// the first of them before the others. Between two places it gives one list of events at most. Own.
pub fn walks_go_on()
    ensures front { (unread_ok : Bool) (file : List ℕ) → IsMet unread_ok file 0 }
    ensures met { (unread_ok : Bool) (file : List ℕ) (from to : ℕ) (events : List Piece)
        → IsMet unread_ok file from → GoesOn unread_ok file from to events
        → IsMet unread_ok file to }
    ensures within { (unread_ok : Bool) (file : List ℕ) (place : ℕ)
        → IsMet unread_ok file place
        → (place ≤ length file) × (IsBoundary place ⊎ (place ≡ length file)) }
    ensures piece { (unread_ok : Bool) (file : List ℕ) (place end : ℕ) (what : PieceKind)
        → place < length file → IsPieceOf unread_ok file place end what
        → GoesOn unread_ok file place end (events_in (record { begin = place; end = end; what = what } ∷ [])) }
    ensures joined { (unread_ok : Bool) (file : List ℕ) (from middle to : ℕ) (es fs : List Piece)
        → GoesOn unread_ok file from middle es → GoesOn unread_ok file middle to fs
        → GoesOn unread_ok file from to (es ++ fs) }
    ensures one { (unread_ok : Bool) (file : List ℕ) (from to : ℕ) (es fs : List Piece)
        → GoesOn unread_ok file from to es → GoesOn unread_ok file from to fs → es ≡ fs }
    ensures whole { (unread_ok : Bool) (file : List ℕ) (events : List Piece)
        → GoesOn unread_ok file 0 (length file) events → AreEvents unread_ok file events }
    ensures first { (unread_ok : Bool) (file : List ℕ) (place : ℕ) (given events : List Piece)
        → GoesOn unread_ok file 0 place given → AreEvents unread_ok file events
        → (rest : List Piece) × (events ≡ given ++ rest)
        × GoesOn unread_ok file place (length file) rest }
{}

/// A file without fault is walked chunk by chunk, and each is found intact: a readable file whether
/// or not unread chunks are let through, and a well-formed one where they are. So nothing of it is
/// skipped, and its events give its records, with their positions. Own.
pub fn files_without_fault_are_walked_whole()
    ensures plain { (unread_ok : Bool) (ks : List ChunkValue) (file : List ℕ)
        → IsReadable ks file → IsFileOf (IsAllowed unread_ok) ks file }
    ensures pieces { (unread_ok : Bool) (ks : List ChunkValue) (file : List ℕ) (pieces : List Piece)
        → IsFileOf (IsAllowed unread_ok) ks file → ArePieces unread_ok file pieces
        → AreFound unread_ok 0 ks pieces }
    ensures none_skipped { (unread_ok : Bool) (ks : List ChunkValue) (file : List ℕ)
        (events : List Piece)
        → IsFileOf (IsAllowed unread_ok) ks file → AreEvents unread_ok file events
        → AllByRecursion (λ event. (reason : Why) → event.what ≢ Skipped reason) events }
    ensures records { (unread_ok : Bool) (ks : List ChunkValue) (file : List ℕ)
        (events : List Piece)
        → IsFileOf (IsAllowed unread_ok) ks file → AreEvents unread_ok file events
        → AreRecordsOf ks (records_in events) }
    ensures placed { (unread_ok : Bool) (ks : List ChunkValue) (file : List ℕ) (events : List Piece)
        → IsFileOf (IsAllowed unread_ok) ks file → AreEvents unread_ok file events
        → ArePlaced ks (placed_in events) }
{}

/// Pieces that are chunks found intact are as many as these, and each reaches from its chunk's begin to the next one's.
/// They give the records of the chunks, and events give all records that pieces do. Own.
pub fn found_pieces_are_the_chunks()
    ensures count { (unread_ok : Bool) (place : ℕ) (ks : List ChunkValue) (pieces : List Piece)
        → AreFound unread_ok place ks pieces → length pieces ≡ length ks }
    ensures at { (unread_ok : Bool) (ks : List ChunkValue) (pieces : List Piece) (j : ℕ)
        (k : ChunkValue) (piece : Piece)
        → AreFound unread_ok 0 ks pieces → slice_get ks j ≡ Some k → slice_get pieces j ≡ Some piece
        → (piece.begin ≡ begin_of ks j) × (piece.end ≡ begin_of ks (j + 1))
        × IsFoundAs unread_ok k piece.what }
    ensures none_skipped { (unread_ok : Bool) (place : ℕ) (ks : List ChunkValue)
        (pieces : List Piece)
        → AreFound unread_ok place ks pieces
        → AllByRecursion (λ piece. (reason : Why) → piece.what ≢ Skipped reason) pieces }
    ensures records { (unread_ok : Bool) (place : ℕ) (ks : List ChunkValue) (pieces : List Piece)
        → AreFound unread_ok place ks pieces → AreRecordsOf ks (records_in pieces) }
    ensures placed { (unread_ok : Bool) (ks : List ChunkValue) (pieces : List Piece)
        → AreFound unread_ok 0 ks pieces → ArePlaced ks (placed_in pieces) }
    ensures events_records { (pieces : List Piece) → records_in (events_in pieces) ≡ records_in pieces }
    ensures events_placed { (pieces : List Piece) → placed_in (events_in pieces) ≡ placed_in pieces }
{}

/// What damage leaves is told by chunk numbers alone: the chunk that is reached next is one, behind the one before it, and
/// so the chunks that are reached are one list, and so are the pieces that are left, which begin where these chunks do. Own.
pub fn what_damage_leaves_is_one()
    ensures next_one { (ks : List ChunkValue) (intact : Intact) (j next other : ℕ)
        → IsNext ks intact j next → IsNext ks intact j other → next ≡ other }
    ensures next_past { (ks : List ChunkValue) (intact : Intact) (j next : ℕ)
        → j < length ks → IsNext ks intact j next → (j < next) × (next ≤ length ks) }
    ensures next { (ks : List ChunkValue) (intact : Intact) (j : ℕ) → (next : ℕ) × IsNext ks intact j next }
    ensures reached_one { (ks : List ChunkValue) (intact : Intact) (j to : ℕ) (is js : List ℕ)
        → AreReached ks intact j to is → AreReached ks intact j to js → is ≡ js }
    ensures reached { (ks : List ChunkValue) (intact : Intact) (j : ℕ)
        → j ≤ length ks → (is : List ℕ) × AreReached ks intact j (length ks) is }
    ensures left_one { (unread_ok : Bool) (ks : List ChunkValue) (intact : Intact)
        (j to : ℕ) (ps qs : List Piece)
        → DamageLeavesEach unread_ok ks intact j to ps
        → DamageLeavesEach unread_ok ks intact j to qs → ps ≡ qs }
    ensures left { (unread_ok : Bool) (ks : List ChunkValue) (intact : Intact) (j : ℕ)
        → AllByRecursion IsWellFormedChunk ks → j ≤ length ks
        → (pieces : List Piece) × DamageLeavesEach unread_ok ks intact j (length ks) pieces }
    ensures begins { (unread_ok : Bool) (ks : List ChunkValue) (intact : Intact)
        (j to : ℕ) (pieces : List Piece) (is : List ℕ)
        → DamageLeavesEach unread_ok ks intact j to pieces → AreReached ks intact j to is
        → map (λ piece. piece.begin) pieces ≡ map (begin_of ks) is }
{}

/// The pieces of a damaged file of at most 2^60 bytes are those that are told from the undamaged file, from what is intact of
/// its chunks and of its block headers, also up to a chunk. So each place that a walk of it comes to is where a chunk begins
/// that is reached, or the end, and its events give the records of the chunks that are reached and untouched. Own.
pub fn damaged_files_come_apart_as_told()
    ensures pieces { (unread_ok : Bool) (ks : List ChunkValue) (file damaged : List ℕ)
        (intact : Intact) (pieces : List Piece)
        → length file ≤ 2 ^ 60 → IsDamaged ks file damaged intact
        → ArePieces unread_ok damaged pieces ↔ DamageLeavesEach unread_ok ks intact 0 (length ks) pieces }
    ensures front { (unread_ok : Bool) (ks : List ChunkValue) (file damaged : List ℕ)
        (intact : Intact) (n : ℕ) (pieces : List Piece)
        → length file ≤ 2 ^ 60 → IsDamaged ks file damaged intact → n ≤ length ks
        → AreTiles unread_ok damaged 0 (begin_of ks n) pieces ↔ DamageLeavesEach unread_ok ks intact 0 n pieces }
    ensures places { (unread_ok : Bool) (ks : List ChunkValue) (file damaged : List ℕ)
        (intact : Intact) (place : ℕ)
        → length file ≤ 2 ^ 60 → IsDamaged ks file damaged intact → IsMet unread_ok damaged place
        → (n : ℕ) × IsReachedAt ks intact place n }
    ensures records { (unread_ok : Bool) (ks : List ChunkValue) (file damaged : List ℕ)
        (intact : Intact) (is : List ℕ)
        (events : List Piece)
        → length file ≤ 2 ^ 60 → IsDamaged ks file damaged intact → AreReached ks intact 0 (length ks) is
        → AreEvents unread_ok damaged events
        → AreRecordsOf (untouched ks intact is) (records_in events) }
{}

/// A chunk that isn't reached, before one that is or before the end, is behind one with a broken header, and ends at or before
/// each intact block header from that one's begin on; so, where all block headers are intact, at or before the first block. Own.
pub fn chunks_are_lost_up_to_a_block()
    ensures lost { (ks : List ChunkValue) (intact : Intact) (to : ℕ) (is : List ℕ)
        → AreReached ks intact 0 to is → AreLostUpToABlock ks intact to is }
    ensures first_block { (ks : List ChunkValue) (intact : Intact) (to lost : ℕ) (is : List ℕ)
        → ((b : ℕ) → IsBlock b → b < begin_of ks (length ks) → intact.block b ≡ true)
        → AreReached ks intact 0 to is → lost < to → ((i : ℕ) → slice_get is i ≢ Some lost)
        → (j : ℕ) × (j < lost) × (intact.header j ≡ false)
        × ((b : ℕ) → IsBlock b → begin_of ks j ≤ b → begin_of ks (lost + 1) ≤ b) }
{}

/// The front of a file of chunks comes apart as the file does up to the last chunk that it has whole. Where it ends within a
/// chunk, that chunk's bytes are passed over as one region, for want of its header or of its end. Own.
pub fn fronts_of_files_lose_one_chunk()
    ensures front { (unread_ok : Bool) (ks : List ChunkValue) (file : List ℕ) (n : ℕ)
        → IsWellFormed ks file
        → (front : List Piece) × AreTiles unread_ok file 0 (begin_of ks n) front }
    ensures between { (unread_ok : Bool) (ks : List ChunkValue) (file : List ℕ) (n : ℕ)
        (front : List Piece)
        → IsWellFormed ks file → AreTiles unread_ok file 0 (begin_of ks n) front
        → ArePieces unread_ok (take (begin_of ks n) file) front }
    ensures within { (unread_ok : Bool) (ks : List ChunkValue) (file : List ℕ) (n m : ℕ)
        (front : List Piece)
        → IsWellFormed ks file → n < length ks → begin_of ks n < m → m < begin_of ks (n + 1)
        → AreTiles unread_ok file 0 (begin_of ks n) front
        → (reason : Why) × ((reason ≡ why.Short) ⊎ (reason ≡ why.Truncated))
        × ArePieces unread_ok (take m file) (front ++ record { begin = begin_of ks n; end = m; what = Skipped reason } ∷ []) }
{}

/// Bytes behind a file leave its settled pieces alone, and settled are all before a place behind which a chunk header fits. Own.
pub fn later_bytes_leave_pieces_alone()
    ensures kept { (unread_ok : Bool) (file more : List ℕ) (from to : ℕ) (pieces : List Piece)
        → AreTiles unread_ok file from to pieces
        → AllByRecursion (λ piece. IsSettled (length file) piece.end piece.what) pieces
        → AreTiles unread_ok (file ++ more) from to pieces }
    ensures settled { (unread_ok : Bool) (file : List ℕ) (from to : ℕ) (pieces : List Piece)
        → AreTiles unread_ok file from to pieces → end_of to chunk_header_size ≤ length file
        → AllByRecursion (λ piece. IsSettled (length file) piece.end piece.what) pieces }
{}

/// The front of a damaged file up to a chunk is a damaged front, of which the same is intact; so a file that begins with it, cut off
/// or with other bytes behind, has the pieces that damage leaves and that are settled there, as all before a chunk of it are. Own.
pub fn fronts_of_damaged_files_are_damaged()
    ensures front { (ks : List ChunkValue) (file damaged : List ℕ) (intact : Intact) (n : ℕ)
        → IsDamaged ks file damaged intact → 0 < n → n ≤ length ks
        → IsDamaged (take n ks) (take (begin_of ks n) file) (take (begin_of ks n) damaged) intact }
    ensures pieces { (unread_ok : Bool) (ks : List ChunkValue)
        (file damaged other : List ℕ) (intact : Intact) (n i : ℕ) (pieces : List Piece)
        → length file ≤ 2 ^ 60 → IsDamaged ks file damaged intact → i ≤ n → n ≤ length ks
        → take (begin_of ks n) other ≡ take (begin_of ks n) damaged
        → DamageLeavesEach unread_ok ks intact 0 i pieces
        → AllByRecursion (λ piece. IsSettled (begin_of ks n) piece.end piece.what) pieces
        → AreTiles unread_ok other 0 (begin_of ks i) pieces }
    ensures settled { (unread_ok : Bool) (ks : List ChunkValue) (intact : Intact)
        (n i : ℕ) (pieces : List Piece)
        → i < n → n ≤ length ks → DamageLeavesEach unread_ok ks intact 0 i pieces
        → AllByRecursion (λ piece. IsSettled (begin_of ks n) piece.end piece.what) pieces }
{}

//! Laws of the definitions that contracts cite. Nothing runs here.

ghost use Rattle.std.specs.List.{AllByRecursion};
ghost use Rattle.std.specs.Prelude.{◌≡◌, ◌⊎◌, ℕ, ◌+◌, ◌-◌, ◌*◌, ◌^◌, ◌≤◌, Bool, true, false, Option, List, [], ◌∷◌, ◌++◌, length};
ghost use Rattle.record_values.specs.Bytes.{AreBytes};
ghost use Rattle.record_io.specs.Puts.{Put, Made, Out, Notes, BreaksOff, bytes_to};
ghost use Rattle.block_layout.specs.Layout.{block_header_size};
ghost use Rattle.chunk_header.specs.Chunks.{ChunkValue};
ghost use Rattle.meta_chunk.specs.Kinds.{IsSignature, IsPadding};
ghost use Rattle.meta_chunk.specs.Files.{signature, end_of_chunks, IsWellFormedChunk, IsFileOf, IsReadable, IsWellFormed, AreRecordsOf, laid_each};
ghost use Rattle.meta_chunk.specs.Laid.{end_of_chunk};
ghost use Rattle.record_group.specs.declared.pad.Pad.{Pad};
ghost use Rattle.record_group.specs.declared.pad.Pad.TheVariants.{No};
ghost use Rattle.record_group.specs.Groups.{file_of};
ghost use Rattle.record_group.specs.Records.{AreRecords};
ghost use Rattle.chunk_reader.specs.Faults.{IsAllowed, HasNoFault};
ghost use Rattle.damage_skip.specs.Damage.{Intact, IsDamaged, AreReached, DamageLeavesEach, untouched};
ghost use Rattle.damage_skip.specs.Pieces.{Piece, AreTiles, events_in, records_in};
ghost use Rattle.damage_skip.specs.FilePieces.{ArePieces};
ghost use Rattle.damage_skip.specs.Walks.{GoesOn};
ghost use Rattle.damage_skip.specs.Policies.{IsTest, IsAllowedRegion};
ghost use Rattle.damage_skip.specs.Regions.{regions_in, skipped_text, IsWalkedTo};
ghost use Rattle.repair_copy.specs.Walked.{EndsAt};
ghost use Rattle.repair_copy.specs.RepairPuts.{puts_from, repair_puts, chunk_in, chunks_in};
ghost use Rattle.repair_copy.specs.RelaidFiles.{relaid};
ghost use Rattle.repair_copy.specs.CopiedChunks.{copied};

use damage_skip::{Policy, Region};

/// Pieces behind others have their chunks behind those of the others, so a piece more adds its chunk, if it has one, where
/// the file of the others ends. Events have the chunks of their pieces, and so are the same file. Own.
pub fn events_have_the_chunks_of_pieces()
    ensures joined { (ps qs : List Piece) → chunks_in (ps ++ qs) ≡ chunks_in ps ++ chunks_in qs }
    ensures more { (pieces : List Piece) (piece : Piece)
        → relaid (pieces ++ piece ∷ []) ≡ relaid pieces ++ laid_each (length (relaid pieces)) (chunk_in piece.what) }
    ensures events { (pieces : List Piece) → chunks_in (events_in pieces) ≡ chunks_in pieces }
    ensures file { (pieces : List Piece) → relaid (events_in pieces) ≡ relaid pieces }
{}

/// Of what a repair puts of events the file that is made takes the file of their chunks, notes their lines, and standard output
/// nothing. What it puts of more events comes behind. Where it breaks off at bytes to the made file, notes have whole lines. Own.
pub fn each_stream_takes_its_part()
    ensures made { (events : List Piece) → bytes_to Made (repair_puts events) ≡ relaid events }
    ensures notes { (events : List Piece) → bytes_to Notes (repair_puts events) ≡ skipped_text (regions_in events) }
    ensures out { (events : List Piece) → bytes_to Out (repair_puts events) ≡ [] }
    ensures more { (events more : List Piece)
        → repair_puts (events ++ more) ≡ repair_puts events ++ puts_from (end_of_chunks 0 (signature ∷ chunks_in events)) more }
    ensures lines { (events : List Piece) (part : List Put) → BreaksOff Made part (repair_puts events)
        → (front behind : List Piece) × (events ≡ front ++ behind) × (bytes_to Notes part ≡ skipped_text (regions_in front)) }
{}

/// The chunks of a file's pieces up to a place, laid anew behind the signature, make a well-formed
/// file of bytes, and a readable one where unread ones aren't let through. So it has no fault,
/// whatever its length, and its records are those of the pieces. It is the same with events. Own.
pub fn relaid_files_are_well_formed()
    ensures file { (unread_ok : Bool) (file : List ℕ) (place : ℕ) (pieces : List Piece)
        → AreBytes file → AreTiles unread_ok file 0 place pieces
        → IsFileOf (IsAllowed unread_ok) (signature ∷ chunks_in pieces) (relaid pieces) }
    ensures well_formed { (unread_ok : Bool) (file : List ℕ) (place : ℕ) (pieces : List Piece)
        → AreBytes file → AreTiles unread_ok file 0 place pieces
        → IsWellFormed (signature ∷ chunks_in pieces) (relaid pieces) }
    ensures plain { (file : List ℕ) (place : ℕ) (pieces : List Piece)
        → AreBytes file → AreTiles false file 0 place pieces
        → IsReadable (signature ∷ chunks_in pieces) (relaid pieces) }
    ensures bytes { (unread_ok : Bool) (file : List ℕ) (place : ℕ) (pieces : List Piece)
        → AreBytes file → AreTiles unread_ok file 0 place pieces → AreBytes (relaid pieces) }
    ensures no_fault { (unread_ok : Bool) (file : List ℕ) (place : ℕ) (pieces : List Piece)
        → AreBytes file → AreTiles unread_ok file 0 place pieces → HasNoFault true (relaid pieces) }
    ensures records { (unread_ok : Bool) (file : List ℕ) (place : ℕ) (pieces : List Piece)
        → AreTiles unread_ok file 0 place pieces
        → AreRecordsOf (signature ∷ chunks_in pieces) (records_in pieces) }
    ensures events { (unread_ok : Bool) (file : List ℕ) (place : ℕ) (events : List Piece)
        → AreBytes file → GoesOn unread_ok file 0 place events
        → IsWellFormed (signature ∷ chunks_in events) (relaid events)
        × AreRecordsOf (signature ∷ chunks_in events) (records_in events) }
{}

/// A chunk that is laid anew at another place grows by no more than a block header, and each has more bytes than that. So
/// behind the signature the file of pieces has at most twice the bytes up to where the pieces end. Own.
pub fn relaid_files_grow_little()
    ensures chunk { (begin place : ℕ) (k : ChunkValue)
        → end_of_chunk place k - place ≤ end_of_chunk begin k - begin + block_header_size }
    ensures more { (begin place : ℕ) (k : ChunkValue)
        → place ≤ 64 + 2 * begin → end_of_chunk place k ≤ 64 + 2 * end_of_chunk begin k }
    ensures file { (unread_ok : Bool) (file : List ℕ) (place : ℕ) (pieces : List Piece)
        → AreTiles unread_ok file 0 place pieces → length (relaid pieces) ≤ 64 + 2 * place }
{}

/// Of a file without fault all chunks are copied but signatures and padding. So where no chunk
/// behind the signature is either, a readable file is its own repair, and that of a well-formed one
/// is its chunks laid with zero padding. Own.
pub fn whole_files_are_their_own_repair()
    ensures chunks { (unread_ok : Bool) (ks : List ChunkValue) (file : List ℕ) (pieces : List Piece)
        → IsFileOf (IsAllowed unread_ok) ks file → ArePieces unread_ok file pieces
        → chunks_in pieces ≡ copied unread_ok ks }
    ensures plain { (unread_ok : Bool) (ks : List ChunkValue) (file : List ℕ) (pieces : List Piece)
        → IsReadable (signature ∷ ks) file
        → AllByRecursion (λ k. ¬ (IsSignature k ⊎ IsPadding k)) ks
        → ArePieces unread_ok file pieces → relaid pieces ≡ file }
    ensures well_formed { (ks : List ChunkValue) (file : List ℕ) (pieces : List Piece)
        → IsWellFormed (signature ∷ ks) file
        → AllByRecursion (λ k. ¬ (IsSignature k ⊎ IsPadding k)) ks
        → ArePieces true file pieces → relaid pieces ≡ laid_each 0 (signature ∷ ks) }
{}

/// The repair of a file of records is the file of these records without padding. Own.
pub fn repair_takes_padding_out()
    ensures { (unread_ok : Bool) (records : List (List ℕ)) (size : ℕ) (every : Option ℕ)
        (pad : Pad) (pieces : List Piece)
        → AreRecords records → size ≤ 2 ^ 24
        → ArePieces unread_ok (file_of records size every pad) pieces
        → relaid pieces ≡ file_of records size every No }
{}

/// A file that was repaired, whole or up to a place, is its own repair. Own.
pub fn repaired_files_stay()
    ensures { (unread_ok : Bool) (file : List ℕ) (place : ℕ) (pieces others : List Piece)
        → AreBytes file → AreTiles unread_ok file 0 place pieces
        → ArePieces unread_ok (relaid pieces) others
        → relaid others ≡ relaid pieces }
{}

/// The repair of a damaged file of at most 2^60 bytes has, behind the signature, the simple and metadata chunks, and where
/// they are kept the unread ones, that are reached and untouched, in order. Up to a chunk it has those of them that are
/// reached before it. Own.
pub fn what_damage_leaves_is_repaired()
    ensures left { (unread_ok : Bool) (ks : List ChunkValue) (intact : Intact) (j to : ℕ)
        (pieces : List Piece) (is : List ℕ)
        → AllByRecursion IsWellFormedChunk ks → DamageLeavesEach unread_ok ks intact j to pieces
        → AreReached ks intact j to is
        → chunks_in pieces ≡ copied unread_ok (untouched ks intact is) }
    ensures whole { (unread_ok : Bool) (ks : List ChunkValue) (file damaged : List ℕ)
        (intact : Intact) (is : List ℕ)
        (pieces : List Piece)
        → length file ≤ 2 ^ 60 → IsDamaged ks file damaged intact → AreReached ks intact 0 (length ks) is
        → ArePieces unread_ok damaged pieces
        → chunks_in pieces ≡ copied unread_ok (untouched ks intact is) }
    ensures well_formed { (unread_ok : Bool) (ks : List ChunkValue) (file : List ℕ)
        (intact : Intact) (to : ℕ) (pieces : List Piece) (is : List ℕ)
        → IsWellFormed ks file → DamageLeavesEach unread_ok ks intact 0 to pieces
        → AreReached ks intact 0 to is
        → IsWellFormed (signature ∷ copied unread_ok (untouched ks intact is)) (relaid pieces) }
{}

/// Under a policy a file has one list of events up to where its walk ends: at the file's end, or at the first region that
/// the policy's test can refuse. What is walked before is a front of it, and has a front of its file and of its lines. Own.
pub fn walks_under_a_policy_are_one<F: Fn(&Region) -> bool>(policy: &Policy<F>)
    requires test { IsTest F.Fn policy.now.test }
    ensures front { (file : List ℕ) (place end : ℕ) (es fs : List Piece) (stopped : Option Region)
        → length file ≤ 2 ^ 60 → IsWalkedTo true (IsAllowedRegion F.Fn policy.now.test) file place es
        → IsWalkedTo true (IsAllowedRegion F.Fn policy.now.test) file end fs
        → EndsAt F.Fn policy.now.test file end stopped → (rest : List Piece) × (fs ≡ es ++ rest) }
    ensures one { (file : List ℕ) (end other : ℕ) (es fs : List Piece) (stopped stops : Option Region)
        → length file ≤ 2 ^ 60 → IsWalkedTo true (IsAllowedRegion F.Fn policy.now.test) file end es
        → IsWalkedTo true (IsAllowedRegion F.Fn policy.now.test) file other fs
        → EndsAt F.Fn policy.now.test file end stopped → EndsAt F.Fn policy.now.test file other stops → es ≡ fs }
    ensures made { (es rest : List Piece) → relaid (es ++ rest) ≡ relaid es ++ laid_each (length (relaid es)) (chunks_in rest) }
    ensures lines { (es rest : List Piece) → skipped_text (regions_in (es ++ rest)) ≡ skipped_text (regions_in es) ++ skipped_text (regions_in rest) }
{}

//! Laws of the definitions that contracts cite. Nothing runs here.

ghost use Rattle.std.specs.List.{AllByRecursion};
ghost use Rattle.std.specs.Prelude.{◌≡◌, ◌⊎◌, ◌↔◌, ℕ, ◌+◌, ◌-◌, ◌^◌, ◌<◌, ◌≤◌, Bool, false, true, List, [], ◌∷◌, ◌++◌, Some, length, take, slice_get, slice_range, if◌then◌else◌};
ghost use Rattle.block_layout.specs.Layout.{IsBlock, IsBoundary};
ghost use Rattle.block_layout.specs.BlockHeaders.{StandsAt};
ghost use Rattle.chunk_header.specs.Chunks.{ChunkValue};
ghost use Rattle.chunk_header.specs.SimpleChunks.{IsCompressed};
ghost use Rattle.highway_hash.specs.Riegeli.{riegeli_hash};
ghost use Rattle.meta_chunk.specs.Files.{is_unread, totals_of, signature, IsPlain, IsUnread, IsTransposed, IsChainOf, IsReadable, IsWellFormed, begin_of, LiesIn};
ghost use Rattle.meta_chunk.specs.Chains.{IsWellFormedChain};
ghost use Rattle.meta_chunk.specs.Laid.{IsLaid, end_of_chunk};
ghost use Rattle.record_values.specs.Bytes.{AreBytes};
ghost use Rattle.chunk_reader.specs.Holders.{TellsBegin, ArePlacesBetween, IsHolder};
ghost use Rattle.chunk_reader.specs.Faults.{IsAllowed, IsVerdict, IsLongest, BeginsWithSignature, HasNoFault, IsFault};
ghost use Rattle.chunk_reader.specs.Places.{header_at, end_at, chunk_at};
ghost use Rattle.chunk_reader.specs.PlaceChecks.{HaveHeadersOf};
ghost use Rattle.chunk_reader.specs.Reasons.{Applies, NoneOf, IsFirstOf, strict_reasons};
ghost use Rattle.chunk_reader.specs.declared.reasons.Fault.{Fault};
ghost use Rattle.chunk_reader.specs.declared.reasons.Why.TheVariants as why;
ghost use Rattle.chunk_reader.specs.declared.reasons.Why.{Why};

/// The chunk that is laid at a place of a file is the chunk that the header there says: it has these fields, this data
/// and this end, and each of its blocks has its header. Own.
pub fn laid_chunks_stand_at_their_places()
    ensures header { (file : List ℕ) (place end : ℕ) (k : ChunkValue)
        → IsLaid place k (slice_range file place end)
        → header_at file place ≡ record {
          data_size = length k.«data»;
          data_hash = riegeli_hash k.«data»;
          kind = k.kind;
          num_records = k.num_records;
          decoded_size = k.decoded_size;
        } }
    ensures chunk { (file : List ℕ) (place end : ℕ) (k : ChunkValue)
        → IsLaid place k (slice_range file place end) → chunk_at file place ≡ k }
    ensures end { (file : List ℕ) (place end : ℕ) (k : ChunkValue)
        → IsLaid place k (slice_range file place end)
        → (end_at file place ≡ end_of_chunk place k) × (end_at file place ≤ length file) }
    ensures blocks { (file : List ℕ) (place end : ℕ) (k : ChunkValue)
        → IsLaid place k (slice_range file place end)
        → HaveHeadersOf file place (end_at file place) place (end_at file place) }
{}

/// No reason applies exactly to the chunks that reading passes: to no chunk that is laid and allowed, and the chunk at a
/// place of a file of bytes to which none applies is laid there and allowed. Own.
pub fn no_reason_applies_to_allowed_chunks()
    ensures none { (unread_ok : Bool) (file : List ℕ) (place end : ℕ) (k : ChunkValue)
        → IsLaid place k (slice_range file place end) → IsAllowed unread_ok k
        → NoneOf (Applies file place) (strict_reasons unread_ok) }
    ensures laid { (unread_ok : Bool) (file : List ℕ) (place : ℕ)
        → AreBytes file → NoneOf (Applies file place) (strict_reasons unread_ok)
        → IsLaid place (chunk_at file place) (slice_range file place (end_at file place)) }
    ensures allowed { (unread_ok : Bool) (file : List ℕ) (place : ℕ)
        → NoneOf (Applies file place) (strict_reasons unread_ok)
        → IsAllowed unread_ok (chunk_at file place) }
{}

/// A file that begins with the signature has the signature chunk at 0, to which no reason applies; each file with a
/// chunk at its front begins so. Own.
pub fn files_begin_with_the_signature()
    ensures chunk { (file : List ℕ)
        → BeginsWithSignature file → (chunk_at file 0 ≡ signature) × (end_at file 0 ≡ 64) }
    ensures none { (unread_ok : Bool) (file : List ℕ)
        → BeginsWithSignature file → NoneOf (Applies file 0) (strict_reasons unread_ok) }
    ensures begins { (unread_ok : Bool) (k : ChunkValue) (ks : List ChunkValue)
        (file : List ℕ) (place : ℕ)
        → IsChainOf (IsAllowed unread_ok) (k ∷ ks) file place → BeginsWithSignature file }
{}

/// A front of well-formed chunks goes on by the next chunk where no reason applies to that, and is the longest where
/// one does. Each chunk more is counted once, and no count passes the bytes of the chunks. Own.
pub fn fronts_go_on_up_to_a_reason()
    ensures none { (unread_ok : Bool) (file : List ℕ) → IsChainOf (IsAllowed unread_ok) [] file 0 }
    ensures goes_on { (unread_ok : Bool) (ks : List ChunkValue) (file : List ℕ) (place : ℕ)
        → AreBytes file → BeginsWithSignature file
        → IsChainOf (IsAllowed unread_ok) ks file place
        → NoneOf (Applies file place) (strict_reasons unread_ok)
        → IsChainOf (IsAllowed unread_ok) (ks ++ chunk_at file place ∷ []) file (end_at file place) }
    ensures longest { (unread_ok : Bool) (ks : List ChunkValue) (file : List ℕ) (place : ℕ)
        (first : Why)
        → IsChainOf (IsAllowed unread_ok) ks file place
        → IsFirstOf (Applies file place) (strict_reasons unread_ok) first
        → IsLongest (IsAllowed unread_ok) ks file place }
    ensures totals { (ks : List ChunkValue) (k : ChunkValue)
        → totals_of (ks ++ k ∷ []) ≡ record {
          chunks = (totals_of ks).chunks + 1;
          records = (totals_of ks).records + (if is_unread k then 0 else k.num_records);
          bytes = end_of_chunk (totals_of ks).bytes k;
          unread = (totals_of ks).unread + (if is_unread k then 1 else 0);
        } }
    ensures counts { (ks : List ChunkValue)
        → ((totals_of ks).chunks ≤ (totals_of ks).bytes) × ((totals_of ks).records ≤ (totals_of ks).bytes)
        × ((totals_of ks).unread ≤ (totals_of ks).chunks) }
{}

/// Each file of bytes has one fault, or none: never both. The fault's place is a boundary that lies in the file, or
/// the front of a file that doesn't begin with the signature. Own.
pub fn a_file_has_one_fault_or_none()
    ensures one { (unread_ok : Bool) (file : List ℕ) (a b : Fault)
        → IsFault unread_ok file a → IsFault unread_ok file b → a ≡ b }
    ensures verdict { (unread_ok : Bool) (file : List ℕ) (place : ℕ) (a b : Fault)
        → IsVerdict unread_ok file place a → IsVerdict unread_ok file place b → a ≡ b }
    ensures apart { (unread_ok : Bool) (file : List ℕ) (fault : Fault)
        → IsFault unread_ok file fault → ¬ HasNoFault unread_ok file }
    ensures judged { (unread_ok : Bool) (file : List ℕ)
        → AreBytes file
        → HasNoFault unread_ok file ⊎ ((fault : Fault) × IsFault unread_ok file fault) }
    ensures none { (unread_ok : Bool) (file : List ℕ)
        → AreBytes file
        → (¬ ((fault : Fault) × IsFault unread_ok file fault)) ↔ HasNoFault unread_ok file }
    ensures place { (unread_ok : Bool) (file : List ℕ) (fault : Fault)
        → IsFault unread_ok file fault
        → IsBoundary fault.at × (fault.at ≤ length file)
        × (BeginsWithSignature file → fault.at < length file) }
    ensures reason { (unread_ok : Bool) (file : List ℕ) (fault : Fault)
        → IsFault unread_ok file fault
        → (fault.why ≡ why.NoSignature) ↔ (¬ BeginsWithSignature file) }
{}

/// Reading that lets unread chunks through and strict reading agree up to the first of them, which strict
/// reading refuses by its name. Own.
pub fn well_formed_files_are_read_strictly_up_to_unread_chunks()
    ensures file { (ks : List ChunkValue) (file : List ℕ)
        → (IsWellFormed ks file × AllByRecursion IsPlain ks) ↔ IsReadable ks file }
    ensures plain { (ks : List ChunkValue) (file : List ℕ) (place : ℕ) (fault : Fault)
        → IsLongest (IsAllowed true) ks file place → AllByRecursion IsPlain ks
        → IsFault true file fault → IsFault false file fault }
    ensures compressed { (ks : List ChunkValue) (file : List ℕ) (place j : ℕ) (k : ChunkValue)
        → IsWellFormedChain ks file place → slice_get ks j ≡ Some k
        → AllByRecursion IsPlain (take j ks)
        → IsUnread k → IsCompressed k
        → IsFault false file (record { at = begin_of ks j; why = why.Compressed }) }
    ensures transposed { (ks : List ChunkValue) (file : List ℕ) (place j : ℕ) (k : ChunkValue)
        → IsWellFormedChain ks file place → slice_get ks j ≡ Some k
        → AllByRecursion IsPlain (take j ks)
        → IsUnread k → IsTransposed k
        → IsFault false file (record { at = begin_of ks j; why = why.Transposed }) }
{}

/// A file has one list of chunks at most, and a list of plain chunks is that of one file at most. Own.
pub fn files_and_their_chunks_are_one()
    ensures chunks { (ks ls : List ChunkValue) (file : List ℕ) → IsWellFormed ks file
        → IsWellFormed ls file → ks ≡ ls }
    ensures file { (ks : List ChunkValue) (a b : List ℕ) → IsReadable ks a → IsReadable ks b
        → a ≡ b }
{}

/// In a file of chunks each block header tells the chunk that it lies in, and each chunk header where the next one is. So the
/// chunk that holds a position is the one in which the position lies. Own.
pub fn headers_tell_their_chunks()
    ensures blocks { (ks : List ChunkValue) (file : List ℕ) (block i : ℕ)
        → IsWellFormed ks file → length file ≤ 2 ^ 60 → IsBlock block → LiesIn ks block i
        → StandsAt file block (block - begin_of ks i) (begin_of ks (i + 1) - block) }
    ensures told { (ks : List ChunkValue) (file : List ℕ) (block begin i : ℕ)
        → IsWellFormed ks file → length file ≤ 2 ^ 60 → IsBlock block → LiesIn ks block i
        → TellsBegin file block begin → begin ≡ begin_of ks i }
    ensures places { (ks : List ChunkValue) (file places : List ℕ) (i to : ℕ)
        → IsWellFormed ks file → i ≤ length ks → ArePlacesBetween file (begin_of ks i) to places
        → (i + length places ≤ length ks) × (to ≡ begin_of ks (i + length places)) }
    ensures holder { (ks : List ChunkValue) (file : List ℕ) (position place i : ℕ)
        → IsWellFormed ks file → length file ≤ 2 ^ 60 → LiesIn ks position i
        → IsHolder file position place ↔ (place ≡ begin_of ks i) }
{}

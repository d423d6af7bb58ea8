//! Laws of the definitions that contracts cite. Nothing runs here.

ghost use Rattle.std.specs.List.{AllByRecursion};
ghost use Rattle.std.specs.List.Sorted.{IsStrictlyIncreasing};
ghost use Rattle.std.specs.Prelude.{◌≡◌, IsTrue, ℕ, ◌+◌, ◌-◌, ◌*◌, ◌%◌, ◌<◌, ◌≤◌, ◌↔◌, List, [], ◌∷◌, ◌++◌, Some, length, map, take, drop, slice_get, slice_range};
ghost use Rattle.block_layout.specs.BlockHeaders.{block_header};
ghost use Rattle.block_layout.specs.Layout.{block_size, block_header_size, chunk_header_size, IsBlock, IsBoundary, usable_bytes, usable_bytes_at};
ghost use Rattle.chunk_header.specs.Chunks.{ChunkValue, IsChunk, header_size, header_bytes, chunk_bytes};
ghost use Rattle.meta_chunk.specs.Files.{is_unread, totals_of, signature, signature_bytes, IsPlain, IsUnread, IsWellFormedChunk, Holds, HoldEach, AreRecordsOf, ArePlaced, AreLaid, IsReadable, begin_of, end_of_chunks, laid_each};
ghost use Rattle.meta_chunk.specs.Chains.{IsReadableChain, IsWellFormedChain};
ghost use Rattle.meta_chunk.specs.Kinds.{IsSignature, IsPadding};
ghost use Rattle.meta_chunk.specs.Laid.{IsLaid, end_of_chunk, laid};
ghost use Rattle.meta_chunk.specs.PaddingSizes.{padding, padding_size_of, padding_at};
ghost use Rattle.meta_chunk.specs.LeastPadding.{IsPaddingSize};
ghost use Rattle.meta_chunk.specs.declared.file_signature.TheConstants.{SIGNATURE};

/// A chunk's header has one size, whether the chunk is looked at alone or where it lies in a file. Own.
pub fn header_size_is_one()
    ensures one { header_size ≡ chunk_header_size }
    ensures bytes { (k : ChunkValue) → length (header_bytes k) ≡ header_size }
{}

/// The signature is the signature chunk laid at 0. Own.
pub fn signature_is_laid()
    ensures { SIGNATURE ≡ signature_bytes }
{}

/// A chunk of the signature's kind that keeps the kind's rule is the signature chunk. Own.
pub fn signature_is_one()
    ensures one { (k : ChunkValue) → IsSignature k ↔ (k ≡ signature) }
{}

/// The bytes of a chunk with zero padding are bytes of that chunk, wherever it begins. Own.
pub fn laid_is_laid()
    ensures is_laid { (begin : ℕ) (k : ChunkValue) → IsChunk k → IsLaid begin k (laid begin k) }
{}

/// A chunk that holds no more records than it has bytes has no padding: from a boundary it is laid in one way.
/// So it is with plain chunks, and of a list of these there is one file. Own.
pub fn laid_without_padding_is_one()
    ensures one { (begin : ℕ) (k : ChunkValue) (bytes : List ℕ)
        → IsBoundary begin
        → k.num_records ≤ chunk_header_size + length k.«data»
        → IsLaid begin k bytes
        → bytes ≡ laid begin k }
    ensures plain { (k : ChunkValue) → IsPlain k → k.num_records ≤ chunk_header_size + length k.«data» }
    ensures file { (ks : List ChunkValue) (file : List ℕ) → IsReadable ks file
        → file ≡ laid_each 0 ks }
{}

/// The bytes of chunks one after another, with zero padding, are bytes of those chunks. Own.
pub fn laid_each_are_laid()
    ensures are_laid { (begin : ℕ) (ks : List ChunkValue)
        → AllByRecursion IsChunk ks → AreLaid begin ks (laid_each begin ks) }
{}

/// Chunks behind others: where they end, what bytes they have, and how bytes of all of them come apart. Own.
pub fn chunks_are_joined()
    ensures end { (place : ℕ) (ks more : List ChunkValue)
        → end_of_chunks place (ks ++ more) ≡ end_of_chunks (end_of_chunks place ks) more }
    ensures bytes { (place : ℕ) (ks more : List ChunkValue)
        → laid_each place (ks ++ more) ≡ laid_each place ks ++ laid_each (end_of_chunks place ks) more }
    ensures size { (place : ℕ) (ks : List ChunkValue)
        → length (laid_each place ks) ≡ end_of_chunks place ks - place }
    ensures joined { (place : ℕ) (ks more : List ChunkValue) (front back : List ℕ)
        → AreLaid place ks front → AreLaid (end_of_chunks place ks) more back
        → AreLaid place (ks ++ more) (front ++ back) }
    ensures parted { (place : ℕ) (ks more : List ChunkValue) (bytes : List ℕ)
        → AreLaid place (ks ++ more) bytes
        → AreLaid place ks (take (end_of_chunks place ks - place) bytes)
        × AreLaid (end_of_chunks place ks) more (drop (end_of_chunks place ks - place) bytes) }
{}

/// Bytes of chunks from 0 on are bytes of these chunks from each block on. Own.
pub fn chunks_move_by_blocks()
    ensures at_block { (block : ℕ) (ks : List ChunkValue) (bytes : List ℕ)
        → IsBlock block → AreLaid 0 ks bytes → AreLaid block ks bytes }
{}

/// A chunk is laid in a file exactly where the usable bytes at its begin are the chunk's, and each of its blocks has
/// its header. A chunk is known by its bytes, so at a place of a file one is laid at most. Own.
pub fn chunk_bytes_stand_at_the_begin()
    ensures first { (begin : ℕ) (k : ChunkValue) (bytes : List ℕ)
        → IsLaid begin k bytes → take (length (chunk_bytes k)) (usable_bytes begin bytes) ≡ chunk_bytes k }
    ensures in_file { (begin : ℕ) (k : ChunkValue) (file : List ℕ) (end : ℕ)
        → IsLaid begin k (slice_range file begin end)
        → usable_bytes_at file begin (chunk_header_size + length k.«data») ≡ chunk_bytes k }
    ensures header { (begin : ℕ) (k : ChunkValue) (file : List ℕ) (end : ℕ)
        → IsLaid begin k (slice_range file begin end)
        → usable_bytes_at file begin chunk_header_size ≡ header_bytes k }
    ensures headers { (begin : ℕ) (k : ChunkValue) (file : List ℕ) (end b : ℕ)
        → IsLaid begin k (slice_range file begin end)
        → IsBlock b → begin ≤ b → b < end_of_chunk begin k
        → slice_range file b (b + block_header_size) ≡ block_header (b - begin) (end_of_chunk begin k - b) }
    ensures laid { (begin : ℕ) (k : ChunkValue) (file : List ℕ)
        → IsChunk k
        → end_of_chunk begin k ≤ length file
        → usable_bytes_at file begin (chunk_header_size + length k.«data») ≡ chunk_bytes k
        → ((b : ℕ) → IsBlock b → begin ≤ b → b < end_of_chunk begin k
        → slice_range file b (b + block_header_size) ≡ block_header (b - begin) (end_of_chunk begin k - b))
        → IsLaid begin k (slice_range file begin (end_of_chunk begin k)) }
    ensures one { (begin : ℕ) (k l : ChunkValue) (file : List ℕ) (end other : ℕ)
        → IsLaid begin k (slice_range file begin end) → IsLaid begin l (slice_range file begin other)
        → k ≡ l }
{}

/// The begins of chunks by their numbers: each is a boundary, they rise by the size of a chunk header or more from
/// chunk to chunk, and each place below the last one lies in one chunk. In a file each chunk stands from its begin
/// to the next one's, and the last begin is where the last chunk ends. Own.
pub fn chunks_stand_at_their_begins()
    ensures boundary { (ks : List ChunkValue) (j : ℕ) → IsBoundary (begin_of ks j) }
    ensures rise { (ks : List ChunkValue) (i j : ℕ) → i ≤ j → begin_of ks i ≤ begin_of ks j }
    ensures rise_by { (ks : List ChunkValue) (j : ℕ)
        → j < length ks → begin_of ks j + chunk_header_size ≤ begin_of ks (j + 1) }
    ensures next { (ks : List ChunkValue) (j : ℕ) (k : ChunkValue)
        → slice_get ks j ≡ Some k → begin_of ks (j + 1) ≡ end_of_chunk (begin_of ks j) k }
    ensures past { (ks : List ChunkValue) (j : ℕ)
        → length ks ≤ j → begin_of ks j ≡ begin_of ks (length ks) }
    ensures end { (ks : List ChunkValue) (file : List ℕ) (place : ℕ)
        → place ≤ length file → AreLaid 0 ks (take place file) → begin_of ks (length ks) ≡ place }
    ensures within { (ks : List ChunkValue) (file : List ℕ) (place j : ℕ)
        → place ≤ length file → AreLaid 0 ks (take place file) → begin_of ks j ≤ place }
    ensures holder { (ks : List ChunkValue) (place : ℕ)
        → place < begin_of ks (length ks)
        → (j : ℕ) × (k : ChunkValue) × (slice_get ks j ≡ Some k)
        × (begin_of ks j ≤ place) × (place < begin_of ks (j + 1)) }
    ensures one_holder { (ks : List ChunkValue) (i j place : ℕ)
        → begin_of ks i ≤ place → place < begin_of ks (i + 1)
        → begin_of ks j ≤ place → place < begin_of ks (j + 1)
        → i ≡ j }
    ensures at { (ks : List ChunkValue) (file : List ℕ) (place j : ℕ) (k : ChunkValue)
        → place ≤ length file → AreLaid 0 ks (take place file) → slice_get ks j ≡ Some k
        → IsLaid (begin_of ks j) k (slice_range file (begin_of ks j) (begin_of ks (j + 1))) }
    ensures chunk_bytes { (ks : List ChunkValue) (file : List ℕ) (place j : ℕ) (k : ChunkValue)
        → place ≤ length file → AreLaid 0 ks (take place file) → slice_get ks j ≡ Some k
        → usable_bytes_at file (begin_of ks j) (chunk_header_size + length k.«data») ≡ chunk_bytes k }
    ensures zero_padding_end { (ks : List ChunkValue)
        → length (laid_each 0 ks) ≡ begin_of ks (length ks) }
    ensures zero_padding_at { (ks : List ChunkValue) (j : ℕ) (k : ChunkValue)
        → slice_get ks j ≡ Some k
        → slice_range (laid_each 0 ks) (begin_of ks j) (begin_of ks (j + 1)) ≡ laid (begin_of ks j) k }
{}

/// Chunks laid at the front of a file: the first of them are too, more can be laid behind them, and up to a place
/// of the file there is one list of chunks at most, with which each list that reaches further begins. Own.
pub fn chains_are_one()
    ensures first { (n : ℕ) (ks : List ChunkValue) (file : List ℕ) (place : ℕ)
        → place ≤ length file → AreLaid 0 ks (take place file)
        → AreLaid 0 (take n ks) (take (begin_of ks n) file) }
    ensures chain { (n : ℕ) (ks : List ChunkValue) (file : List ℕ) (place : ℕ)
        → IsReadableChain ks file place → IsReadableChain (take n ks) file (begin_of ks n) }
    ensures well_formed_chain { (n : ℕ) (ks : List ChunkValue) (file : List ℕ) (place : ℕ)
        → IsWellFormedChain ks file place → IsWellFormedChain (take n ks) file (begin_of ks n) }
    ensures well_formed { (ks : List ChunkValue) (file : List ℕ) (place : ℕ)
        → IsReadableChain ks file place → IsWellFormedChain ks file place }
    ensures more { (ks more : List ChunkValue) (file : List ℕ) (place further : ℕ)
        → place ≤ further → further ≤ length file
        → AreLaid 0 ks (take place file) → AreLaid place more (slice_range file place further)
        → AreLaid 0 (ks ++ more) (take further file) }
    ensures front { (ks ls : List ChunkValue) (file : List ℕ) (place further : ℕ)
        → place ≤ further → further ≤ length file
        → AreLaid 0 ks (take place file) → AreLaid 0 ls (take further file)
        → ks ≡ take (length ks) ls }
    ensures one { (ks ls : List ChunkValue) (file : List ℕ) (place : ℕ)
        → place ≤ length file → AreLaid 0 ks (take place file) → AreLaid 0 ls (take place file)
        → ks ≡ ls }
{}

/// The padding from a boundary ends at a block, less than two blocks on. It is one chunk of the padding kind, with
/// the least data that ends there, and none at a block. Own.
pub fn padding_ends_at_a_block()
    ensures block { (place : ℕ) → IsBoundary place → IsBlock (end_of_chunks place (padding_at place)) }
    ensures after { (place : ℕ) → place ≤ end_of_chunks place (padding_at place) }
    ensures near { (place : ℕ)
        → IsBoundary place → end_of_chunks place (padding_at place) < place + 2 * block_size }
    ensures none { (place : ℕ) → IsBlock place → padding_at place ≡ [] }
    ensures some { (place : ℕ)
        → block_header_size < place % block_size → padding_at place ≡ padding (padding_size_of place) ∷ [] }
    ensures size { (place : ℕ)
        → block_header_size < place % block_size → IsPaddingSize place (padding_size_of place) }
    ensures kind { (place : ℕ) → IsBoundary place → AllByRecursion IsPadding (padding_at place) }
    ensures plain { (place : ℕ) → IsBoundary place → AllByRecursion IsPlain (padding_at place) }
    ensures chunks { (place : ℕ) → IsBoundary place → AllByRecursion IsChunk (padding_at place) }
{}

/// A chunk holds one list of records at most, and chunks have one list of records at most. Plain and unread chunks,
/// of which none is both, hold one; a plain chunk's has as many records as its header says. Chunks behind others
/// have their records behind those of the others. Own.
pub fn records_of_chunks_are_one()
    ensures apart { (k : ChunkValue) → IsUnread k → ¬ IsPlain k }
    ensures held { (ks : List ChunkValue)
        → AllByRecursion IsWellFormedChunk ks → (lists : List (List (List ℕ))) × HoldEach ks lists }
    ensures one_each { (ks : List ChunkValue) (a b : List (List (List ℕ)))
        → HoldEach ks a → HoldEach ks b → a ≡ b }
    ensures one { (ks : List ChunkValue) (a b : List (List ℕ))
        → AreRecordsOf ks a → AreRecordsOf ks b → a ≡ b }
    ensures count { (k : ChunkValue) (records : List (List ℕ))
        → IsPlain k → Holds k records → length records ≡ k.num_records }
    ensures joined { (ks more : List ChunkValue) (a b : List (List ℕ))
        → AreRecordsOf ks a → AreRecordsOf more b → AreRecordsOf (ks ++ more) (a ++ b) }
{}

/// The records of chunks with their positions are one list at most, and its records are those of the chunks. The
/// positions rise, and lie below the end of the chunks. Own.
pub fn positions_rise()
    ensures one { (ks : List ChunkValue) (a b : List (ℕ × List ℕ)) → ArePlaced ks a → ArePlaced ks b → a ≡ b }
    ensures records { (ks : List ChunkValue) (placed : List (ℕ × List ℕ))
        → ArePlaced ks placed → AreRecordsOf ks (map (λ p. p.1) placed) }
    ensures rise { (ks : List ChunkValue) (placed : List (ℕ × List ℕ))
        → ArePlaced ks placed → IsStrictlyIncreasing (map (λ p. p.0) placed) }
    ensures below { (ks : List ChunkValue) (placed : List (ℕ × List ℕ))
        → ArePlaced ks placed → AllByRecursion (λ p. p < end_of_chunks 0 ks) (map (λ p. p.0) placed) }
{}

/// The totals of plain and unread chunks count those that are unread, the records that they hold, and the bytes up
/// to where they end. Own.
pub fn totals_are_counted()
    ensures unread { (k : ChunkValue) → IsWellFormedChunk k → IsTrue (is_unread k) ↔ IsUnread k }
    ensures records { (ks : List ChunkValue) (records : List (List ℕ))
        → AllByRecursion IsWellFormedChunk ks → AreRecordsOf ks records
        → (totals_of ks).records ≡ length records }
    ensures bytes { (ks : List ChunkValue) (file : List ℕ) (place : ℕ)
        → place ≤ length file → AreLaid 0 ks (take place file) → (totals_of ks).bytes ≡ place }
{}

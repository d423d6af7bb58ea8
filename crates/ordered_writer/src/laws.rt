//! Laws of the definitions that contracts cite. Nothing runs here.

ghost use Rattle.std.specs.Prelude.{◌≡◌, ◌≢◌, ℕ, ◌+◌, ◌*◌, ◌%◌, ◌<◌, ◌≤◌, ◌==◌, Contains, Some, List, [], ◌∷◌, ◌++◌, count_by, length, map};
ghost use Rattle.std.specs.List.{AllByRecursion, enumerate_from, range_with_len};
ghost use Rattle.block_layout.specs.Layout.{block_size, IsBoundary, chunk_end_of, end_of, room};
ghost use Rattle.chunk_header.specs.Chunks.{ChunkValue};
ghost use Rattle.chunk_header.specs.Views.{HasRightHash, IsHeaderOf, value_of_chunk};
ghost use Rattle.chunk_header.specs.declared.Chunk.{Chunk};
ghost use Rattle.chunk_header.specs.declared.Header.{Header};
ghost use Rattle.meta_chunk.specs.Laid.{IsLaid, end_of_chunk, laid};
ghost use Rattle.meta_chunk.specs.Files.{totals_of, AreLaid, AreRecordsOf, IsReadable, IsWellFormed, end_of_chunks, laid_each};
ghost use Rattle.meta_chunk.specs.PaddingSizes.{padding_at};
ghost use Rattle.ordered_writer.specs.Reorders.{CanHold, CanHoldEach, HasEachFrom, Reordering, coming, count_held, held_at, moved_on, room_of, with_each, with_held};
ghost use Rattle.ordered_writer.specs.Writers.{laid_as, laid_with};
ghost use Rattle.ordered_writer.specs.Padding.{padding_bytes};

/// Where a header says of a chunk all that it says, that chunk is laid with it. Own.
pub fn chunks_are_laid_with_their_header()
    ensures { (begin : ℕ) (h : Header) (k : ChunkValue) → IsHeaderOf h k → laid_with begin h k.«data» ≡ laid begin k }
{}

/// A chunk whose header has its data's hash is laid as the chunk that it stands for, also behind others. Own.
pub fn right_chunks_are_laid()
    ensures laid { (begin : ℕ) (c : Chunk) → HasRightHash c → laid_as begin c ≡ laid begin (value_of_chunk c) }
    ensures behind { (place : ℕ) (ks : List ChunkValue) (c : Chunk) → HasRightHash c
        → laid_each place (ks ++ value_of_chunk c ∷ []) ≡ laid_each place ks ++ laid_as (end_of_chunks place ks) c }
{}

/// What is laid moves by whole blocks: there is as much room so many blocks further on, and bytes and chunks end so many
/// blocks further on. At places that lie alike in their blocks, chunks have the same bytes, and there is the same padding.
/// Own.
pub fn laying_moves_by_blocks()
    ensures room { (a b blocks : ℕ) → room (a + blocks * block_size) (b + blocks * block_size) ≡ room a b }
    ensures end { (begin size blocks : ℕ)
        → end_of (begin + blocks * block_size) size ≡ end_of begin size + blocks * block_size }
    ensures chunk_end { (begin size num_records blocks : ℕ)
        → chunk_end_of (begin + blocks * block_size) size num_records ≡ chunk_end_of begin size num_records + blocks * block_size }
    ensures chunks_end { (place blocks : ℕ) (ks : List ChunkValue)
        → end_of_chunks (place + blocks * block_size) ks ≡ end_of_chunks place ks + blocks * block_size }
    ensures boundary { (p q : ℕ) → p % block_size ≡ q % block_size → IsBoundary p → IsBoundary q }
    ensures is_laid { (p q : ℕ) (k : ChunkValue) (bytes : List ℕ)
        → p % block_size ≡ q % block_size → IsLaid p k bytes → IsLaid q k bytes }
    ensures are_laid { (p q : ℕ) (ks : List ChunkValue) (bytes : List ℕ)
        → p % block_size ≡ q % block_size → AreLaid p ks bytes → AreLaid q ks bytes }
    ensures laid { (p q : ℕ) (k : ChunkValue) → p % block_size ≡ q % block_size → laid p k ≡ laid q k }
    ensures laid_each { (p q : ℕ) (ks : List ChunkValue)
        → p % block_size ≡ q % block_size → laid_each p ks ≡ laid_each q ks }
    ensures padding { (p q : ℕ) → p % block_size ≡ q % block_size → padding_at p ≡ padding_at q }
    ensures padding_bytes { (p q : ℕ) → p % block_size ≡ q % block_size → padding_bytes p ≡ padding_bytes q }
{}

/// A file of chunks, the padding at its end, and another file behind that are one file, of the chunks of both and the
/// padding between them. It has the records of both, and its totals are those of both with the padding chunk. Own.
pub fn files_are_joined_at_blocks()
    ensures boundary { (ks : List ChunkValue) (file : List ℕ) → IsWellFormed ks file
        → IsBoundary (length file) }
    ensures well_formed { (ks more : List ChunkValue) (file other : List ℕ)
        → IsWellFormed ks file → IsWellFormed more other
        → IsWellFormed (ks ++ padding_at (length file) ++ more) (file ++ padding_bytes (length file) ++ other) }
    ensures file { (ks more : List ChunkValue) (file other : List ℕ)
        → IsReadable ks file → IsReadable more other
        → IsReadable (ks ++ padding_at (length file) ++ more) (file ++ padding_bytes (length file) ++ other) }
    ensures size { (ks : List ChunkValue) (file other : List ℕ)
        → IsWellFormed ks file
        → length (file ++ padding_bytes (length file) ++ other) ≡ end_of_chunks (length file) (padding_at (length file)) + length other }
    ensures records { (ks more : List ChunkValue) (a b : List (List ℕ)) (place : ℕ)
        → IsBoundary place → AreRecordsOf ks a → AreRecordsOf more b
        → AreRecordsOf (ks ++ padding_at place ++ more) (a ++ b) }
    ensures totals { (ks more : List ChunkValue) (file : List ℕ)
        → IsWellFormed ks file
        → totals_of (ks ++ padding_at (length file) ++ more) ≡ record {
          chunks = (totals_of ks).chunks + length (padding_at (length file)) + (totals_of more).chunks;
          records = (totals_of ks).records + (totals_of more).records;
          bytes = end_of_chunks (length file) (padding_at (length file)) + (totals_of more).bytes;
          unread = (totals_of ks).unread + (totals_of more).unread;
        } }
{}

/// A chunk that is held for a number leaves what is held for the others, and once the next number is past, what is held
/// for those behind it is as before. There is as much room as before, and no more chunks are held than there is room for.
/// Own.
pub fn numbers_keep_their_chunks()
    ensures held { (r : Reordering Chunk) (number : ℕ) (c : Chunk) → CanHold r number → held_at (with_held r number c) number ≡ Some c }
    ensures others { (r : Reordering Chunk) (number p : ℕ) (c : Chunk) → CanHold r number → r.wanted ≤ p → p ≢ number
        → held_at (with_held r number c) p ≡ held_at r p }
    ensures behind { (r : Reordering Chunk) (p : ℕ) → r.wanted < p → held_at (moved_on r) p ≡ held_at r p }
    ensures held_room { (r : Reordering Chunk) (number : ℕ) (c : Chunk) → room_of (with_held r number c) ≡ room_of r }
    ensures moved_room { (r : Reordering Chunk) → 0 < room_of r → room_of (moved_on r) ≡ room_of r }
    ensures few { (r : Reordering Chunk) → count_held r ≤ room_of r }
{}

/// Where nothing is held, chunks can be held of which each of so many numbers from the next one on, for which there is
/// room, has one, in whatever order they come. Then so many come next, by rising numbers, each the chunk of its number. Own.
pub fn chunks_come_by_number()
    ensures can_hold { (r : Reordering Chunk) (count : ℕ) (chunks : List (ℕ × Chunk))
        → count_held r ≡ 0 → count ≤ room_of r → HasEachFrom r.wanted count (map (λ c. c.0) chunks)
        → CanHoldEach r chunks }
    ensures wanted { (r : Reordering Chunk) (chunks : List (ℕ × Chunk)) → (with_each r chunks).wanted ≡ r.wanted }
    ensures room { (r : Reordering Chunk) (chunks : List (ℕ × Chunk)) → room_of (with_each r chunks) ≡ room_of r }
    ensures count { (r : Reordering Chunk) (count : ℕ) (chunks : List (ℕ × Chunk))
        → count_held r ≡ 0 → count ≤ room_of r → HasEachFrom r.wanted count (map (λ c. c.0) chunks)
        → length (coming (with_each r chunks)) ≡ count }
    ensures each { (r : Reordering Chunk) (count : ℕ) (chunks : List (ℕ × Chunk))
        → count_held r ≡ 0 → count ≤ room_of r → HasEachFrom r.wanted count (map (λ c. c.0) chunks)
        → AllByRecursion (Contains chunks) (enumerate_from r.wanted (coming (with_each r chunks))) }
    ensures values { (r : Reordering Chunk) (count : ℕ) (chunks : List (ℕ × Chunk)) (value : ℕ → ChunkValue)
        → count_held r ≡ 0 → count ≤ room_of r → HasEachFrom r.wanted count (map (λ c. c.0) chunks)
        → AllByRecursion (λ c. value_of_chunk c.1 ≡ value c.0) chunks
        → map value_of_chunk (coming (with_each r chunks)) ≡ map value (range_with_len r.wanted count) }
    ensures right { (r : Reordering Chunk) (count : ℕ) (chunks : List (ℕ × Chunk))
        → count_held r ≡ 0 → count ≤ room_of r → HasEachFrom r.wanted count (map (λ c. c.0) chunks)
        → AllByRecursion (λ c. HasRightHash c.1) chunks
        → AllByRecursion HasRightHash (coming (with_each r chunks)) }
    ensures from_zero { (count : ℕ) (numbers : List ℕ)
        → ((p : ℕ) → p < count → count_by (λ q. q == p) numbers ≡ 1) → AllByRecursion (λ p. p < count) numbers
        → HasEachFrom 0 count numbers }
{}

//! Laws of the definitions that contracts cite. Nothing runs here.

ghost use Rattle.std.specs.Prelude.{◌≡◌, ◌⊎◌, ◌↔◌, ℕ, ◌^◌, ◌<◌, ◌≤◌, Bool, IsTrue, Option, Some, None, List, length, slice_get};
ghost use Rattle.block_layout.specs.Layout.{IsBoundary};
ghost use Rattle.chunk_header.specs.Chunks.{ChunkValue};
ghost use Rattle.chunk_header.specs.SimpleChunks.{IsCompressed};
ghost use Rattle.meta_chunk.specs.Files.{IsPlain, IsUnread, IsTransposed, IsReadable, IsWellFormed, ArePlaced, begin_of};
ghost use Rattle.chunk_reader.specs.Holders.{IsHolder, IsHolderFault};
ghost use Rattle.chunk_reader.specs.PositionSearches.{AnswersAt, SearchGives, IsSearchFault};
ghost use Rattle.chunk_reader.specs.declared.reasons.Fault.{Fault};
ghost use Rattle.chunk_reader.specs.declared.reasons.Why.TheVariants as why;
ghost use Rattle.record_seek.specs.Found.{MayAnswer, IsAnswering, IsKeyFound, OnlyFrontStandsBefore};
ghost use Rattle.record_seek.specs.FirstRecords.{IsFirstAt};
ghost use Rattle.record_seek.specs.Met.{IsMetBySearch, IsMetFault};

/// In a file of chunks a search by position comes to the chunk that answers, as it is told without blocks, and where that is
/// read gives the first record at or past the position; it gives nothing exactly where no chunk answers. Own.
pub fn positions_find_their_records()
    ensures answers { (ks : List ChunkValue) (file : List ℕ) (position place : ℕ)
        → IsWellFormed ks file → length file ≤ 2 ^ 60 → position < length file
        → AnswersAt file position place
        → (j : ℕ) × (k : ChunkValue) × (place ≡ begin_of ks j) × IsAnswering ks position j k }
    ensures answering { (ks : List ChunkValue) (file : List ℕ) (position j : ℕ) (k : ChunkValue)
        → IsWellFormed ks file → length file ≤ 2 ^ 60 → IsAnswering ks position j k
        → AnswersAt file position (begin_of ks j) }
    ensures nothing { (ks : List ChunkValue) (file : List ℕ) (position : ℕ)
        → IsWellFormed ks file → length file ≤ 2 ^ 60
        → SearchGives file position None ↔ ((j : ℕ) (k : ChunkValue) → ¬ MayAnswer ks position j k) }
    ensures first { (ks : List ChunkValue) (file : List ℕ) (position : ℕ) (placed : List (ℕ × List ℕ)) (found : ℕ × List ℕ)
        → IsWellFormed ks file → length file ≤ 2 ^ 60 → ArePlaced ks placed
        → SearchGives file position (Some found) → IsFirstAt placed position (Some found) }
    ensures read { (ks : List ChunkValue) (file : List ℕ) (position j : ℕ) (k : ChunkValue) (placed : List (ℕ × List ℕ))
        → IsWellFormed ks file → length file ≤ 2 ^ 60 → ArePlaced ks placed
        → IsAnswering ks position j k → IsPlain k
        → (found : ℕ × List ℕ) × IsFirstAt placed position (Some found) × SearchGives file position (Some found) }
{}

/// In a file of chunks a search by position is refused exactly where the chunk that answers, as it is told without blocks, is
/// left unread: at its begin, by its name. Own.
pub fn unread_chunks_that_answer_are_refused()
    ensures compressed { (ks : List ChunkValue) (file : List ℕ) (position j : ℕ) (k : ChunkValue)
        → IsWellFormed ks file → length file ≤ 2 ^ 60 → IsAnswering ks position j k → IsUnread k
        → IsCompressed k
        → IsSearchFault file position (record { at = begin_of ks j; why = why.Compressed }) }
    ensures transposed { (ks : List ChunkValue) (file : List ℕ) (position j : ℕ) (k : ChunkValue)
        → IsWellFormed ks file → length file ≤ 2 ^ 60 → IsAnswering ks position j k → IsUnread k
        → IsTransposed k
        → IsSearchFault file position (record { at = begin_of ks j; why = why.Transposed }) }
    ensures no_other { (ks : List ChunkValue) (file : List ℕ) (position : ℕ) (fault : Fault)
        → IsWellFormed ks file → length file ≤ 2 ^ 60 → IsSearchFault file position fault
        → (j : ℕ) × (k : ChunkValue) × IsAnswering ks position j k × IsUnread k }
{}

/// In each list of bytes, and of each position below its end, one chunk holds the position, or one fault tells why none is
/// found to: never both. Own.
pub fn a_position_has_one_holder()
    ensures one { (file : List ℕ) (position a b : ℕ)
        → IsHolder file position a → IsHolder file position b → a ≡ b }
    ensures one_fault { (file : List ℕ) (position : ℕ) (a b : Fault)
        → IsHolderFault file position a → IsHolderFault file position b → a ≡ b }
    ensures apart { (file : List ℕ) (position place : ℕ) (fault : Fault)
        → IsHolder file position place → ¬ IsHolderFault file position fault }
    ensures judged { (file : List ℕ) (position : ℕ)
        → position < length file
        → ((place : ℕ) × IsHolder file position place) ⊎ ((fault : Fault) × IsHolderFault file position fault) }
{}

/// In each list of bytes, and of each position, a search by position gives one answer, a record or nothing, or is refused with
/// one fault: never both. Own.
pub fn a_search_by_position_has_one_answer()
    ensures one { (file : List ℕ) (position : ℕ) (a b : Option (ℕ × List ℕ))
        → SearchGives file position a → SearchGives file position b → a ≡ b }
    ensures one_fault { (file : List ℕ) (position : ℕ) (a b : Fault)
        → IsSearchFault file position a → IsSearchFault file position b → a ≡ b }
    ensures apart { (file : List ℕ) (position : ℕ) (given : Option (ℕ × List ℕ)) (fault : Fault)
        → SearchGives file position given → ¬ IsSearchFault file position fault }
    ensures judged { (file : List ℕ) (position : ℕ)
        → ((given : Option (ℕ × List ℕ)) × SearchGives file position given) ⊎ ((fault : Fault) × IsSearchFault file position fault) }
{}

/// A place that a search by key comes to is a boundary of the file, and in a file of chunks it is where one begins, or where
/// the last one ends. So the search meets no fault in a file without fault. Own.
pub fn met_places_are_boundaries()
    ensures boundary { (file : List ℕ) (place : ℕ) → IsMetBySearch file place → IsBoundary place × (place ≤ length file) }
    ensures begins { (ks : List ChunkValue) (file : List ℕ) (place : ℕ)
        → IsWellFormed ks file → length file ≤ 2 ^ 60 → IsMetBySearch file place
        → (j : ℕ) × (place ≡ begin_of ks j) }
    ensures no_fault { (ks : List ChunkValue) (file : List ℕ) (fault : Fault)
        → IsReadable ks file → length file ≤ 2 ^ 60 → ¬ IsMetFault file fault }
{}

/// Where a test tells of a front of records with their positions alone that they stand before, a search by key may find the first
/// behind that front, or nothing where there is none, and nothing else. Own.
pub fn keys_find_their_records()
    ensures { (before : ℕ × List ℕ → Bool) (placed : List (ℕ × List ℕ)) (count : ℕ) (found : Option (ℕ × List ℕ))
        → OnlyFrontStandsBefore (λ p. IsTrue (before p)) placed count
        → IsKeyFound (λ p. IsTrue (before p)) placed found ↔ (found ≡ slice_get placed count) }
{}

//! Laws of the definitions that contracts cite. Nothing runs here.

ghost use Rattle.std.specs.List.{flat_map};
ghost use Rattle.std.specs.Prelude.{◌≡◌, ℕ, ◌+◌, ◌<◌, ◌≤◌, List, Some, length, map, slice_get};
ghost use Rattle.chunk_header.specs.Chunks.{ChunkValue};
ghost use Rattle.meta_chunk.specs.Files.{IsReadable, ArePlaced};
ghost use Rattle.record_ranges.specs.Ranges.{RiseUpTo, LiesInPart, even_cuts, ranges, AreRangesOf};

/// The parts of a file have all its records, in order: joined, they are the records that one thread reads. There is one part
/// more than cuts. Own.
pub fn parts_have_all_records()
    ensures joined { (ks : List ChunkValue) (file cuts : List ℕ) (placed : List (ℕ × List ℕ))
        → IsReadable ks file → ArePlaced ks placed → RiseUpTo (length file) 0 cuts
        → flat_map (λ part. part) (ranges (length file) cuts placed) ≡ map (λ p. p.1) placed }
    ensures count { (size : ℕ) (cuts : List ℕ) (placed : List (ℕ × List ℕ))
        → length (ranges size cuts placed) ≡ length cuts + 1 }
    ensures one { (file cuts : List ℕ) (a b : List (List (List ℕ)))
        → AreRangesOf file cuts a → AreRangesOf file cuts b → a ≡ b }
{}

/// Cuts into parts that are alike rise or stay equal, and none passes the size. Own.
pub fn even_cuts_rise()
    ensures { (size parts : ℕ) → 1 ≤ parts → RiseUpTo size 0 (even_cuts size parts) }
{}

/// Each position of a file lies in one part, and a record is in the part that has its position. Own.
pub fn each_record_is_in_one_part()
    ensures some { (size position : ℕ) (cuts : List ℕ)
        → RiseUpTo size 0 cuts → position < size → (number : ℕ) × LiesInPart size 0 cuts position number }
    ensures one { (size position a b : ℕ) (cuts : List ℕ)
        → RiseUpTo size 0 cuts → LiesInPart size 0 cuts position a → LiesInPart size 0 cuts position b → a ≡ b }
    ensures there { (size number i position : ℕ) (bytes : List ℕ) (cuts : List ℕ) (placed : List (ℕ × List ℕ))
        → slice_get placed i ≡ Some (position, bytes) → LiesInPart size 0 cuts position number
        → (part : List (List ℕ)) × (slice_get (ranges size cuts placed) number ≡ Some part)
        × ((j : ℕ) × (slice_get part j ≡ Some bytes)) }
{}

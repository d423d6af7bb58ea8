//! Laws of the definitions that contracts cite. Nothing runs here.

ghost use Rattle.std.specs.Prelude.{◌≡◌, ℕ, ◌^◌, ◌≤◌, Bool, List, [], ◌++◌, length};
ghost use Rattle.record_values.specs.Bytes.{AreBytes};
ghost use Rattle.chunk_header.specs.Chunks.{ChunkValue};
ghost use Rattle.meta_chunk.specs.Files.{AreRecordsOf, IsWellFormed};
ghost use Rattle.meta_chunk.specs.Chains.{IsWellFormedChain};
ghost use Rattle.record_group.specs.Records.{AreRecords};
ghost use Rattle.record_writer.specs.declared.options.WriteOptions.{WriteOptions};
ghost use Rattle.record_append.specs.Grown.{IsKeptTo, IsUnrefused, chunks_at, grown};

/// An old file is kept up to one place. A well-formed one is kept whole and isn't refused, nor is an empty one; of any other
/// file that isn't refused some bytes are kept. Own.
pub fn old_files_are_kept_up_to_one_place()
    ensures one { (file : List ℕ) (a b : ℕ) → IsKeptTo file a → IsKeptTo file b → a ≡ b }
    ensures some { (file : List ℕ) → AreBytes file → (place : ℕ) × IsKeptTo file place }
    ensures whole { (ks : List ChunkValue) (file : List ℕ) → IsWellFormed ks file
        → IsKeptTo file (length file) }
    ensures taken { (cut : Bool) (ks : List ChunkValue) (file : List ℕ) → IsWellFormed ks file
        → IsUnrefused cut file }
    ensures empty { (cut : Bool) → IsKeptTo [] 0 × IsUnrefused cut [] }
    ensures nothing { (cut : Bool) (file : List ℕ) → AreBytes file → IsUnrefused cut file → IsKeptTo file 0 → file ≡ [] }
{}

/// A grown file is one of the chunks that are kept of the old one and then those of the records, and holds the records of these
/// and then the new ones. Own.
pub fn grown_files_are_of_old_and_new_chunks()
    ensures well_formed { (options : WriteOptions) (file : List ℕ) (place : ℕ)
        (ks : List ChunkValue) (records : List (List ℕ))
        → options.size ≤ 2 ^ 24 → AreRecords records → IsWellFormedChain ks file place
        → IsWellFormed (ks ++ chunks_at options place records) (grown options file place records) }
    ensures records { (options : WriteOptions) (file : List ℕ) (place : ℕ) (ks : List ChunkValue) (old records : List (List ℕ))
        → options.size ≤ 2 ^ 24 → AreRecords records → IsWellFormedChain ks file place
        → AreRecordsOf ks old
        → AreRecordsOf (ks ++ chunks_at options place records) (old ++ records) }
{}

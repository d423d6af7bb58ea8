//! Laws of the definitions that contracts cite. Nothing runs here.

ghost use Rattle.std.specs.List.{AllByRecursion, AllZip, flat_map};
ghost use Rattle.std.specs.Prelude.{◌≡◌, ◌≢◌, ◌⊎◌, ℕ, ◌≤◌, true, List, [], ◌∷◌, ◌++◌, length, map};
ghost use Rattle.record_values.specs.Bytes.{AreBytes};
ghost use Rattle.chunk_header.specs.Chunks.{ChunkValue};
ghost use Rattle.meta_chunk.specs.Files.{AreRecordsOf, IsReadable, IsWellFormed};
ghost use Rattle.ordered_writer.specs.Padding.{padding_bytes};
ghost use Rattle.chunk_reader.specs.Faults.{HasNoFault, HaveNoFault, IsFirstFault};
ghost use Rattle.chunk_reader.specs.declared.reasons.Fault.{Fault};
ghost use Rattle.record_join.specs.Joined.{joined, joined_at_most};
ghost use Rattle.record_join.specs.Joins.{joined_chunks};

/// Files of chunks one after another are one file of the chunks of all and the padding between them, and its records are those
/// of all, in order. Where no file has a fault the one that they make has none, and so many bytes at most. Own.
pub fn joined_files_are_one_file()
    ensures well_formed { (lists : List (List ChunkValue)) (files : List (List ℕ))
        → files ≢ [] → AllZip IsWellFormed lists files
        → IsWellFormed (joined_chunks lists) (joined files) }
    ensures file { (lists : List (List ChunkValue)) (files : List (List ℕ))
        → files ≢ [] → AllZip IsReadable lists files
        → IsReadable (joined_chunks lists) (joined files) }
    ensures records { (lists : List (List ChunkValue)) (records : List (List (List ℕ)))
        → AllZip AreRecordsOf lists records → AreRecordsOf (joined_chunks lists) (flat_map (λ held. held) records) }
    ensures chunks { (files : List (List ℕ)) → HaveNoFault true files
        → (lists : List (List ChunkValue)) × AllZip IsWellFormed lists files }
    ensures no_fault { (files : List (List ℕ)) → files ≢ [] → HaveNoFault true files → HasNoFault true (joined files) }
    ensures size { (files : List (List ℕ)) → HaveNoFault true files → length (joined files) ≤ joined_at_most (map length files) }
{}

/// One more file goes behind files without fault and the padding at the end of what they make, and files are a front of what
/// they make with others behind them. Own.
pub fn files_go_behind_joined_files()
    ensures more { (files : List (List ℕ)) (file : List ℕ) → HaveNoFault true files
        → joined (files ++ file ∷ []) ≡ joined files ++ padding_bytes (length (joined files)) ++ file }
    ensures front { (files more : List (List ℕ)) → (rest : List ℕ) × (joined (files ++ more) ≡ joined files ++ rest) }
{}

/// Of files of bytes one is the first with a fault, or none has one: never both. Own.
pub fn files_have_a_first_fault_or_none()
    ensures judged { (files : List (List ℕ)) → AllByRecursion AreBytes files
        → HaveNoFault true files ⊎ ((index : ℕ) × (fault : Fault) × IsFirstFault true files index fault) }
    ensures apart { (files : List (List ℕ)) (index : ℕ) (fault : Fault) → IsFirstFault true files index fault → ¬ HaveNoFault true files }
    ensures one { (files : List (List ℕ)) (a b : ℕ) (fault other : Fault)
        → IsFirstFault true files a fault → IsFirstFault true files b other → (a ≡ b) × (fault ≡ other) }
{}

//! Laws of the definitions that contracts cite. Nothing runs here.

ghost use Rattle.std.specs.List.{AllByRecursion, flat_map};
ghost use Rattle.std.specs.Prelude.{◌≡◌, ℕ, ◌+◌, ◌^◌, ◌≤◌, true, Option, List, [], ◌∷◌, ◌++◌, length};
ghost use Rattle.block_layout.specs.Layout.{IsBlock, IsBoundary};
ghost use Rattle.meta_chunk.specs.Files.{AreLaid, AreRecordsOf, HoldEach, IsReadable, IsPlain, end_of_chunks, laid_each, signature, signature_bytes};
ghost use Rattle.meta_chunk.specs.Laid.{end_of_chunk};
ghost use Rattle.record_group.specs.declared.pad.Pad.{Pad};
ghost use Rattle.record_group.specs.Groups.{chunks_of, file_of, front_padding, groups, pads_end, pads_start, record_chunks};
ghost use Rattle.record_group.specs.Groupings.{KeepsLimits, Grouping, new_grouping, groups_from, ArePushes};
ghost use Rattle.record_group.specs.HeldLists.{lists_held};
ghost use Rattle.record_group.specs.Records.{AreRecords};

/// The groups, one after another, are the records: none is lost, added or moved. Own.
pub fn groups_are_the_records()
    ensures joined { (records : List (List ℕ)) (size : ℕ) (every : Option ℕ) → flat_map (λ group. group) (groups records size every) ≡ records }
{}

/// No group is empty or has more records than are wanted in each, and only a record alone costs more than the
/// size: it is a group whatever it costs. Own.
pub fn groups_keep_limits()
    ensures limits { (records : List (List ℕ)) (size : ℕ) (every : Option ℕ)
        → AllByRecursion (KeepsLimits size every) (groups records size every) }
    ensures alone { (record_bytes : List ℕ) (size : ℕ) (every : Option ℕ)
        → groups (record_bytes ∷ []) size every ≡ (record_bytes ∷ []) ∷ [] }
{}

/// The groups that a new grouper gives for records, one after another, and behind them the last one that it gives when
/// it finishes, are the groups of these records. Own.
pub fn pushes_give_the_groups()
    ensures all { (records : List (List ℕ)) (size : ℕ) (every : Option ℕ) (given : List (List (List ℕ))) (last : Grouping)
        → ArePushes (new_grouping size every) records given last → groups records size every ≡ given ++ groups_from last [] }
{}

/// The file of records is a file of the signature, the padding that is wanted and its groups' simple chunks, and
/// the one file of these. They are plain, and hold the records in order: the signature and padding none, and each
/// group's chunk that group. Own.
pub fn file_of_is_a_file()
    ensures file { (records : List (List ℕ)) (size : ℕ) (every : Option ℕ) (pad : Pad)
        → AreRecords records → size ≤ 2 ^ 24
        → IsReadable (chunks_of records size every pad) (file_of records size every pad) }
    ensures one { (records : List (List ℕ)) (size : ℕ) (every : Option ℕ) (pad : Pad) (file : List ℕ)
        → IsReadable (chunks_of records size every pad) file
        → file ≡ file_of records size every pad }
    ensures lists { (records : List (List ℕ)) (size : ℕ) (every : Option ℕ) (pad : Pad)
        → AreRecords records → size ≤ 2 ^ 24 → HoldEach (chunks_of records size every pad) ([] ∷ lists_held (end_of_chunk 0 signature) records size every pad) }
    ensures records { (records : List (List ℕ)) (size : ℕ) (every : Option ℕ) (pad : Pad)
        → AreRecords records → size ≤ 2 ^ 24 → AreRecordsOf (chunks_of records size every pad) records }
{}

/// The file of records is the signature's 64 bytes and, behind them, its other chunks laid from there. Own.
pub fn file_of_is_signed()
    ensures bytes { (records : List (List ℕ)) (size : ℕ) (every : Option ℕ) (pad : Pad)
        → file_of records size every pad ≡ signature_bytes ++ laid_each (end_of_chunk 0 signature) (record_chunks (end_of_chunk 0 signature) records size every pad) }
    ensures size { (records : List (List ℕ)) (size : ℕ) (every : Option ℕ) (pad : Pad)
        → length (file_of records size every pad) ≡ end_of_chunk 0 signature + length (laid_each (end_of_chunk 0 signature) (record_chunks (end_of_chunk 0 signature) records size every pad)) }
{}

/// The chunks of records can be laid from any boundary: they are plain, have these bytes and no others, and hold
/// the records in order. Own.
pub fn record_chunks_are_laid()
    ensures laid { (place : ℕ) (records : List (List ℕ)) (size : ℕ) (every : Option ℕ) (pad : Pad)
        → IsBoundary place → AreRecords records → size ≤ 2 ^ 24
        → AreLaid place (record_chunks place records size every pad) (laid_each place (record_chunks place records size every pad)) }
    ensures one { (place : ℕ) (records : List (List ℕ)) (size : ℕ) (every : Option ℕ) (pad : Pad)
        → IsBoundary place → (bytes : List ℕ) → AreLaid place (record_chunks place records size every pad) bytes
        → bytes ≡ laid_each place (record_chunks place records size every pad) }
    ensures plain { (place : ℕ) (records : List (List ℕ)) (size : ℕ) (every : Option ℕ) (pad : Pad)
        → IsBoundary place → AreRecords records → size ≤ 2 ^ 24 → AllByRecursion IsPlain (record_chunks place records size every pad) }
    ensures lists { (place : ℕ) (records : List (List ℕ)) (size : ℕ) (every : Option ℕ) (pad : Pad)
        → IsBoundary place → AreRecords records → size ≤ 2 ^ 24
        → HoldEach (record_chunks place records size every pad) (lists_held place records size every pad) }
    ensures records { (place : ℕ) (records : List (List ℕ)) (size : ℕ) (every : Option ℕ) (pad : Pad)
        → IsBoundary place → AreRecords records → size ≤ 2 ^ 24 → AreRecordsOf (record_chunks place records size every pad) records }
{}

/// Where padding is wanted before the chunks of records, the first of these begins at a block, and where it is
/// wanted behind them, the last ends at one. Own.
pub fn padding_reaches_blocks()
    ensures start { (place : ℕ) (pad : Pad)
        → IsBoundary place → pads_start pad ≡ true → IsBlock (end_of_chunks place (front_padding place pad)) }
    ensures end { (place : ℕ) (records : List (List ℕ)) (size : ℕ) (every : Option ℕ) (pad : Pad)
        → IsBoundary place → pads_end pad ≡ true → IsBlock (end_of_chunks place (record_chunks place records size every pad)) }
{}

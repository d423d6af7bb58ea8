//! Laws of the definitions that contracts cite. Nothing runs here.

ghost use Rattle.std.specs.Prelude.{◌≡◌, ℕ, ◌^◌, ◌≤◌, None, List, map};
ghost use Rattle.meta_chunk.specs.Files.{ArePlaced};
ghost use Rattle.record_group.specs.declared.pad.Pad.TheVariants.{No};
ghost use Rattle.record_group.specs.Groups.{chunks_of};
ghost use Rattle.record_group.specs.Records.{AreRecords};
ghost use Rattle.record_collect.specs.FilePlaces.{placed_in_file};

/// The records with their positions are those of the file of records, chunk by chunk. Own.
pub fn positions_are_those_of_the_file()
    ensures placed { (records : List (List ℕ)) (size : ℕ) → AreRecords records → size ≤ 2 ^ 24
        → ArePlaced (chunks_of records size None No) (placed_in_file records size) }
    ensures records { (records : List (List ℕ)) (size : ℕ) → map (λ (placed : ℕ × List ℕ). placed.1) (placed_in_file records size) ≡ records }
{}

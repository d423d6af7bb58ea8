//! Laws of the definitions that contracts cite. Nothing runs here.

ghost use Rattle.std.specs.Prelude.{◌≡◌, ◌≢◌, ℕ, ◌≤◌, List, [], All, length};
ghost use Rattle.std.specs.List.{AllByRecursion, flat_map, range_with_len};
ghost use Rattle.number_shares.specs.Machine.{AreTakes, Machine, start_of};
ghost use Rattle.number_shares.specs.Once.{HasEachBelow};
ghost use Rattle.chunk_header.specs.Chunks.{ChunkValue};
ghost use Rattle.chunk_workers.specs.Coded.{AreCoded};
ghost use Rattle.chunk_workers.specs.InOrder.{in_order};
ghost use Rattle.chunk_workers.specs.Runs.{RunsValue, groups_of_runs, run_count, run_of};
ghost use Rattle.chunk_workers.specs.Seats.{numbers_at, ones};

/// After a run of draws in which each seat has ended, and there is one, the lists `mine` together have each number below n
/// once, and no other. Own.
pub fn runs_draw_each_once()
    ensures { (n seats : ℕ) (run : List (ℕ × ℕ)) (state : Machine)
        → AreTakes (ones n) (start_of seats) run state → 1 ≤ seats → AllByRecursion (λ hand. hand.past ≢ []) state.hands
        → HasEachBelow n (flat_map (λ hand. numbers_at hand.mine) state.hands) }
{}

/// The runs, one after another, are all groups in their order. Own.
pub fn runs_are_the_groups()
    ensures { (step : ℕ) (groups : List (List (List ℕ))) → 1 ≤ step
        → flat_map (run_of step groups) (range_with_len 0 (run_count step (length groups))) ≡ groups }
{}

/// Where workers drew each number of a run once, and no other, and each has the coded chunks of the groups of the runs that it
/// drew, in order of drawing, then by rising number they are those of all groups, in their order. Own.
pub fn runs_are_in_order()
    ensures { (chunk_of : List (List ℕ) → ChunkValue) (step : ℕ) (groups : List (List (List ℕ))) (workers : List RunsValue) → 1 ≤ step
        → HasEachBelow (run_count step (length groups)) (flat_map (λ r. r.numbers) workers)
        → All (λ r. AreCoded chunk_of (groups_of_runs step groups r.numbers) r.chunks) workers
        → AreCoded chunk_of groups (in_order step (length groups) workers) }
{}

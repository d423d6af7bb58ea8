//! Laws of the definitions that contracts cite. Nothing runs here.

ghost use Rattle.std.specs.Prelude.{◌≡◌, ◌≢◌, ℕ, ◌+◌, ◌%◌, ◌^◌, ◌≤◌, List, [], ◌∷◌, ◌++◌, length, map, slice_index, slice_set};
ghost use Rattle.std.specs.List.{AllByRecursion};
ghost use mathlib.Core.Option.{some, none};
ghost use lib.ListN.{get_elem?};
ghost use Rattle.atomic_table.specs.Table.{State, Me, Allows, Joins, Splits, keeps, opening, step, stepped};
ghost use Rattle.number_shares.specs.Once.{HasEachBelow, times};
ghost use Rattle.number_shares.specs.Least.{IsLeast};
ghost use Rattle.number_shares.specs.declared.table.Piece.{Piece};
ghost use Rattle.number_shares.specs.declared.table.Bounds.{Bounds};
ghost use Rattle.number_shares.specs.declared.table.SeatView.{SeatView};
ghost use Rattle.number_shares.specs.declared.table.Terms.{Terms};
ghost use Rattle.number_shares.specs.Machine.{AreTakes, IsCounted, IsHand, IsTake, Machine, all_mine, all_past, numbers_in, numbers_taken, start_of, taken};
ghost use Rattle.number_shares.specs.Rule.{AreTerms, IsKept, TellsTake, first_view, hand_of, joined_before, joined_behind, machine_of, spent_view, view_less_one, view_of_one, with_hand, word_limit};

/// Numbers of which each below n is there once, and no other, are n numbers, and none is there twice. Own.
pub fn each_below_is_so_many()
    ensures count { (n : ℕ) (numbers : List ℕ) → HasEachBelow n numbers → length numbers ≡ n }
    ensures no_more { (n p : ℕ) (numbers : List ℕ) → HasEachBelow n numbers → times p numbers ≤ 1 }
{}

/// After any run the pieces that seats took hold each number below the one that comes next once, and no other; `mine` has those
/// that end at or below the limit, `past` those that end above it, and at most one. Where no seat has ended, the pieces in
/// `mine` together hold each number below the one that comes next once, and no other, and else each below the least number at
/// which a seat ended. Own.
pub fn runs_take_each_number_once()
    ensures counted { (b : Bounds) (seats : ℕ) (run : List (ℕ × ℕ)) (state : Machine)
        → AreTakes b (start_of seats) run state → IsCounted b state }
    ensures one_past { (b : Bounds) (seats : ℕ) (run : List (ℕ × ℕ)) (state : Machine)
        → AreTakes b (start_of seats) run state → AllByRecursion (λ hand. length hand.past ≤ 1) state.hands }
    ensures going { (b : Bounds) (seats : ℕ) (run : List (ℕ × ℕ)) (state : Machine)
        → AreTakes b (start_of seats) run state → all_past state.hands ≡ [] → HasEachBelow state.word (numbers_in (all_mine state.hands)) }
    ensures ended { (b : Bounds) (seats : ℕ) (run : List (ℕ × ℕ)) (state : Machine)
        → AreTakes b (start_of seats) run state → 1 ≤ b.least → (m : ℕ) → IsLeast m (map (λ x. x.at) (all_past state.hands))
        → HasEachBelow m (numbers_in (all_mine state.hands)) }
{}

/// The table that numbers are taken from is made under its rule, as the machine's start with one seat, and a seat split off
/// makes it the start with one more. Each step goes from any state that meets the rule to one that does: a seat is split off
/// before any number is taken, a piece is taken, a seat takes in another. A piece is taken by the machine's event of the seat
/// that takes it, whose view has the table's bounds. Where the table is closed with a seat that took in all others, the pieces
/// of this seat hold each number below the word once, and no other, and each stands in its own list; and where each has one
/// number, and a seat has ended, those in `mine` hold each number below the limit. The word never passes the limit by more than
/// 16 of the largest pieces. Own.
pub fn steps_keep_the_rule()
    ensures opens { (terms : Terms) → AreTerms terms → IsKept terms (opening (0 ∷ []) [] (first_view terms)) }
    ensures start { (terms : Terms) → machine_of (opening (0 ∷ []) [] (first_view terms)) ≡ start_of 1 }
    ensures splits { (terms : Terms) (id : ℕ) (v : SeatView) → 2 ≤ v.weight → v.past ≡ []
        → Splits (IsKept terms) id v (view_less_one v) (view_of_one v) }
    ensures split_starts { (seats : ℕ) (s : State (Unit {0}) SeatView) (id : ℕ) (v : SeatView) → machine_of s ≡ start_of seats
        → get_elem? s.views id ≡ some v
        → machine_of (record { words = s.words; homes = s.homes; views = slice_set s.views id (view_less_one v) ++ view_of_one v ∷ [] })
        ≡ start_of (seats + 1) }
    ensures takes { (terms : Terms) (slots id cost : ℕ) (me : Me (Unit {0}) SeatView) → 1 ≤ me.0.weight → me.0.past ≡ []
        → terms.bounds.least ≤ cost → cost ≤ terms.bounds.most
        → Allows (IsKept terms) slots id me 0 (λ word. (word + cost) % 2 ^ 64) (TellsTake (step slots 0 cost 0 none) me) }
    ensures event { (terms : Terms) (s : State (Unit {0}) SeatView) (id cost : ℕ) (v : SeatView)
        → IsKept terms s → get_elem? s.views id ≡ some v → v.past ≡ [] → terms.bounds.least ≤ cost → cost ≤ terms.bounds.most
        → IsTake terms.bounds (machine_of s) id cost (machine_of (stepped s 0 ((slice_index s.words 0 + cost) % 2 ^ 64) id []
        (with_hand v (taken terms.bounds.limit (record { at = slice_index s.words 0; cost = cost }) (hand_of v))) keeps)) }
    ensures bounds { (terms : Terms) (s : State (Unit {0}) SeatView) (id : ℕ) (v : SeatView)
        → IsKept terms s → get_elem? s.views id ≡ some v → 1 ≤ v.weight → v.bounds ≡ terms.bounds }
    ensures joins_before { (terms : Terms) (id : ℕ) (v : SeatView) (other : ℕ) (w : SeatView) → 1 ≤ v.weight → 1 ≤ w.weight
        → Joins (IsKept terms) id v other w (joined_before v w) spent_view }
    ensures joins_behind { (terms : Terms) (id : ℕ) (v : SeatView) (other : ℕ) (w : SeatView) → 1 ≤ v.weight → 1 ≤ w.weight
        → Joins (IsKept terms) id v other w (joined_behind v w) spent_view }
    ensures closes { (terms : Terms) (s : State (Unit {0}) SeatView) (id : ℕ) (v : SeatView)
        → IsKept terms s → get_elem? s.views id ≡ some v → v.weight ≡ terms.seats
        → IsHand terms.bounds (hand_of v) × HasEachBelow (slice_index s.words 0) (numbers_taken (hand_of v)) }
    ensures closes_by_ones { (terms : Terms) (s : State (Unit {0}) SeatView) (id : ℕ) (v : SeatView)
        → IsKept terms s → get_elem? s.views id ≡ some v → v.weight ≡ terms.seats → terms.bounds.most ≤ 1 → v.past ≢ []
        → HasEachBelow terms.bounds.limit (numbers_in v.mine) }
    ensures word { (terms : Terms) (s : State (Unit {0}) SeatView) → IsKept terms s → slice_index s.words 0 ≤ word_limit terms.bounds }
{}

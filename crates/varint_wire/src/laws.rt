//! What holds of all varints. The functions do nothing: their contracts are the laws.

ghost use Rattle.std.specs.Prelude.{◌≡◌, ℕ, ◌^◌, ◌<◌, List, ◌++◌};
ghost use Rattle.varint_wire.specs.Varint.{Spells, shortest};
ghost use Rattle.varint_wire.specs.ShortestSpellings.{IsShortest};

/// No spelling begins another: whatever follows, bytes begin with one varint at most. So what was
/// written is read again. Own.
pub fn no_spelling_begins_another()
    ensures { (v w : ℕ) (a b x y : List ℕ) →
        Spells v a → Spells w b → a ++ x ≡ b ++ y → (a ≡ b) × (v ≡ w) }
{}

/// Each value has a shortest spelling, and no spelling of it has fewer bytes. Own.
pub fn shortest_is_shortest()
    ensures { (v : ℕ) → v < 2 ^ 64 → IsShortest v (shortest v) }
{}

ghost use Rattle.std.specs.Prelude.{◌≡◌, ◌≢◌, ℕ, ◌<◌, ◌≤◌, ◌↔◌, List, [], ◌∷◌, ◌++◌, length, IsTrue};
ghost use Rattle.varint_wire.specs.Varint.{Spells};
ghost use Rattle.varint_wire.specs.Reading.{IsCut, IsLong};

use crate::groups::{is_tenth_above_one, with_group};
use std::marker::Model;

/// What a byte makes of the varint so far. Own.
#[derive(Clone, Copy, Debug, PartialEq, Eq)]
pub enum Step {
    /// The varint has more bytes.
    More,
    /// The varint is whole, and this is its value.
    Value(u64),
    /// The varint has more than ten bytes, or its value isn't below 2^64.
    Long,
}

/// Reads varints byte by byte, by the rule of `read`. Contracts see it as the bytes that it took
/// since it was new. Own.
#[derive(Drop)]
pub struct Feed {
    value: u64,
    count: usize,
}

impl Model for Feed {
    ghost use Rattle.std.specs.Prelude.{ℕ, ◌^◌, ◌<◌, ◌≤◌, List};
    ghost use Rattle.varint_wire.specs.Held.{held_bytes};

    ghost Value = { List ℕ };

    ghost view = { λ feed. held_bytes feed.count feed.value };

    ghost invariant = { λ feed. (feed.count ≤ 9) × (feed.value < 128 ^ feed.count) };
}

impl Feed {
    /// A feed that took nothing yet. Own.
    pub fn new() -> Feed
        ensures { result ≡ [] }
    {
        Feed { value: 0, count: 0 }
    }

    /// Whether no varint has begun since the feed was new, or since the last one ended. Own.
    #[inline]
    pub fn is_new(&self) -> bool
        ensures new { IsTrue result ↔ (self.now ≡ []) }
        ensures taken { IsCut self.now }
    {
        self.count == 0
    }

    /// Takes the next byte: `More` exactly where it is at least 128 and the varint has fewer than ten
    /// bytes with it, `Value` exactly where it ends a spelling of that value, `Long` exactly where the
    /// varint has ten bytes with it and the tenth is at least 128 or the value isn't below 2^64. A
    /// varint that ended, well or not, leaves nothing behind. Standard: "Conventions".
    #[inline]
    pub fn push(&mut self, byte: u8) -> Step
        ensures more { (result ≡ Step.More)
            ↔ ((128 ≤ byte) × (length (self.old ++ byte ∷ []) < 10)) }
        ensures value { (v : ℕ) → (result ≡ Step.Value v) ↔ Spells v (self.old ++ byte ∷ []) }
        ensures long { (result ≡ Step.Long) ↔ IsLong (self.old ++ byte ∷ []) }
        ensures kept { result ≡ Step.More → self.new ≡ self.old ++ byte ∷ [] }
        ensures as_new { result ≢ Step.More → self.new ≡ [] }
        ensures taken { IsCut self.new }
    {
        if is_tenth_above_one(self.count, byte) {
            *self = Feed::new();
            return Step::Long;
        }
        let value = with_group(self.value, self.count, byte);
        if byte < 0x80 {
            *self = Feed::new();
            return Step::Value(value);
        }
        self.value = value;
        self.count += 1;
        Step::More
    }
}

//! Four lanes, as both forms of the hash have them.

ghost use Rattle.std.specs.Prelude.{◌≡◌, ℕ, ◌<◌, List, bit_xor, slice_index};
ghost use Rattle.highway_hash.specs.HighwayHash.{by_lane, by_lanes, half_product, permuted, plus, rotated_halves, swapped, zipped};

/// Four lanes of 64 bits.
pub(crate) trait Lanes: Copy + Drop {
    /// The lanes as numbers.
    ghost list: { Self → List ℕ };

    fn of(words: [u64; 4]) -> Self
        ensures { list result ≡ words };

    fn first(self) -> u64
        ensures { result ≡ slice_index (list self) 0 };

    fn plus(self, other: Self) -> Self
        ensures { list result ≡ by_lanes plus (list self) (list other) };

    fn xor(self, other: Self) -> Self
        ensures { list result ≡ by_lanes bit_xor (list self) (list other) };

    /// The lower half of each lane times the upper half of that of the other.
    fn half_product(self, other: Self) -> Self
        ensures { list result ≡ by_lanes half_product (list self) (list other) };

    /// The two halves of each lane exchanged.
    fn swapped(self) -> Self
        ensures { list result ≡ by_lane swapped (list self) };

    /// The two halves of each lane rotated left, each by itself.
    fn rotated_halves(self, count: u32) -> Self
        requires { (0 < count) × (count < 32) }
        ensures { list result ≡ by_lane (rotated_halves count) (list self) };

    /// The pairs of lanes exchanged, and the halves of each lane too.
    fn permuted(self) -> Self
        ensures { list result ≡ permuted (list self) };

    /// The zipper of both pairs of lanes.
    fn zipped(self) -> Self
        ensures { list result ≡ zipped (list self) };
}

//! Lanes as four words.

ghost use Rattle.std.specs.Prelude.{◌≡◌, ◌<◌};
ghost use Rattle.highway_hash.specs.HighwayHash.{half_product, rotated_halves, swapped, zipped_pair};

use crate::lanes::Lanes;

impl Lanes for [u64; 4] {
    ghost list = { λ words. words };

    fn of(words: [u64; 4]) -> Self {
        words
    }

    fn first(self) -> u64 {
        self[0]
    }

    fn plus(self, other: Self) -> Self {
        [
            self[0].wrapping_add(other[0]),
            self[1].wrapping_add(other[1]),
            self[2].wrapping_add(other[2]),
            self[3].wrapping_add(other[3]),
        ]
    }

    fn xor(self, other: Self) -> Self {
        [
            self[0] ^ other[0],
            self[1] ^ other[1],
            self[2] ^ other[2],
            self[3] ^ other[3],
        ]
    }

    fn half_product(self, other: Self) -> Self {
        [
            half_product(self[0], other[0]),
            half_product(self[1], other[1]),
            half_product(self[2], other[2]),
            half_product(self[3], other[3]),
        ]
    }

    fn swapped(self) -> Self {
        [
            swapped(self[0]),
            swapped(self[1]),
            swapped(self[2]),
            swapped(self[3]),
        ]
    }

    fn rotated_halves(self, count: u32) -> Self {
        [
            rotated_halves(self[0], count),
            rotated_halves(self[1], count),
            rotated_halves(self[2], count),
            rotated_halves(self[3], count),
        ]
    }

    fn permuted(self) -> Self {
        let [a, b, c, d] = self.swapped();
        [c, d, a, b]
    }

    #[tactic(auto, unfolding(crate::specs::HighwayHash::zipped))]
    fn zipped(self) -> Self {
        let [a, b] = zipped_pair(self[0], self[1]);
        let [c, d] = zipped_pair(self[2], self[3]);
        [a, b, c, d]
    }
}

fn half_product(x: u64, y: u64) -> u64
    ensures { result ≡ half_product x y }
{
    (x & 0xffff_ffff) * (y >> 32)
}

#[tactic(auto, using(crate::proofs::Words::shifted_by_half))]
fn swapped(word: u64) -> u64
    ensures { result ≡ swapped word }
{
    word.rotate_left(32)
}

#[tactic(auto, using(crate::proofs::Words::joined_halves))]
fn rotated_halves(word: u64, count: u32) -> u64
    requires { count < 32 }
    ensures { result ≡ rotated_halves count word }
{
    let high = ((word >> 32) as u32).rotate_left(count);
    let low = ((word & 0xffff_ffff) as u32).rotate_left(count);
    (u64::from(high) << 32) | u64::from(low)
}

/// The 16 bytes of a pair of lanes in the zipper's order.
fn zipped_pair(low: u64, high: u64) -> [u64; 2]
    ensures { result ≡ zipped_pair low high }
{
    let l = low.to_le_bytes();
    let h = high.to_le_bytes();
    [
        u64::from_le_bytes([l[3], h[4], l[2], l[5], h[6], l[1], h[7], l[0]]),
        u64::from_le_bytes([h[3], l[4], h[2], h[5], h[1], l[6], h[0], l[7]]),
    ]
}

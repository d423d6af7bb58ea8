//! Lanes as one vector.

ghost use Rattle.highway_hash.specs.WholeLanes.{IsFourLanes};

use crate::lanes::Lanes;
use std::simd::prelude::*;

/// The lower half of each lane.
const LOW: u64 = 0xffff_ffff;

/// Which byte of the four lanes stands at each byte of their zipper.
const ZIPPER: [usize; 32] = [
    3, 12, 2, 5, 14, 1, 15, 0, 11, 4, 10, 13, 9, 6, 8, 7, 19, 28, 18, 21, 30, 17, 31, 16, 27, 20,
    26, 29, 25, 22, 24, 23,
];

#[derive(Clone, Copy)]
pub(crate) struct Packed {
    lanes: u64x4,
    ghost whole: { IsFourLanes lanes },
}

impl Lanes for Packed {
    ghost list = { λ packed. packed.lanes };

    fn of(words: [u64; 4]) -> Self {
        Packed {
            lanes: u64x4::from_array(words),
        }
    }

    fn first(self) -> u64 {
        self.lanes[0]
    }

    fn plus(self, other: Self) -> Self {
        Packed {
            lanes: self.lanes + other.lanes,
        }
    }

    fn xor(self, other: Self) -> Self {
        Packed {
            lanes: self.lanes ^ other.lanes,
        }
    }

    fn half_product(self, other: Self) -> Self {
        let low = self.lanes & u64x4::splat(LOW);
        let high = other.lanes >> u64x4::splat(32);
        Packed { lanes: low * high }
    }

    fn swapped(self) -> Self {
        let high = self.lanes << u64x4::splat(32);
        let low = self.lanes >> u64x4::splat(32);
        Packed { lanes: high | low }
    }

    fn rotated_halves(self, count: u32) -> Self {
        Packed::of(self.lanes.to_array().rotated_halves(count))
    }

    fn permuted(self) -> Self {
        let Packed { lanes } = self.swapped();
        Packed {
            lanes: lanes.swizzle([2, 3, 0, 1]),
        }
    }

    fn zipped(self) -> Self {
        Packed {
            lanes: u64x4::from_le_bytes(self.lanes.to_le_bytes().swizzle(ZIPPER)),
        }
    }
}

//! Masks of 64 bits that mark line ends.

ghost use Rattle.std.specs.Prelude.{◌≡◌, ◌≢◌, ◌↔◌, ℕ, ◌+◌, ◌<◌, ◌≤◌, length};
ghost use Rattle.std.specs.Int.{bit_at};
ghost use Rattle.write_command.specs.LineEnds.{MarksEnds};

use std::simd::prelude::*;

/// The marks of the 64 bytes from a place on.
#[inline(always)]
pub(crate) fn marks_at(bytes: &[u8], base: usize) -> u64
    requires { base + 64 ≤ length bytes.now }
    ensures { MarksEnds bytes.now base result }
{
    let lanes = u8x64::from_slice(&bytes[base..]);
    lanes.simd_eq(u8x64::splat(b'\n')).to_bitmask()
}

/// The place of the lowest mark.
#[inline(always)]
pub(crate) fn lowest(mask: u64) -> usize
    requires { mask ≢ 0 }
    ensures bound { result < 64 }
    ensures set { bit_at mask result ≡ 1 }
    ensures below { (k : ℕ) → k < result → bit_at mask k ≡ 0 }
{
    mask.trailing_zeros() as usize
}

/// The mask without its lowest mark.
#[inline(always)]
pub(crate) fn without_lowest(mask: u64) -> u64
    requires { mask ≢ 0 }
    ensures { (k j : ℕ) → bit_at mask j ≡ 1 → ((i : ℕ) → i < j → bit_at mask i ≡ 0)
        → (bit_at result k ≡ 1) ↔ ((j < k) × (bit_at mask k ≡ 1)) }
{
    mask & (mask - 1)
}

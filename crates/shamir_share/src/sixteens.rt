//! Vectors of one sixteen of bytes or two, each of which is read and moved about by itself.

ghost use Rattle.std.specs.Prelude.{◌≡◌, ◌+◌, ◌-◌, ◌*◌, ◌/◌, ◌%◌, ◌≤◌, ◌++◌, length, slice_index};
ghost use Rattle.std.proofs.Common.{rules};
ghost use Rattle.gf256.specs.Rows.{AreLanes};
ghost use Rattle.shamir_share.specs.Lanes.{eights, pairs, taken_lane, AreSixteens, MayTake};

use gf256::vectors::Vectors;
use std::simd::prelude::*;

/// Vectors of N bytes, which are one sixteen or two.
pub trait Sixteens<const N: usize> {
    /// The bytes of the rows at the places, which are counted from `at` on for the first sixteen, and
    /// from `apart` bytes further on for the second. A byte is 0 where its place is 128.
    fn sorted_at(rows: &[u8], at: usize, apart: usize, places: u8x16) -> Simd<u8, N>
        requires length { length places ≡ 16 }
        requires places { MayTake places }
        requires within { (N / 16 - 1) * apart + at + 16 ≤ length rows.now }
        ensures { AreLanes N result (taken_lane rows.now at apart places) 0 };

    /// The first eight bytes of each sixteen of `a`, with those of `b` behind them.
    fn first_eights(a: Simd<u8, N>, b: Simd<u8, N>) -> Simd<u8, N>
        ensures { AreLanes N result (λ k. slice_index (a.entry ++ b.entry) (eights N k)) 0 };

    /// The last eight bytes of each sixteen of `a`, with those of `b` behind them.
    fn last_eights(a: Simd<u8, N>, b: Simd<u8, N>) -> Simd<u8, N>
        ensures { AreLanes N result (λ k. slice_index (a.entry ++ b.entry) (eights N k + 8)) 0 };

    /// Each second byte of each sixteen of `a`, with those of `b` behind them.
    fn evens(a: Simd<u8, N>, b: Simd<u8, N>) -> Simd<u8, N>
        ensures { AreLanes N result (λ k. slice_index (a.entry ++ b.entry) (pairs N k)) 0 };

    /// The bytes behind these.
    fn odds(a: Simd<u8, N>, b: Simd<u8, N>) -> Simd<u8, N>
        ensures { AreLanes N result (λ k. slice_index (a.entry ++ b.entry) (pairs N k + 1)) 0 };

    /// N is one sixteen or more.
    ghost sixteens: { AreSixteens N };
}

impl Sixteens<16> for Vectors {
    #[inline(always)]
    fn sorted_at(rows: &[u8], at: usize, apart: usize, places: u8x16) -> u8x16
        requires length { length places ≡ 16 }
        requires places { MayTake places }
        requires within { (16 / 16 - 1) * apart + at + 16 ≤ length rows.now }
        ensures { AreLanes 16 result (taken_lane rows.now at apart places) 0 }
    {
        u8x16::from_slice(&rows[at..]).swizzle_dyn_within::<16>(places)
    }

    #[inline(always)]
    fn first_eights(a: u8x16, b: u8x16) -> u8x16
        ensures { AreLanes 16 result (λ k. slice_index (a ++ b) (eights 16 k)) 0 }
    {
        a.shuffle(b, [0, 1, 2, 3, 4, 5, 6, 7, 16, 17, 18, 19, 20, 21, 22, 23])
    }

    #[inline(always)]
    fn last_eights(a: u8x16, b: u8x16) -> u8x16
        ensures { AreLanes 16 result (λ k. slice_index (a ++ b) (eights 16 k + 8)) 0 }
    {
        a.shuffle(
            b,
            [8, 9, 10, 11, 12, 13, 14, 15, 24, 25, 26, 27, 28, 29, 30, 31],
        )
    }

    #[inline(always)]
    fn evens(a: u8x16, b: u8x16) -> u8x16
        ensures { AreLanes 16 result (λ k. slice_index (a ++ b) (pairs 16 k)) 0 }
    {
        a.shuffle(
            b,
            [0, 2, 4, 6, 8, 10, 12, 14, 16, 18, 20, 22, 24, 26, 28, 30],
        )
    }

    #[inline(always)]
    fn odds(a: u8x16, b: u8x16) -> u8x16
        ensures { AreLanes 16 result (λ k. slice_index (a ++ b) (pairs 16 k + 1)) 0 }
    {
        a.shuffle(
            b,
            [1, 3, 5, 7, 9, 11, 13, 15, 17, 19, 21, 23, 25, 27, 29, 31],
        )
    }

    ghost sixteens = { Prim.search rules };
}

impl Sixteens<32> for Vectors {
    #[inline(always)]
    fn sorted_at(rows: &[u8], at: usize, apart: usize, places: u8x16) -> u8x32
        requires length { length places ≡ 16 }
        requires places { MayTake places }
        requires within { (32 / 16 - 1) * apart + at + 16 ≤ length rows.now }
        ensures { AreLanes 32 result (taken_lane rows.now at apart places) 0 }
    {
        let first = u8x16::from_slice(&rows[at..]);
        let second = u8x16::from_slice(&rows[at + apart..]);
        let both: u8x32 = first.shuffle(
            second,
            [
                0, 1, 2, 3, 4, 5, 6, 7, 8, 9, 10, 11, 12, 13, 14, 15, 16, 17, 18, 19, 20, 21, 22,
                23, 24, 25, 26, 27, 28, 29, 30, 31,
            ],
        );
        let twice: u8x32 = places.swizzle([
            0, 1, 2, 3, 4, 5, 6, 7, 8, 9, 10, 11, 12, 13, 14, 15, 0, 1, 2, 3, 4, 5, 6, 7, 8, 9, 10,
            11, 12, 13, 14, 15,
        ]);
        both.swizzle_dyn_within::<16>(twice)
    }

    #[inline(always)]
    fn first_eights(a: u8x32, b: u8x32) -> u8x32
        ensures { AreLanes 32 result (λ k. slice_index (a ++ b) (eights 32 k)) 0 }
    {
        a.shuffle(
            b,
            [
                0, 1, 2, 3, 4, 5, 6, 7, 32, 33, 34, 35, 36, 37, 38, 39, 16, 17, 18, 19, 20, 21, 22,
                23, 48, 49, 50, 51, 52, 53, 54, 55,
            ],
        )
    }

    #[inline(always)]
    fn last_eights(a: u8x32, b: u8x32) -> u8x32
        ensures { AreLanes 32 result (λ k. slice_index (a ++ b) (eights 32 k + 8)) 0 }
    {
        a.shuffle(
            b,
            [
                8, 9, 10, 11, 12, 13, 14, 15, 40, 41, 42, 43, 44, 45, 46, 47, 24, 25, 26, 27, 28,
                29, 30, 31, 56, 57, 58, 59, 60, 61, 62, 63,
            ],
        )
    }

    #[inline(always)]
    fn evens(a: u8x32, b: u8x32) -> u8x32
        ensures { AreLanes 32 result (λ k. slice_index (a ++ b) (pairs 32 k)) 0 }
    {
        a.shuffle(
            b,
            [
                0, 2, 4, 6, 8, 10, 12, 14, 32, 34, 36, 38, 40, 42, 44, 46, 16, 18, 20, 22, 24, 26,
                28, 30, 48, 50, 52, 54, 56, 58, 60, 62,
            ],
        )
    }

    #[inline(always)]
    fn odds(a: u8x32, b: u8x32) -> u8x32
        ensures { AreLanes 32 result (λ k. slice_index (a ++ b) (pairs 32 k + 1)) 0 }
    {
        a.shuffle(
            b,
            [
                1, 3, 5, 7, 9, 11, 13, 15, 33, 35, 37, 39, 41, 43, 45, 47, 17, 19, 21, 23, 25, 27,
                29, 31, 49, 51, 53, 55, 57, 59, 61, 63,
            ],
        )
    }

    ghost sixteens = { Prim.search rules };
}

//! Some bytes of a row at once.

ghost use Rattle.std.specs.Prelude.{◌≡◌, ◌↔◌, ◌+◌, ◌≤◌, length, true, IsTrue};
ghost use Rattle.std.specs.Simd.Lanes.{chunk};
ghost use Rattle.gf256.specs.declared.vectors.TheConstants.{LANES};
ghost use Rattle.row_workers.specs.Blocks.{FitsWideBlocks};

use gf256::vectors::LANES;
use std::simd::prelude::*;

/// The N bytes of the row from place `at` on.
#[inline(always)]
pub fn lanes_of<const N: usize>(row: &[u8], at: usize) -> Simd<u8, N>
    requires { at + N ≤ length row.now }
    ensures { result ≡ chunk at N row.now }
{
    Simd::from_slice(&row[at..])
}

/// Whether the sums of several queries for rows of so many bytes lie in blocks of 32 columns: where a
/// row has as many, and the last block repeats few columns of the one before. Else they lie in blocks
/// of 16.
pub fn takes_wide_lanes(width: usize) -> bool
    ensures wide { result ≡ true → LANES ≤ width }
    ensures chosen { IsTrue result ↔ FitsWideBlocks width }
{
    width >= LANES && (width % LANES == 0 || width % LANES > 16 || width >= 1024)
}

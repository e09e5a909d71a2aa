//! Columns that are decoded without a list proper, since most points lie on one polynomial or too few do.

ghost use Rattle.std.specs.Prelude.{◌≡◌, ◌≢◌, ◌+◌, ◌<◌, ◌≤◌, length, AllPairs, IfNone, IfOk, IfSome, MatchOption, MatchResult};
ghost use Rattle.column_runs.specs.Close.{least_misses, EachMisses};
ghost use Rattle.column_runs.specs.Rows.{lists_of};
ghost use Rattle.column_lists.specs.Agreement.{ListsAgreeing};

use crate::agreement::{keep_agreeing, places_are_bytes};
use column_runs::{close_polynomial, least_misses};
use std::alloc::{AllocError, Global};
use std::sync::ledger::Ledger;
use uni_poly::steps::Steps;

/// The list of [`column_list`](crate::column_list), where it can be told without interpolating in two variables. Where
/// fewer than `h - t` of the points are off a polynomial of degree at most `t`, and
/// [`close_polynomial`](column_runs::close_polynomial) finds it, any other agrees with at most `t` of those that are on it, so
/// with fewer than `h` in all: it is listed alone where it agrees with `h` of them, and nothing is listed where it doesn't.
/// Where none is found, each misses at least [`least_misses`](column_runs::least_misses) of the points, and nothing is listed
/// where fewer than that many more than `h` are there. In any other case it is `None`.
///
/// There are at least `h` points, with `t < h`, and no two have the same x.
///
/// Of the points `(01, 10)`, `(02, 10)`, `(03, 10)`, `(04, 17)` and `(05, 10)`, with `t` 1 and `h` 3, it is `10 00` alone;
/// with `(05, 16)` for the last there is no close polynomial, and it is `None`.
///
/// `cols` counts the column where there is a list.
///
/// # Errors
///
/// `AllocError` where there is no memory to interpolate, or for the list.
pub fn close_list<C: Ledger>(
    alloc: Global,
    points: &[(u8, u8)],
    t: u32,
    h: u32,
    cols: &mut Steps<C>,
) -> Result<Option<Vec<Vec<u8>>>, AllocError>
    requires redundant { t < h }
    requires agreement { h ≤ length points.now }
    requires distinct { AllPairs (λ p q. p.0 ≢ q.0) points.now }
    ensures exact { IfOk result (λ found. IfSome found (λ list. ListsAgreeing (lists_of list.items) points.now t h)) }
    ensures one { IfOk result (λ found. IfSome found (λ list. length list.items ≤ 1)) }
    ensures far { IfOk result (λ found. IfNone found (EachMisses (least_misses t h) points.now t)) }
    ensures many { IfOk result (λ found. IfNone found (h + least_misses t h ≤ length points.now)) }
    ensures cols { MatchResult result (λ found. MatchOption found (cols.new ≡ cols.old) (λ _. cols.new ≡ cols.old + 1))
        (λ _. cols.new ≡ cols.old) }
{
    places_are_bytes(points);
    let Some(phi) = close_polynomial(alloc, points, t, h)? else {
        if points.len() - h as usize >= least_misses(t, h) as usize {
            return Ok(None);
        }
        cols.tick();
        return Ok(Some(Vec::new(alloc)));
    };
    let mut list = vec![in alloc; phi]?;
    keep_agreeing(&mut list, points, h);
    cols.tick();
    Ok(Some(list))
}

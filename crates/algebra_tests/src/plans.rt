// The numbers of list decoding.
ghost use Rattle.std.specs.Prelude.{◌≡◌, ◌*◌, ◌<◌, ◌≤◌};
ghost use Rattle.interpolation.specs.Monomials.{monomials};

use column_lists::{MOST_POINTS, plan};
use interpolation::MOST_WEIGHTED_DEGREE;

/// Whether the plan for `k` points, degree `t` and `h` that agree has these numbers.
fn has_plan(k: u32, t: u32, h: u32, m: u32, d: u32, cost: u64) -> bool
    requires degree { 1 ≤ t }
    requires redundant { t < h }
    requires agreement { h ≤ k }
    requires points { k ≤ MOST_POINTS }
    requires strong { k * t < h * h }
{
    let plan = plan(k, t, h);
    (plan.m, plan.d, plan.cost) == (m, d, cost)
}

#[test]
fn plans_have_their_numbers(rt: HostRuntime) {
    assert!(rt; has_plan(3, 1, 2, 2, 3, 9));
    assert!(rt; has_plan(3, 1, 3, 1, 2, 3));
    assert!(rt; has_plan(4, 1, 3, 1, 2, 4));
    assert!(rt; has_plan(5, 1, 3, 1, 2, 5));
    assert!(rt; has_plan(8, 1, 3, 6, 17, 168));
    assert!(rt; has_plan(8, 3, 5, 10, 49, 440));
    assert!(rt; has_plan(7, 6, 7, 1, 6, 7));
    assert!(rt; has_plan(20, 3, 8, 10, 79, 1100));
    assert!(rt; has_plan(23, 1, 5, 10, 49, 1265));
}

// The least cost over the limit and the greatest within it; the dearest of close agreements; the greatest of all; the weakest
// agreement of 47 and of 255 servers; and a cost that is over the limit though the agreement is strong.
#[test]
fn plans_of_many_points_have_their_numbers(rt: HostRuntime) {
    assert!(rt; has_plan(241, 1, 16, 16, 255, 32776));
    assert!(rt; has_plan(156, 38, 78, 20, 1559, 32760));
    assert!(rt; has_plan(255, 224, 240, 8, 1919, 9180));
    assert!(rt; has_plan(255, 112, 169, 9633, 1627976, 11832551055));
    assert!(rt; has_plan(47, 1, 7, 21, 146, 10857));
    assert!(rt; has_plan(255, 1, 17, 8, 135, 9180));
    assert!(rt; has_plan(33, 3, 10, 70, 699, 82005));
}

/// How many monomials `x^i * y^j` have `i + t*j <= d`, by the definition that contracts cite.
#[tactic(auto, unfolding(interpolation::specs::Monomials::monomials_below))]
fn count_monomials(t: u32, d: u32) -> u64
    requires { d < MOST_WEIGHTED_DEGREE }
    ensures { result ≡ monomials t d }
{
    let mut total = 0u64;
    let mut left = d + 1;
    for _row in 0..d + 1 {
        total += u64::from(left);
        left = left.saturating_sub(t);
    }
    total
}

#[test]
fn monomials_are_as_many(rt: HostRuntime) {
    assert!(rt; count_monomials(1, 3) == 10);
    assert!(rt; count_monomials(1, 2) == 6);
    assert!(rt; count_monomials(1, 17) == 171);
    assert!(rt; count_monomials(3, 49) == 442);
    assert!(rt; count_monomials(6, 6) == 8);
    assert!(rt; count_monomials(3, 79) == 1107);
    assert!(rt; count_monomials(1, 49) == 1275);
}

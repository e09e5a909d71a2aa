//! Polynomials in one variable: the rows and columns of one in two.

ghost use Rattle.std.specs.Prelude.{◌≡◌, ◌++◌, ◌-◌, if◌then◌else◌, length, drop, replicate, MatchOption, IfOk};
ghost use Rattle.gf256.specs.Polynomial.{coef};
ghost use Rattle.uni_poly.specs.Coefficients.{IsZero};
ghost use Rattle.bi_poly.specs.Degree.{IsDegree, IsOrder};
ghost use Rattle.bi_poly.specs.Hasse.{binomial_parity, derivative};

/// Whether the binomial coefficient of `n` over `k` is odd: exactly where the bits of `k` are among
/// those of `n` (Lucas 1878).
pub fn is_odd_binomial(n: usize, k: usize) -> bool
    ensures { binomial_parity n k ≡ (if result then 1 else 0) }
{
    n & k == k
}

/// The Hasse derivative of order `u` of `p` at `a` (Hasse 1936), which is the coefficient at `x^u`
/// of `p(x + a)`.
pub fn derivative(p: &[u8], u: usize, a: u8) -> u8
    ensures { result ≡ derivative p.now a u }
{
    let mut sum = 0;
    let mut power = 1;
    for i in u..p.len() {
        if is_odd_binomial(i, u) {
            sum = gf256::add(sum, gf256::mul(p[i], power));
        }
        power = gf256::mul(power, a);
    }
    sum
}

/// The coefficient of `p` at `x^i`, 0 past the last.
pub fn coefficient(p: &[u8], i: usize) -> u8
    ensures { result ≡ coef p.now i }
{
    p.get(i).copied().unwrap_or(0)
}

/// The degree of `p`; `None` exactly where `p` is 0.
pub fn degree(p: &[u8]) -> Option<usize>
    ensures { MatchOption result (IsZero p.now) (IsDegree p.now) }
{
    for i in (0..p.len()).rev() {
        if p[i] != 0 {
            return Some(i);
        }
    }
    None
}

/// The exponent of the greatest power of x that divides `p`; `None` exactly where `p` is 0.
pub fn order(p: &[u8]) -> Option<usize>
    ensures { MatchOption result (IsZero p.now) (IsOrder p.now) }
{
    for i in 0..p.len() {
        if p[i] != 0 {
            return Some(i);
        }
    }
    None
}

/// Takes the first `n` coefficients of `p` away, or all where there are fewer.
pub fn drop_first(p: &mut Vec<u8>, n: usize)
    ensures { p.new.items ≡ drop n p.old.items }
{
    let n = n.min(p.len());
    p.copy_within(n.., 0);
    p.truncate(p.len() - n);
}

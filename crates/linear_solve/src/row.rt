//! Operations on whole rows of bytes, each done once for a row.

ghost use Rattle.std.specs.Prelude.{ℕ, ◌≡◌, not, nat_eq, length, position};
ghost use Rattle.gf256.specs.Field.{◌⊗◌};
ghost use Rattle.linear_solve.specs.Kernel.{component, inner};

/// The inner product of a row and a vector of the same length.
pub(crate) fn inner_product(row: &[u8], v: &[u8]) -> u8
    requires { length row.now ≡ length v.now }
    ensures { result ≡ inner (component row.now) v.now (length row.now) }
{
    let mut sum = 0;
    for k in 0..row.len() {
        sum = gf256::add(sum, gf256::mul(row[k], v[k]));
    }
    sum
}

/// Multiplies `row` by `factor`.
pub(crate) fn scale(row: &mut [u8], factor: u8)
    ensures { (k : ℕ) → component row.new k ≡ component row.old k ⊗ factor }
{
    for x in row.iter_mut() {
        *x = gf256::mul(*x, factor);
    }
}

/// The first column in which `row` isn't 0.
pub(crate) fn first_nonzero(row: &[u8]) -> Option<usize>
    ensures { result ≡ position (λ x. not (nat_eq x 0)) row.now }
{
    row.iter().position(|&x| x != 0)
}

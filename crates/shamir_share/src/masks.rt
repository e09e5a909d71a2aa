//! The values of polynomials whose constant is 0.
ghost use Rattle.std.specs.Prelude.{ℕ, ◌≡◌, ◌*◌, ◌≤◌, length, map, take};
ghost use Rattle.gf256.specs.Field.{◌⊗◌};
ghost use Rattle.gf256.specs.Polynomial.{val};
ghost use Rattle.shamir_share.specs.Query.{masks};

use crate::lanes::lanes_into;
use crate::products::ProductTable;

/// Writes at `j` the value, at the factor of the products, of the polynomial whose constant is 0 and
/// whose other coefficients are the `t` coins at `j * t` and on. There are `t` coins for each place
/// of `out`. It takes no memory.
pub fn masks_into(products: &ProductTable, coins: &[u8], t: usize, out: &mut [u8])
    requires { length coins.now ≡ length out.old * t }
    ensures { out.new ≡ masks coins.now t (length out.old) products.now }
{
    if t == 1 {
        products.times_each(coins, out);
        return;
    }
    let done = lanes_into(products, coins, t, out);
    rows_into(products, coins, t, done, out);
}

/// The same from row `from` on, where those before are done: row by row, four of them at once.
pub(crate) fn rows_into(
    products: &ProductTable,
    coins: &[u8],
    t: usize,
    from: usize,
    out: &mut [u8],
)
    requires coins { length coins.now ≡ length out.old * t }
    requires within { from ≤ length out.old }
    requires done { take from out.old ≡ masks coins.now t from products.now }
    ensures { out.new ≡ masks coins.now t (length out.old) products.now }
{
    let mut row = from;
    'fours: while out.len() - row >= 4 {
        let values = four_masks(products, &coins[row * t..(row + 4) * t], t);
        out[row..row + 4].copy_from_slice(&values);
        row += 4;
    }
    for j in row..out.len() {
        out[j] = mask(products, &coins[j * t..(j + 1) * t]);
    }
}

/// The values of four rows, by Horner's rule. No one waits for another.
fn four_masks(products: &ProductTable, rows: &[u8], t: usize) -> [u8; 4]
    requires { length rows.now ≡ 4 * t }
    ensures { result ≡ masks rows.now t 4 products.now }
{
    let mut values = [0; 4];
    for e in (0..t).rev() {
        values = [
            products.times(values[0] ^ rows[e]),
            products.times(values[1] ^ rows[t + e]),
            products.times(values[2] ^ rows[2 * t + e]),
            products.times(values[3] ^ rows[3 * t + e]),
        ];
    }
    values
}

/// The value of one row, by Horner's rule.
fn mask(products: &ProductTable, row: &[u8]) -> u8
    ensures { result ≡ products.now ⊗ val row.now products.now }
{
    let mut value = 0;
    for e in (0..row.len()).rev() {
        value = products.times(value ^ row[e]);
    }
    value
}

//! Which polynomials agree with enough points.

ghost use Rattle.std.specs.Prelude.{◌≡◌, ◌<◌, All};
ghost use Rattle.std.specs.List.{filter};
ghost use Rattle.column_lists.specs.Agreement.{agreements, has_agreed};
ghost use Rattle.column_runs.specs.Rows.{lists_of};

use uni_poly::eval;

/// At how many of the points `phi` takes the second member at the first.
fn agreements(phi: &[u8], points: &[(u8, u8)]) -> usize
    ensures { result ≡ agreements phi.now points.now }
{
    points
        .iter()
        .filter(|point| eval(phi, point.0) == point.1)
        .count()
}

/// Keeps in the list the polynomials that agree with at least `h` of the points. It copies none.
pub(crate) fn keep_agreeing(list: &mut Vec<Vec<u8>>, points: &[(u8, u8)], h: u32)
    ensures { lists_of list.new.items ≡ filter (has_agreed points.now h) (lists_of list.old.items) }
{
    list.retain(|phi| agreements(phi, points) >= h as usize);
}

/// A byte is less than 256.
fn is_byte(x: u8)
    ensures { x < 256 }
{}

/// The first members of the points are bytes. It looks at each point once, since a contract sees the points as pairs of
/// numbers.
pub(crate) fn places_are_bytes(points: &[(u8, u8)])
    ensures { All (λ p. p.0 < 256) points.now }
{
    for i in 0..points.len() {
        is_byte(points[i].0);
    }
}

//! A gathered list as its entries ascend, and the shape of its table.

ghost use Rattle.std.specs.Prelude.{◌≡◌, ◌≤◌, IfSome};
ghost use Rattle.quantity_limits.specs.declared.TheConstants.{MOST_ROWS};
ghost use Rattle.list_builds.specs.Layout.{CanLayOut, LaysOut, ShapesFor, most_for};

use crate::SALT_SIZE;
use crate::fault::BuildFault;
use crate::gather::Gathered;
use crate::order::Values;
use key_table::{Clash, Shape, ShapeFault, SortedEntries};
use std::marker::Model;

/// A list under its salt, as its entries ascend, its tag, and the shape of its table.
#[derive(Drop)]
pub(crate) struct Laid {
    pub(crate) salt: [u8; SALT_SIZE],
    pub(crate) sorted: SortedEntries,
    pub(crate) tag: [u8; 8],
    pub(crate) shape: Shape,
}

impl Model for Laid {
    ghost use Rattle.std.specs.Prelude.{◌≡◌, ◌<◌, length};
    ghost use Rattle.key_table.specs.KeyList.{tag_of};
    ghost use Rattle.key_table.specs.Shapes.{HasShape};
    ghost use Rattle.list_builds.specs.Laid.{Laid};

    ghost Value = { Laid };

    ghost view = { λ l. record { salt = l.salt; sorted = l.sorted; shape = l.shape } };

    ghost invariant = { λ l. (l.tag ≡ tag_of l.salt l.sorted.most l.sorted.pairs) × HasShape l.sorted l.shape
        × (0 < length l.sorted.pairs) };
}

impl Values {
    /// How many bytes a value of a list may have, whose longest one has so many.
    fn most(self, longest: usize) -> usize
        ensures { result ≡ most_for self longest }
    {
        match self {
            Values::Absent => 0,
            Values::UpToLongest => longest,
            Values::UpTo(most) => most,
        }
    }
}

/// The shape of a table with so many rows, or else the best one.
fn shape_for(sorted: &SortedEntries, rows: Option<u32>) -> Result<Shape, ShapeFault>
    requires some { IfSome rows (λ r. 1 ≤ r) }
    requires few { IfSome rows (λ r. r ≤ MOST_ROWS) }
    ensures { ShapesFor rows sorted.now result }
{
    match rows {
        Some(rows) => sorted.shape_of(rows),
        None => sorted.shape(),
    }
}

/// The entries of a gathered list as they ascend, and the shape of its table.
///
/// # Errors
///
/// `Clash` exactly where a digest stands with two values, with the numbers of the lines; else `Unshaped` exactly where
/// the rows make no database.
pub(crate) fn lay_out(
    list: Gathered,
    salt: [u8; SALT_SIZE],
    values: Values,
    rows: Option<u32>,
) -> Result<Laid, BuildFault>
    requires { CanLayOut values rows list }
    ensures { LaysOut salt values rows list result }
{
    let most = values.most(list.longest);
    let sorted = match list.entries.sort(most) {
        Ok(sorted) => sorted,
        Err(Clash { first, place }) => {
            return Err(BuildFault::Clash {
                first: first + 1,
                second: place + 1,
            });
        }
    };
    match shape_for(&sorted, rows) {
        Ok(shape) => Ok(Laid {
            salt,
            tag: sorted.tag(&salt),
            sorted,
            shape,
        }),
        Err(fault) => Err(BuildFault::Unshaped(fault)),
    }
}

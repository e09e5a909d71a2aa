//! How a list is built.

use key_table::{MOST_PAIRS, MOST_VALUE};
use list_keys::{Form, Terms};
use std::marker::Model;

/// What the lines of a list say beside keys.
#[derive(Clone, Copy, Debug, PartialEq, Eq)]
pub enum Values {
    /// Nothing: a line is a key.
    Absent,
    /// A value behind the first tab. No value of the list is longer than its longest one.
    UpToLongest,
    /// A value behind the first tab, of at most so many bytes.
    UpTo(usize),
}

/// How a list is built, and where its parts are.
#[derive(Drop)]
pub struct BuildOrder<'a> {
    /// How many bytes a digest has: 8 to 32.
    pub digest: usize,
    /// What the lines say beside keys. A value has at most 16384 bytes.
    pub values: Values,
    /// How many rows the database has, 1 to 2^20; where it isn't said, the best number.
    pub rows: Option<u32>,
    /// The name of the file of keys.
    pub keys: &'a str,
    /// The name of the file of coins.
    pub coins: &'a str,
    /// The name of the file that the database is written to.
    pub database: &'a str,
    /// The name of the file that the catalog is written to; where it isn't said, standard output.
    pub catalog: Option<&'a str>,
}

impl<'a> Model for BuildOrder<'a> {
    ghost use Rattle.std.specs.Prelude.{option_map};
    ghost use Rattle.list_builds.specs.Order.{IsOrder, Order};

    ghost Value = { Order };

    ghost view = { λ o. record {
      digest = o.digest;
      values = o.values;
      rows = o.rows;
      keys = o.keys.now;
      coins = o.coins.now;
      database = o.database.now;
      catalog = option_map (λ name. name.now) o.catalog;
    } };

    ghost invariant = { λ o. IsOrder o.digest o.values o.rows };
}

impl Values {
    ghost use Rattle.std.specs.Prelude.{◌≡◌};
    ghost use Rattle.list_builds.specs.Order.{terms_of};

    /// What each line has to be, and how many there are at most.
    pub(crate) fn terms(self) -> Terms
        ensures { result ≡ terms_of self }
    {
        let form = match self {
            Values::Absent => Form::Key,
            Values::UpToLongest => Form::KeyAndValue { most: MOST_VALUE },
            Values::UpTo(most) => Form::KeyAndValue { most },
        };
        Terms {
            form,
            most: MOST_PAIRS as u32,
        }
    }
}

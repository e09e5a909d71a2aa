//! What a look-up comes to.

use list_finds::Finds;
use std::marker::Model;

/// What a look-up came to: the answer to each key, and where each verdict listed one block and the row of a key is broken,
/// the number of that row, of the first such key.
#[derive(Drop)]
pub struct Looked {
    pub(crate) finds: Finds,
    pub(crate) broken_row: Option<u32>,
}

impl Model for Looked {
    ghost use Rattle.list_tool.specs.Looked.{Looked};

    ghost Value = { Looked };

    ghost view = { λ l. record { come = l.finds; row = l.broken_row } };
}

//! What is shared.

use std::marker::Model;

/// The bytes that are shared, and the coins for them: so many for each byte as its polynomial has degrees.
#[derive(Drop)]
pub(crate) struct Sharing<'a> {
    pub(crate) bytes: &'a [u8],
    pub(crate) coins: &'a [u8],
    /// The degree of each byte's polynomial.
    pub(crate) tau: u8,
}

impl<'a> Model for Sharing<'a> {
    ghost use Rattle.share_files.specs.Sharing.{IsShareable, Sharing};

    ghost Value = { Sharing };

    ghost view = { λ s. record { bytes = s.bytes.now; coins = s.coins.now; tau = s.tau } };

    ghost invariant = { λ s. IsShareable (record { bytes = s.bytes.now; coins = s.coins.now; tau = s.tau }) };
}

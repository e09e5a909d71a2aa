//! How a database is split.

use std::marker::Model;

/// How a database is split into shares. The degree is from 1 on and lies below the number of servers.
#[derive(Drop)]
pub struct SplitPlan<'a> {
    /// How many servers there are.
    pub servers: u8,
    /// So many servers together learn nothing: the degree of each byte's polynomial.
    pub tau: u8,
    /// What the names of the files begin with; a dot follows, and the index of the server, from 1 on.
    pub into: &'a str,
    /// The name of the file of coins.
    pub coins: &'a str,
}

impl<'a> Model for SplitPlan<'a> {
    ghost use Rattle.std.specs.Prelude.{◌≤◌, ◌<◌};
    ghost use Rattle.share_files.specs.SplitPlan.{SplitPlan};

    ghost Value = { SplitPlan };

    ghost view = { λ p. record { servers = p.servers; tau = p.tau; into = p.into.now; coins = p.coins.now } };

    ghost invariant = { λ p. (1 ≤ p.tau) × (p.tau < p.servers) };
}

// How many calls on each port failed.
ghost use Rattle.std.specs.Prelude.{◌≡◌, ◌≢◌, ◌+◌, ◌-◌, ◌^◌, ℕ, slice_index, min, IfOk};
ghost use Rattle.port_trait.specs.Number.{number};

use port_trait::{Failed, PORT_COUNT, Port};
use std::alloc::{AllocError, Global};
use std::marker::Model;

/// A count for each port, by the port's number.
#[derive(Drop)]
pub struct Counts {
    counts: Vec<u64>,
}

impl Model for Counts {
    ghost use Rattle.std.specs.Prelude.{◌≡◌, List, ℕ, length};
    ghost use Rattle.port_trait.specs.declared.port.TheConstants.{PORT_COUNT};

    ghost Value = { List ℕ };

    ghost view = { λ c. c.counts.items };

    ghost invariant = { λ c. length c.counts.items ≡ PORT_COUNT };
}

impl Counts {
    /// No failed call yet.
    pub fn new(alloc: Global) -> Result<Self, AllocError>
        ensures { IfOk result (λ counts. (q : ℕ) → slice_index counts q ≡ 0) }
    {
        Ok(Counts {
            counts: vec![in alloc; 0; PORT_COUNT]?,
        })
    }

    /// Counts one failed call more; the count stops at its greatest number.
    pub fn raise(&mut self, p: Port) -> Failed
        ensures rose { slice_index self.new (number p) ≡ min (slice_index self.old (number p) + 1) (2 ^ 64 - 1) }
        ensures others { (q : ℕ) → q ≢ number p → slice_index self.new q ≡ slice_index self.old q }
    {
        let n = p.number();
        self.counts[n] = self.counts[n].saturating_add(1);
        Failed
    }
}

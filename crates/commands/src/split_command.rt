//! The command `split`.

ghost use Rattle.std.specs.Prelude.{◌≡◌, ◌<◌, length, string_bytes, IfOk};
ghost use Rattle.port_trait.specs.Number.{OUTPUT};
ghost use Rattle.port_trait.specs.Moves.{Touches};
ghost use Rattle.commands.specs.SplitOrder.{plan_to_split};
ghost use Rattle.commands.specs.SplitSteps.{Says, SharesOut, TouchesSharing, numbers_text};
ghost use Rattle.commands.specs.SplitOutcome.{SplitEnds, TouchesSplit};

use crate::orders::SplitOrder;
use crate::status::Status;
use block_matrix::Matrix;
use port_trait::{Failed, Port, Ports, write_all};
use share_files::{SplitPlan, load_to_share, split};
use std::alloc::{AllocError, Global};

impl<'a> SplitOrder<'a> {
    /// How the database is split.
    fn plan(&self) -> SplitPlan<'a>
        ensures { result ≡ plan_to_split self.now }
    {
        SplitPlan {
            servers: self.servers,
            tau: self.tau,
            into: self.into,
            coins: self.coins,
        }
    }
}

/// What is written once all shares are.
fn format_numbers(alloc: Global, servers: u8, rows: u32, width: u32) -> Result<String, AllocError>
    ensures { IfOk result (λ text. string_bytes text ≡ numbers_text servers rows width) }
{
    format!(in alloc; "split {servers} {rows} {width}\n")
}

/// Writes a text to Output, and says how that ends.
fn say<P: Ports>(ports: &mut P, text: &str) -> Status
    requires { 0 < length text.now }
    ensures says { Says text.now result (P.world ports.old) (P.world ports.new) }
    ensures others { Touches OUTPUT (P.world ports.old) (P.world ports.new) }
{
    match write_all(ports, Port::Output, text.as_bytes()) {
        Ok(()) => Status::One,
        Err(Failed) => Status::WriteFault,
    }
}

/// Writes the shares of a database, and then says so. The text that says so is made before the coins are taken.
fn share_out<P: Ports>(alloc: Global, order: &SplitOrder, matrix: &Matrix, ports: &mut P) -> Status
    ensures shares { SharesOut order.now matrix.now result (P.world ports.old) (P.world ports.new) }
    ensures others { TouchesSharing order.now.servers (P.world ports.old) (P.world ports.new) }
{
    let Ok(text) = format_numbers(alloc, order.servers, matrix.rows(), order.width) else {
        return Status::Memory;
    };
    match split(alloc, matrix, &order.plan(), ports) {
        Ok(()) => say(ports, &text),
        Err(fault) => fault.into(),
    }
}

/// Splits a database: loads it, takes the coins, writes the share of each server to its file, and says so.
pub(crate) fn split_file<P: Ports>(alloc: Global, order: &SplitOrder, ports: &mut P) -> Status
    ensures ends { SplitEnds order.now result (P.world ports.old) (P.world ports.new) }
    ensures others { TouchesSplit order.now.servers (P.world ports.old) (P.world ports.new) }
{
    let Ok(()) = ports.open(Port::Database, order.database) else {
        return Status::ReadFault;
    };
    match load_to_share(alloc, ports, order.width, order.tau) {
        Ok(matrix) => share_out(alloc, order, &matrix, ports),
        Err(fault) => fault.into(),
    }
}

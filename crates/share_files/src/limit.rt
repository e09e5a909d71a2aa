//! How large a database in shares may be.

ghost use Rattle.std.specs.Prelude.{◌≡◌, ◌≤◌};
ghost use Rattle.port_trait.specs.Number.{DATABASE};
ghost use Rattle.port_trait.specs.Moves.{Touches};
ghost use Rattle.quantity_limits.specs.declared.TheConstants.{MOST_CELLS, MOST_WIDTH};
ghost use Rattle.share_files.specs.Limit.{LoadsFew, shared_limit};

use block_matrix::{LoadFault, Matrix, load};
use port_trait::Ports;
use quantity_limits::{MOST_CELLS, MOST_ROWS};
use std::alloc::Global;

/// The most bytes of a database with rows of this width that is shared with degree `tau`.
#[tactic(auto, unfolding(crate::specs::Limit::shared_limit))]
pub fn most_bytes_shared(width: u32, tau: u8) -> u64
    requires some { 1 ≤ width }
    requires tau { 1 ≤ tau }
    ensures { result ≡ shared_limit width tau }
{
    let coins = u64::from(width) * u64::from(tau);
    u64::from(width) * u64::from(MOST_ROWS).min(MOST_CELLS / coins)
}

/// The rows of the database in the file of Database, already open, which is read to its end, where it can be shared with
/// degree `tau`. As [`load`] but for the limit.
///
/// # Errors
///
/// As [`load`]; and `TooBig` exactly where the file has more bytes than [`most_bytes_shared`], which is its limit.
pub fn load_to_share<P: Ports>(
    alloc: Global,
    ports: &mut P,
    width: u32,
    tau: u8,
) -> Result<Matrix, LoadFault>
    requires some { 1 ≤ width }
    requires few { width ≤ MOST_WIDTH }
    requires tau { 1 ≤ tau }
    ensures loads { LoadsFew width tau result (P.world ports.old) (P.world ports.new) }
    ensures others { Touches DATABASE (P.world ports.old) (P.world ports.new) }
{
    let limit = most_bytes_shared(width, tau);
    let matrix = match load(alloc, ports, width) {
        Ok(matrix) => matrix,
        Err(LoadFault::EmptyFile) => return Err(LoadFault::EmptyFile),
        Err(LoadFault::TooBig { .. }) => return Err(LoadFault::TooBig { limit }),
        Err(LoadFault::ReadFault) => return Err(LoadFault::ReadFault),
        Err(LoadFault::Memory) => return Err(LoadFault::Memory),
    };
    if matrix.bytes().len() as u64 > limit {
        return Err(LoadFault::TooBig { limit });
    }
    Ok(matrix)
}

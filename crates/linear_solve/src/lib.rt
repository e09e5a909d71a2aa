//! Systems of linear equations over GF(256).
//!
//! A [`Table`] is a matrix of bytes, an equation a row. [`kernel_vector`] solves the homogeneous system of a table with
//! more columns than rows.
//!
//! Promised: a table keeps each entry as it was last set, and `kernel_vector` gives a vector that isn't zero and whose
//! inner product with each row is 0. Want of memory is the only error.
//!
//! Not promised: which of the many vectors it is, and anything of time. The method is Gauss's elimination: about
//! half of `rows * rows * cols` products, and memory for one more table.
#![tactic(auto)]

mod echelon;
mod row;
mod table;

ghost use Rattle.std.specs.Prelude.{◌<◌, IfOk};
ghost use Rattle.linear_solve.specs.Kernel.{IsKernelVector};

use std::alloc::{AllocError, Global};
pub use table::{MOST_SIDE, Table};

/// A vector that isn't zero and that the table sends to zero: it has a byte for each column, and its inner product with
/// each row is 0. There must be more columns than rows, so that there is one. Of the one row `01 02` it is a multiple of
/// `02 01`, since `1 * 2 + 2 * 1 = 0`.
///
/// The error is want of memory.
pub fn kernel_vector(alloc: Global, table: &Table) -> Result<Vec<u8>, AllocError>
    requires { table.now.rows < table.now.cols }
    ensures { IfOk result (λ v. IsKernelVector v.items table.now) }
{
    let mut pivots = Vec::new(alloc);
    for i in 0..table.rows() {
        echelon::add_row(alloc, &mut pivots, table.row(i))?;
    }
    let free = echelon::free_column(alloc, &pivots, table.cols())?;
    let mut v = vec![in alloc; 0; table.cols()]?;
    v[free] = 1;
    echelon::solve_back(&mut v, &pivots);
    Ok(v)
}

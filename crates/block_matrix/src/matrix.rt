//! The rows of a database, in one block of memory.
ghost use Rattle.std.specs.Prelude.{◌≡◌, ℕ, [], ◌+◌, ◌*◌, ◌<◌, ◌≤◌, All, length, slice_index_or, vec_len, IfOk, IfErr};
ghost use Rattle.std.specs.List.{concat};
ghost use Rattle.gf256.specs.Product.{IsMatrix};
ghost use Rattle.quantity_limits.specs.declared.TheConstants.{MOST_CELLS, MOST_ROWS, MOST_WIDTH};
ghost use Rattle.block_matrix.specs.Database.{Database, limit, rows_of, database};
ghost use Rattle.block_matrix.specs.Loaded.{Parses, FillsUp};

use quantity_limits::{MOST_CELLS, MOST_ROWS};
use std::alloc::Global;
use std::marker::Model;
use thiserror::Error;

/// Why a file is no database.
#[derive(Clone, Copy, Debug, PartialEq, Eq, Error)]
pub enum LoadFault {
    /// The file has no bytes.
    #[error("the database is empty")]
    EmptyFile,
    /// The file has more bytes than a database of that width may have: `limit`.
    #[error("the database has more than {limit} bytes")]
    TooBig { limit: u64 },
    /// A call on the file failed.
    #[error("a call on the database failed")]
    ReadFault,
    /// Want of memory.
    #[error("no memory")]
    Memory,
}

/// The rows of a database, all of one width.
///
/// ```
/// // Two bytes a row; the last row is filled up.
/// let matrix = Matrix::from_bytes(alloc, bytes, 2)?; // the bytes b"ABCDE"
/// assert_eq!(matrix.rows(), 3);
/// assert_eq!(matrix.row(2), b"E\0");
/// ```
#[derive(Drop)]
pub struct Matrix {
    rows: u32,
    width: u32,
    bytes: Vec<u8>,
}

impl Model for Matrix {
    ghost use Rattle.block_matrix.specs.Database.{Database, rows_of};
    ghost use Rattle.block_matrix.specs.Held.{IsWhole};

    ghost Value = { Database };

    ghost view = { λ m. record { rows = rows_of m.width m.rows m.bytes.items; width = m.width } };

    ghost invariant = { IsWhole };
}

/// The bytes of a slice are below 256, which a contract can cite.
fn are_bytes(bytes: &[u8])
    ensures { All (λ b. b < 256) bytes.now }
{}

/// The most bytes of a file whose rows have this width.
pub fn most_bytes(width: u32) -> u64
    requires { 1 ≤ width }
    ensures is { result ≡ limit width }
    ensures few { result ≤ MOST_CELLS }
{
    u64::from(width) * u64::from(MOST_ROWS).min(MOST_CELLS / u64::from(width))
}

impl Matrix {
    /// The rows of a file of these bytes, where it is neither empty nor too big. Memory is taken only where the last row is
    /// to be filled up; it lies where the bytes lie.
    ///
    /// # Errors
    ///
    /// `EmptyFile` exactly where there are no bytes, `TooBig` exactly where there are more than `limit`, which is the width
    /// times the greatest number of rows of that width; `Memory` for want of memory. The bytes are dropped then.
    pub fn from_bytes(_alloc: Global, mut bytes: Vec<u8>, width: u32) -> Result<Matrix, LoadFault>
        requires some { 1 ≤ width }
        requires few { width ≤ MOST_WIDTH }
        ensures { Parses width bytes.items result }
    {
        let limit = most_bytes(width);
        let len = bytes.len() as u64;
        if len == 0 {
            return Err(LoadFault::EmptyFile);
        }
        if len > limit {
            return Err(LoadFault::TooBig { limit });
        }
        let rows = len.div_ceil(u64::from(width));
        let whole = (rows * u64::from(width)) as usize;
        fill_up(&mut bytes, whole)?;
        are_bytes(&bytes);
        Ok(Matrix {
            rows: rows as u32,
            width,
            bytes,
        })
    }

    /// How many rows there are. Contracts learn from it that all rows have the width.
    pub fn rows(&self) -> u32
        ensures is { result ≡ length self.now.rows }
        ensures some { 1 ≤ result }
        ensures few { result ≤ MOST_ROWS }
        ensures cells { result * self.now.width ≤ MOST_CELLS }
        ensures matrix { IsMatrix self.now.rows (length self.now.rows) self.now.width }
    {
        self.rows
    }

    /// How many bytes a row has.
    pub fn width(&self) -> u32
        ensures is { result ≡ self.now.width }
        ensures some { 1 ≤ result }
        ensures few { result ≤ MOST_WIDTH }
        ensures cells { length self.now.rows * result ≤ MOST_CELLS }
    {
        self.width
    }

    /// The bytes of row `j`, counted from 0.
    pub fn row(&self, j: u32) -> &[u8]
        requires { j < length self.now.rows }
        ensures is { result.now ≡ slice_index_or self.now.rows j [] }
        ensures size { length result.now ≡ self.now.width }
    {
        let width = self.width as usize;
        let from = j as usize * width;
        &self.bytes[from..from + width]
    }

    /// All bytes, row after row.
    pub fn bytes(&self) -> &[u8]
        ensures is { result.now ≡ concat self.now.rows }
        ensures size { length result.now ≡ length self.now.rows * self.now.width }
        ensures some { 0 < length result.now }
        ensures few { length result.now ≤ MOST_CELLS }
    {
        &self.bytes
    }
}

/// Fills the bytes up with zeros to so many.
fn fill_up(bytes: &mut Vec<u8>, whole: usize) -> Result<(), LoadFault>
    requires { vec_len bytes.old ≤ whole }
    ensures { FillsUp whole bytes.old.items bytes.new.items result }
{
    let missing = whole - bytes.len();
    let Ok(()) = bytes.try_reserve_exact(missing) else {
        return Err(LoadFault::Memory);
    };
    match bytes.resize(whole, 0) {
        Ok(()) => Ok(()),
        Err(_) => Err(LoadFault::Memory),
    }
}

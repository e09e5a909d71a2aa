//! Why a line can't be read, or a case can't be run.

use std::alloc::AllocError;
use thiserror::Error;

/// Why a line can't be read, or a case can't be run.
#[derive(Debug, Drop, Error)]
pub enum Fault {
    /// It isn't written as the language has it.
    #[error("{0}")]
    Form(&'static str),
    #[error("no memory")]
    Memory(#[from(alloc)] AllocError),
}

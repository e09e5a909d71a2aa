//! What is served.
ghost use Rattle.std.specs.Prelude.{◌≡◌, ◌≤◌};
ghost use Rattle.wire_frames.specs.Scheme.{number_of, scheme_of};
ghost use Rattle.quantity_limits.specs.declared.TheConstants.{MOST_BLOCKS, MOST_WORKERS};
ghost use Rattle.serve_core.specs.Terms.{most_blocks_for, payload_len_for};
ghost use Rattle.serve_core.specs.Service.{frame_len_for, sums_len_for, terms_of};

use crate::terms::Terms;
use block_matrix::Matrix;
use std::marker::Model;
use wire_frames::{Scheme, answer_len};

/// A database, the scheme in which it is served, and how many workers sum the rows.
#[derive(Drop)]
pub(crate) struct Service {
    matrix: Matrix,
    scheme: Scheme,
    workers: u8,
}

impl Model for Service {
    ghost use Rattle.serve_core.specs.Service.{Service};

    ghost Value = { Service };

    ghost use Rattle.wire_frames.specs.Scheme.{number_of};
    ghost use Rattle.serve_core.specs.Servable.{IsServable};

    ghost view = { λ s. record { database = s.matrix; scheme = number_of s.scheme; workers = s.workers } };

    ghost invariant = { IsServable };
}

impl Service {
    /// A database that is served in a scheme, by from 1 to [`MOST_WORKERS`](wire_frames::MOST_WORKERS)
    /// workers.
    pub(crate) fn new(matrix: Matrix, scheme: Scheme, workers: u8) -> Service
        requires some { 1 ≤ workers }
        requires few { workers ≤ MOST_WORKERS }
        ensures { result ≡ record { database = matrix; scheme = number_of scheme; workers = workers } }
    {
        Service {
            matrix,
            scheme,
            workers,
        }
    }

    /// The rows of the database.
    pub(crate) fn matrix(&self) -> &Matrix
        ensures { result.now ≡ self.now.database }
    {
        &self.matrix
    }

    /// The scheme.
    pub(crate) fn scheme(&self) -> Scheme
        ensures { result ≡ scheme_of self.now.scheme }
    {
        self.scheme
    }

    /// How many workers sum the rows.
    pub(crate) fn workers(&self) -> u8
        ensures is { result ≡ self.now.workers }
        ensures some { 1 ≤ result }
        ensures few { result ≤ MOST_WORKERS }
    {
        self.workers
    }

    /// Which queries are taken.
    pub(crate) fn terms(&self) -> Terms
        ensures is { result ≡ terms_of self.now }
        ensures some { 1 ≤ result.width }
    {
        Terms {
            scheme: self.scheme.number(),
            rows: self.matrix.rows(),
            width: self.matrix.width(),
        }
    }

    /// How many bytes the payload of a query for so many blocks has.
    pub(crate) fn payload_len(&self, count: u8) -> usize
        ensures { result ≡ payload_len_for (terms_of self.now) count }
    {
        self.terms().payload_len(self.scheme(), count)
    }

    /// The most blocks that a query asks for.
    pub(crate) fn most_blocks(&self) -> u8
        ensures is { result ≡ most_blocks_for (terms_of self.now) }
        ensures few { result ≤ MOST_BLOCKS }
    {
        self.terms().most_blocks()
    }

    /// How many bytes the sums of the workers have for so many blocks, a row for each.
    pub(crate) fn sums_len(&self, count: u8) -> usize
        ensures { result ≡ sums_len_for self.now count }
    {
        let row_bytes = usize::from(count) * self.matrix.width() as usize;
        usize::from(self.workers) * row_bytes
    }

    /// How many bytes the frame of an answer has for so many blocks.
    pub(crate) fn frame_len(&self, count: u8) -> usize
        ensures { result ≡ frame_len_for self.now count }
    {
        answer_len(count, self.matrix.width())
    }
}

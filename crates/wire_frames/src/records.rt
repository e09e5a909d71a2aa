//! Records in memory that was taken once.
ghost use Rattle.std.specs.Prelude.{◌≡◌, ◌≤◌, ◌<◌, [], length, IfOk, slice_index_or};
ghost use Rattle.std.specs.Option.{option_copied};
ghost use Rattle.wire_frames.specs.Records.{nothing_kept, extended, closed_by, AreBytes};

use std::alloc::{AllocError, Global};
use std::marker::Model;

/// Where the bytes of a record lie.
#[derive(Clone, Copy)]
struct Span {
    start: usize,
    end: usize,
}

/// The records of a session as they come in, one behind another in one block of bytes.
#[derive(Drop)]
pub struct Records {
    closed: Vec<Option<Span>>,
    bytes: Vec<u8>,
    // Where the next record begins.
    start: usize,
    record_room: usize,
    byte_room: usize,
}

impl Model for Records {
    ghost use Rattle.std.specs.Prelude.{◌+◌, ◌≤◌, ◌<◌, All, IfSome, drop, length, map, vec_len, vec_capacity, slice_range};
    ghost use Rattle.std.specs.Option.{option_map};
    ghost use Rattle.wire_frames.specs.Records.{Kept};

    ghost Value = { Kept };

    ghost view = { λ r. record {
      closed = map (option_map (λ s. slice_range r.bytes.items s.start s.end)) r.closed.items;
      current = drop r.start r.bytes.items;
      record_room = r.record_room;
      byte_room = r.byte_room;
    } };

    ghost invariant = { λ r. (vec_len r.closed + r.record_room ≤ vec_capacity r.closed)
        × (vec_len r.bytes + r.byte_room ≤ vec_capacity r.bytes)
        × (r.start ≤ length r.bytes.items)
        × All (λ o. IfSome o (λ s. (s.start ≤ s.end) × (s.end ≤ length r.bytes.items))) r.closed.items
        × All (λ b. b < 256) r.bytes.items };
}

impl Records {
    /// No record yet. The memory for so many records, of so many bytes together, is taken here.
    pub fn with_room(alloc: Global, records: usize, bytes: usize) -> Result<Self, AllocError>
        ensures { IfOk result (λ r. r ≡ nothing_kept records bytes) }
    {
        Ok(Records {
            closed: Vec::with_capacity(alloc, records)?,
            bytes: Vec::with_capacity(alloc, bytes)?,
            start: 0,
            record_room: records,
            byte_room: bytes,
        })
    }

    /// Puts the piece behind the bytes so far of the next record.
    pub fn extend(&mut self, piece: &[u8])
        requires { length piece.now ≤ self.old.byte_room }
        ensures { self.new ≡ extended piece.now self.old }
    {
        match self.bytes.extend_from_slice(piece) {
            Ok(()) => {}
            Err(_) => unreachable!(),
        }
        self.byte_room -= piece.len();
    }

    /// Ends the next record: it is present, with the bytes so far.
    pub fn close_present(&mut self)
        requires { 0 < self.old.record_room }
        ensures { self.new ≡ closed_by (Some self.old.current) self.old }
    {
        let start = self.start;
        let end = self.bytes.len();
        match self.closed.push(Some(Span { start, end })) {
            Ok(()) => {}
            Err(_) => unreachable!(),
        }
        self.start = end;
        self.record_room -= 1;
    }

    /// Ends the next record: it is absent.
    pub fn close_absent(&mut self)
        requires room { 0 < self.old.record_room }
        requires empty { self.old.current ≡ [] }
        ensures { self.new ≡ closed_by None self.old }
    {
        match self.closed.push(None) {
            Ok(()) => {}
            Err(_) => unreachable!(),
        }
        self.record_room -= 1;
    }

    /// How many records are whole. All that is kept is bytes.
    pub fn len(&self) -> usize
        ensures count { result ≡ length self.now.closed }
        ensures bytes { AreBytes self.now }
    {
        self.closed.len()
    }

    /// Record `i`, counted from 0: `None` where it is absent.
    pub fn record(&self, i: usize) -> Option<&[u8]>
        requires { i < length self.now.closed }
        ensures { option_copied result ≡ slice_index_or self.now.closed i None }
    {
        let span = self.closed[i]?;
        Some(&self.bytes[span.start..span.end])
    }
}

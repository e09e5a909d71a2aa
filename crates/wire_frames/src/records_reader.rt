//! Reads the records of a session piece by piece.
ghost use Rattle.std.specs.Prelude.{◌≡◌, ◌+◌, ◌<◌, [], length, IfOk, OnOk, MatchOption, Ok};
ghost use Rattle.wire_frames.specs.Layout.{IsRecordHeader};
ghost use Rattle.wire_frames.specs.Limits.{IsInRange};
ghost use Rattle.wire_frames.specs.Session.{Transcript, IsSession, header_bytes};
ghost use Rattle.wire_frames.specs.RecordsReader.{IsOpen, IsSteady, IsInHeader, IsInBytes};
ghost use Rattle.wire_frames.specs.RecordsReader.{Advances, FeedsOn, bytes_so_far, record_len};

use crate::head::Head;
use crate::layout::read_record_header;
use crate::records::Records;
use crate::session::{Session, SessionParams};
use crate::sizes::{RECORD_HEADER_LEN, answer_len};
use std::alloc::{AllocError, Global};

/// The records of a session as they come in, from the end of the session's header on.
#[derive(Drop)]
pub(crate) struct RecordsReader {
    params: SessionParams,
    records: Records,
    // What has come of the next record's header: all of it while that record's bytes come.
    head: Head,
    // How many bytes of the next record are still to come.
    left: usize,
}

impl RecordsReader {
    /// No record yet. The memory for all records is taken here.
    pub(crate) fn new(alloc: Global, params: SessionParams) -> Result<RecordsReader, AllocError>
        requires { IsInRange params }
        ensures open { IfOk result IsOpen }
        ensures bytes { IfOk result (λ r. bytes_so_far r ≡ header_bytes params) }
    {
        let servers = usize::from(params.n);
        let records = Records::with_room(
            alloc,
            servers,
            servers * answer_len(params.count, params.s),
        )?;
        Ok(RecordsReader {
            params,
            records,
            head: Head::new(),
            left: 0,
        })
    }

    /// Takes a piece, all of it, or says how many of its bytes are right.
    pub(crate) fn feed(&mut self, piece: &[u8]) -> Result<(), usize>
        requires { IsOpen self.old }
        ensures open { OnOk result (IsOpen self.new) }
        ensures bytes { FeedsOn (bytes_so_far self.old) piece.now result (bytes_so_far self.new) }
    {
        let mut at = 0;
        while at < piece.len() {
            match self.advance(&piece[at..]) {
                Ok(count) => at += count,
                Err(right) => return Err(at + right),
            }
        }
        Ok(())
    }

    /// The session, where all of its records have come.
    pub(crate) fn end(self) -> Option<Session>
        requires { IsOpen self }
        ensures { MatchOption result
            ((t : Transcript) → ¬ IsSession (bytes_so_far self) t) (IsSession (bytes_so_far self)) }
    {
        if self.records.len() < usize::from(self.params.n) {
            return None;
        }
        Some(Session::from_records(self.params, self.records))
    }

    /// Takes at least one byte of the piece.
    fn advance(&mut self, piece: &[u8]) -> Result<usize, usize>
        requires open { IsOpen self.old }
        requires some { 0 < length piece.now }
        ensures open { OnOk result (IsOpen self.new) }
        ensures bytes { Advances (bytes_so_far self.old) piece.now result (bytes_so_far self.new) }
    {
        if self.left > 0 {
            return Ok(self.take_bytes(piece));
        }
        if self.records.len() == usize::from(self.params.n) {
            return Err(0);
        }
        self.take_header(piece)
    }

    /// Takes bytes of the next record's header.
    fn take_header(&mut self, piece: &[u8]) -> Result<usize, usize>
        requires steady { IsSteady self.old }
        requires part { IsInHeader self.old }
        requires few { length self.old.records.closed < self.old.params.n }
        requires some { 0 < length piece.now }
        ensures open { OnOk result (IsOpen self.new) }
        ensures bytes { Advances (bytes_so_far self.old) piece.now result (bytes_so_far self.new) }
    {
        let before = self.head.len();
        let count = self.head.fill(piece, RECORD_HEADER_LEN);
        let index = self.records.len() as u8 + 1;
        let most = answer_len(self.params.count, self.params.s) as u32;
        match read_record_header(self.head.as_slice(), index, most) {
            Ok(len) => self.begin(len),
            Err(place) => {
                if place < self.head.len() {
                    return Err(place - before);
                }
            }
        }
        Ok(count)
    }

    /// Goes on behind the header of the next record, which has come.
    fn begin(&mut self, len: Option<u32>)
        requires steady { IsSteady self.old }
        requires few { length self.old.records.closed < self.old.params.n }
        requires none_left { self.old.left ≡ 0 }
        requires none_begun { self.old.records.current ≡ [] }
        requires header { IsRecordHeader
            (1 + length self.old.records.closed) (record_len self.old) self.old.head len }
        ensures open { IsOpen self.new }
        ensures bytes { bytes_so_far self.new ≡ bytes_so_far self.old }
    {
        match len {
            Some(len) => {
                self.left = len as usize;
                self.close_if_whole();
            }
            None => {
                self.records.close_absent();
                self.head.truncate(0);
            }
        }
    }

    /// Takes bytes of the next record, and says how many.
    fn take_bytes(&mut self, piece: &[u8]) -> usize
        requires steady { IsSteady self.old }
        requires part { IsInBytes self.old }
        requires left { 0 < self.old.left }
        requires some { 0 < length piece.now }
        ensures open { IsOpen self.new }
        ensures bytes { Advances (bytes_so_far self.old) piece.now (Ok result) (bytes_so_far self.new) }
    {
        let count = self.left.min(piece.len());
        self.records.extend(&piece[..count]);
        self.left -= count;
        self.close_if_whole();
        count
    }

    /// Ends the next record where none of its bytes is left.
    fn close_if_whole(&mut self)
        requires steady { IsSteady self.old }
        requires part { IsInBytes self.old }
        ensures open { IsOpen self.new }
        ensures bytes { bytes_so_far self.new ≡ bytes_so_far self.old }
    {
        if self.left == 0 {
            self.records.close_present();
            self.head.truncate(0);
        }
    }
}

//! A session: what was asked, and the bytes that each server answered.
ghost use Rattle.std.specs.Prelude.{◌≡◌, ◌≤◌, ◌<◌, ◌+◌, ◌-◌, ◌++◌, ◌∷◌, [], length, All, IfSome, IfOk, slice_index_or};
ghost use Rattle.std.specs.Option.{option_copied};
ghost use Rattle.wire_frames.specs.Scheme.{scheme_of};
ghost use Rattle.wire_frames.specs.Sizes.{answer_len};
ghost use Rattle.wire_frames.specs.Version.{version_of};
ghost use Rattle.wire_frames.specs.Limits.{IsInRange};
ghost use Rattle.wire_frames.specs.Session.{Fits, IsUnderWay};

use crate::records::Records;
use crate::scheme::Scheme;
use crate::sizes::answer_len;
use crate::version::Version;
use std::alloc::{AllocError, Global};
use std::marker::Model;

/// The numbers of a session.
#[derive(Clone, Copy, Debug, PartialEq, Eq)]
pub struct SessionParams {
    /// 1 where one block was asked for, 2 where it is said for how many.
    pub version: u8,
    /// 1 for Shamir's sharing, 2 for the XOR scheme.
    pub scheme: u8,
    /// How many servers together learn nothing: the degree of the queries' polynomials, and in the
    /// XOR scheme all but one.
    pub t: u8,
    /// How many answers have to agree: in the XOR scheme all.
    pub h: u8,
    /// The number of servers.
    pub n: u8,
    /// How many blocks were asked for: 1 in version 1.
    pub count: u8,
    /// The number of the session.
    pub session: u64,
    /// The number of rows of the database.
    pub r: u32,
    /// The width of a row, in bytes.
    pub s: u32,
}

impl SessionParams {
    /// The version.
    pub(crate) fn version(&self) -> Version
        requires { IsInRange self.now }
        ensures { result ≡ version_of self.now.version }
    {
        Version::of(self.version)
    }

    /// The scheme in which it was asked.
    pub fn scheme(&self) -> Scheme
        requires { IsInRange self.now }
        ensures { result ≡ scheme_of self.now.scheme }
    {
        Scheme::of(self.scheme)
    }
}

/// What a client asked for, and a record for each server so far.
#[derive(Drop)]
pub struct Session {
    params: SessionParams,
    records: Records,
}

impl Model for Session {
    ghost use Rattle.wire_frames.specs.Session.{Transcript, IsUnderWay};

    ghost Value = { Transcript };

    ghost view = { λ s. record { params = s.params; records = s.records.closed } };

    ghost invariant = { λ s. IsUnderWay s.params s.records };
}

impl Session {
    /// A session with no record yet. The memory for all `n` records, of at most [`answer_len`]
    /// bytes each, is taken here, and want of it is the only error.
    pub fn new(alloc: Global, params: SessionParams) -> Result<Session, AllocError>
        requires { IsInRange params }
        ensures { IfOk result (λ t. t ≡ record { params = params; records = [] }) }
    {
        let most = usize::from(params.n) * answer_len(params.count, params.s);
        let records = Records::with_room(alloc, usize::from(params.n), most)?;
        Ok(Session { params, records })
    }

    /// The session with these numbers and the records that are whole.
    pub(crate) fn from_records(params: SessionParams, records: Records) -> Session
        requires { IsUnderWay params records }
        ensures { result ≡ record { params = params; records = records.closed } }
    {
        Session { params, records }
    }

    /// Sets the number of the session, and nothing else. No record may have been pushed yet. It
    /// takes no memory.
    pub fn set_session(&mut self, session: u64)
        requires { self.old.records ≡ [] }
        ensures { self.new ≡ record self.old { params = record self.old.params { session = session } } }
    {
        self.params.session = session;
    }

    /// Adds the record of the next server: the bytes that it answered, at most [`answer_len`] of
    /// them, or `None` where a call failed. An answer of no bytes is present too. It takes no
    /// memory.
    pub fn push_record(&mut self, bytes: Option<&[u8]>)
        requires few { length self.old.records < self.old.params.n }
        requires fits { IfSome (option_copied bytes) (λ b. length b ≤ answer_len self.old.params.count self.old.params.s) }
        ensures { self.new
            ≡ record self.old { records = self.old.records ++ option_copied bytes.entry ∷ [] } }
    {
        match bytes {
            Some(bytes) => self.push_present(bytes),
            None => self.records.close_absent(),
        }
    }

    /// Adds a record that is present.
    fn push_present(&mut self, bytes: &[u8])
        requires few { length self.old.records < self.old.params.n }
        requires fits { length bytes.now ≤ answer_len self.old.params.count self.old.params.s }
        ensures { self.new ≡ record self.old { records = self.old.records ++ Some bytes.now ∷ [] } }
    {
        self.records.extend(bytes);
        self.records.close_present();
    }

    /// The record of server `i`, counted from 1: what was pushed, so `None` where a call failed.
    pub fn record_at(&self, i: u32) -> Option<&[u8]>
        requires first { 1 ≤ i }
        requires last { i ≤ length self.now.records }
        ensures { option_copied result ≡ slice_index_or self.now.records (i - 1) None }
    {
        self.records.record(i as usize - 1)
    }

    /// How many records were pushed.
    pub fn record_count(&self) -> u32
        ensures count { result ≡ length self.now.records }
        ensures few { length self.now.records ≤ self.now.params.n }
        ensures fits { All (Fits (answer_len self.now.params.count self.now.params.s)) self.now.records }
    {
        self.records.len() as u32
    }

    /// The numbers of the session, each in its range.
    pub fn params(&self) -> SessionParams
        ensures value { result ≡ self.now.params }
        ensures range { IsInRange self.now.params }
    {
        self.params
    }

    /// 1 where one block was asked for, 2 where it is said for how many.
    pub fn version(&self) -> u8
        ensures { result ≡ self.now.params.version }
    {
        self.params.version
    }

    /// 1 for Shamir's sharing, 2 for the XOR scheme.
    pub fn scheme(&self) -> u8
        ensures { result ≡ self.now.params.scheme }
    {
        self.params.scheme
    }

    /// How many servers together learn nothing: the degree of the queries' polynomials, and in the
    /// XOR scheme all but one.
    pub fn t(&self) -> u8
        ensures { result ≡ self.now.params.t }
    {
        self.params.t
    }

    /// How many answers have to agree: in the XOR scheme all.
    pub fn h(&self) -> u8
        ensures { result ≡ self.now.params.h }
    {
        self.params.h
    }

    /// The number of servers.
    pub fn n(&self) -> u8
        ensures { result ≡ self.now.params.n }
    {
        self.params.n
    }

    /// How many blocks were asked for: 1 in version 1.
    pub fn count(&self) -> u8
        ensures { result ≡ self.now.params.count }
    {
        self.params.count
    }

    /// The number of the session.
    pub fn session(&self) -> u64
        ensures { result ≡ self.now.params.session }
    {
        self.params.session
    }

    /// The number of rows of the database.
    pub fn r(&self) -> u32
        ensures { result ≡ self.now.params.r }
    {
        self.params.r
    }

    /// The width of a row, in bytes.
    pub fn s(&self) -> u32
        ensures { result ≡ self.now.params.s }
    {
        self.params.s
    }
}

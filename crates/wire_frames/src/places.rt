//! Where the fields of the headers stand. Readers, writers and definitions take each place from
//! here, so that a field that moves is moved here. Numbers of more bytes than one are big endian.
//!
//! The header of a query, and of an answer:
//!
//! | Places | Field |
//! |---|---|
//! | 0..3 | `PIRQ`, or of an answer `PIRA` |
//! | 4 | version |
//! | 5 | scheme |
//! | 6 | index |
//! | 7 | zero, or in version 2 the number of blocks; of an answer its status |
//! | 8..15 | session |
//! | 16..19 | rows |
//! | 20..23 | width |
//!
//! The header of a session:
//!
//! | Places | Field |
//! |---|---|
//! | 0..3 | `PIRS` |
//! | 4 | version |
//! | 5 | scheme |
//! | 6 | degree |
//! | 7 | agreement |
//! | 8 | servers |
//! | 9 | zero, or in version 2 the number of blocks |
//! | 10..11 | zero |
//! | 12..19 | session |
//! | 20..23 | rows |
//! | 24..27 | width |
//!
//! What stands before the bytes of a record in a session:
//!
//! | Places | Field |
//! |---|---|
//! | 0 | index |
//! | 1 | present |
//! | 2..5 | length |

pub(crate) const FRAME_MAGIC_PLACE: usize = 0;

pub(crate) const FRAME_VERSION_PLACE: usize = 4;

pub(crate) const FRAME_SCHEME_PLACE: usize = 5;

pub(crate) const FRAME_INDEX_PLACE: usize = 6;

pub(crate) const FRAME_STATUS_PLACE: usize = 7;

pub(crate) const FRAME_SESSION_PLACE: usize = 8;

pub(crate) const FRAME_ROWS_PLACE: usize = 16;

pub(crate) const FRAME_WIDTH_PLACE: usize = 20;

pub(crate) const SESSION_MAGIC_PLACE: usize = 0;

pub(crate) const SESSION_VERSION_PLACE: usize = 4;

pub(crate) const SESSION_SCHEME_PLACE: usize = 5;

pub(crate) const SESSION_DEGREE_PLACE: usize = 6;

pub(crate) const SESSION_AGREEMENT_PLACE: usize = 7;

pub(crate) const SESSION_SERVERS_PLACE: usize = 8;

pub(crate) const SESSION_COUNT_PLACE: usize = 9;

pub(crate) const SESSION_ZERO_PLACE: usize = 10;

pub(crate) const SESSION_NUMBER_PLACE: usize = 12;

pub(crate) const SESSION_ROWS_PLACE: usize = 20;

pub(crate) const SESSION_WIDTH_PLACE: usize = 24;

pub(crate) const RECORD_INDEX_PLACE: usize = 0;

pub(crate) const RECORD_PRESENT_PLACE: usize = 1;

pub(crate) const RECORD_LENGTH_PLACE: usize = 2;

//! Replays a recorded session: reads it from Input to its end, and judges it.
//!
//! Promised: the verdict is that of the session that Input held, all of which was read; bytes that are no session are
//! refused, with the length of their longest prefix that begins one, and no more than [`PIECE_LEN`] bytes past it are
//! read; nothing is read after a failed call; no port but Input is touched; and the steps of the verdict are counted,
//! and bounded.
//!
//! Not promised: that memory is found, or that Input ever answers.
#![tactic(auto)]

ghost use Rattle.std.specs.Prelude.{◌≡◌, ◌≤◌, length, vec_len, IfOk};
ghost use Rattle.port_trait.specs.Number.{INPUT};
ghost use Rattle.port_trait.specs.Moves.{Touches};
ghost use Rattle.block_decoder.specs.Numbers.{most_columns, most_nodes};
ghost use Rattle.replay.specs.Replayed.{ReadTo, Judged, JudgedWhole, Spells, ReplayCounts, FixesIn, CountsListed, CountsNone};

use block_decoder::{Report, Verdict, judge, judge_report};
use interpolation::Interpolate;
use port_trait::{Failed, Port, Ports};
use std::alloc::{AllocError, Global};
use std::sync::ledger::Ledger;
use thiserror::Error;
use uni_poly::steps::Steps;
use wire_frames::{BadSession, FeedFault, Session, SessionReader};

/// Why a recorded session is not judged.
#[derive(Clone, Copy, Debug, PartialEq, Eq, Error)]
pub enum ReplayFault {
    /// A call on Input failed.
    #[error("a call on the input failed")]
    ReadFault,
    /// Input holds no session: `place` is the length of the longest prefix of its bytes that begins some session.
    #[error("no session: wrong at byte {place}")]
    BadSession { place: u64 },
    /// Want of memory.
    #[error("no memory")]
    Memory,
}

impl From<FeedFault> for ReplayFault {
    ghost use Rattle.std.specs.Prelude.{◌≡◌};
    ghost use Rattle.replay.specs.Faults.{of_feed};

    ghost from_gives = { λ fault given. given ≡ of_feed fault };

    fn from(fault: FeedFault) -> ReplayFault {
        match fault {
            FeedFault::BadSession { place } => ReplayFault::BadSession { place },
            FeedFault::Memory => ReplayFault::Memory,
        }
    }
}

impl From<BadSession> for ReplayFault {
    ghost use Rattle.std.specs.Prelude.{◌≡◌};
    ghost use Rattle.replay.specs.Faults.{of_end};

    ghost from_gives = { λ fault given. given ≡ of_end fault };

    fn from(fault: BadSession) -> ReplayFault {
        ReplayFault::BadSession { place: fault.place }
    }
}

impl From<AllocError> for ReplayFault {
    ghost use Rattle.std.specs.Prelude.{◌≡◌};
    ghost use Rattle.replay.specs.declared.ReplayFault.TheVariants.{Memory};

    ghost from_gives = { λ _ fault. fault ≡ Memory };

    fn from(_fault: AllocError) -> ReplayFault {
        ReplayFault::Memory
    }
}

/// How many bytes of Input are taken at once, at most.
pub const PIECE_LEN: usize = 65536;

/// Reads Input to its end, or to the first piece that is refused, through the buffer.
fn read_pieces<P: Ports>(
    alloc: Global,
    ports: &mut P,
    buffer: &mut [u8],
) -> Result<Session, ReplayFault>
    requires { length buffer.old ≡ PIECE_LEN }
    ensures read { ReadTo Spells result (P.world ports.old) (P.world ports.new) }
    ensures all { IfOk result (λ session. length session.records ≡ session.params.n) }
    ensures others { Touches INPUT (P.world ports.old) (P.world ports.new) }
{
    let mut reader = SessionReader::new();
    'pieces: loop {
        match ports.take(Port::Input, buffer) {
            Ok(n) => {
                if n == 0 {
                    break;
                }
                reader.feed(alloc, &buffer[..n])?;
            }
            Err(Failed) => return Err(ReplayFault::ReadFault),
        }
    }
    Ok(reader.end()?)
}

/// Room for one piece.
fn piece_buffer(alloc: Global) -> Result<Vec<u8>, AllocError>
    ensures { IfOk result (λ buffer. vec_len buffer ≡ PIECE_LEN) }
{
    vec![in alloc; 0; PIECE_LEN]
}

/// Reads Input to its end, or to the first piece that is refused. The room for a piece is let go before the session is judged.
fn read_session<P: Ports>(alloc: Global, ports: &mut P) -> Result<Session, ReplayFault>
    ensures read { ReadTo Spells result (P.world ports.old) (P.world ports.new) }
    ensures all { IfOk result (λ session. length session.records ≡ session.params.n) }
    ensures others { Touches INPUT (P.world ports.old) (P.world ports.new) }
{
    let mut buffer = piece_buffer(alloc)?;
    read_pieces(alloc, ports, &mut buffer)
}

/// The verdict on the session that Input, already open, holds to its end. It is read in pieces of at most
/// [`PIECE_LEN`] bytes, and the first piece with a wrong byte ends the reading. Where the verdict takes an
/// interpolation with multiplicities, it is made in this `way`. `cols` and `nodes` count the steps of the verdict, as
/// in [`judge`]: the columns that are decoded, and the coefficients that are fixed in looking for roots.
///
/// # Errors
///
/// `ReadFault` only where the count of Input rose, and then what was read begins some session; `BadSession` exactly
/// where Input holds no session; `Memory` for want of memory, before more is read than the header of a session and
/// one piece, or when a whole session was read.
pub fn replay<I: Interpolate, C: Ledger, N: Ledger, P: Ports>(
    alloc: Global,
    way: &I,
    ports: &mut P,
    cols: &mut Steps<C>,
    nodes: &mut Steps<N>,
) -> Result<Verdict, ReplayFault>
    ensures replayed { ReadTo Judged result (P.world ports.old) (P.world ports.new) }
    ensures others { Touches INPUT (P.world ports.old) (P.world ports.new) }
    ensures cols { ReplayCounts most_columns ((P.world ports.old).at INPUT).holds cols.old cols.new }
    ensures nodes { ReplayCounts most_nodes ((P.world ports.old).at INPUT).holds nodes.old nodes.new }
    ensures unjudged { CountsNone result cols.old cols.new × CountsNone result nodes.old nodes.new }
    ensures least { cols.old ≤ cols.new }
    ensures least_nodes { nodes.old ≤ nodes.new }
    ensures listed { IfOk result (CountsListed ((P.world ports.old).at INPUT).holds cols.old cols.new) }
    ensures several { IfOk result (FixesIn ((P.world ports.old).at INPUT).holds nodes.old nodes.new) }
{
    let session = read_session(alloc, ports)?;
    Ok(judge(alloc, way, &session, cols, nodes)?)
}

/// The same, with the session that was read, and beside the verdict who agrees, as [`judge_report`] has it: `None` exactly in
/// the XOR scheme, or where the verdict isn't a listing. The steps are those of [`replay`].
///
/// # Errors
///
/// As [`replay`].
pub fn replay_report<I: Interpolate, C: Ledger, N: Ledger, P: Ports>(
    alloc: Global,
    way: &I,
    ports: &mut P,
    cols: &mut Steps<C>,
    nodes: &mut Steps<N>,
) -> Result<(Session, Verdict, Option<Report>), ReplayFault>
    ensures replayed { ReadTo JudgedWhole result (P.world ports.old) (P.world ports.new) }
    ensures all { IfOk result (λ found. length found.0.records ≡ found.0.params.n) }
    ensures others { Touches INPUT (P.world ports.old) (P.world ports.new) }
    ensures cols { ReplayCounts most_columns ((P.world ports.old).at INPUT).holds cols.old cols.new }
    ensures nodes { ReplayCounts most_nodes ((P.world ports.old).at INPUT).holds nodes.old nodes.new }
    ensures unjudged { CountsNone result cols.old cols.new × CountsNone result nodes.old nodes.new }
    ensures least { cols.old ≤ cols.new }
    ensures least_nodes { nodes.old ≤ nodes.new }
    ensures listed { IfOk result (λ found. CountsListed ((P.world ports.old).at INPUT).holds cols.old cols.new found.1) }
    ensures several { IfOk result (λ found. FixesIn ((P.world ports.old).at INPUT).holds nodes.old nodes.new found.1) }
{
    let session = read_session(alloc, ports)?;
    let (verdict, report) = judge_report(alloc, way, &session, cols, nodes)?;
    Ok((session, verdict, report))
}

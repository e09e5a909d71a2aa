//! The laws of the honest servers, each as a call whose contract is the law. A call changes nothing.

ghost use Rattle.std.specs.Prelude.{◌≡◌, ◌+◌, ◌<◌, length, All};
ghost use Rattle.wire_frames.specs.declared.scheme.TheConstants.{XOR};
ghost use Rattle.block_decoder.specs.Reported.{IsReportOn};
ghost use Rattle.block_decoder.specs.Verdict.{IsVerdict};
ghost use Rattle.fetch_client.specs.Honest.{AreQueryCoins, FindsHonestBlock, NamesLiarsIn};
ghost use Rattle.pir_tool.specs.Frames.{FramesAreUsable};

use block_decoder::{Report, Verdict};
use wire_frames::Session;

/// Where `h` or more of the usable answers of a session are those of honest servers that hold one matrix, a verdict that
/// lists blocks lists the row of the matrix that was asked for, and where `2h > k + t + tau`, for k usable answers, the
/// verdict lists it alone (Goldberg 2007). Where `tau` isn't 0, each of these servers holds its share of the matrix alone,
/// of degree `tau` and by whatever coins. The same where `h` or more of the records are the frames of such servers.
/// Whatever the servers did, where `h <= k` and `2h > k + t + tau` the verdict lists one block, or none. In the XOR scheme,
/// where `h` is `n` and `tau` is 0, the verdict lists the row alone where all `n` servers are honest (Chor, Goldreich,
/// Kushilevitz and Sudan 1995).
///
/// The queries are those of degree `t` by these coins for the rows `blocks`, which are as many as the session asks for, and
/// whose rows count as one: there are for each block `r * t` coins, or in the XOR scheme `(n - 1) * ceil(r / 8)`. The
/// degree of the session is `t + tau`.
pub fn honest_block_is_found(
    session: &Session,
    t: u8,
    tau: u8,
    coins: &[u8],
    blocks: &[u32],
    verdict: &Verdict,
)
    requires count { length blocks.now ≡ session.now.params.count }
    requires degree { session.now.params.t ≡ t + tau }
    requires held_whole { session.now.params.scheme ≡ XOR → tau ≡ 0 }
    requires coins { AreQueryCoins session.now.params t blocks.now coins.now }
    requires blocks { All (λ b. b < session.now.params.r) blocks.now }
    requires verdict { IsVerdict session.now verdict.now }
    ensures { FindsHonestBlock session.now t tau coins.now blocks.now verdict.now }
{
    // What holds of every session is told by its calls alone.
    session.params();
    session.record_count();
}

/// Where `2h > k + t + tau`, for k usable answers of which `h` or more are those of honest servers that hold one matrix, or
/// their shares of it, the report beside a listing has one agreement, on the rows that were asked for; and the servers that
/// it leaves out, which are named as liars, are exactly those whose usable answers are not what an honest server that holds
/// the matrix, or its share, answers to the query that it was sent. In the XOR scheme there is no report.
///
/// The queries are those of these coins, as for [`honest_block_is_found`]. `judged` has the verdict, and the report beside it,
/// as [`judge_report`](block_decoder::judge_report) gives both.
pub fn liars_are_named(
    session: &Session,
    t: u8,
    tau: u8,
    coins: &[u8],
    blocks: &[u32],
    judged: &(Verdict, Option<Report>),
)
    requires count { length blocks.now ≡ session.now.params.count }
    requires degree { session.now.params.t ≡ t + tau }
    requires coins { AreQueryCoins session.now.params t blocks.now coins.now }
    requires blocks { All (λ b. b < session.now.params.r) blocks.now }
    requires report { IsReportOn session.now judged.now.0 judged.now.1 }
    ensures { NamesLiarsIn session.now t tau coins.now blocks.now judged.now.1 }
{
    // What holds of every session is told by its calls alone.
    session.params();
    session.record_count();
}

/// Where `h` or more of the records of a session are, byte by byte, the frames in which honest servers answer that hold one
/// matrix, or their shares of it, so many of the usable answers are honest.
pub fn honest_frames_are_usable(session: &Session, t: u8, tau: u8, coins: &[u8], blocks: &[u32])
    requires { length blocks.now ≡ session.now.params.count }
    ensures { FramesAreUsable session.now t tau coins.now blocks.now }
{}

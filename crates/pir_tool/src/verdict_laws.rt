//! The laws of verdicts and of agreement, each as a call whose contract is the law. A call changes nothing.

ghost use Rattle.std.specs.Prelude.{◌≡◌, ◌+◌, ◌-◌, ◌*◌, ◌<◌, ◌≤◌, length};
ghost use Rattle.std.specs.List.Sorted.{IsStrictlyIncreasing};
ghost use Rattle.quantity_limits.specs.declared.TheConstants.{MOST_SERVERS};
ghost use Rattle.wire_frames.specs.Answer.{answers};
ghost use Rattle.block_decoder.specs.Agreed.{answers_of};
ghost use Rattle.block_decoder.specs.Numbers.{bound_of, most_lists};
ghost use Rattle.block_decoder.specs.Report.{IsReport};
ghost use Rattle.block_decoder.specs.Verdict.{IsDecided, IsVerdict, ListsAtMostOne};
ghost use Rattle.pir_tool.specs.Verdicts.{HasOneBlock, HasOneReport, HasOneVerdict, HasVerdict};

use block_decoder::{Report, Verdict};
use wire_frames::Session;

/// There is a verdict on each session, whatever its records are.
pub fn some_verdict(session: &Session)
    ensures { HasVerdict session.now }
{}

/// There is no other: any two verdicts on a session are equal. So what is said of the answers depends on the session
/// alone, and a session that is read again has the verdict that it had.
pub fn one_verdict(session: &Session)
    ensures { HasOneVerdict session.now }
{
    session.params();
}

/// There is no other report beside a verdict: so its text, too, depends on the session alone.
pub fn one_report(session: &Session, verdict: &Verdict)
    ensures { HasOneReport session.now verdict.now }
{
    session.params();
}

/// Where `2h > k + t`, two blocks on which `h` of k answers agree are one.
pub fn one_block_where_agreement_is_close(indices: &[u8], bytes: &[u8], t: u32, h: u32, s: u32)
    requires ascending { IsStrictlyIncreasing indices.now }
    requires fit { length bytes.now ≡ length indices.now * s }
    requires close { length indices.now + t < 2 * h }
    ensures { HasOneBlock (answers_of s indices.now bytes.now) s t h }
{}

/// Where `2h > k + t`, there is one agreement at most: so where a block is listed, its agreement is the only one.
pub fn one_agreement_where_it_is_close(
    indices: &[u8],
    bytes: &[u8],
    t: u32,
    h: u32,
    s: u32,
    report: &Report,
)
    requires ascending { IsStrictlyIncreasing indices.now }
    requires fit { length bytes.now ≡ length indices.now * s }
    requires close { length indices.now + t < 2 * h }
    requires report { IsReport (answers_of s indices.now bytes.now) s t h report.now }
    ensures { length report.now ≤ 1 }
{}

/// Where `h <= k` and `2h > k + t`, the verdict on k answers lists one block, or none, whatever the answers. There are
/// at most [`MOST_SERVERS`](wire_frames::MOST_SERVERS) of them; of more a list decoding could be too costly.
pub fn close_agreement_is_listed(
    indices: &[u8],
    bytes: &[u8],
    t: u32,
    h: u32,
    s: u32,
    verdict: &Verdict,
)
    requires ascending { IsStrictlyIncreasing indices.now }
    requires fit { length bytes.now ≡ length indices.now * s }
    requires few { length indices.now ≤ MOST_SERVERS }
    requires enough { h ≤ length indices.now }
    requires close { length indices.now + t < 2 * h }
    requires verdict { IsDecided (answers_of s indices.now bytes.now) s t h verdict.now }
    ensures { ListsAtMostOne verdict.now }
{}

/// Where `h <= k` and `2h > k + t`, the verdict on a session with k usable answers lists one block, or none, whatever
/// the servers did, in either scheme. In the XOR scheme, where `t + 1 = h = n`, the second follows from the first.
pub fn close_session_is_listed(session: &Session, verdict: &Verdict)
    requires enough { session.now.params.h ≤ length (answers session.now) }
    requires close { length (answers session.now) + session.now.params.t < 2 * session.now.params.h }
    requires verdict { IsVerdict session.now verdict.now }
    ensures { ListsAtMostOne verdict.now }
{
    session.params();
    session.record_count();
}

/// The count of lists that bounds the steps of [`decide`](block_decoder::decide), by numbers of answers that lie apart, is no greater
/// than one list for each block that can be agreed on and each number of answers from `h` to k.
pub fn lists_are_few(k: u32, t: u32, h: u32)
    requires redundant { t < h }
    requires agreement { h ≤ k }
    requires strong { k * t < h * h }
    ensures { most_lists k t h ≤ bound_of k t h * (k - h + 1) }
{}

//! The top call.

ghost use Rattle.commands.specs.Outcome.{AnswersSession, EndsAsOrdered, KeepsPromise, RefusesWords};
ghost use Rattle.commands.specs.Texts.{texts};

use crate::orders::{dispatch, order_of};
use crate::status::Status;
use pir_words::read_words;
use port_trait::Ports;
use std::alloc::Global;
use std::thread::Threads;

/// Does all that the program does, by its words.
///
/// `replay FILE` opens FILE as Input (`-` is standard input), judges the session that it holds, and writes the
/// verdict's text to Output. `fetch` reads coins, asks each server for its share of a block, records the session where
/// a file for it is named, and writes the verdict's text. With `--report` both write behind it which servers agree on
/// each block, and where there can be one block alone, which of them lied. `serve` loads a database, opens Door, writes `ready` to
/// Output, and serves its guests one after the other. `selfrun` draws a workload from a number, runs its servers and
/// the decoder in memory, and writes the verdict's text. `demo` starts this program as a child for each server, and
/// fetches a block from them. `lookup` reads coins, fetches a row in each turn of a binary search among rows that
/// ascend by their first bytes, and writes the row with a key, or that there is none. `split` loads a database, reads
/// coins, writes the share of each server to a file of its own, and then the numbers of servers, rows and their bytes.
/// `front` opens Door, writes `ready` to Output, and meets its guests one after the other, by asking for each the servers
/// over which the rows are spread.
///
/// The first three know both schemes: Shamir's sharing (Goldberg 2007), in which servers that lie or are silent can be
/// outvoted, and the XOR scheme (Chor, Goldreich, Kushilevitz and Sudan 1995), in which all servers have to answer, and
/// a lie isn't noticed. `selfrun`, `demo`, `lookup` and `front` take Shamir's, by which `split` shares a database too.
pub fn run<R: Threads + Sync, P: Ports>(
    rt: &R,
    alloc: Global,
    words: &[String],
    ports: &mut P,
) -> Status
    // Words without a form, and they alone, are refused, and nothing was touched.
    ensures words { RefusesWords (texts words.now) result (P.world ports.old) (P.world ports.new) }

    // Each status has its cause, and says what was read, sent and written.
    ensures outcome { EndsAsOrdered (texts words.now) result (P.world ports.old) (P.world ports.new) }

    // Where a replay is asked for, Input holds a session and no call failed, exactly the text of its verdict is written, and with
    // `--report` that of its report behind it, or memory ran out.
    ensures headline { AnswersSession (texts words.now) result (P.world ports.old) (P.world ports.new) }

    // What each command promises where no call failed.
    ensures promise { KeepsPromise (texts words.now) result (P.world ports.old) (P.world ports.new) }
{
    match read_words(alloc, words) {
        Ok(asked) => dispatch(rt, alloc, &order_of(&asked), ports),
        Err(fault) => fault.into(),
    }
}

//! The run to its end: what the program does, and what it then ends with.

ghost use Rattle.commands.specs.Ending.{EndsAsRun};
ghost use Rattle.commands.specs.Texts.{texts};

use crate::running::run;
use crate::status::{Ending, Status, ending_of};
use port_trait::Ports;
use std::alloc::Global;
use std::thread::Threads;

/// Does what [`run`] does, and says what the run came to, and what the program then ends with: the exit code and the line of
/// that status.
pub fn ending_of_run<R: Threads + Sync, P: Ports>(
    rt: &R,
    alloc: Global,
    words: &[String],
    ports: &mut P,
) -> (Status, Ending)
    ensures { EndsAsRun (texts words.now) result.0 result.1 (P.world ports.old) (P.world ports.new) }
{
    let status = run(rt, alloc, words, ports);
    (status, ending_of(&status))
}

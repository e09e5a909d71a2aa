//! The top call.

ghost use Rattle.std.specs.Prelude.{map, string_bytes};
ghost use Rattle.list_tool.specs.Run.{EndsAs, IsInRange, RunsList};

use crate::build_command::order_for;
use crate::check_command::{CheckListFault, check_list};
use crate::fault::FindFault;
use crate::find::find_in_list;
use crate::looked::Looked;
use list_builds::{BuildFault, Built, build_list};
use list_checks::Tally;
use list_words::{Asked, WordsFault, read_words};
use port_trait::Ports;
use std::alloc::Global;

/// What a run came to.
#[derive(Drop)]
pub enum ListEnd {
    /// The words give no command; nothing was touched.
    Words(WordsFault),
    /// Help was asked for: this text. Nothing was touched.
    Help(String),
    /// The version was asked for: this text. Nothing was touched.
    Version(String),
    /// What `build` answered.
    Built(Result<Built, BuildFault>),
    /// What `find` answered.
    Found(Result<Looked, FindFault>),
    /// What `check` answered.
    Checked(Result<Tally, CheckListFault>),
}

/// Does what is asked for.
fn run_asked<P: Ports>(alloc: Global, asked: Asked, ports: &mut P) -> ListEnd
    requires { IsInRange asked }
    ensures { EndsAs asked.entry result (P.world ports.old) (P.world ports.new) }
{
    match asked {
        Asked::Build(build) => ListEnd::Built(build_list(alloc, ports, &order_for(build))),
        Asked::Find(find) => ListEnd::Found(find_in_list(alloc, &find, ports)),
        Asked::Check(check) => ListEnd::Checked(check_list(alloc, &check, ports)),
        Asked::Help(text) => ListEnd::Help(text),
        Asked::Version(text) => ListEnd::Version(text),
    }
}

/// Does all that the program `pir_list` does, by its words, which come without its name. Only help and the version are left
/// to the caller to print.
pub fn run_list<P: Ports>(alloc: Global, words: &[String], ports: &mut P) -> ListEnd
    ensures { RunsList (map string_bytes words.now) result (P.world ports.old) (P.world ports.new) }
{
    match read_words(alloc, words) {
        Ok(asked) => run_asked(alloc, asked, ports),
        Err(fault) => ListEnd::Words(fault),
    }
}

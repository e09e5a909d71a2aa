//! The words of `replay`.

ghost use Rattle.pir_words.specs.Numbers.{given};
ghost use Rattle.pir_words.specs.ReplayForm.{replay_of};
ghost use Rattle.pir_words.specs.Form.{IsReadAs};

use crate::asked::{Asked, WordsFault};
use crate::command::{Form, Kind};
use crate::values::{flag_at, owned_at};
use clap::ArgMatches;
use std::alloc::Global;

/// `replay FILE`; `--report` may be left out.
pub(crate) const FORM: Form<'static> = Form {
    name: "replay",
    arguments: &[("report", Kind::Flag), ("file", Kind::Operand)],
};

/// `replay` with its file, and whether a report is wanted.
#[tactic(auto, unfolding(crate::specs::ReplayForm::replay_of))]
pub fn read_replay(alloc: Global, matches: &ArgMatches) -> Result<Asked, WordsFault>
    ensures { IsReadAs (replay_of (given matches.now)) result }
{
    let file = owned_at(alloc, matches, "file")?;
    let report = flag_at(matches, "report");
    Ok(Asked::Replay { file, report })
}

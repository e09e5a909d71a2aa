//! The words of `selfrun`.

ghost use Rattle.pir_words.specs.Numbers.{given};
ghost use Rattle.pir_words.specs.SelfrunForm.{selfrun_of};
ghost use Rattle.pir_words.specs.Form.{IsReadAs};

use crate::asked::{Asked, WordsFault};
use crate::command::{Form, Kind};
use crate::ranges::{servers_at, sharing_at, sizes_at, workers_at};
use crate::values::{flag_at, limited_at, number_at};
use clap::ArgMatches;

/// `selfrun --seed SEED --rows R --width S --servers N --degree T --agree H --liars V`.
/// What may be left out: `--workers W` (1) and `--slow`.
pub(crate) const FORM: Form<'static> = Form {
    name: "selfrun",
    arguments: &[
        ("seed", Kind::Required),
        ("rows", Kind::Required),
        ("width", Kind::Required),
        ("servers", Kind::Required),
        ("degree", Kind::Required),
        ("agree", Kind::Required),
        ("liars", Kind::Required),
        ("workers", Kind::Optional),
        ("slow", Kind::Flag),
    ],
};

/// `selfrun` with its values, each in its range.
#[tactic(auto, unfolding(crate::specs::SelfrunForm::selfrun_of))]
pub fn read_selfrun(matches: &ArgMatches) -> Result<Asked, WordsFault>
    ensures { IsReadAs (selfrun_of (given matches.now)) result }
{
    let Some(seed) = number_at(matches, "seed") else {
        return Err(WordsFault::Usage);
    };
    let Some(sizes) = sizes_at(matches) else {
        return Err(WordsFault::Usage);
    };
    let Some(servers) = servers_at(matches) else {
        return Err(WordsFault::Usage);
    };
    let Some(sharing) = sharing_at(matches, servers) else {
        return Err(WordsFault::Usage);
    };
    let Some(liars) = limited_at(matches, "liars", 0, servers as u32) else {
        return Err(WordsFault::Usage);
    };
    let Some(workers) = workers_at(matches) else {
        return Err(WordsFault::Usage);
    };
    Ok(Asked::Selfrun {
        seed,
        rows: sizes.rows,
        width: sizes.width,
        servers,
        degree: sharing.degree,
        agree: sharing.agree,
        liars: liars as u8,
        workers,
        slow: flag_at(matches, "slow"),
    })
}

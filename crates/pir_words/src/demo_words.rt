//! The words of `demo`.

ghost use Rattle.pir_words.specs.Numbers.{given};
ghost use Rattle.pir_words.specs.DemoForm.{demo_of};
ghost use Rattle.pir_words.specs.Form.{IsReadAs};

use crate::asked::{Asked, WordsFault};
use crate::command::{Form, Kind};
use crate::ranges::{block_at, coins_at, servers_at, sharing_at, sizes_at};
use crate::values::{limited_at, owned_at};
use crate::{LEAST_PORT, MOST_PORT};
use clap::ArgMatches;
use std::alloc::Global;

/// `demo --port P --database FILE --rows R --width S --block B --servers N --degree T --agree H`;
/// `--coins FILE` (`/dev/urandom`) may be left out.
pub(crate) const FORM: Form<'static> = Form {
    name: "demo",
    arguments: &[
        ("port", Kind::Required),
        ("database", Kind::Required),
        ("rows", Kind::Required),
        ("width", Kind::Required),
        ("block", Kind::Required),
        ("servers", Kind::Required),
        ("degree", Kind::Required),
        ("agree", Kind::Required),
        ("coins", Kind::Optional),
    ],
};

/// `demo` with its values, each in its range.
#[tactic(auto, unfolding(crate::specs::DemoForm::demo_of))]
pub fn read_demo(alloc: Global, matches: &ArgMatches) -> Result<Asked, WordsFault>
    ensures { IsReadAs (demo_of (given matches.now)) result }
{
    let Some(port) = limited_at(matches, "port", LEAST_PORT as u32, MOST_PORT as u32) else {
        return Err(WordsFault::Usage);
    };
    let Some(sizes) = sizes_at(matches) else {
        return Err(WordsFault::Usage);
    };
    let Some(block) = block_at(matches, sizes.rows) else {
        return Err(WordsFault::Usage);
    };
    let Some(servers) = servers_at(matches) else {
        return Err(WordsFault::Usage);
    };
    let Some(sharing) = sharing_at(matches, servers) else {
        return Err(WordsFault::Usage);
    };
    let database = owned_at(alloc, matches, "database")?;
    let coins = coins_at(alloc, matches)?;
    Ok(Asked::Demo {
        port: port as u16,
        database,
        rows: sizes.rows,
        width: sizes.width,
        block,
        servers,
        degree: sharing.degree,
        agree: sharing.agree,
        coins,
    })
}

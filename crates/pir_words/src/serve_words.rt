//! The words of `serve`.

ghost use Rattle.pir_words.specs.Numbers.{given};
ghost use Rattle.pir_words.specs.ServeForm.{serve_of};
ghost use Rattle.pir_words.specs.Form.{IsReadAs};

use crate::asked::{Asked, WordsFault};
use crate::command::{Form, Kind};
use crate::ranges::{conns_at, scheme_at, width_at, workers_at};
use crate::values::owned_at;
use clap::ArgMatches;
use std::alloc::Global;

/// `serve --database FILE --width S --conns GUESTS --listen ADDR`.
/// What may be left out: `--scheme shamir` or `--scheme xor` (`shamir`), and `--workers W` (1).
pub(crate) const FORM: Form<'static> = Form {
    name: "serve",
    arguments: &[
        ("database", Kind::Required),
        ("width", Kind::Required),
        ("conns", Kind::Required),
        ("listen", Kind::Required),
        ("scheme", Kind::Optional),
        ("workers", Kind::Optional),
    ],
};

/// `serve` with its values, each in its range.
#[tactic(auto, unfolding(crate::specs::ServeForm::serve_of))]
pub fn read_serve(alloc: Global, matches: &ArgMatches) -> Result<Asked, WordsFault>
    ensures { IsReadAs (serve_of (given matches.now)) result }
{
    let Some(width) = width_at(matches) else {
        return Err(WordsFault::Usage);
    };
    let Some(conns) = conns_at(matches) else {
        return Err(WordsFault::Usage);
    };
    let Some(scheme) = scheme_at(matches) else {
        return Err(WordsFault::Usage);
    };
    let Some(workers) = workers_at(matches) else {
        return Err(WordsFault::Usage);
    };
    let database = owned_at(alloc, matches, "database")?;
    let listen = owned_at(alloc, matches, "listen")?;
    Ok(Asked::Serve {
        scheme: scheme.number(),
        database,
        width,
        conns,
        listen,
        workers,
    })
}

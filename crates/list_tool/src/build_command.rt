//! The command `build`.

ghost use Rattle.std.specs.Prelude.{◌≡◌};
ghost use Rattle.list_builds.specs.Order.{IsOrder};
ghost use Rattle.list_tool.specs.BuildWords.{order_for, values_for};

use list_builds::{BuildOrder, Values};
use list_words::Build;

/// What the lines of a list say beside keys, by the words: whether they have values, and how many bytes those may have.
fn values_for(values: bool, value_bytes: Option<usize>) -> Values
    ensures { result ≡ values_for values value_bytes }
{
    match (values, value_bytes) {
        (false, _) => Values::Absent,
        (true, None) => Values::UpToLongest,
        (true, Some(most)) => Values::UpTo(most),
    }
}

/// How the words tell to build a list.
pub(crate) fn order_for<'a>(build: Build<'a>) -> BuildOrder<'a>
    requires { IsOrder build.digest_bytes (values_for build.values build.value_bytes) build.rows }
    ensures { result ≡ order_for build.entry }
{
    BuildOrder {
        digest: build.digest_bytes,
        values: values_for(build.values, build.value_bytes),
        rows: build.rows,
        keys: build.keys,
        coins: build.coins,
        database: build.database,
        catalog: build.catalog,
    }
}

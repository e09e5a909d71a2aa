//! What words can ask for: the commands, what reads the values of each, and why words give none.

ghost use Rattle.std.specs.Prelude.{◌≡◌, IfOk};
ghost use Rattle.clap.specs.Words.{app_of};
ghost use Rattle.pir_words.specs.Numbers.{given};
ghost use Rattle.pir_words.specs.Form.{InRange, IsReadAs, asked_by, pir};

use crate::blocks::Blocks;
use crate::command::{Form, pir_with};
use crate::demo_words::{self, read_demo};
use crate::fetch_words::{self, read_fetch};
use crate::front_words::{self, read_front};
use crate::lookup_words::{self, read_lookup};
use crate::replay_words::{self, read_replay};
use crate::selfrun_words::{self, read_selfrun};
use crate::serve_words::{self, read_serve};
use crate::split_words::{self, read_split};
use crate::text::{Text, Texts};
use clap::error::ErrorKind;
use clap::{ArgMatches, Command};
use key_search::{Key, KeyFault};
use std::alloc::{AllocError, Global};
use thiserror::Error;

/// A command with its values.
#[derive(Drop)]
pub enum Asked {
    /// Judge the session that a file holds.
    Replay {
        /// The file's name; `-` is standard input.
        file: Text,
        /// Whether it is said who agrees, and who lied.
        report: bool,
    },
    /// Fetch a block of a database that several servers hold, or several in one query.
    Fetch {
        /// The scheme's number: 1, Shamir's, or 2, the XOR scheme.
        scheme: u8,
        /// How many rows the database has.
        rows: u32,
        /// How many bytes a row has.
        width: u32,
        /// The rows to fetch, counted from 0.
        blocks: Blocks,
        /// The degree t: so many servers together learn nothing; in the XOR scheme all but one.
        degree: u8,
        /// The degree in which the database is shared: so many servers together can't read it; 0 where each holds
        /// the whole of it, as in the XOR scheme.
        tau: u8,
        /// How many answers have to agree; in the XOR scheme all.
        agree: u8,
        /// The file that random bytes come from.
        coins: Text,
        /// The file in which the session is kept, if it is.
        keep: Option<Text>,
        /// Whether it is said who agrees, and who lied.
        report: bool,
        /// The address of each server.
        addresses: Texts,
    },
    /// Serve a database to guests, one after the other.
    Serve {
        /// The scheme's number: 1, Shamir's, or 2, the XOR scheme.
        scheme: u8,
        /// The file of the database.
        database: Text,
        /// How many bytes a row has.
        width: u32,
        /// After so many guests the server ends.
        conns: u32,
        /// The address that guests come to.
        listen: Text,
        /// How many workers share the work on an answer.
        workers: u8,
    },
    /// Fetch a block of a database that a seed gives from servers in memory, in Shamir's scheme.
    Selfrun {
        /// The seed of all that is random.
        seed: u64,
        /// How many rows the database has.
        rows: u32,
        /// How many bytes a row has.
        width: u32,
        /// How many servers there are.
        servers: u8,
        /// The degree t: so many servers together learn nothing.
        degree: u8,
        /// How many answers have to agree.
        agree: u8,
        /// How many servers, the last ones, answer random bytes.
        liars: u8,
        /// How many workers share the work on an answer.
        workers: u8,
        /// Whether the decoder interpolates by elimination, which is the slower way to the same lists.
        slow: bool,
    },
    /// Fetch a block of a database from servers that are started for it, in Shamir's scheme.
    Demo {
        /// Server i, counted from 1, listens at the port that is greater by i.
        port: u16,
        /// The file of the database.
        database: Text,
        /// How many rows the database has.
        rows: u32,
        /// How many bytes a row has.
        width: u32,
        /// The row to fetch, counted from 0.
        block: u32,
        /// How many servers there are.
        servers: u8,
        /// The degree t: so many servers together learn nothing.
        degree: u8,
        /// How many answers have to agree.
        agree: u8,
        /// The file that random bytes come from.
        coins: Text,
    },
    /// Look up a row by its key in a database that several servers hold, in Shamir's scheme.
    Lookup {
        /// How many rows the database has.
        rows: u32,
        /// How many bytes a row has.
        width: u32,
        /// The first bytes of the row that is looked for.
        key: Key,
        /// The degree t: so many servers together learn nothing.
        degree: u8,
        /// How many answers have to agree.
        agree: u8,
        /// The file that random bytes come from.
        coins: Text,
        /// The address of each server.
        addresses: Texts,
    },
    /// Split a database into a share for each server, in a file of its own.
    Split {
        /// The file of the database.
        database: Text,
        /// How many bytes a row has.
        width: u32,
        /// How many servers there are.
        servers: u8,
        /// So many servers together can't read the database.
        tau: u8,
        /// What the names of the shares' files begin with: a dot follows, and the index of the server, from 1 on.
        into: Text,
        /// The file that random bytes come from.
        coins: Text,
    },
    /// Serve a database whose rows lie on several servers, its shards, to guests, one after the other, in Shamir's scheme.
    Front {
        /// How many rows the database has.
        rows: u32,
        /// How many bytes a row has.
        width: u32,
        /// How many rows lie on each shard but the last, on which the rest lie.
        shard: u32,
        /// After so many guests the front ends.
        conns: u32,
        /// The address that guests come to.
        listen: Text,
        /// The address of each shard.
        addresses: Texts,
    },
}

/// The commands of `pir`, in the order in which they are told of.
const COMMANDS: &[Form<'static>] = &[
    replay_words::FORM,
    fetch_words::FORM,
    serve_words::FORM,
    selfrun_words::FORM,
    demo_words::FORM,
    lookup_words::FORM,
    split_words::FORM,
    front_words::FORM,
];

/// The command of this name, with the values that the matches have for its arguments.
#[tactic(auto, unfolding(crate::specs::Form::asked_by))]
pub(crate) fn read_command(
    alloc: Global,
    name: &str,
    matches: &ArgMatches,
) -> Result<Asked, WordsFault>
    ensures form { IsReadAs (asked_by name.now (given matches.now)) result }
    ensures ranges { IfOk result InRange }
{
    match name {
        "replay" => read_replay(alloc, matches),
        "fetch" => read_fetch(alloc, matches),
        "serve" => read_serve(alloc, matches),
        "selfrun" => read_selfrun(matches),
        "demo" => read_demo(alloc, matches),
        "lookup" => read_lookup(alloc, matches),
        "split" => read_split(alloc, matches),
        "front" => read_front(alloc, matches),
        _ => Err(WordsFault::Usage),
    }
}

/// `pir` with its commands. The words come without the program's name.
pub fn pir_command<'a>(alloc: Global) -> Result<Command<'a>, AllocError>
    ensures { IfOk result (λ c. app_of c ≡ pir) }
{
    pir_with(alloc, COMMANDS)
}

/// The form of the command of this name. What each takes stands over its form, in the module that reads its words.
pub fn form_named(name: &str) -> Option<Form<'static>> {
    for form in COMMANDS {
        if form.name == name {
            return Some(*form);
        }
    }
    None
}

/// Why words give no command.
#[derive(Clone, Copy, Debug, PartialEq, Eq, Error)]
pub enum WordsFault {
    /// The words have no form.
    #[error("the words have no form")]
    Usage,
    /// Memory is short.
    #[error("no memory")]
    Memory,
}

impl From<AllocError> for WordsFault {
    ghost use Rattle.std.specs.Prelude.{◌≡◌};
    ghost use Rattle.pir_words.specs.declared.asked.WordsFault.TheVariants.{Memory};

    ghost from_gives = { λ _ fault. fault ≡ Memory };

    fn from(_error: AllocError) -> WordsFault {
        WordsFault::Memory
    }
}

/// What a text that isn't read as a key comes to.
impl From<KeyFault> for WordsFault {
    ghost use Rattle.std.specs.Prelude.{◌≡◌};
    ghost use Rattle.pir_words.specs.Form.{fault_of_key};

    ghost from_gives = { λ fault given. given ≡ fault_of_key fault };

    fn from(fault: KeyFault) -> WordsFault {
        match fault {
            KeyFault::NotHex => WordsFault::Usage,
            KeyFault::TooLong { .. } => WordsFault::Usage,
            KeyFault::Memory => WordsFault::Memory,
        }
    }
}

/// What a parse that doesn't end with matches comes to.
impl From<clap::Error> for WordsFault {
    ghost use Rattle.std.specs.Prelude.{◌≡◌};
    ghost use Rattle.clap.specs.Words.{kind_of};
    ghost use Rattle.pir_words.specs.Form.{fault_by};

    ghost from_gives = { λ error fault. fault ≡ fault_by (kind_of error) };

    fn from(error: clap::Error) -> WordsFault {
        match error.kind() {
            ErrorKind::OutOfMemory => WordsFault::Memory,
            _ => WordsFault::Usage,
        }
    }
}

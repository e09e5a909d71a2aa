//! The words of `pir_list`, read to a command.
//!
//! Promised: words give a command with its values exactly where `clap` takes them by the commands that are built
//! here, and each number is in its range, no address is empty, and of the files of `build` for keys, database and
//! catalog no two have one name;
//! else what is wrong with them, or help or the version where they ask for it; want of memory aside.
//!
//! Not promised: what help and the sentences of `clap` say, and that a file or an address is one.
#![tactic(auto)]

mod address_list;
mod amount;
mod asked;
mod command;
mod commands;
mod fault;
mod read;
mod values;

pub use address_list::addresses;
pub use amount::Amount;
pub use asked::{Asked, Build, Check, Find};
pub use command::list_command;
pub use fault::{BuildFile, ValueFault, WordsFault};
pub use read::read_words;

/// How many bytes a digest has where the words don't say it.
pub const USUAL_DIGEST: usize = 16;

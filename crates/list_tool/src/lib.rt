//! What the program `pir_list` does for each of its commands, over ports that tell what goes in and out.
//!
//! Promised: [`run_list`] does exactly what the words ask for: a list is built, keys are looked up in one, or a database is
//! checked; words that give no command touch nothing. [`find_in_list`] reads a catalog and keys, asks the servers for the
//! rows of the keys, and writes for each key whether the list has it; or it says why not, and has written nothing, or a
//! prefix of the text where a call on Output failed. Each answer comes exactly by what was read and answered.
//! [`exit_code`] is a table.
//!
//! Not promised: that memory is found, that a port ever answers, or what the sentences say.
#![tactic(auto)]

mod asking;
mod build_command;
mod catalog_file;
mod check_command;
mod check_text;
mod fault;
mod find;
mod keys_file;
mod looked;
mod options;
mod pending;
mod run;
mod said;
mod status;
mod table;
mod text;
mod too_few;

pub use catalog_file::load_catalog;
pub use check_command::{CheckListFault, check_list};
pub use fault::{FindFault, LoadFault};
pub use find::find_in_list;
pub use looked::Looked;
pub use run::{ListEnd, run_list};
pub use said::sentence;
pub use status::exit_code;
pub use text::ValueText;

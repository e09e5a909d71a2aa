//! Tests of lists of keys: their lines through ports in memory, the words of `pir_list`, checks of a list's table, and keys
//! that are found in a list whose table three servers in memory hold. The worked lists serve other tests too.
//! They stand in a crate of their own because a crate is proved once more for its tests.
#![tactic(auto)]

#[cfg(test)]
mod checks;
#[cfg(test)]
mod finds;
#[cfg(test)]
mod keys;
#[cfg(test)]
mod lines;
#[cfg(test)]
mod words;
pub mod worked;

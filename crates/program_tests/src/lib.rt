//! Tests of the crates of the program: one happy path of each public call of the decoder, the replay, the client, the
//! searches by key, the words and the run, the decoder beside its plain program, and the texts of faults. They stand in a
//! crate of their own because a crate is proved once more for its tests. What goes through the run stands as cases in
//! `pir_cases`.
#![tactic(auto)]

#[cfg(test)]
mod agreed_blocks;
#[cfg(test)]
mod asked_way;
#[cfg(test)]
mod keys;
#[cfg(test)]
mod one_fetch;
#[cfg(test)]
mod one_replay;
#[cfg(test)]
mod one_run;
pub mod plain_blocks;
#[cfg(test)]
mod searches;

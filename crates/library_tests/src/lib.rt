//! Tests of the calls for programs in other languages: worked queries, verdicts and liars, recorded sessions, and keys in a
//! worked row of a list. They stand in a crate of their own because a crate is proved once more for its tests.
#![tactic(auto)]

#[cfg(test)]
mod keys;
#[cfg(test)]
mod queries;
#[cfg(test)]
mod replays;
#[cfg(test)]
mod verdicts;

//! Tests of the way from a list of keys to its database and its catalog, through ports in memory.
//! They stand in a crate of their own because a crate is proved once more for its tests.
#![tactic(auto)]

#[cfg(test)]
mod builds;

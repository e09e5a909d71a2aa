//! Tests of the table of a list, of looking in its rows, and of its catalog, by worked rows that an independent program made.
//! They stand in a crate of their own because a crate is proved once more for its tests.
#![tactic(auto)]

#[cfg(test)]
mod catalogs;
#[cfg(test)]
mod rows;
#[cfg(test)]
mod tables;

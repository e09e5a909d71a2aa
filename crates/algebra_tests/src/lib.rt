//! Tests of the crates of algebra: the field, polynomials in one and in two variables, systems of equations, and list
//! decoding. They stand in a crate of their own because a crate is proved once more for its tests.
#![tactic(auto)]

#[cfg(test)]
mod close_columns;
#[cfg(test)]
mod field;
#[cfg(test)]
mod interpolants;
#[cfg(test)]
mod lists;
#[cfg(test)]
mod plain_runs;
#[cfg(test)]
mod plans;
#[cfg(test)]
mod polynomials;
#[cfg(test)]
mod roots;
#[cfg(test)]
mod rows;
#[cfg(test)]
mod runs;
#[cfg(test)]
mod systems;
#[cfg(test)]
mod two_variables;

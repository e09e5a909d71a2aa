//! Tests of the crates through which bytes come and go: ports in memory and of the system, frames and sessions, and the
//! file of a database. They stand in a crate of their own because a crate is proved once more for its tests.
#![tactic(auto)]

#[cfg(test)]
mod databases;
#[cfg(test)]
mod frames;
#[cfg(test)]
mod guests;
#[cfg(test)]
mod names;
#[cfg(test)]
mod ports;
#[cfg(test)]
mod sessions;
#[cfg(test)]
mod system;
#[cfg(test)]
mod texts;

//! Tests of the crates of the two schemes and of the servers: queries and bitmaps, a server's product and answer, the
//! coins of another block, databases in shares, and how guests are met at a desk and at a front over shards. They stand in
//! a crate of their own because a crate is proved once more for its tests.
#![tactic(auto)]

#[cfg(test)]
mod bitmaps;
#[cfg(test)]
mod desks;
#[cfg(test)]
mod fronts;
#[cfg(test)]
mod gates;
#[cfg(test)]
mod matrices;
#[cfg(test)]
mod partners;
#[cfg(test)]
mod products;
#[cfg(test)]
mod queries;
#[cfg(test)]
mod several;
#[cfg(test)]
mod shares;

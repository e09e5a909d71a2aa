//! The words of the command line.

use anyhow::{Context, Result};
use std::env::Args;
use std::error::Error;
use std::str::FromStr;

/// The next word as a number. What it is for is said where it is lacking.
pub fn next_number<N: FromStr>(words: &mut Args, what: &'static str) -> Result<N>
where
    N::Err: Error,
{
    let word = words.next().context(what)?;
    Ok(word.as_str().parse::<N>()?)
}

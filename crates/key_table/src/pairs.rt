//! The pairs of a list in memory, in the order in which they were given.

ghost use Rattle.std.specs.Prelude.{◌≡◌, ◌≢◌, ◌≤◌, ◌<◌, length, ◌++◌, ◌∷◌, [], All, IfOk, IfErr, true, false};
ghost use Rattle.key_table.specs.Entry.{HasSizes};
ghost use Rattle.key_table.specs.Held.{AreStarts, pairs_of, text_of};
ghost use Rattle.key_table.specs.Looked.{pair};
ghost use Rattle.key_table.specs.Numbered.{pairs_at};
ghost use Rattle.key_table.specs.Places.{digest_at, has_same_digest, place_cmp, value_at};
ghost use Rattle.key_table.specs.declared.TheConstants.{LEAST_DIGEST, MOST_DIGEST, MOST_VALUE};

use crate::place::Place;
use std::alloc::{AllocError, Global};
use std::cmp::Ordering;
use std::marker::Model;

/// Pairs of a digest and a value, without an allocation for each.
#[derive(Drop)]
pub(crate) struct Pairs {
    /// How many bytes a digest has.
    size: usize,
    /// The digest of each pair, and its value behind it.
    bytes: Vec<u8>,
    /// Where the bytes of each pair start.
    starts: Vec<usize>,
}

impl Model for Pairs {
    ghost use Rattle.key_table.specs.Held.{Held, AreStarts, pairs_of};

    ghost Value = { Held };

    ghost view = { λ p. record { size = p.size; pairs = pairs_of p.size p.bytes.items p.starts.items } };

    ghost invariant = { λ p. AreStarts p.size p.bytes.items p.starts.items };
}

/// The bytes of a pair.
fn text_in<'a>(size: usize, bytes: &'a [u8], starts: &[usize], place: usize) -> &'a [u8]
    requires place { place < length starts.now }
    requires starts { AreStarts size bytes.now starts.now }
    ensures text { result.now ≡ text_of bytes.now starts.now place }
    ensures size { size ≤ length result.now }
{
    let end = if place + 1 < starts.len() {
        starts[place + 1]
    } else {
        bytes.len()
    };
    &bytes[starts[place]..end]
}

/// The digest of a pair: no byte where there is no pair.
fn digest_in<'a>(size: usize, bytes: &'a [u8], starts: &[usize], place: usize) -> &'a [u8]
    requires { AreStarts size bytes.now starts.now }
    ensures { result.now ≡ digest_at (pairs_of size bytes.now starts.now) place }
{
    if place >= starts.len() {
        return &bytes[..0];
    }
    let (digest, _) = text_in(size, bytes, starts, place).split_at(size);
    digest
}

/// The value of a pair: no byte where there is no pair.
fn value_in<'a>(size: usize, bytes: &'a [u8], starts: &[usize], place: usize) -> &'a [u8]
    requires { AreStarts size bytes.now starts.now }
    ensures { result.now ≡ value_at (pairs_of size bytes.now starts.now) place }
{
    if place >= starts.len() {
        return &bytes[..0];
    }
    let (_, value) = text_in(size, bytes, starts, place).split_at(size);
    value
}

/// Writes a digest and its value behind the others, or leaves all as it was.
fn append(
    bytes: &mut Vec<u8>,
    starts: &mut Vec<usize>,
    digest: &[u8],
    value: &[u8],
) -> Result<(), AllocError>
    requires digest { length digest.now ≤ MOST_DIGEST }
    requires value { length value.now ≤ MOST_VALUE }
    ensures added { IfOk result (λ _. (bytes.new.items ≡ bytes.old.items ++ (digest.now ++ value.now))
        × (starts.new.items ≡ starts.old.items ++ length bytes.old.items ∷ [])) }
    ensures same { IfErr result (λ _. (bytes.new.items ≡ bytes.old.items) × (starts.new.items ≡ starts.old.items)) }
{
    bytes.reserve(digest.len() + value.len())?;
    starts.push(bytes.len())?;
    bytes.extend_from_slice(digest)?;
    bytes.extend_from_slice(value)?;
    Ok(())
}

impl Pairs {
    /// No pair yet, of digests of `size` bytes.
    pub(crate) fn new(alloc: Global, size: usize) -> Pairs
        requires least { LEAST_DIGEST ≤ size }
        requires most { size ≤ MOST_DIGEST }
        ensures { result ≡ record { size = size; pairs = [] } }
    {
        Pairs {
            size,
            bytes: Vec::new(alloc),
            starts: Vec::new(alloc),
        }
    }

    /// No pair yet, of digests of as many bytes.
    fn new_beside(&self) -> Pairs
        ensures { result ≡ record { size = self.now.size; pairs = [] } }
    {
        Pairs {
            size: self.size,
            bytes: Vec::new(*self.bytes.allocator()),
            starts: Vec::new(*self.bytes.allocator()),
        }
    }

    /// The pairs at these places, in this order.
    pub(crate) fn copied(&self, places: &[Place]) -> Result<Pairs, AllocError>
        requires { All (HasSizes self.now.size MOST_VALUE) (pairs_at self.now.pairs places.now) }
        ensures { IfOk result (λ copy. copy ≡ record { size = self.now.size; pairs = pairs_at self.now.pairs places.now }) }
    {
        let mut copy = self.new_beside();
        for i in 0..places.len() {
            let place = places[i].place;
            copy.add(self.digest(place), self.value(place))?;
        }
        Ok(copy)
    }

    /// How many bytes a digest has.
    pub(crate) fn size(&self) -> usize
        ensures { result ≡ self.now.size }
    {
        self.size
    }

    /// How many pairs there are.
    pub(crate) fn len(&self) -> usize
        ensures { result ≡ length self.now.pairs }
    {
        self.starts.as_slice().len()
    }

    /// The digest at a place: no byte where there is no pair.
    pub(crate) fn digest(&self, place: u32) -> &[u8]
        ensures { result.now ≡ digest_at self.now.pairs place }
    {
        digest_in(
            self.size,
            self.bytes.as_slice(),
            self.starts.as_slice(),
            place as usize,
        )
    }

    /// The value at a place: no byte where there is no pair.
    pub(crate) fn value(&self, place: u32) -> &[u8]
        ensures { result.now ≡ value_at self.now.pairs place }
    {
        value_in(
            self.size,
            self.bytes.as_slice(),
            self.starts.as_slice(),
            place as usize,
        )
    }

    /// One more pair. Where there is no memory all stays as it was.
    pub(crate) fn add(&mut self, digest: &[u8], value: &[u8]) -> Result<(), AllocError>
        requires digest { length digest.now ≡ self.old.size }
        requires value { length value.now ≤ MOST_VALUE }
        ensures added { IfOk result (λ _. self.new ≡ record {
          size = self.old.size;
          pairs = self.old.pairs ++ pair digest.now value.now ∷ [];
        }) }
        ensures same { IfErr result (λ _. self.new ≡ self.old) }
    {
        append(&mut self.bytes, &mut self.starts, digest, value)
    }

    /// Which of two places comes first: by their digests, and where these are the same by the places.
    #[tactic(auto, unfolding(crate::specs::Places::place_cmp))]
    pub(crate) fn compare(&self, one: u32, other: u32) -> Ordering
        ensures { result ≡ place_cmp self.now.pairs one other }
    {
        self.digest(one)
            .cmp(self.digest(other))
            .then(one.cmp(&other))
    }

    /// Whether two places have one digest.
    pub(crate) fn has_same_digest(&self, one: u32, other: u32) -> bool
        ensures { result ≡ has_same_digest self.now.pairs one other }
    {
        self.digest(one).cmp(self.digest(other)).is_eq()
    }

    /// Whether two places have one value.
    pub(crate) fn has_same_value(&self, one: u32, other: u32) -> bool
        ensures yes { result ≡ true → value_at self.now.pairs one ≡ value_at self.now.pairs other }
        ensures no { result ≡ false → value_at self.now.pairs one ≢ value_at self.now.pairs other }
    {
        self.value(one) == self.value(other)
    }
}

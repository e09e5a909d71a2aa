//! Blocks in ascending order, each once.

ghost use Rattle.std.specs.Prelude.{◌≡◌, ◌==◌, [], ◌∷◌, length, map, IfOk, OnOk, OnErr, slice_get, option_map};
ghost use Rattle.std.specs.Cmp.Lexicographic.{slice_cmp};
ghost use Rattle.std.specs.List.Sorted.{IsStrictlySortedBy, IsSearchInRange, IsBinarySearchResult};
ghost use Rattle.std.specs.Ordering.{nat_cmp};
ghost use Rattle.block_decoder.specs.Gains.{Gains};

use std::alloc::{AllocError, Global};
use std::marker::Model;

/// Blocks in strictly ascending order as byte strings, so that each stands once. Contracts see the list of the
/// blocks, each as the list of its bytes.
#[derive(Drop)]
pub struct Listing {
    blocks: Vec<Vec<u8>>,
}

impl Model for Listing {
    ghost use Rattle.std.specs.Prelude.{ℕ, List, map};
    ghost use Rattle.std.specs.Cmp.Lexicographic.{slice_cmp};
    ghost use Rattle.std.specs.List.Sorted.{IsStrictlySortedBy};
    ghost use Rattle.std.specs.Ordering.{nat_cmp};

    ghost Value = { List (List ℕ) };

    ghost view = { λ l. map (λ b. b.items) l.blocks.items };

    ghost invariant = { λ l. IsStrictlySortedBy (slice_cmp nat_cmp) (map (λ b. b.items) l.blocks.items) };
}

impl Listing {
    /// No block yet. It takes no memory.
    pub fn new(alloc: Global) -> Listing
        ensures { result ≡ [] }
    {
        Listing {
            blocks: Vec::new(alloc),
        }
    }

    /// One block, which is not copied. Memory is taken for the list.
    ///
    /// # Errors
    ///
    /// `AllocError` where there is none.
    pub(crate) fn of_one(alloc: Global, block: Vec<u8>) -> Result<Listing, AllocError>
        ensures { IfOk result (λ l. l ≡ block.items ∷ []) }
    {
        let blocks = vec![in alloc; block]?;
        Ok(Listing { blocks })
    }

    /// Puts the block in its place, where it is not there yet; it is not copied.
    ///
    /// # Errors
    ///
    /// `AllocError` where there is no memory for a longer list; the listing is as it was.
    pub fn insert(&mut self, block: Vec<u8>) -> Result<(), AllocError>
        ensures ascending { IsStrictlySortedBy (slice_cmp nat_cmp) self.new }
        ensures ok { OnOk result (Gains (λ b. b ≡ block.items) self.old self.new) }
        ensures err { OnErr result (self.new ≡ self.old) }
    {
        match place_of(&self.blocks, &block) {
            Ok(_) => Ok(()),
            Err(place) => {
                self.blocks.insert(place, block)?;
                Ok(())
            }
        }
    }

    /// How many blocks there are.
    pub fn len(&self) -> usize
        ensures count { result ≡ length self.now }
        ensures ascending { IsStrictlySortedBy (slice_cmp nat_cmp) self.now }
    {
        self.blocks.len()
    }

    /// Whether there is no block.
    pub fn is_empty(&self) -> bool
        ensures { result ≡ (length self.now == 0) }
    {
        self.blocks.is_empty()
    }

    /// The block at place `i` of the ascending order, counted from 0; `None` past the last.
    pub fn get(&self, i: usize) -> Option<&[u8]>
        ensures block { option_map (λ b. b.now) result ≡ slice_get self.now i }
        ensures ascending { IsStrictlySortedBy (slice_cmp nat_cmp) self.now }
    {
        match self.blocks.get(i) {
            Some(block) => Some(block.as_slice()),
            None => None,
        }
    }

    /// All blocks, in ascending order.
    pub fn blocks(&self) -> &[Vec<u8>]
        ensures all { map (λ b. b.items) result.now ≡ self.now }
        ensures ascending { IsStrictlySortedBy (slice_cmp nat_cmp) self.now }
    {
        &self.blocks
    }
}

/// Where the block is, or else where it goes.
fn place_of(blocks: &[Vec<u8>], block: &[u8]) -> Result<usize, usize>
    ensures range { IsSearchInRange result (length blocks.now) }
    ensures place { IsBinarySearchResult (λ b. slice_cmp nat_cmp b.items block.now) blocks.now result }
{
    blocks.binary_search_by(
        |b|
            ensures { result ≡ slice_cmp nat_cmp b.now.items block.entry.now }
        { b.as_slice().cmp(block) },
    )
}

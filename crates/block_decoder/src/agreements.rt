//! Who agrees: blocks, each with the servers whose answers agree on it.

ghost use Rattle.std.specs.Prelude.{◌≡◌, ◌+◌, ◌≤◌, [], length, IfOk, OnOk, OnErr};
ghost use Rattle.std.specs.Cmp.Lexicographic.{slice_cmp};
ghost use Rattle.std.specs.List.Sorted.{IsStrictlySortedBy, IsSearchInRange, IsBinarySearchResult};
ghost use Rattle.std.specs.Ordering.{nat_cmp};
ghost use Rattle.block_decoder.specs.Gains.{Gains};
ghost use Rattle.block_decoder.specs.Report.{agreement_cmp, HasBlocks, IsAgreementOf};

use crate::answer_set::AnswerSet;
use crate::listing::Listing;
use std::alloc::{AllocError, Global};
use std::cmp::Ordering;
use std::marker::Model;

/// A block on which enough answers agree, with the numbers of all servers whose answers agree on it.
#[derive(Drop)]
pub struct Agreement {
    block: Vec<u8>,
    indices: Vec<u8>,
}

impl Model for Agreement {
    ghost use Rattle.block_decoder.specs.Report.{Agreement as Agreeing};

    ghost Value = { Agreeing };

    ghost view = { λ a. record { block = a.block.items; indices = a.indices.items } };
}

impl Agreement {
    /// The block, which is copied, and the numbers of these servers.
    pub(crate) fn new(
        alloc: Global,
        block: &[u8],
        agreeing: &AnswerSet<'_>,
    ) -> Result<Self, AllocError>
        ensures { IfOk result (IsAgreementOf block.now agreeing.now) }
    {
        let indices = agreeing.indices(alloc)?;
        let block = Vec::from_slice(alloc, block)?;
        Ok(Agreement { block, indices })
    }

    /// The block.
    pub fn block(&self) -> &[u8]
        ensures { result.now ≡ self.now.block }
    {
        &self.block
    }

    /// The numbers of the servers, ascending where the answers were.
    pub fn indices(&self) -> &[u8]
        ensures { result.now ≡ self.now.indices }
    {
        &self.indices
    }

    /// The block alone, which is not copied.
    fn into_block(self) -> Vec<u8>
        ensures { result.items ≡ self.block }
    {
        self.block
    }

    /// Whether it comes before the other, by its block, and where these are one by its servers, both as byte strings.
    fn compare(&self, other: &Agreement) -> Ordering
        ensures { result ≡ agreement_cmp self.now other.now }
    {
        let blocks = self.block.as_slice().cmp(other.block());
        blocks.then(self.indices.as_slice().cmp(other.indices()))
    }
}

/// Agreements in strictly ascending order, by their blocks and then by their servers, both as byte strings, so that each
/// stands once. Contracts see the list of them.
#[derive(Drop)]
pub struct Report {
    agreements: Vec<Agreement>,
}

impl Model for Report {
    ghost use Rattle.std.specs.Prelude.{List};
    ghost use Rattle.std.specs.List.Sorted.{IsStrictlySortedBy};
    ghost use Rattle.block_decoder.specs.Report.{Agreement as Agreeing, agreement_cmp};

    ghost Value = { List Agreeing };

    ghost view = { λ r. r.agreements.items };

    ghost invariant = { λ r. IsStrictlySortedBy agreement_cmp r.agreements.items };
}

impl Report {
    /// No agreement yet. It takes no memory.
    pub(crate) fn new(alloc: Global) -> Report
        ensures { result ≡ [] }
    {
        Report {
            agreements: Vec::new(alloc),
        }
    }

    /// Puts the agreement of these answers on the block in its place, where it is not there yet.
    ///
    /// # Errors
    ///
    /// `AllocError` where there is no memory for it; the report is as it was.
    pub(crate) fn add(
        &mut self,
        alloc: Global,
        block: &[u8],
        agreeing: &AnswerSet<'_>,
    ) -> Result<(), AllocError>
        requires { IsStrictlySortedBy agreement_cmp self.old }
        ensures ascending { IsStrictlySortedBy agreement_cmp self.new }
        ensures one { length self.new ≤ length self.old + 1 }
        ensures ok { OnOk result (Gains (IsAgreementOf block.now agreeing.now) self.old self.new) }
        ensures err { OnErr result (self.new ≡ self.old) }
    {
        self.insert(Agreement::new(alloc, block, agreeing)?)
    }

    /// Puts the agreement in its place, where it is not there yet.
    fn insert(&mut self, agreement: Agreement) -> Result<(), AllocError>
        ensures ascending { IsStrictlySortedBy agreement_cmp self.new }
        ensures one { length self.new ≤ length self.old + 1 }
        ensures ok { OnOk result (Gains (λ a. a ≡ agreement) self.old self.new) }
        ensures err { OnErr result (self.new ≡ self.old) }
    {
        match place_of(&self.agreements, &agreement) {
            Ok(_) => Ok(()),
            Err(place) => {
                self.agreements.insert(place, agreement)?;
                Ok(())
            }
        }
    }

    /// All agreements, in ascending order.
    pub fn agreements(&self) -> &[Agreement]
        ensures all { result.now ≡ self.now }
        ensures ascending { IsStrictlySortedBy agreement_cmp self.now }
    {
        &self.agreements
    }

    /// The agreements alone, which are not copied.
    fn into_agreements(self) -> Vec<Agreement>
        ensures { result.items ≡ self }
    {
        self.agreements
    }

    /// The blocks, each once, which are not copied.
    ///
    /// # Errors
    ///
    /// `AllocError` where there is no memory for their list.
    pub(crate) fn into_listing(self, alloc: Global) -> Result<Listing, AllocError>
        ensures ascending { IfOk result (IsStrictlySortedBy (slice_cmp nat_cmp)) }
        ensures blocks { IfOk result (λ l. HasBlocks l self) }
    {
        let mut listing = Listing::new(alloc);
        for agreement in self.into_agreements() {
            listing.insert(agreement.into_block())?;
        }
        Ok(listing)
    }

    /// The blocks, each once, which are copied.
    ///
    /// # Errors
    ///
    /// `AllocError` where there is no memory for them.
    pub(crate) fn to_listing(&self, alloc: Global) -> Result<Listing, AllocError>
        ensures ascending { IfOk result (IsStrictlySortedBy (slice_cmp nat_cmp)) }
        ensures blocks { IfOk result (λ l. HasBlocks l self.now) }
    {
        let mut listing = Listing::new(alloc);
        for agreement in &self.agreements {
            listing.insert(Vec::from_slice(alloc, agreement.block())?)?;
        }
        Ok(listing)
    }
}

/// Where the agreement is, or else where it goes.
fn place_of(agreements: &[Agreement], agreement: &Agreement) -> Result<usize, usize>
    ensures range { IsSearchInRange result (length agreements.now) }
    ensures place { IsBinarySearchResult (λ a. agreement_cmp a agreement.now) agreements.now result }
{
    agreements.binary_search_by(
        |a|
            ensures { result ≡ agreement_cmp a.now agreement.entry.now }
        { a.compare(agreement) },
    )
}

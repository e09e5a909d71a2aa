//! The servers that have a database, and how many of them are to be trusted.

ghost use Rattle.std.specs.Prelude.{◌≡◌, ◌<◌, IfSome, length, map, option_map, string_bytes};
ghost use Rattle.list_catalog.specs.Serving.{CanServe, checked, empty_place, with_options};

use crate::fault::ServersFault;
use crate::member::Member;
use quantity_limits::{LEAST_SERVERS, MOST_SERVERS};
use std::marker::Model;

/// Servers that have a database, and how they are asked. Contracts see what is said of them.
///
/// There are 2 to 255 of them, none with an empty address, and `1 <= degree < agree <=` their number.
#[derive(Drop)]
pub struct Servers {
    addresses: Vec<String>,
    degree: u8,
    agree: u8,
}

impl Model for Servers {
    ghost use Rattle.std.specs.Prelude.{map};
    ghost use Rattle.std.specs.String.{string_bytes};
    ghost use Rattle.list_catalog.specs.Serving.{Serving, CanServe};

    ghost Value = { Serving };

    ghost view = { λ s. record { addresses = map string_bytes s.addresses.items; degree = s.degree; agree = s.agree } };

    ghost invariant = { λ s. CanServe (map string_bytes s.addresses.items) s.degree s.agree };
}

/// The place of the first address that is empty, where one is.
fn empty_place(addresses: &[String]) -> Option<usize>
    ensures first { result ≡ empty_place (map string_bytes addresses.now) }
    ensures within { IfSome result (λ place. place < length addresses.now) }
{
    for (place, address) in addresses.iter().enumerate() {
        if address.is_empty() {
            return Some(place);
        }
    }
    None
}

impl Servers {
    /// These servers, of which `degree` together learn nothing, and `agree` have to agree.
    ///
    /// # Errors
    ///
    /// The first of these: `Count` where there are not 2 to 255 addresses, `Empty` with the place, from 1, of the first
    /// address that is empty, `NoDegree` where the degree is 0, `TooWeak` where the agreement is not above the degree,
    /// `TooStrong` where it is above the number of addresses.
    #[tactic(auto, unfolding(crate::specs::Serving::checked))]
    pub fn new(addresses: Vec<String>, degree: u8, agree: u8) -> Result<Servers, ServersFault>
        ensures { result ≡ checked (map string_bytes addresses.items) degree agree }
    {
        let count = addresses.len();
        if count < LEAST_SERVERS as usize || count > MOST_SERVERS as usize {
            return Err(ServersFault::Count { count });
        }
        if let Some(place) = empty_place(&addresses) {
            return Err(ServersFault::Empty { place: place + 1 });
        }
        if degree == 0 {
            return Err(ServersFault::NoDegree);
        }
        if agree <= degree {
            return Err(ServersFault::TooWeak { agree, degree });
        }
        if agree as usize > count {
            return Err(ServersFault::TooStrong { agree, count });
        }
        Ok(Servers {
            addresses,
            degree,
            agree,
        })
    }

    /// Where each server is.
    pub fn addresses(&self) -> &[String]
        ensures value { map string_bytes result.now ≡ self.now.addresses }
        ensures rules { CanServe self.now.addresses self.now.degree self.now.agree }
    {
        self.addresses.as_slice()
    }

    /// How many servers together learn nothing.
    pub fn degree(&self) -> u8
        ensures { result ≡ self.now.degree }
    {
        self.degree
    }

    /// How many answers have to agree.
    pub fn agree(&self) -> u8
        ensures { result ≡ self.now.agree }
    {
        self.agree
    }
}

/// What is said of servers: addresses, degree and agreement, each perhaps.
type Said = (Option<Vec<String>>, Option<u8>, Option<u8>);

/// What is said of the servers of a catalog.
fn said_of(servers: Option<Servers>) -> Said
    ensures addresses { option_map (λ v. map string_bytes v.items) result.0 ≡ option_map (λ s. s.addresses) servers }
    ensures degree { result.1 ≡ option_map (λ s. s.degree) servers }
    ensures agree { result.2 ≡ option_map (λ s. s.agree) servers }
{
    match servers {
        Some(
            Servers {
                addresses,
                degree,
                agree,
            },
        ) => (Some(addresses), Some(degree), Some(agree)),
        None => (None, None, None),
    }
}

/// The servers of a catalog, where it has some, with what options say in place of what it says.
///
/// # Errors
///
/// `Missing` with the first of addresses, degree and agreement that neither says, else as [`Servers::new`] of what
/// results.
#[tactic(auto, unfolding(crate::specs::Serving::with_options))]
pub fn with_options(
    servers: Option<Servers>,
    addresses: Option<Vec<String>>,
    degree: Option<u8>,
    agree: Option<u8>,
) -> Result<Servers, ServersFault>
    ensures { result ≡ with_options servers (option_map (λ v. map string_bytes v.items) addresses) degree agree }
{
    let (own_addresses, own_degree, own_agree) = said_of(servers);
    let Some(addresses) = addresses.or(own_addresses) else {
        return Err(ServersFault::Missing(Member::Addresses));
    };
    let Some(degree) = degree.or(own_degree) else {
        return Err(ServersFault::Missing(Member::Degree));
    };
    let Some(agree) = agree.or(own_agree) else {
        return Err(ServersFault::Missing(Member::Agree));
    };
    Servers::new(addresses, degree, agree)
}

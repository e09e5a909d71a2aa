//! What a look-up asks for, and of whom.

ghost use Rattle.std.specs.Prelude.{◌≡◌, ◌≤◌, length, map, string_bytes};
ghost use Rattle.wire_frames.specs.declared.scheme.TheConstants.{SHAMIR};
ghost use Rattle.query_rounds.specs.Plan.{IsPlan};
ghost use Rattle.key_fetches.specs.KeyRequest.{key_request};

use fetch_client::FetchPlan;
use key_search::Key;
use std::marker::Model;

/// The plan of each fetch of a look-up, in Shamir's sharing (Goldberg 2007), the key of the row that is looked for, and the
/// address of each server, in the order of their indices.
#[derive(Drop)]
pub struct KeyRequest<'a> {
    pub(crate) plan: FetchPlan,
    pub(crate) key: &'a Key,
    pub(crate) addresses: &'a [String],
}

impl<'a> Model for KeyRequest<'a> {
    ghost use Rattle.std.specs.Prelude.{map, string_bytes};
    ghost use Rattle.key_fetches.specs.KeyRequest.{IsKeyRequest, KeyRequest};

    ghost Value = { KeyRequest };

    ghost view = { λ r. record { plan = r.plan; key = r.key.now; addresses = map string_bytes r.addresses.now } };

    ghost invariant = { λ r.
        IsKeyRequest (record { plan = r.plan; key = r.key.now; addresses = map string_bytes r.addresses.now }) };
}

impl<'a> KeyRequest<'a> {
    /// A request for the row that begins with the key, which is at most as long as a row.
    pub fn new(plan: &FetchPlan, key: &'a Key, addresses: &'a [String]) -> KeyRequest<'a>
        requires plan { IsPlan plan.now }
        requires shamir { plan.now.scheme ≡ SHAMIR }
        requires key { length key.now ≤ plan.now.s }
        requires addresses { length addresses.now ≡ plan.now.n }
        ensures { result ≡ key_request plan.now key.now (map string_bytes addresses.now) }
    {
        KeyRequest {
            plan: *plan,
            key,
            addresses,
        }
    }
}

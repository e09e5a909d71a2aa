//! The law of a shared database, as a call whose contract is the law. The call does nothing when it
//! runs.

ghost use Rattle.std.specs.Prelude.{◌≡◌, ◌≢◌, ◌≤◌, length, All};
ghost use Rattle.share_db.specs.Partner.{PartnerIsAlike, PartnerIsBijection};

/// A coalition of at most `tau` servers can't read the database: for any two databases of one size
/// a bijection of the coins makes the share that each member holds of the one that which it holds
/// of the other (Shamir 1979; Goldberg 2007).
pub fn coalition_reads_no_database(tau: u32, from: &[u8], to: &[u8], coalition: &[u8])
    requires shape { length to.now ≡ length from.now }
    requires bound { length coalition.now ≤ tau }
    requires nonzero { All (λ a. a ≢ 0) coalition.now }
    ensures bijection { PartnerIsBijection from.now to.now tau coalition.now }
    ensures same_shares { PartnerIsAlike from.now to.now tau coalition.now }
{}

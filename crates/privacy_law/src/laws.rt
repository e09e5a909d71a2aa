//! The laws of privacy, each as a call whose contract is the law. A call does nothing when it runs.

ghost use Rattle.std.specs.Prelude.{◌≢◌, ◌*◌, ◌<◌, ◌≤◌, length, All};
ghost use Rattle.privacy_law.specs.Alike.{PartnerIsAlike, PartnerXorIsAlike};
ghost use Rattle.privacy_law.specs.Bijection.{IsBijection};
ghost use Rattle.privacy_law.specs.Partner.{bitmap_coins, partner, partner_xor};

/// A coalition of at most `t` servers isn't shown which of two blocks is asked for: a bijection of
/// the coins makes what each member is sent for the one block what it is sent for the other (Shamir
/// 1979; Goldberg 2007).
pub fn coalition_sees_no_block(t: u32, r: u32, coalition: &[u8], b: u32, b2: u32)
    requires bound { length coalition.now ≤ t }
    requires nonzero { All (λ a. a ≢ 0) coalition.now }
    ensures bijection { IsBijection (r * t) (λ coins. partner coins t coalition.now b b2) }
    ensures same_queries { PartnerIsAlike t r coalition.now b b2 }
{}

/// In the XOR scheme all of `n` servers but one aren't shown which of two blocks is asked for: a
/// bijection of the coins makes what each is sent for the one block what it is sent for the other
/// (Chor, Goldreich, Kushilevitz and Sudan 1995).
pub fn all_but_one_see_no_block(n: u32, r: u32, left_out: u8, b: u32, b2: u32)
    requires first { 1 ≤ left_out }
    requires last { left_out ≤ n }
    requires block { b < r }
    requires other { b2 < r }
    ensures bijection { IsBijection (bitmap_coins n r) (λ coins. partner_xor coins n r left_out b b2) }
    ensures same_bitmaps { PartnerXorIsAlike n r left_out b b2 }
{}

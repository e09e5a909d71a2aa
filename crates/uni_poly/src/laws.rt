//! The laws of polynomials, each as a call whose contract is the law. A call does nothing when it
//! runs.

ghost use Rattle.std.specs.Prelude.{◌≡◌, ◌≢◌, ◌↔◌, ◌≤◌, ◌+◌, length, All, AllPairs, Contains, sum};
ghost use Rattle.std.specs.List.{AllZip};
ghost use Rattle.gf256.specs.Field.{◌⊗◌};
ghost use Rattle.gf256.specs.Polynomial.{val};
ghost use Rattle.uni_poly.specs.Coefficients.{IsZero, IsSame, IsSum, HasDegreeBelow};
ghost use Rattle.uni_poly.specs.Product.{product, vanishing, HasFactor};
ghost use Rattle.uni_poly.specs.Taylor.{VanishesAt};

/// The product commutes.
pub fn product_commutes(p: &[u8], q: &[u8])
    ensures { IsSame (product p.now q.now) (product q.now p.now) }
{}

/// The product associates.
pub fn product_associates(p: &[u8], q: &[u8], r: &[u8])
    ensures { IsSame (product (product p.now q.now) r.now) (product p.now (product q.now r.now)) }
{}

/// The product distributes over a sum.
pub fn product_distributes(p: &[u8], q: &[u8], r: &[u8], sum: &[u8])
    requires { IsSum sum.now q.now r.now }
    ensures { IsSum (product p.now sum.now) (product p.now q.now) (product p.now r.now) }
{}

/// The value of a product is the product of the values.
pub fn value_of_a_product(p: &[u8], q: &[u8], a: u8)
    ensures { val (product p.now q.now) a ≡ val p.now a ⊗ val q.now a }
{}

/// A nonzero polynomial of degree at most `degree` has at most `degree` roots.
pub fn roots_are_few(p: &[u8], degree: usize, roots: &[u8])
    requires nonzero { ¬ IsZero p.now }
    requires bounded { HasDegreeBelow p.now (degree + 1) }
    requires zeros { All (λ a. val p.now a ≡ 0) roots.now }
    requires distinct { AllPairs (λ a b. a ≢ b) roots.now }
    ensures { length roots.now ≤ degree }
{}

/// A nonzero polynomial of degree at most `degree` has at most `degree` roots, each counted with
/// its multiplicity, that at its place in `multiplicities`.
pub fn roots_with_multiplicities_are_few(
    p: &[u8],
    degree: usize,
    roots: &[u8],
    multiplicities: &[u32],
)
    requires nonzero { ¬ IsZero p.now }
    requires bounded { HasDegreeBelow p.now (degree + 1) }
    requires zeros { AllZip (VanishesAt p.now) roots.now multiplicities.now }
    requires distinct { AllPairs (λ a b. a ≢ b) roots.now }
    ensures { sum multiplicities.now ≤ degree }
{}

/// Two polynomials of degree below the number of points at which they agree are the same.
pub fn interpolation_is_unique(p: &[u8], q: &[u8], xs: &[u8])
    requires p_bounded { HasDegreeBelow p.now (length xs.now) }
    requires q_bounded { HasDegreeBelow q.now (length xs.now) }
    requires agree { All (λ x. val p.now x ≡ val q.now x) xs.now }
    requires distinct { AllPairs (λ x y. x ≢ y) xs.now }
    ensures { IsSame p.now q.now }
{}

/// A polynomial vanishes at `a` with multiplicity `m` exactly where `(x - a)^m` divides it.
pub fn multiplicity_counts_factors(p: &[u8], a: u8, m: u32)
    ensures { VanishesAt p.now a m ↔ HasFactor p.now a m }
{}

/// The roots of a vanishing polynomial are the members from which it is made.
pub fn vanishing_roots_are_the_members(xs: &[u8], a: u8)
    ensures { (val (vanishing xs.now) a ≡ 0) ↔ Contains xs.now a }
{}

//! The laws of the fields of the table.

ghost use Rattle.std.specs.Prelude.{◌≡◌, ◌≢◌, ℕ, ◌+◌, ◌*◌, ◌%◌, ◌^◌, ◌<◌};
ghost use Rattle.linear_algebra.specs.Field.{Gf, order, degree, characteristic, add, mul, neg, inv, power};

/// The order q of a field is the power of its characteristic p by its degree e.
#[tactic(auto, using(crate::proofs::PrimeFields::order_is_power))]
pub fn order_is_power()
    ensures { (q : Gf) → order q ≡ characteristic q ^ degree q }
{}

/// In a field of p elements sums and products are those of numbers modulo p.
#[tactic(auto, using(crate::proofs::PrimeFields::prime_add, crate::proofs::PrimeFields::prime_mul))]
pub fn prime_field_is_modular()
    ensures sums { (q : Gf) (a b : ℕ) → degree q ≡ 1 → add q a b ≡ (a + b) % order q }
    ensures products { (q : Gf) (a b : ℕ) → degree q ≡ 1 → mul q a b ≡ (a * b) % order q }
{}

/// Each field of the table is a field: sums and products are associative and commutative, products distribute over sums,
/// 0 and 1 are neutral, each element has a negative, and each element other than 0 has an inverse. The laws hold for all
/// numbers, but for those that say what an element is: an element is a number below the order.
#[tactic(auto, using(crate::proofs::FieldAxioms::axioms))]
pub fn field_axioms()
    ensures sums_associate { (q : Gf) (a b c : ℕ) → add q (add q a b) c ≡ add q a (add q b c) }
    ensures sums_commute { (q : Gf) (a b : ℕ) → add q a b ≡ add q b a }
    ensures zero_is_neutral { (q : Gf) (a : ℕ) → a < order q → add q a 0 ≡ a }
    ensures negatives { (q : Gf) (a : ℕ) → add q a (neg q a) ≡ 0 }
    ensures products_associate { (q : Gf) (a b c : ℕ) → mul q (mul q a b) c ≡ mul q a (mul q b c) }
    ensures products_commute { (q : Gf) (a b : ℕ) → mul q a b ≡ mul q b a }
    ensures one_is_neutral { (q : Gf) (a : ℕ) → a < order q → mul q a 1 ≡ a }
    ensures one_is_not_zero { (q : Gf) → 1 < order q }
    ensures inverses { (q : Gf) (a : ℕ) → a < order q → a ≢ 0 → mul q a (inv q a) ≡ 1 }
    ensures distributes { (q : Gf) (a b c : ℕ) → mul q a (add q b c) ≡ add q (mul q a b) (mul q a c) }
    ensures sums_are_elements { (q : Gf) (a b : ℕ) → add q a b < order q }
    ensures products_are_elements { (q : Gf) (a b : ℕ) → mul q a b < order q }
    ensures negatives_are_elements { (q : Gf) (a : ℕ) → neg q a < order q }
    ensures inverses_are_elements { (q : Gf) (a : ℕ) → inv q a < order q }
{}

/// The Frobenius map: p-th powers are additive, and each element is its own q-th power.
#[tactic(auto, using(crate::proofs::FieldPowers::frobenius_laws))]
pub fn frobenius()
    ensures powers_add { (q : Gf) (a b : ℕ) → power q (add q a b) (characteristic q) ≡ add q (power q a (characteristic q)) (power q b (characteristic q)) }
    ensures elements_are_fixed { (q : Gf) (a : ℕ) → power q a (order q) ≡ a % order q }
{}

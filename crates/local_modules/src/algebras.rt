//! The laws of finite-dimensional algebras over a field of the table, of their ideals and of their residue rings. Chapters are those of
//! Assem, Simson, Skowroński, volume 1.

ghost use Rattle.std.specs.Prelude.{◌≡◌, ◌≢◌, ◌<◌, ◌≤◌, ◌+◌, ◌*◌, ◌⊎◌, ℕ};
ghost use Rattle.linear_algebra.specs.Field.{Gf, order};
ghost use Rattle.linear_algebra.specs.Matrix.{Mat, zeros, one, ◌⊞◌, ◌⊟◌, ◌⊙◌, ◌·◌};
ghost use Rattle.linear_algebra.specs.Parts.{row, unit};
ghost use Rattle.linear_algebra.specs.Rank.{IsInSpan, RankFactorisation};
ghost use Rattle.linear_algebra.specs.LinearMaps.{matrix_of};
ghost use Rattle.linear_algebra.specs.RowForm.{IsRowReduced};
ghost use Rattle.local_modules.specs.Algebra.{Algebra, Element, power_in, product_in, IsUnitIn, IsNilpotentIn, IsMixed};
ghost use Rattle.local_modules.specs.Ideal.{IsTwoSided, PowerVanishes, IsLeastPower, IsGeneratedWith, IsFrobeniusField, IsListedDivisionRing};
ghost use Rattle.local_modules.specs.Residue.{ResidueRing};

/// A one-sided inverse in a finite-dimensional algebra is two-sided; 1 − x is invertible where x is nilpotent; and each element is invertible,
/// nilpotent, or neither, where it is decided which. (Chapter I, 1 and 4.)
pub fn invertible_and_nilpotent_elements()
    ensures one_sided { (q : Gf) (A : Algebra q) (x y : Element A) → A.product x y ≡ A.unit → A.product y x ≡ A.unit }
    ensures one_minus_nilpotent { (q : Gf) (A : Algebra q) (x : Element A) → IsNilpotentIn A x → IsUnitIn A (A.unit ⊟ x) }
    ensures nilpotent_is_not_invertible { (q : Gf) (A : Algebra q) → A.unit ≢ zeros q 1 A.size → (x : Element A) → IsNilpotentIn A x → IsUnitIn A x → ⊥ }
    ensures kinds { (q : Gf) (A : Algebra q) (x : Element A) → IsUnitIn A x ⊎ IsNilpotentIn A x ⊎ IsMixed A x }
{}

/// The residue ring modulo a two-sided ideal exists; its coordinates stand at the places that are no pivots of the ideal in reduced row form. A class
/// is invertible or nilpotent where an element of it is, and the other way round where some power of the ideal is zero. (Chapter I, 1.)
pub fn residue_rings()
    ensures exists { (q : Gf) (A : Algebra q) (k : ℕ) (I : Mat q k A.size) → IsTwoSided A I → ResidueRing A I }
    ensures no_pivot { (q : Gf) (A : Algebra q) (k : ℕ) (I : Mat q k A.size) (pivot : ℕ → ℕ) → IsRowReduced I pivot → (R : ResidueRing A I) (i j : ℕ) → i < k → j < R.ring.size → pivot i ≢ R.place j }
    ensures all_places { (q : Gf) (A : Algebra q) (k : ℕ) (I : Mat q k A.size) (pivot : ℕ → ℕ) → IsRowReduced I pivot → (R : ResidueRing A I) → k + R.ring.size ≡ A.size }
    ensures invertible { (q : Gf) (A : Algebra q) (k : ℕ) (I : Mat q k A.size) (R : ResidueRing A I) (x : Element A) → IsUnitIn A x → IsUnitIn R.ring (x · R.class) }
    ensures nilpotent { (q : Gf) (A : Algebra q) (k : ℕ) (I : Mat q k A.size) (R : ResidueRing A I) (x : Element A) → IsNilpotentIn A x → IsNilpotentIn R.ring (x · R.class) }
    ensures invertible_back { (q : Gf) (A : Algebra q) (k : ℕ) (I : Mat q k A.size) (R : ResidueRing A I) (s : ℕ) → PowerVanishes A I s → (x : Element A) → IsUnitIn R.ring (x · R.class) → IsUnitIn A x }
    ensures nilpotent_back { (q : Gf) (A : Algebra q) (k : ℕ) (I : Mat q k A.size) (R : ResidueRing A I) (s : ℕ) → PowerVanishes A I s → (x : Element A) → IsNilpotentIn R.ring (x · R.class) → IsNilpotentIn A x }
{}

/// Whether all products of s members of an ideal are zero is decided, and where they are for some s there is a least such number from 1 on. The
/// members of such an ideal are nilpotent. (Chapter I, 1.)
pub fn powers_of_ideals()
    ensures decided { (q : Gf) (A : Algebra q) (k : ℕ) (I : Mat q k A.size) (s : ℕ) → PowerVanishes A I s ⊎ (PowerVanishes A I s → ⊥) }
    ensures least { (q : Gf) (A : Algebra q) (k : ℕ) (I : Mat q k A.size) (s : ℕ) → PowerVanishes A I s → (t : ℕ) × IsLeastPower A I t }
    ensures nil { (q : Gf) (A : Algebra q) (k : ℕ) (I : Mat q k A.size) (s : ℕ) → PowerVanishes A I s → (x : Element A) → IsInSpan I x → IsNilpotentIn A x }
{}

/// For a nilpotent x either all products of members of the right ideal x·A, as many as the dimension of A, are zero, or x·A has a member that is
/// neither invertible nor nilpotent. (Levitzki's theorem; chapter I, 1.)
pub fn nil_right_ideals()
    ensures { (q : Gf) (A : Algebra q) → A.unit ≢ zeros q 1 A.size → (x : Element A) → IsNilpotentIn A x
        → ((y : ℕ → Element A) → product_in A (λ i. A.product x (y i)) A.size ≡ zeros q 1 A.size) ⊎ ((y : Element A) × IsMixed A (A.product x y)) }
{}

/// A two-sided ideal and an element x generate a two-sided ideal. It has a larger rank where x is not in the ideal. If all products of s members of
/// the ideal are zero, and all products of d members of x·A, then so are all products of d·s members of what they generate. (Chapter I, 1.)
pub fn growth_of_ideals()
    ensures exists { (q : Gf) (A : Algebra q) (k : ℕ) (I : Mat q k A.size) → IsTwoSided A I → (x : Element A) → (l : ℕ) × (J : Mat q l A.size) × IsGeneratedWith A I x J }
    ensures grows { (q : Gf) (A : Algebra q) (k l : ℕ) (I : Mat q k A.size) (x : Element A) (J : Mat q l A.size) → IsGeneratedWith A I x J → (IsInSpan I x → ⊥)
        → (a : RankFactorisation I) (b : RankFactorisation J) → a.size < b.size }
    ensures power { (q : Gf) (A : Algebra q) (k l : ℕ) (I : Mat q k A.size) → IsTwoSided A I → (x : Element A) (J : Mat q l A.size) → IsGeneratedWith A I x J
        → (d : ℕ) → ((y : ℕ → Element A) → product_in A (λ i. A.product x (y i)) d ≡ zeros q 1 A.size) → (s : ℕ) → PowerVanishes A I s → PowerVanishes A J (d * s) }
{}

/// In a commutative algebra over a field of q elements q-th powers add, and multiples go with them. Taking them is injective exactly where the rank of
/// its matrix is the dimension, and its fixed elements are the multiples of one that is not zero exactly where the rank of that matrix less the unit
/// matrix is the dimension less 1.
pub fn frobenius_of_a_commutative_algebra()
    ensures sums { (q : Gf) (A : Algebra q) → ((x y : Element A) → A.product x y ≡ A.product y x) → (x y : Element A)
        → power_in A (x ⊞ y) (order q) ≡ power_in A x (order q) ⊞ power_in A y (order q) }
    ensures multiples { (q : Gf) (A : Algebra q) → ((x y : Element A) → A.product x y ≡ A.product y x) → (c : ℕ) (x : Element A)
        → power_in A (c ⊙ x) (order q) ≡ c ⊙ power_in A x (order q) }
    ensures injective_by_rank { (q : Gf) (A : Algebra q) → ((x y : Element A) → A.product x y ≡ A.product y x)
        → (f : RankFactorisation (matrix_of (λ (x : Element A). power_in A x (order q)))) → f.size ≡ A.size
        → (x y : Element A) → power_in A x (order q) ≡ power_in A y (order q) → x ≡ y }
    ensures rank_of_injective { (q : Gf) (A : Algebra q) → ((x y : Element A) → A.product x y ≡ A.product y x)
        → ((x y : Element A) → power_in A x (order q) ≡ power_in A y (order q) → x ≡ y)
        → (f : RankFactorisation (matrix_of (λ (x : Element A). power_in A x (order q)))) → f.size ≡ A.size }
    ensures line_by_rank { (q : Gf) (A : Algebra q) → ((x y : Element A) → A.product x y ≡ A.product y x)
        → (f : RankFactorisation (matrix_of (λ (x : Element A). power_in A x (order q)) ⊟ one q A.size)) → 1 + f.size ≡ A.size
        → (v : Element A) × (v ≢ zeros q 1 A.size) × (power_in A v (order q) ≡ v) × ((y : Element A) → power_in A y (order q) ≡ y → (c : ℕ) × (y ≡ c ⊙ v)) }
    ensures rank_of_line { (q : Gf) (A : Algebra q) → ((x y : Element A) → A.product x y ≡ A.product y x)
        → (v : Element A) → v ≢ zeros q 1 A.size → power_in A v (order q) ≡ v → ((y : Element A) → power_in A y (order q) ≡ y → (c : ℕ) × (y ≡ c ⊙ v))
        → (f : RankFactorisation (matrix_of (λ (x : Element A). power_in A x (order q)) ⊟ one q A.size)) → 1 + f.size ≡ A.size }
{}

/// A commutative algebra over a field of q elements in which taking q-th powers is injective, and its fixed elements are the multiples of one that is
/// not zero, is a field.
pub fn frobenius_fields()
    ensures { (q : Gf) (A : Algebra q) → ((x y : Element A) → A.product x y ≡ A.product y x)
        → ((x y : Element A) → power_in A x (order q) ≡ power_in A y (order q) → x ≡ y)
        → (v : Element A) → v ≢ zeros q 1 A.size → ((y : Element A) → power_in A y (order q) ≡ y → (c : ℕ) × (y ≡ c ⊙ v))
        → (y : Element A) → (y ≡ zeros q 1 A.size) ⊎ IsUnitIn A y }
{}

/// Rows span a two-sided ideal where their products with the unit rows are in the span, on both sides. (Chapter I, 1.)
pub fn two_sided_by_basis()
    ensures { (q : Gf) (A : Algebra q) (k : ℕ) (I : Mat q k A.size) → ((i j : ℕ) → i < A.size → j < k → IsInSpan I (A.product (unit q A.size i) (row j I)))
        → ((i j : ℕ) → i < A.size → j < k → IsInSpan I (A.product (row j I) (unit q A.size i))) → IsTwoSided A I }
{}

/// The two forms of a residue ring in coordinates. The first is that it is commutative, the rank of the matrix of taking q-th powers is its dimension,
/// and the rank of that matrix less the unit matrix is its dimension less 1; the second is that it is not commutative, and each element is zero or
/// invertible. (Chapter I, 1.)
pub fn forms_of_the_residue_ring()
    ensures commutative { (q : Gf) (A : Algebra q) (k : ℕ) (I : Mat q k A.size) (R : ResidueRing A I) → IsFrobeniusField A I → (x y : Element R.ring) → R.ring.product x y ≡ R.ring.product y x }
    ensures injective { (q : Gf) (A : Algebra q) (k : ℕ) (I : Mat q k A.size) (R : ResidueRing A I) → IsFrobeniusField A I
        → (f : RankFactorisation (matrix_of (λ (x : Element R.ring). power_in R.ring x (order q)))) → f.size ≡ R.ring.size }
    ensures line { (q : Gf) (A : Algebra q) (k : ℕ) (I : Mat q k A.size) (R : ResidueRing A I) → IsFrobeniusField A I
        → (g : RankFactorisation (matrix_of (λ (x : Element R.ring). power_in R.ring x (order q)) ⊟ one q R.ring.size)) → 1 + g.size ≡ R.ring.size }
    ensures frobenius { (q : Gf) (A : Algebra q) (k : ℕ) (I : Mat q k A.size) (R : ResidueRing A I) → ((x y : Element R.ring) → R.ring.product x y ≡ R.ring.product y x)
        → (f : RankFactorisation (matrix_of (λ (x : Element R.ring). power_in R.ring x (order q)))) → f.size ≡ R.ring.size
        → (g : RankFactorisation (matrix_of (λ (x : Element R.ring). power_in R.ring x (order q)) ⊟ one q R.ring.size)) → 1 + g.size ≡ R.ring.size → IsFrobeniusField A I }
    ensures units { (q : Gf) (A : Algebra q) (k : ℕ) (I : Mat q k A.size) (R : ResidueRing A I) → IsListedDivisionRing A I → (y : Element R.ring) → (y ≡ zeros q 1 R.ring.size) ⊎ IsUnitIn R.ring y }
    ensures listed { (q : Gf) (A : Algebra q) (k : ℕ) (I : Mat q k A.size) (R : ResidueRing A I) → (((x y : Element R.ring) → R.ring.product x y ≡ R.ring.product y x) → ⊥)
        → ((y : Element R.ring) → (y ≡ zeros q 1 R.ring.size) ⊎ IsUnitIn R.ring y) → IsListedDivisionRing A I }
{}

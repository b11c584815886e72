//! The laws of decompositions into direct summands. Chapters are those of Assem, Simson, Skowroński, volume 1.

ghost use Rattle.std.specs.Prelude.{◌≡◌, ℕ, suc, ◌+◌, ◌-◌, ◌<◌};
ghost use Rattle.linear_algebra.specs.Field.{Gf};
ghost use Rattle.representations.specs.Quiver.{Quiver};
ghost use Rattle.representations.specs.Rep.{Rep};
ghost use Rattle.representations.specs.Hom.{Hom};
ghost use Rattle.representations.specs.Module.{IsIso, Biproduct, summand_of};
ghost use Rattle.representations.specs.Sum.{sum_family};

/// A decomposition goes over an isomorphism: the same parts, each injection followed by the isomorphism, each projection after its
/// inverse. (Chapter I, 4.)
pub fn transport()
    ensures { (q : Gf) (Q : Quiver) (X Y : Rep q Q) (f : Hom X Y) (i : IsIso f) (B : Biproduct X)
        → (R : Biproduct Y) × (R.count ≡ B.count) × ((j : ℕ) → R.summand j ≡ summand_of
        (record { part = X; injection = f; projection = i.inverse }) (B.summand j)) }
{}

/// A part that is itself decomposed may be replaced by its parts, in its place. (Chapter I, 4.)
pub fn refine()
    ensures { (q : Gf) (Q : Quiver) (X : Rep q Q) (B : Biproduct X) (i : ℕ) → i < B.count
        → (C : Biproduct (B.summand i).part)
        → (R : Biproduct X) × (R.count ≡ i + C.count + (B.count - suc i)) ×
        ((j : ℕ) → j < i → R.summand j ≡ B.summand j) × ((j : ℕ) → j < C.count → R.summand
        (i + j) ≡ summand_of (B.summand i) (C.summand j)) × ((j : ℕ) → R.summand
        (i + C.count + j) ≡ B.summand (suc i + j)) }
{}

/// The parts may be put in any order, given by a permutation of the numbers below their count and its inverse. (Chapter I, 4.)
pub fn permute()
    ensures { (q : Gf) (Q : Quiver) (X : Rep q Q) (B : Biproduct X) (s t : ℕ → ℕ)
        → ((i : ℕ) → i < B.count → s i < B.count) → ((i : ℕ) → i < B.count → t i < B.count)
        → ((i : ℕ) → i < B.count → s (t i) ≡ i) → ((i : ℕ) → i < B.count → t (s i) ≡ i)
        → (R : Biproduct X) × (R.count ≡ B.count) × ((j : ℕ) → R.summand j ≡ B.summand (s j)) }
{}

/// A direct sum of a family is decomposed into it; and what is decomposed is isomorphic to the direct sum of its parts.
/// (Chapter I, 4, and III, 1.)
pub fn sums_of_parts()
    ensures decomposed { (q : Gf) (Q : Quiver) (k : ℕ) (X : ℕ → Rep q Q)
        → (R : Biproduct (sum_family k X)) × (R.count ≡ k) × ((i : ℕ) → i < k →
        (R.summand i).part ≡ X i) }
    ensures composed { (q : Gf) (Q : Quiver) (Z : Rep q Q) (B : Biproduct Z)
        → (f : Hom (sum_family B.count (λ i. (B.summand i).part)) Z) × IsIso f }
{}

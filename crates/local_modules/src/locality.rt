//! The laws of local modules. Chapters are those of Assem, Simson, Skowroński, volume 1.

ghost use Rattle.std.specs.Prelude.{◌≡◌, ◌<◌, ◌≤◌, ◌⊎◌, ℕ};
ghost use Rattle.linear_algebra.specs.Field.{Gf};
ghost use Rattle.linear_algebra.specs.Powers.{mat_power};
ghost use Rattle.linear_algebra.specs.Ranks.{rank};
ghost use Rattle.representations.specs.Quiver.{Quiver};
ghost use Rattle.representations.specs.Rep.{Rep};
ghost use Rattle.representations.specs.Hom.{Hom, ◌≫◌, ◌⊕◌, identity, zero_hom, multiple, negative_hom};
ghost use Rattle.representations.specs.Module.{IsIso, IsNilpotent};
ghost use Rattle.representations.specs.Sum.{sum_family};
ghost use Rattle.local_modules.specs.Local.{IsLocal};
ghost use Rattle.local_modules.specs.Splitting.{ProperSplitting};
ghost use Rattle.local_modules.specs.Isomorphic.{Isomorphic, AreApart, Matching};
ghost use Rattle.local_modules.specs.Counting.{IsCount};
ghost use Rattle.local_modules.specs.Decomposition.{LocalDecomposition};

/// Fitting's lemma: an endomorphism is an isomorphism, or nilpotent, or the module is a direct sum of two modules that are not zero. A local
/// module is no such sum. (Chapter I, 4.)
pub fn fitting()
    ensures cases { (q : Gf) (Q : Quiver) (X : Rep q Q) (x : Hom X X) → IsIso x ⊎ (IsNilpotent x ⊎ ProperSplitting X) }
    ensures indecomposable { (q : Gf) (Q : Quiver) (X : Rep q Q) → IsLocal X → ProperSplitting X → ⊥ }
{}

/// An endomorphism is an isomorphism exactly where the matrices of its k-th power have full rank at each vertex, for a k from 1 on; and nilpotent exactly
/// where they are zero, for a k that is at least each dimension. (Chapter I, 4.)
pub fn kinds_by_ranks()
    ensures isomorphism { (q : Gf) (Q : Quiver) (X : Rep q Q) (x : Hom X X) (k : ℕ) → 1 ≤ k → ((v : ℕ) → v < Q.vertices → rank (mat_power (x.at v) k) ≡ X.dim v) → IsIso x }
    ensures isomorphism_back { (q : Gf) (Q : Quiver) (X : Rep q Q) (x : Hom X X) → IsIso x → (k v : ℕ) → rank (mat_power (x.at v) k) ≡ X.dim v }
    ensures nilpotent { (q : Gf) (Q : Quiver) (X : Rep q Q) (x : Hom X X) (k : ℕ) → ((v : ℕ) → v < Q.vertices → rank (mat_power (x.at v) k) ≡ 0) → IsNilpotent x }
    ensures nilpotent_back { (q : Gf) (Q : Quiver) (X : Rep q Q) (x : Hom X X) → IsNilpotent x → (k : ℕ) → ((v : ℕ) → X.dim v ≤ k) → (v : ℕ) → rank (mat_power (x.at v) k) ≡ 0 }
{}

/// The endomorphisms of a local module that have no inverse are nilpotent; they are closed under sums, multiples, and products with any
/// endomorphism on both sides; an isomorphism less one of them is an isomorphism; and an idempotent is the identity or zero. (Chapter I, 4.)
pub fn endomorphisms_of_a_local_module()
    ensures never_both { (q : Gf) (Q : Quiver) (X : Rep q Q) → IsLocal X → (x : Hom X X) → IsNilpotent x → IsIso x → ⊥ }
    ensures sums { (q : Gf) (Q : Quiver) (X : Rep q Q) → IsLocal X → (x y : Hom X X) → IsNilpotent x → IsNilpotent y → IsNilpotent (x ⊕ y) }
    ensures multiples { (q : Gf) (Q : Quiver) (X : Rep q Q) → IsLocal X → (c : ℕ) (x : Hom X X) → IsNilpotent x → IsNilpotent (multiple c x) }
    ensures right { (q : Gf) (Q : Quiver) (X : Rep q Q) → IsLocal X → (x y : Hom X X) → IsNilpotent x → IsNilpotent (x ≫ y) }
    ensures left { (q : Gf) (Q : Quiver) (X : Rep q Q) → IsLocal X → (y x : Hom X X) → IsNilpotent x → IsNilpotent (y ≫ x) }
    ensures differences { (q : Gf) (Q : Quiver) (X : Rep q Q) → IsLocal X → (x j : Hom X X) → IsIso x → IsNilpotent j → IsIso (x ⊕ negative_hom j) }
    ensures idempotents { (q : Gf) (Q : Quiver) (X : Rep q Q) → IsLocal X → (e : Hom X X) → e ≫ e ≡ e → (e ≡ identity X) ⊎ (e ≡ zero_hom X X) }
{}

/// Between local modules: where f and then g is an isomorphism, both are. So two local modules are isomorphic, or no homomorphism from the one
/// to the other and then one back is invertible; and it is decided which. (Chapter I, 4.)
pub fn comparing_local_modules()
    ensures both { (q : Gf) (Q : Quiver) (X Y : Rep q Q) → IsLocal X → IsLocal Y → (f : Hom X Y) (g : Hom Y X) → IsIso (f ≫ g) → IsIso f × IsIso g }
    ensures decided { (q : Gf) (Q : Quiver) (X Y : Rep q Q) → IsLocal X → IsLocal Y → Isomorphic X Y ⊎ AreApart X Y }
    ensures never_both { (q : Gf) (Q : Quiver) (X Y : Rep q Q) → Isomorphic X Y → AreApart X Y → ⊥ }
{}

/// The Krull-Schmidt theorem: two lists of local modules with isomorphic direct sums match: they have one length, and different members of the
/// one are isomorphic to different members of the other. (Chapter I, 4.10.)
pub fn krull_schmidt()
    ensures { (q : Gf) (Q : Quiver) (m n : ℕ) (X Y : ℕ → Rep q Q) → ((i : ℕ) → i < m → IsLocal (X i)) → ((i : ℕ) → i < n → IsLocal (Y i))
        → (f : Hom (sum_family m X) (sum_family n Y)) → IsIso f → Matching m X n Y }
{}

/// The multiplicity of a module in a list is the number of members that are isomorphic to it. It exists in each list of local modules, and for a local
/// module in each list; a list has one such number; and two lists of local modules with isomorphic direct sums, as two decompositions of one module, have
/// the same. (Chapter I, 4.10.)
pub fn multiplicities()
    ensures exists { (q : Gf) (Q : Quiver) (m : ℕ) (X : ℕ → Rep q Q) → ((i : ℕ) → i < m → IsLocal (X i)) → (Z : Rep q Q) → (c : ℕ) × IsCount m X Z c }
    ensures of_local { (q : Gf) (Q : Quiver) (m : ℕ) (X : ℕ → Rep q Q) (Z : Rep q Q) → IsLocal Z → (c : ℕ) × IsCount m X Z c }
    ensures one { (q : Gf) (Q : Quiver) (m : ℕ) (X : ℕ → Rep q Q) (Z : Rep q Q) (c d : ℕ) → IsCount m X Z c → IsCount m X Z d → c ≡ d }
    ensures same_sum { (q : Gf) (Q : Quiver) (m n : ℕ) (X Y : ℕ → Rep q Q) → ((i : ℕ) → i < m → IsLocal (X i)) → ((i : ℕ) → i < n → IsLocal (Y i))
        → (f : Hom (sum_family m X) (sum_family n Y)) → IsIso f → (Z : Rep q Q) (c d : ℕ) → IsCount m X Z c → IsCount n Y Z d → c ≡ d }
    ensures decompositions { (q : Gf) (Q : Quiver) (X : Rep q Q) (D E : LocalDecomposition X) (Z : Rep q Q) (c d : ℕ)
        → IsCount D.parts.count (λ i. (D.parts.summand i).part) Z c → IsCount E.parts.count (λ i. (E.parts.summand i).part) Z d → c ≡ d }
{}

/// It is decided whether a module is isomorphic to a local one; what is isomorphic to a local module is local. (Chapter I, 4.)
pub fn isomorphic_to_a_local_module()
    ensures decided { (q : Gf) (Q : Quiver) (X Z : Rep q Q) → IsLocal Z → Isomorphic X Z ⊎ (Isomorphic X Z → ⊥) }
    ensures local { (q : Gf) (Q : Quiver) (X Y : Rep q Q) → Isomorphic X Y → IsLocal X → IsLocal Y }
{}

//! The laws of injective modules, of transposed homomorphisms and of the Nakayama functor. Chapters are those of Assem, Simson,
//! Skowroński, volume 1. `T : TwoSided q A` is a basis of the algebra A by words that, reversed, are a basis of the opposite algebra;
//! P is `projectives T.words k v`, the sum of the projective modules at k vertices v, and νP is `injectives T k v`.

ghost use Rattle.std.specs.Prelude.{◌≡◌, ◌≢◌, ◌<◌, ◌+◌, ℕ};
ghost use Rattle.linear_algebra.specs.Field.{Gf};
ghost use Rattle.linear_algebra.specs.Matrix.{Mat, Row, Column, zeros, ◌·◌, ◌⊞◌, ◌⊙◌};
ghost use Rattle.linear_algebra.specs.Parts.{column};
ghost use Rattle.linear_algebra.specs.BlockFamilies.{sum_all, total};
ghost use Rattle.representations.specs.Quiver.{Quiver, BoundQuiver};
ghost use Rattle.representations.specs.Rep.{Rep, IsMod};
ghost use Rattle.representations.specs.Hom.{Hom, ◌≫◌, identity, ◌⊕◌, multiple, power};
ghost use Rattle.representations.specs.Module.{IsMono, IsIso, IsSplitMono, IsSplitEpi};
ghost use Rattle.representations.specs.Sum.{sum_family};
ghost use Rattle.representations.specs.Dual.{dual, dual_hom};
ghost use Rattle.projectives.specs.Words.{Words, along_word};
ghost use Rattle.projectives.specs.Families.{projectives};
ghost use Rattle.projectives.specs.Components.{component, in_component};
ghost use Rattle.projectives.specs.TwoSided.{TwoSided, other, swap};
ghost use Rattle.projectives.specs.Injective.{injective, injectives, turn};
ghost use Rattle.projectives.specs.Transposed.{coefficients, transposed, nakayama, IsNakayama};
ghost use Rattle.projectives.specs.Pairing.{IsFunctional, column_of, part_of, hom_of_columns, pairing, IsPairingAfter, IsPairingBefore};

/// The injective module at a vertex is the dual of the projective module there on the other side, and νP is the sum of the injective modules
/// at the same vertices in the same order; it is a module over A. (Chapter I, 5, and III, 2.)
pub fn injective_modules()
    ensures sums { (q : Gf) (A : BoundQuiver) (T : TwoSided q A) (k : ℕ) (v : ℕ → ℕ)
        → injectives T k v ≡ sum_family k (λ j. injective T (v j)) }
    ensures modules { (q : Gf) (A : BoundQuiver) (T : TwoSided q A) (k : ℕ) (v : ℕ → ℕ) → IsMod A (injectives T k v) }
{}

/// Homomorphisms from X to νP are lists of columns, one for each of the k vertices, of the length of X there: each list of columns is that
/// of exactly one homomorphism, linearly and naturally in X; and the component of s at the vertex j has, for the word i from w to it, the
/// matrix of the word on X times the column j. (Chapter III, 2.)
pub fn dual_yoneda()
    ensures columns { (q : Gf) (A : BoundQuiver) (T : TwoSided q A) (k : ℕ) (v : ℕ → ℕ) (X : Rep q A.quiver)
        (M : IsMod A X) (y : (j : ℕ) → Column q (X.dim (v j))) (j : ℕ) → j < k
        → column_of T k v (hom_of_columns T k v X M y) j ≡ y j }
    ensures each { (q : Gf) (A : BoundQuiver) (T : TwoSided q A) (k : ℕ) (v : ℕ → ℕ) (X : Rep q A.quiver)
        (M : IsMod A X) (s : Hom X (injectives T k v)) → hom_of_columns T k v X M (column_of T k v s) ≡ s }
    ensures sums { (q : Gf) (A : BoundQuiver) (T : TwoSided q A) (k : ℕ) (v : ℕ → ℕ) (X : Rep q A.quiver)
        (s t : Hom X (injectives T k v)) (j : ℕ)
        → column_of T k v (s ⊕ t) j ≡ column_of T k v s j ⊞ column_of T k v t j }
    ensures multiples { (q : Gf) (A : BoundQuiver) (T : TwoSided q A) (k : ℕ) (v : ℕ → ℕ) (X : Rep q A.quiver)
        (c : ℕ) (s : Hom X (injectives T k v)) (j : ℕ) → column_of T k v (multiple c s) j ≡ c ⊙ column_of T k v s j }
    ensures natural { (q : Gf) (A : BoundQuiver) (T : TwoSided q A) (k : ℕ) (v : ℕ → ℕ) (X Y : Rep q A.quiver)
        (f : Hom X Y) (s : Hom Y (injectives T k v)) (j : ℕ)
        → column_of T k v (f ≫ s) j ≡ f.at (v j) · column_of T k v s j }
    ensures entries { (q : Gf) (A : BoundQuiver) (T : TwoSided q A) (k : ℕ) (v : ℕ → ℕ) (X : Rep q A.quiver)
        → IsMod A X → (s : Hom X (injectives T k v)) (j w i : ℕ) → i < T.words.count w (v j)
        → column i ((part_of T k v s j).at w) ≡ along_word T.words X w (v j) i · column_of T k v s j }
{}

/// A row of a sum of projective modules is the sum of its components; component i is its part from the place where those before it end.
/// (Chapter III, 1.)
pub fn components()
    ensures places { (q : Gf) (Q : Quiver) (W : Words q Q) (k : ℕ) (v : ℕ → ℕ) (i w : ℕ) → i < k
        → (x : Row q ((projectives W k v).dim w)) (p : ℕ) → p < W.count (v i) w
        → (component W k v i w x).at 0 p ≡ x.at 0 (total i (λ j. W.count (v j) w) + p) }
    ensures inside { (q : Gf) (Q : Quiver) (W : Words q Q) (k : ℕ) (v : ℕ → ℕ) (i w : ℕ) → i < k
        → (x : Row q (W.count (v i) w)) → component W k v i w (in_component W k v i w x) ≡ x }
    ensures outside { (q : Gf) (Q : Quiver) (W : Words q Q) (k : ℕ) (v : ℕ → ℕ) (i j w : ℕ) → i < k → i ≢ j
        → (x : Row q (W.count (v i) w))
        → component W k v j w (in_component W k v i w x) ≡ zeros q 1 (W.count (v j) w) }
    ensures whole { (q : Gf) (Q : Quiver) (W : Words q Q) (k : ℕ) (v : ℕ → ℕ) (w : ℕ)
        (x : Row q ((projectives W k v).dim w))
        → sum_all k (λ i. in_component W k v i w (component W k v i w x)) ≡ x }
{}

/// The transposed of d : P → P' goes from P' to P on the other side: generator j of P' goes to the row whose component i has the
/// coefficients that the value of generator i under d has in component j; both go by the words from w j to v i. Transposing twice changes
/// nothing; it turns composites round, and is linear. (Chapter IV, 2.)
pub fn transposition()
    ensures coefficients { (q : Gf) (A : BoundQuiver) (T : TwoSided q A) (k : ℕ) (v : ℕ → ℕ) (h : ℕ) (w : ℕ → ℕ)
        (d : Hom (projectives T.words k v) (projectives T.words h w)) (i j : ℕ) → i < k → j < h
        → coefficients (swap T) h w k v (transposed T k v h w d) j i ≡ coefficients T k v h w d i j }
    ensures involution { (q : Gf) (A : BoundQuiver) (T : TwoSided q A) (k : ℕ) (v : ℕ → ℕ) (h : ℕ) (w : ℕ → ℕ)
        (d : Hom (projectives T.words k v) (projectives T.words h w))
        → transposed (swap T) h w k v (transposed T k v h w d) ≡ d }
    ensures identities { (q : Gf) (A : BoundQuiver) (T : TwoSided q A) (k : ℕ) (v : ℕ → ℕ)
        → transposed T k v k v (identity (projectives T.words k v)) ≡ identity (projectives (other T) k v) }
    ensures composites { (q : Gf) (A : BoundQuiver) (T : TwoSided q A) (k : ℕ) (v : ℕ → ℕ) (h : ℕ) (w : ℕ → ℕ)
        (l : ℕ) (x : ℕ → ℕ) (d : Hom (projectives T.words k v) (projectives T.words h w))
        (e : Hom (projectives T.words h w) (projectives T.words l x))
        → transposed T k v l x (d ≫ e) ≡ transposed T h w l x e ≫ transposed T k v h w d }
    ensures sums { (q : Gf) (A : BoundQuiver) (T : TwoSided q A) (k : ℕ) (v : ℕ → ℕ) (h : ℕ) (w : ℕ → ℕ)
        (d e : Hom (projectives T.words k v) (projectives T.words h w))
        → transposed T k v h w (d ⊕ e) ≡ transposed T k v h w d ⊕ transposed T k v h w e }
    ensures multiples { (q : Gf) (A : BoundQuiver) (T : TwoSided q A) (k : ℕ) (v : ℕ → ℕ) (h : ℕ) (w : ℕ → ℕ)
        (c : ℕ) (d : Hom (projectives T.words k v) (projectives T.words h w))
        → transposed T k v h w (multiple c d) ≡ multiple c (transposed T k v h w d) }
{}

/// The pairing of Hom (P, X) with Hom (X, νP) is linear on both sides; each functional on the one is the pairing with exactly one member
/// of the other; it is natural in X, and natural in P: d on the one side is νd on the other; and the other side of the algebra has the same
/// pairing. (Chapter III, 2, and IV, 2.)
pub fn pairing_rules()
    ensures linear_in_first { (q : Gf) (A : BoundQuiver) (T : TwoSided q A) (k : ℕ) (v : ℕ → ℕ) (X : Rep q A.quiver)
        (s : Hom X (injectives T k v)) → IsFunctional (λ (u : Hom (projectives T.words k v) X). pairing T k v u s) }
    ensures linear_in_second { (q : Gf) (A : BoundQuiver) (T : TwoSided q A) (k : ℕ) (v : ℕ → ℕ)
        (X : Rep q A.quiver) (u : Hom (projectives T.words k v) X)
        → IsFunctional (λ (s : Hom X (injectives T k v)). pairing T k v u s) }
    ensures perfect_after { (q : Gf) (A : BoundQuiver) (T : TwoSided q A) (k : ℕ) (v : ℕ → ℕ) (X : Rep q A.quiver)
        → IsMod A X → (f : Hom (projectives T.words k v) X → Mat q 1 1) → IsFunctional f → IsPairingAfter T k v f }
    ensures perfect_before { (q : Gf) (A : BoundQuiver) (T : TwoSided q A) (k : ℕ) (v : ℕ → ℕ) (X : Rep q A.quiver)
        → IsMod A X → (f : Hom X (injectives T k v) → Mat q 1 1) → IsFunctional f → IsPairingBefore T k v f }
    ensures natural { (q : Gf) (A : BoundQuiver) (T : TwoSided q A) (k : ℕ) (v : ℕ → ℕ) (X Y : Rep q A.quiver)
        (u : Hom (projectives T.words k v) X) (f : Hom X Y) (s : Hom Y (injectives T k v))
        → pairing T k v (u ≫ f) s ≡ pairing T k v u (f ≫ s) }
    ensures adjoint { (q : Gf) (A : BoundQuiver) (T : TwoSided q A) (k : ℕ) (v : ℕ → ℕ) (h : ℕ) (w : ℕ → ℕ)
        (X : Rep q A.quiver) → IsMod A X → (d : Hom (projectives T.words k v) (projectives T.words h w))
        (u : Hom (projectives T.words h w) X) (y : Hom X (injectives T k v))
        → pairing T k v (d ≫ u) y ≡ pairing T h w u (y ≫ nakayama T k v h w d) }
    ensures other_side { (q : Gf) (A : BoundQuiver) (T : TwoSided q A) (k : ℕ) (v : ℕ → ℕ) (X : Rep q A.quiver)
        (u : Hom (projectives T.words k v) X) (s : Hom X (injectives T k v))
        → pairing (swap T) k v {X = dual X} (turn s) (dual_hom u) ≡ pairing T k v u s }
{}

/// The Nakayama functor ν, which takes d to the dual of the transposed, is a functor, linear, full and faithful: each homomorphism from νP
/// to νP' is νd for exactly one d : P → P'. So it keeps and reflects isomorphisms, reflects what splits, and goes with powers.
/// (Chapter III, 2, and IV, 2.)
pub fn nakayama_functor()
    ensures dual_of_transposed { (q : Gf) (A : BoundQuiver) (T : TwoSided q A) (k : ℕ) (v : ℕ → ℕ) (h : ℕ)
        (w : ℕ → ℕ) (d : Hom (projectives T.words k v) (projectives T.words h w))
        → nakayama T k v h w d ≡ dual_hom (transposed T k v h w d) }
    ensures identities { (q : Gf) (A : BoundQuiver) (T : TwoSided q A) (k : ℕ) (v : ℕ → ℕ)
        → nakayama T k v k v (identity (projectives T.words k v)) ≡ identity (injectives T k v) }
    ensures composites { (q : Gf) (A : BoundQuiver) (T : TwoSided q A) (k : ℕ) (v : ℕ → ℕ) (h : ℕ) (w : ℕ → ℕ)
        (l : ℕ) (x : ℕ → ℕ) (d : Hom (projectives T.words k v) (projectives T.words h w))
        (e : Hom (projectives T.words h w) (projectives T.words l x))
        → nakayama T k v l x (d ≫ e) ≡ nakayama T k v h w d ≫ nakayama T h w l x e }
    ensures sums { (q : Gf) (A : BoundQuiver) (T : TwoSided q A) (k : ℕ) (v : ℕ → ℕ) (h : ℕ) (w : ℕ → ℕ)
        (d e : Hom (projectives T.words k v) (projectives T.words h w))
        → nakayama T k v h w (d ⊕ e) ≡ nakayama T k v h w d ⊕ nakayama T k v h w e }
    ensures multiples { (q : Gf) (A : BoundQuiver) (T : TwoSided q A) (k : ℕ) (v : ℕ → ℕ) (h : ℕ) (w : ℕ → ℕ)
        (c : ℕ) (d : Hom (projectives T.words k v) (projectives T.words h w))
        → nakayama T k v h w (multiple c d) ≡ multiple c (nakayama T k v h w d) }
    ensures full_and_faithful { (q : Gf) (A : BoundQuiver) (T : TwoSided q A) (k : ℕ) (v : ℕ → ℕ) (h : ℕ)
        (w : ℕ → ℕ) (s : Hom (injectives T k v) (injectives T h w)) → IsNakayama T k v h w s }
    ensures isomorphisms { (q : Gf) (A : BoundQuiver) (T : TwoSided q A) (k : ℕ) (v : ℕ → ℕ) (h : ℕ) (w : ℕ → ℕ)
        (d : Hom (projectives T.words k v) (projectives T.words h w)) → IsIso d → IsIso (nakayama T k v h w d) }
    ensures reflects_isomorphisms { (q : Gf) (A : BoundQuiver) (T : TwoSided q A) (k : ℕ) (v : ℕ → ℕ) (h : ℕ)
        (w : ℕ → ℕ) (d : Hom (projectives T.words k v) (projectives T.words h w))
        → IsIso (nakayama T k v h w d) → IsIso d }
    ensures reflects_split_injections { (q : Gf) (A : BoundQuiver) (T : TwoSided q A) (k : ℕ) (v : ℕ → ℕ) (h : ℕ)
        (w : ℕ → ℕ) (d : Hom (projectives T.words k v) (projectives T.words h w))
        → IsSplitMono (nakayama T k v h w d) → IsSplitMono d }
    ensures reflects_split_surjections { (q : Gf) (A : BoundQuiver) (T : TwoSided q A) (k : ℕ) (v : ℕ → ℕ) (h : ℕ)
        (w : ℕ → ℕ) (d : Hom (projectives T.words k v) (projectives T.words h w))
        → IsSplitEpi (nakayama T k v h w d) → IsSplitEpi d }
    ensures powers { (q : Gf) (A : BoundQuiver) (T : TwoSided q A) (k : ℕ) (v : ℕ → ℕ)
        (d : Hom (projectives T.words k v) (projectives T.words k v)) (n : ℕ)
        → nakayama T k v k v (power d n) ≡ power (nakayama T k v k v d) n }
{}

/// νP is injective, in the strong form: where s : X → νP is zero on each row that f : X → Y takes to zero, s is f and then another
/// homomorphism. So everything extends along an injective f; and the same holds for the injective module at one vertex. (Chapter I, 5.)
pub fn injectivity()
    ensures where_zero { (q : Gf) (A : BoundQuiver) (T : TwoSided q A) (k : ℕ) (v : ℕ → ℕ) (X Y : Rep q A.quiver)
        → IsMod A X → IsMod A Y → (f : Hom X Y) (s : Hom X (injectives T k v))
        → ((w : ℕ) (x : Row q (X.dim w)) → x · f.at w ≡ zeros q 1 (Y.dim w) → x · s.at w ≡ zeros q 1 ((injectives T k v).dim w))
        → (t : Hom Y (injectives T k v)) × (f ≫ t ≡ s) }
    ensures along_injections { (q : Gf) (A : BoundQuiver) (T : TwoSided q A) (k : ℕ) (v : ℕ → ℕ)
        (X Y : Rep q A.quiver) → IsMod A X → IsMod A Y → (f : Hom X Y) → IsMono f → (s : Hom X (injectives T k v))
        → (t : Hom Y (injectives T k v)) × (f ≫ t ≡ s) }
    ensures one_where_zero { (q : Gf) (A : BoundQuiver) (T : TwoSided q A) (v : ℕ) (X Y : Rep q A.quiver)
        → IsMod A X → IsMod A Y → (f : Hom X Y) (s : Hom X (injective T v))
        → ((w : ℕ) (x : Row q (X.dim w)) → x · f.at w ≡ zeros q 1 (Y.dim w) → x · s.at w ≡ zeros q 1 ((injective T v).dim w))
        → (t : Hom Y (injective T v)) × (f ≫ t ≡ s) }
    ensures one_along_injections { (q : Gf) (A : BoundQuiver) (T : TwoSided q A) (v : ℕ) (X Y : Rep q A.quiver)
        → IsMod A X → IsMod A Y → (f : Hom X Y) → IsMono f → (s : Hom X (injective T v))
        → (t : Hom Y (injective T v)) × (f ≫ t ≡ s) }
{}

//! The laws of the radical and of the duality. Chapters are those of Assem, Simson, Skowroński, volume 1.

ghost use Rattle.std.specs.Prelude.{◌≡◌, ◌<◌, ℕ};
ghost use Rattle.linear_algebra.specs.Field.{Gf};
ghost use Rattle.linear_algebra.specs.Matrix.{Row, zeros, ◌·◌, transpose};
ghost use Rattle.representations.specs.Quiver.{Quiver, Path, BoundQuiver, reverse, opposite_algebra};
ghost use Rattle.representations.specs.Rep.{Rep, along, IsMod};
ghost use Rattle.representations.specs.Hom.{Hom, ◌≫◌, identity, zero_hom, ◌⊕◌, multiple, power};
ghost use Rattle.representations.specs.Module.{IsMono, IsEpi, IsZero};
ghost use Rattle.representations.specs.Radical.{IsInRadicalPower, IsInRadical, IsReachedModuloRadical};
ghost use Rattle.representations.specs.Dual.{dual, dual_hom};
ghost use Rattle.linear_algebra.specs.Rank.{IsInSpan};
ghost use Rattle.representations.specs.RadicalModule.{arrow_rows, radical};
ghost use Rattle.representations.specs.RadicalOf.{IsRadical};
ghost use Rattle.representations.specs.Submodule.{inclusion};
ghost use Rattle.representations.specs.Factoring.{FactorsBefore};
ghost use Rattle.linear_algebra.specs.Ranks.{rank};

/// Homomorphisms take the k-th power of the radical into the k-th power; the power zero is everything; the power of the bound is zero;
/// and an endomorphism of a module that takes every row into the radical is nilpotent. (Chapter I, 3, and III, 2.)
pub fn radical_powers()
    ensures kept { (q : Gf) (Q : Quiver) (X Y : Rep q Q) (f : Hom X Y) (k w : ℕ) (x : Row q (X.dim w))
        → IsInRadicalPower X k w x → IsInRadicalPower Y k w (x · f.at w) }
    ensures whole { (q : Gf) (Q : Quiver) (X : Rep q Q) (w : ℕ) (x : Row q (X.dim w))
        → IsInRadicalPower X 0 w x }
    ensures ends { (q : Gf) (A : BoundQuiver) (X : Rep q A.quiver) → IsMod A X
        → (w : ℕ) (x : Row q (X.dim w)) → IsInRadicalPower X A.bound w x
        → x ≡ zeros q 1 (X.dim w) }
    ensures nilpotent { (q : Gf) (A : BoundQuiver) (X : Rep q A.quiver) → IsMod A X → (e : Hom X X)
        → ((v : ℕ) (x : Row q (X.dim v)) → IsInRadical X v (x · e.at v))
        → power e A.bound ≡ zero_hom X X }
{}

/// The radical is a submodule: its rows are the combinations of the basis. (Chapter III, 2.2.)
pub fn radical_module()
    ensures has { (q : Gf) (Q : Quiver) (X : Rep q Q) (w : ℕ) (x : Row q (X.dim w)) → IsInRadical X w x
        → IsInSpan ((radical X).basis w) x }
    ensures is_had { (q : Gf) (Q : Quiver) (X : Rep q Q) (w : ℕ) (x : Row q (X.dim w))
        → IsInSpan ((radical X).basis w) x → IsInRadical X w x }
{}

/// An embedding of the radical: its rows at a vertex span the rows of the radical there. The submodule that is the radical has one, and two go
/// through one another. What the arrows bring one by one tells that it is one, with rows in the radical or by its size. (Chapter III, 2.2.)
pub fn radical_by_embedding()
    ensures exists { (q : Gf) (Q : Quiver) (X : Rep q Q) → IsRadical (inclusion (radical X)) }
    ensures has { (q : Gf) (Q : Quiver) (N X : Rep q Q) (i : Hom N X) → IsRadical i → (w : ℕ) (x : Row q (X.dim w))
        → IsInRadical X w x → IsInSpan (i.at w) x }
    ensures is_had { (q : Gf) (Q : Quiver) (N X : Rep q Q) (i : Hom N X) → IsRadical i → (w : ℕ) (x : Row q (X.dim w))
        → IsInSpan (i.at w) x → IsInRadical X w x }
    ensures by_arrows { (q : Gf) (Q : Quiver) (N X : Rep q Q) (i : Hom N X) → IsMono i
        → ((w : ℕ) → IsInSpan (arrow_rows X w) (i.at w))
        → ((a : ℕ) → a < Q.arrows → IsInSpan (i.at (Q.target a)) (X.mat a)) → IsRadical i }
    ensures by_size { (q : Gf) (Q : Quiver) (N X : Rep q Q) (i : Hom N X) → IsMono i
        → ((a : ℕ) → a < Q.arrows → IsInSpan (i.at (Q.target a)) (X.mat a))
        → ((w : ℕ) → N.dim w ≡ rank (arrow_rows X w)) → IsRadical i }
    ensures size { (q : Gf) (Q : Quiver) (N X : Rep q Q) (i : Hom N X) → IsRadical i → (w : ℕ)
        → N.dim w ≡ rank (arrow_rows X w) }
    ensures once { (q : Gf) (Q : Quiver) (M N X : Rep q Q) (i : Hom M X) (j : Hom N X) → IsRadical i → IsRadical j
        → FactorsBefore j i }
{}

/// Nakayama's lemma: a module that is its own radical is zero, and a homomorphism into a module that reaches each row up to the radical
/// is surjective. (Chapter I, 2.2.)
pub fn nakayama()
    ensures zero { (q : Gf) (A : BoundQuiver) (X : Rep q A.quiver) → IsMod A X
        → ((v : ℕ) (x : Row q (X.dim v)) → IsInRadical X v x) → IsZero X }
    ensures surjective { (q : Gf) (A : BoundQuiver) (X Y : Rep q A.quiver) → IsMod A Y → (f : Hom X Y)
        → ((v : ℕ) (y : Row q (Y.dim v)) → IsReachedModuloRadical f v y) → IsEpi f }
{}

/// The duality is an involution, turns composites round, is linear on homomorphisms, and takes modules over an algebra to modules over
/// the opposite algebra. (Chapter I, 2.9.)
pub fn duality()
    ensures involution { (q : Gf) (Q : Quiver) (X : Rep q Q) → dual (dual X) ≡ X }
    ensures involution_on_maps { (q : Gf) (Q : Quiver) (X Y : Rep q Q) (f : Hom X Y) (v : ℕ)
        → (dual_hom (dual_hom f)).at v ≡ f.at v }
    ensures turns_round { (q : Gf) (Q : Quiver) (X Y Z : Rep q Q) (f : Hom X Y) (g : Hom Y Z)
        → dual_hom (f ≫ g) ≡ dual_hom g ≫ dual_hom f }
    ensures identities { (q : Gf) (Q : Quiver) (X : Rep q Q) → dual_hom (identity X) ≡ identity (dual X) }
    ensures sums { (q : Gf) (Q : Quiver) (X Y : Rep q Q) (f g : Hom X Y)
        → dual_hom (f ⊕ g) ≡ dual_hom f ⊕ dual_hom g }
    ensures multiples { (q : Gf) (Q : Quiver) (X Y : Rep q Q) (c : ℕ) (f : Hom X Y)
        → dual_hom (multiple c f) ≡ multiple c (dual_hom f) }
    ensures paths { (q : Gf) (Q : Quiver) (X : Rep q Q) (v w : ℕ) (p : Path Q v w)
        → along (dual X) (reverse p) ≡ transpose (along X p) }
    ensures modules { (q : Gf) (A : BoundQuiver) (X : Rep q A.quiver) → IsMod A X
        → IsMod (opposite_algebra A) (dual X) }
{}

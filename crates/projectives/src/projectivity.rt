//! The laws of projective modules. Chapters are those of Assem, Simson, Skowroński, volume 1.

ghost use Rattle.std.specs.Prelude.{◌≡◌, ◌<◌, ℕ, suc};
ghost use Rattle.linear_algebra.specs.Field.{Gf};
ghost use Rattle.linear_algebra.specs.Matrix.{Row, ◌·◌, ◌⊞◌, ◌⊙◌};
ghost use Rattle.linear_algebra.specs.Rank.{IsInSpan};
ghost use Rattle.representations.specs.Quiver.{BoundQuiver, path_length};
ghost use Rattle.representations.specs.Rep.{Rep, IsMod};
ghost use Rattle.representations.specs.Hom.{Hom, ◌≫◌, ◌⊕◌, multiple};
ghost use Rattle.representations.specs.Module.{IsEpi};
ghost use Rattle.projectives.specs.Words.{Words, IsWordBasis, projective};
ghost use Rattle.projectives.specs.Projective.{generator};
ghost use Rattle.projectives.specs.Yoneda.{yoneda};
ghost use Rattle.projectives.specs.Families.{projectives, generator_of};
ghost use Rattle.linear_algebra.specs.Parts.{unit};
ghost use Rattle.representations.specs.Radical.{IsInRadical};

/// Yoneda's lemma: the homomorphisms from the projective module at v to a module X are the rows of X at v. `yoneda x` takes the generator
/// to x, each homomorphism is such, and this is linear and natural. (Chapter I, 4.2, and III, 2.)
pub fn yoneda_lemma()
    ensures value { (q : Gf) (A : BoundQuiver) (W : Words q A.quiver) (B : IsWordBasis A W)
        (X : Rep q A.quiver) (M : IsMod A X) (v : ℕ) (x : Row q (X.dim v))
        → generator A W B v · (yoneda A W B X M v x).at v ≡ x }
    ensures each { (q : Gf) (A : BoundQuiver) (W : Words q A.quiver) (B : IsWordBasis A W)
        (X : Rep q A.quiver) (M : IsMod A X) (v : ℕ) (f : Hom (projective W v) X)
        → yoneda A W B X M v (generator A W B v · f.at v) ≡ f }
    ensures sums { (q : Gf) (A : BoundQuiver) (W : Words q A.quiver) (B : IsWordBasis A W)
        (X : Rep q A.quiver) (M : IsMod A X) (v : ℕ) (x y : Row q (X.dim v))
        → yoneda A W B X M v (x ⊞ y) ≡ yoneda A W B X M v x ⊕ yoneda A W B X M v y }
    ensures multiples { (q : Gf) (A : BoundQuiver) (W : Words q A.quiver) (B : IsWordBasis A W)
        (X : Rep q A.quiver) (M : IsMod A X) (v : ℕ) (c : ℕ) (x : Row q (X.dim v))
        → yoneda A W B X M v (c ⊙ x) ≡ multiple c (yoneda A W B X M v x) }
    ensures natural { (q : Gf) (A : BoundQuiver) (W : Words q A.quiver) (B : IsWordBasis A W)
        (X Y : Rep q A.quiver) (M : IsMod A X) (N : IsMod A Y) (v : ℕ) (h : Hom X Y)
        (x : Row q (X.dim v))
        → yoneda A W B X M v x ≫ h ≡ yoneda A W B Y N v (x · h.at v) }
{}

/// A sum of projective modules at vertices is a module; the values of its generators may be any rows, and determine the homomorphism.
/// (Chapter I, 4.2, and III, 2.)
pub fn generators()
    ensures modules { (q : Gf) (A : BoundQuiver) (W : Words q A.quiver) (B : IsWordBasis A W) (k : ℕ) (v : ℕ → ℕ)
        → IsMod A (projectives W k v) }
    ensures any_values { (q : Gf) (A : BoundQuiver) (W : Words q A.quiver) (B : IsWordBasis A W) (k : ℕ)
        (v : ℕ → ℕ) (X : Rep q A.quiver)
        → IsMod A X → (x : (j : ℕ) → Row q (X.dim (v j)))
        → (f : Hom (projectives W k v) X) × ((j : ℕ) → j < k → generator_of A W B k v j · f.at
        (v j) ≡ x j) }
    ensures determine { (q : Gf) (A : BoundQuiver) (W : Words q A.quiver) (B : IsWordBasis A W) (k : ℕ)
        (v : ℕ → ℕ) (X : Rep q A.quiver)
        → IsMod A X → (f g : Hom (projectives W k v) X)
        → ((j : ℕ) → j < k → generator_of A W B k v j · f.at
        (v j) ≡ generator_of A W B k v j · g.at (v j))
        → f ≡ g }
{}

/// A sum of projective modules at vertices is projective: u lifts along f where f reaches the values of the generators, and so along each
/// surjection. (Chapter I, 3.4 and 5.)
pub fn lifting()
    ensures where_reached { (q : Gf) (A : BoundQuiver) (W : Words q A.quiver) (B : IsWordBasis A W) (k : ℕ)
        (v : ℕ → ℕ) (Y Z : Rep q A.quiver)
        → IsMod A Y → IsMod A Z → (f : Hom Y Z) (u : Hom (projectives W k v) Z)
        → ((j : ℕ) → j < k → IsInSpan (f.at (v j)) (generator_of A W B k v j · u.at (v j)))
        → (h : Hom (projectives W k v) Y) × (h ≫ f ≡ u) }
    ensures along_surjections { (q : Gf) (A : BoundQuiver) (W : Words q A.quiver) (B : IsWordBasis A W) (k : ℕ)
        (v : ℕ → ℕ) (Y Z : Rep q A.quiver)
        → IsMod A Y → IsMod A Z → (f : Hom Y Z) → IsEpi f → (u : Hom (projectives W k v) Z)
        → (h : Hom (projectives W k v) Y) × (h ≫ f ≡ u) }
{}

/// A word of at least one arrow lies in the radical of the projective module. (Chapter III, 2.4.)
pub fn words_in_radical()
    ensures { (q : Gf) (A : BoundQuiver) (W : Words q A.quiver) (B : IsWordBasis A W) (v w i k : ℕ)
        → i < W.count v w → ((h : i < W.count v w) → path_length (W.word v w i h) ≡ suc k)
        → IsInRadical (projective W v) w (unit q (W.count v w) i) }
{}

//! The laws of homomorphisms of representations. Chapters are those of Assem, Simson, Skowroński, volume 1.

ghost use Rattle.std.specs.Prelude.{◌≡◌, ◌+◌, ◌<◌, ℕ};
ghost use Rattle.linear_algebra.specs.Field.{Gf};
ghost use Rattle.linear_algebra.specs.Matrix.{Mat, Row, zeros, ◌·◌, ◌⊞◌, ◌⊙◌};
ghost use Rattle.linear_algebra.specs.Parts.{row};
ghost use Rattle.linear_algebra.specs.Rank.{HasInverse};
ghost use Rattle.linear_algebra.specs.Ranks.{rank};
ghost use Rattle.linear_algebra.specs.RowForm.{IsRowReduced};
ghost use Rattle.linear_algebra.specs.LinearMaps.{matrix_of};
ghost use Rattle.representations.specs.Quiver.{Quiver, Path, Relation};
ghost use Rattle.representations.specs.Rep.{Rep, along, value_of_relation};
ghost use Rattle.representations.specs.Hom.{Hom, ◌≫◌, identity, ◌⊕◌, negative_hom, multiple};
ghost use Rattle.representations.specs.Module.{IsMono, IsEpi, IsIso, IsNilpotent};
ghost use Rattle.representations.specs.HomSpace.{HomBasis, IsHomBasis, unknowns, flat, defects, equations};

/// Composition of homomorphisms is associative, with identities, and bilinear: the representations of a quiver form a category
/// whose sets of homomorphisms are vector spaces. (Assem, Simson, Skowroński, volume 1, chapter III, 1.)
pub fn category()
    ensures associates { (q : Gf) (Q : Quiver) (W X Y Z : Rep q Q) (f : Hom W X) (g : Hom X Y) (h : Hom Y Z)
        → (f ≫ g) ≫ h ≡ f ≫ (g ≫ h) }
    ensures identity_after { (q : Gf) (Q : Quiver) (X Y : Rep q Q) (f : Hom X Y) → f ≫ identity Y ≡ f }
    ensures identity_before { (q : Gf) (Q : Quiver) (X Y : Rep q Q) (f : Hom X Y) → identity X ≫ f ≡ f }
    ensures sums_after { (q : Gf) (Q : Quiver) (X Y Z : Rep q Q) (f : Hom X Y) (g h : Hom Y Z)
        → f ≫ (g ⊕ h) ≡ f ≫ g ⊕ f ≫ h }
    ensures sums_before { (q : Gf) (Q : Quiver) (X Y Z : Rep q Q) (f g : Hom X Y) (h : Hom Y Z)
        → (f ⊕ g) ≫ h ≡ f ≫ h ⊕ g ≫ h }
    ensures multiples_after { (q : Gf) (Q : Quiver) (X Y Z : Rep q Q) (c : ℕ) (f : Hom X Y) (g : Hom Y Z)
        → f ≫ multiple c g ≡ multiple c (f ≫ g) }
    ensures multiples_before { (q : Gf) (Q : Quiver) (X Y Z : Rep q Q) (c : ℕ) (f : Hom X Y) (g : Hom Y Z)
        → multiple c f ≫ g ≡ multiple c (f ≫ g) }
{}

/// A homomorphism goes with every path and with every relation, not with the arrows alone. (Chapter III, 1.)
pub fn paths()
    ensures along_paths { (q : Gf) (Q : Quiver) (X Y : Rep q Q) (f : Hom X Y) (v w : ℕ) (p : Path Q v w)
        → along X p · f.at w ≡ f.at v · along Y p }
    ensures along_relations { (q : Gf) (Q : Quiver) (X Y : Rep q Q) (f : Hom X Y) (r : Relation Q)
        → value_of_relation X r · f.at r.to ≡ f.at r.from · value_of_relation Y r }
{}

/// A homomorphism with an inverse matrix at each vertex is an isomorphism, and so is one that is injective and surjective.
/// (Chapter III, 1.)
pub fn isomorphisms()
    ensures by_vertices { (q : Gf) (Q : Quiver) (X Y : Rep q Q) (f : Hom X Y) → ((v : ℕ) → HasInverse (f.at v))
        → IsIso f }
    ensures of_both { (q : Gf) (Q : Quiver) (X Y : Rep q Q) (f : Hom X Y) → IsMono f → IsEpi f → IsIso f }
    ensures injective { (q : Gf) (Q : Quiver) (X Y : Rep q Q) (f : Hom X Y) → IsIso f → IsMono f }
    ensures surjective { (q : Gf) (Q : Quiver) (X Y : Rep q Q) (f : Hom X Y) → IsIso f → IsEpi f }
{}

/// 1 − x is invertible where x is nilpotent. (Chapter I, 1 and 4.)
pub fn one_minus_nilpotent()
    ensures { (q : Gf) (Q : Quiver) (X : Rep q Q) (x : Hom X X) → IsNilpotent x
        → IsIso (identity X ⊕ negative_hom x) }
{}

/// The homomorphisms from X to Y have a basis in reduced row form: each is a combination of it by exactly one row of
/// coefficients; and a homomorphism is determined by its row of entries. (Chapter I, 2, and III, 1.)
pub fn hom_space()
    ensures basis { (q : Gf) (Q : Quiver) (X Y : Rep q Q) → HomBasis X Y }
    ensures determined { (q : Gf) (Q : Quiver) (X Y : Rep q Q) (f g : Hom X Y) → flat f ≡ flat g → f ≡ g }
    ensures sums { (q : Gf) (Q : Quiver) (X Y : Rep q Q) (f g : Hom X Y) → flat (f ⊕ g) ≡ flat f ⊞ flat g }
    ensures multiples { (q : Gf) (Q : Quiver) (X Y : Rep q Q) (c : ℕ) (f : Hom X Y)
        → flat (multiple c f) ≡ c ⊙ flat f }
{}

/// Homomorphisms by their equations: a row is one exactly where its defects at the arrows are zero. So rows in reduced row form that are
/// homomorphisms are a basis exactly where they are as many as the unknowns exceed the rank of the equations; there is one basis in that form, and a
/// basis with its rows in it is the same. (Chapter I, 2, and III, 1.)
pub fn hom_space_by_size()
    ensures meets { (q : Gf) (Q : Quiver) (X Y : Rep q Q) (f : Hom X Y)
        → defects X Y (flat f) ≡ zeros q 1 (equations X Y) }
    ensures is_met { (q : Gf) (Q : Quiver) (X Y : Rep q Q) (x : Row q (unknowns X Y))
        → defects X Y x ≡ zeros q 1 (equations X Y) → (f : Hom X Y) × (flat f ≡ x) }
    ensures by_size { (q : Gf) (Q : Quiver) (X Y : Rep q Q) (n : ℕ) (b : Mat q n (unknowns X Y)) (p : ℕ → ℕ) → IsRowReduced b p
        → ((i : ℕ) → i < n → defects X Y (row i b) ≡ zeros q 1 (equations X Y))
        → n + rank (matrix_of (defects X Y)) ≡ unknowns X Y → IsHomBasis X Y b }
    ensures size { (q : Gf) (Q : Quiver) (X Y : Rep q Q) (n : ℕ) (b : Mat q n (unknowns X Y)) (p : ℕ → ℕ) → IsRowReduced b p
        → IsHomBasis X Y b → n + rank (matrix_of (defects X Y)) ≡ unknowns X Y }
    ensures once { (q : Gf) (Q : Quiver) (X Y : Rep q Q) (m n : ℕ) (a : Mat q m (unknowns X Y)) (b : Mat q n (unknowns X Y))
        (p r : ℕ → ℕ) → IsRowReduced a p → IsRowReduced b r → IsHomBasis X Y a → IsHomBasis X Y b
        → (m ≡ n) × ((i j : ℕ) → a.at i j ≡ b.at i j) }
    ensures rows { (q : Gf) (Q : Quiver) (X Y : Rep q Q) (B : HomBasis X Y) → IsHomBasis X Y B.basis }
    ensures with_rows { (q : Gf) (Q : Quiver) (X Y : Rep q Q) (n : ℕ) (b : Mat q n (unknowns X Y)) (p : ℕ → ℕ) → IsRowReduced b p
        → IsHomBasis X Y b → (B : HomBasis X Y) × (B.size ≡ n) × ((i j : ℕ) → B.basis.at i j ≡ b.at i j) }
{}

//! The laws of extensions by cocycles modulo coboundaries. The textbook is Assem, Simson, Skowroński, volume 1, appendix A, 4.

ghost use Rattle.std.specs.Prelude.{◌≡◌, ◌+◌, ◌<◌, ◌≤◌, ℕ, zero, suc, List, length};
ghost use Rattle.linear_algebra.specs.Field.{Gf};
ghost use Rattle.linear_algebra.specs.Matrix.{Mat, Row, zeros, ◌⊞◌, ◌⊙◌, ◌·◌};
ghost use Rattle.linear_algebra.specs.BlockFamilies.{column_block};
ghost use Rattle.linear_algebra.specs.Ranks.{rank};
ghost use Rattle.representations.specs.Quiver.{BoundQuiver};
ghost use Rattle.representations.specs.Rep.{Rep, IsMod};
ghost use Rattle.representations.specs.Hom.{Hom, ◌≫◌, ◌⊕◌, multiple, zero_hom};
ghost use Rattle.projectives.specs.Words.{Words, IsWordBasis};
ghost use Rattle.projectives.specs.Families.{projectives};
ghost use Rattle.projectives.specs.HomRows.{value};
ghost use Rattle.projectives.specs.CanonicalCover.{vertex_in, projectives_at};
ghost use Rattle.projectives.specs.Resolutions.{ProjectiveSequence, IsMinimalResolution};
ghost use Rattle.projectives.specs.BasisModulo.{IsBasisModulo, IsReducedModulo};
ghost use Rattle.projectives.specs.Extensions.{coordinate_count, coordinate_row, hom_of_row, composition_matrix, ExtensionBasis, IsExtensionBasis};

/// Homomorphisms out of a sum of projective modules and their coordinates, the values of the generators one after another, are the same,
/// linearly; composition with d in coordinates is its matrix, and the block of generator i is its value under d, and then the homomorphism.
pub fn coordinates()
    ensures homs { (q : Gf) (A : BoundQuiver) (W : Words q A.quiver) (B : IsWordBasis A W) (X : Rep q A.quiver) (M : IsMod A X)
        (k : ℕ) (v : ℕ → ℕ) (y : Hom (projectives W k v) X) → hom_of_row A W B k v X M (coordinate_row A W B k v y) ≡ y }
    ensures rows { (q : Gf) (A : BoundQuiver) (W : Words q A.quiver) (B : IsWordBasis A W) (X : Rep q A.quiver) (M : IsMod A X)
        (k : ℕ) (v : ℕ → ℕ) (x : Row q (coordinate_count X k v)) → coordinate_row A W B k v (hom_of_row A W B k v X M x) ≡ x }
    ensures sums { (q : Gf) (A : BoundQuiver) (W : Words q A.quiver) (B : IsWordBasis A W) (X : Rep q A.quiver) (M : IsMod A X)
        (k : ℕ) (v : ℕ → ℕ) (y z : Hom (projectives W k v) X)
        → coordinate_row A W B k v (y ⊕ z) ≡ coordinate_row A W B k v y ⊞ coordinate_row A W B k v z }
    ensures multiples { (q : Gf) (A : BoundQuiver) (W : Words q A.quiver) (B : IsWordBasis A W) (X : Rep q A.quiver) (M : IsMod A X)
        (k : ℕ) (v : ℕ → ℕ) (c : ℕ) (y : Hom (projectives W k v) X)
        → coordinate_row A W B k v (multiple c y) ≡ c ⊙ coordinate_row A W B k v y }
    ensures composites { (q : Gf) (A : BoundQuiver) (W : Words q A.quiver) (B : IsWordBasis A W) (X : Rep q A.quiver) (M : IsMod A X)
        (k : ℕ) (v : ℕ → ℕ) (h : ℕ) (u : ℕ → ℕ) (d : Hom (projectives W k v) (projectives W h u)) (y : Hom (projectives W h u) X)
        → coordinate_row A W B k v (d ≫ y) ≡ coordinate_row A W B h u y · composition_matrix A W B k v h u X M d }
    ensures blocks { (q : Gf) (A : BoundQuiver) (W : Words q A.quiver) (B : IsWordBasis A W) (X : Rep q A.quiver)
        (k : ℕ) (v : ℕ → ℕ) (h : ℕ) (u : ℕ → ℕ) (d : Hom (projectives W k v) (projectives W h u)) (y : Hom (projectives W h u) X)
        (i : ℕ) → i < k
        → column_block k (λ i. X.dim (v i)) i (coordinate_row A W B k v (d ≫ y)) ≡ value A W B k v d i · y.at (v i) }
{}

/// For matrices with C · D = 0, the rows that D takes to zero have one basis modulo the combinations of the rows of C that is in reduced row
/// form and zero at the pivots of C; its size is what the ranks leave, and a matrix in that form with that size is the basis.
pub fn bases_modulo()
    ensures exists { (q : Gf) (m n l : ℕ) (C : Mat q m n) (D : Mat q n l) → C · D ≡ zeros q m l
        → (e : ℕ) × (E : Mat q e n) × IsBasisModulo C D E × IsReducedModulo C E }
    ensures once { (q : Gf) (m n l e f : ℕ) (C : Mat q m n) (D : Mat q n l) (E : Mat q e n) (F : Mat q f n) → IsBasisModulo C D E
        → IsReducedModulo C E → IsBasisModulo C D F → IsReducedModulo C F
        → (e ≡ f) × ((i j : ℕ) → E.at i j ≡ F.at i j) }
    ensures size { (q : Gf) (m n l e : ℕ) (C : Mat q m n) (D : Mat q n l) → C · D ≡ zeros q m l → (E : Mat q e n)
        → IsBasisModulo C D E → IsReducedModulo C E → e + rank C + rank D ≡ n }
    ensures by_size { (q : Gf) (m n l e : ℕ) (C : Mat q m n) (D : Mat q n l) → C · D ≡ zeros q m l → (E : Mat q e n)
        → E · D ≡ zeros q e l → IsReducedModulo C E → e + rank C + rank D ≡ n → IsBasisModulo C D E }
{}

/// The same for extensions, at the middle of P'' → P → P' with composite zero, and so at each degree of a minimal resolution: cocycles modulo
/// coboundaries have exactly one basis in the canonical form; its size is what the ranks leave, and cocycles in that form of that size are it.
pub fn extensions_have_one_basis()
    ensures exists { (q : Gf) (A : BoundQuiver) (W : Words q A.quiver) (B : IsWordBasis A W) (X : Rep q A.quiver) (M : IsMod A X)
        (j : ℕ) (t : ℕ → ℕ) (k : ℕ) (v : ℕ → ℕ) (h : ℕ) (u : ℕ → ℕ) (d' : Hom (projectives W j t) (projectives W k v))
        (d : Hom (projectives W k v) (projectives W h u)) → d' ≫ d ≡ zero_hom (projectives W j t) (projectives W h u)
        → ExtensionBasis A W B j t k v h u X M d' d }
    ensures once { (q : Gf) (A : BoundQuiver) (W : Words q A.quiver) (B : IsWordBasis A W) (X : Rep q A.quiver) (M : IsMod A X)
        (j : ℕ) (t : ℕ → ℕ) (k : ℕ) (v : ℕ → ℕ) (h : ℕ) (u : ℕ → ℕ) (d' : Hom (projectives W j t) (projectives W k v))
        (d : Hom (projectives W k v) (projectives W h u)) (e f : ℕ) (E : Mat q e (coordinate_count X k v)) (F : Mat q f (coordinate_count X k v))
        → IsExtensionBasis A W B j t k v h u X M d' d E → IsExtensionBasis A W B j t k v h u X M d' d F
        → (e ≡ f) × ((a b : ℕ) → E.at a b ≡ F.at a b) }
    ensures size { (q : Gf) (A : BoundQuiver) (W : Words q A.quiver) (B : IsWordBasis A W) (X : Rep q A.quiver) (M : IsMod A X)
        (j : ℕ) (t : ℕ → ℕ) (k : ℕ) (v : ℕ → ℕ) (h : ℕ) (u : ℕ → ℕ) (d' : Hom (projectives W j t) (projectives W k v))
        (d : Hom (projectives W k v) (projectives W h u)) → d' ≫ d ≡ zero_hom (projectives W j t) (projectives W h u)
        → (e : ℕ) (E : Mat q e (coordinate_count X k v)) → IsExtensionBasis A W B j t k v h u X M d' d E
        → e + rank (composition_matrix A W B k v h u X M d) + rank (composition_matrix A W B j t k v X M d') ≡ coordinate_count X k v }
    ensures by_size { (q : Gf) (A : BoundQuiver) (W : Words q A.quiver) (B : IsWordBasis A W) (X : Rep q A.quiver) (M : IsMod A X)
        (j : ℕ) (t : ℕ → ℕ) (k : ℕ) (v : ℕ → ℕ) (h : ℕ) (u : ℕ → ℕ) (d' : Hom (projectives W j t) (projectives W k v))
        (d : Hom (projectives W k v) (projectives W h u)) → d' ≫ d ≡ zero_hom (projectives W j t) (projectives W h u)
        → (e : ℕ) (E : Mat q e (coordinate_count X k v))
        → ((c : Row q e) → d' ≫ hom_of_row A W B k v X M (c · E) ≡ zero_hom (projectives W j t) X)
        → IsReducedModulo (composition_matrix A W B k v h u X M d) E
        → e + rank (composition_matrix A W B k v h u X M d) + rank (composition_matrix A W B j t k v X M d') ≡ coordinate_count X k v
        → IsExtensionBasis A W B j t k v h u X M d' d E }
    ensures rows { (q : Gf) (A : BoundQuiver) (W : Words q A.quiver) (B : IsWordBasis A W) (X : Rep q A.quiver) (M : IsMod A X)
        (j : ℕ) (t : ℕ → ℕ) (k : ℕ) (v : ℕ → ℕ) (h : ℕ) (u : ℕ → ℕ) (d' : Hom (projectives W j t) (projectives W k v))
        (d : Hom (projectives W k v) (projectives W h u)) (R : ExtensionBasis A W B j t k v h u X M d' d)
        → IsExtensionBasis A W B j t k v h u X M d' d R.rows }
    ensures with_rows { (q : Gf) (A : BoundQuiver) (W : Words q A.quiver) (B : IsWordBasis A W) (X : Rep q A.quiver) (M : IsMod A X)
        (j : ℕ) (t : ℕ → ℕ) (k : ℕ) (v : ℕ → ℕ) (h : ℕ) (u : ℕ → ℕ) (d' : Hom (projectives W j t) (projectives W k v))
        (d : Hom (projectives W k v) (projectives W h u)) (e : ℕ) (E : Mat q e (coordinate_count X k v)) → IsExtensionBasis A W B j t k v h u X M d' d E
        → (R : ExtensionBasis A W B j t k v h u X M d' d) × (R.size ≡ e) × ((a b : ℕ) → R.rows.at a b ≡ E.at a b) }
    ensures of_resolution { (q : Gf) (A : BoundQuiver) (W : Words q A.quiver) (B : IsWordBasis A W) (X : Rep q A.quiver) (M : IsMod A X)
        (Y : Rep q A.quiver) (R : ProjectiveSequence W Y) (n : ℕ) → IsMinimalResolution W Y R (suc (suc n))
        → ExtensionBasis A W B (length (R.term (suc (suc n)))) (vertex_in (R.term (suc (suc n)))) (length (R.term (suc n)))
        (vertex_in (R.term (suc n))) (length (R.term n)) (vertex_in (R.term n)) X M (R.differential (suc (suc n))) (R.differential (suc n)) }
    ensures degree_zero { (q : Gf) (A : BoundQuiver) (W : Words q A.quiver) (B : IsWordBasis A W) (X : Rep q A.quiver) (M : IsMod A X)
        (Y : Rep q A.quiver) (R : ProjectiveSequence W Y)
        → ExtensionBasis A W B (length (R.term 1)) (vertex_in (R.term 1)) (length (R.term zero)) (vertex_in (R.term zero)) zero (λ i. zero)
        X M (R.differential 1) (zero_hom (projectives_at W (R.term zero)) (projectives W zero (λ i. zero))) }
{}

//! Terms of resolutions, and homomorphisms out of them. Chapters are those of Assem, Simson, Skowroński, volume 1.

ghost use Rattle.std.specs.Prelude.{◌≡◌, ◌<◌, ◌≤◌, ◌+◌, ℕ, List};
ghost use Rattle.linear_algebra.specs.Field.{Gf};
ghost use Rattle.linear_algebra.specs.Matrix.{Mat, Row, ◌·◌};
ghost use Rattle.linear_algebra.specs.BlockFamilies.{total, beside_all};
ghost use Rattle.linear_algebra.specs.Rows.{IsGrid, entry};
ghost use Rattle.linear_algebra.specs.Typed.{as_mat};
ghost use Rattle.quiver_paths.specs.declared.Path.{Path};
ghost use Rattle.path_algebra.specs.declared.Header.{Header};
ghost use Rattle.path_algebra.specs.Allowed.{IsAllowed};
ghost use Rattle.path_algebra.specs.Words.{AreNormalWords};
ghost use Rattle.representations.specs.Quiver.{Quiver, opposite, BoundQuiver};
ghost use Rattle.representations.specs.Rep.{Rep, IsMod};
ghost use Rattle.representations.specs.Hom.{Hom, ◌≫◌};
ghost use Rattle.projectives.specs.Words.{Words, IsWordBasis, along_word};
ghost use Rattle.projectives.specs.Families.{projectives};
ghost use Rattle.projectives.specs.Components.{component};
ghost use Rattle.projectives.specs.HomRows.{value, hom_of_rows};
ghost use Rattle.projectives.specs.Extensions.{coordinate_row, hom_of_row, composition_matrix};
ghost use Rattle.bound_algebra.specs.TypedPaths.{quiver_of};
ghost use Rattle.bound_algebra.specs.NormalWords.{word_count, normal_word};
ghost use Rattle.bound_algebra.specs.AlgebraWords.{algebra_words, opposite_words};
ghost use Rattle.module_types.specs.declared.TermRows.{TermRows as Term};
ghost use Rattle.module_types.specs.Walks.{walk, walk_back};
ghost use Rattle.module_types.specs.TermMatrices.{rows_along, count, vertex, generator_row, sum_of_term};
ghost use Rattle.module_types.specs.TermCoordinates.{coordinates, value_in, follow, follow_matrix};

/// The homomorphism out of a sum of projective modules that takes the generators to given rows has at each vertex for each generator j and each word p
/// the row of j times p, generator by generator; and a list of rows with these entries is read as its matrix. (Chapter III, 2.)
pub fn rows_of_terms()
    ensures whole { (q : Gf) (A : BoundQuiver) (W : Words q A.quiver) (B : IsWordBasis A W) (k : ℕ) (v : ℕ → ℕ) (X : Rep q A.quiver) (M : IsMod A X)
        (x : (j : ℕ) → Row q (X.dim (v j))) (w : ℕ) → (hom_of_rows A W B k v X M x).at w ≡ rows_along W X k v x w }
    ensures entries { (q : Gf) (Q : Quiver) (W : Words q Q) (X : Rep q Q) (k : ℕ) (v : ℕ → ℕ) (x : (j : ℕ) → Row q (X.dim (v j))) (w j i z : ℕ) → j < k
        → i < W.count (v j) w → (rows_along W X k v x w).at (total j (λ c. W.count (v c) w) + i) z ≡ (x j · along_word W X (v j) w i).at 0 z }
    ensures read { (q : Gf) (Q : Quiver) (W : Words q Q) (k : ℕ) (v : ℕ → ℕ) (X : Rep q Q) (x : (j : ℕ) → Row q (X.dim (v j))) (w : ℕ) (rows : List (List ℕ))
        → IsGrid q (total k (λ t. W.count (v t) w)) (X.dim w) rows
        → ((j i c : ℕ) → j < k → i < W.count (v j) w → c < X.dim w → entry rows (total j (λ t. W.count (v t) w) + i) c ≡ (x j · along_word W X (v j) w i).at 0 c)
        → as_mat q ((projectives W k v).dim w) (X.dim w) rows ≡ rows_along W X k v x w }
    ensures arrows { (q : Gf) (Q : Quiver) (W : Words q Q) (k : ℕ) (v : ℕ → ℕ) (i a : ℕ) (y : Row q ((projectives W k v).dim (Q.source a)))
        → component W k v i (Q.target a) (y · (projectives W k v).mat a) ≡ component W k v i (Q.source a) y · W.act (v i) a }
{}

/// A row goes along a word by the arrows of the word one after another: on the right from the first to the last, on the left from the last to the first.
/// (Chapter III, 1.)
pub fn rows_along_words()
    ensures right { (h : Header) (ok : IsAllowed h) (words : List Path) (w : AreNormalWords h words) (X : Rep h.field (quiver_of h.quiver)) (b c i : ℕ)
        → i < word_count h ok words w b c → (x : Row h.field (X.dim b))
        → (x · along_word (algebra_words h ok words w) X b c i).at 0 ≡ walk X (x.at 0) (normal_word h ok words w b c i).arrows }
    ensures left { (h : Header) (ok : IsAllowed h) (words : List Path) (w : AreNormalWords h words) (X : Rep h.field (opposite (quiver_of h.quiver))) (b c i : ℕ)
        → i < word_count h ok words w c b → (x : Row h.field (X.dim b))
        → (x · along_word (opposite_words h ok words w) X b c i).at 0 ≡ walk_back X (x.at 0) (normal_word h ok words w c b i).arrows }
{}

/// The coordinates of a homomorphism out of a term are the values of its generators, one after another; and following the next differential is
/// composition with it. On each representation, a module or not, it is multiplication with its matrix. (Chapter III, 2, and appendix A, 4.)
pub fn coordinates_of_terms()
    ensures of_rows { (q : Gf) (A : BoundQuiver) (W : Words q A.quiver) (B : IsWordBasis A W) (Y : Rep q A.quiver) (M : IsMod A Y) (t : Term)
        (x : (j : ℕ) → Row q (Y.dim (vertex t j)))
        → coordinate_row A W B (count t) (vertex t) (hom_of_rows A W B (count t) (vertex t) Y M x) ≡ beside_all (count t) (λ j. Y.dim (vertex t j)) x }
    ensures of_row { (q : Gf) (A : BoundQuiver) (W : Words q A.quiver) (B : IsWordBasis A W) (Y : Rep q A.quiver) (M : IsMod A Y) (t : Term)
        (x : Row q (coordinates Y t)) (j : ℕ) → j < count t
        → value A W B (count t) (vertex t) (hom_of_row A W B (count t) (vertex t) Y M x) j ≡ value_in Y t x j }
    ensures places { (q : Gf) (Q : Quiver) (Y : Rep q Q) (t : Term) (x : Row q (coordinates Y t)) (j i : ℕ) → i < Y.dim (vertex t j)
        → (value_in Y t x j).at 0 i ≡ x.at 0 (total j (λ c. Y.dim (vertex t c)) + i) }
    ensures following { (q : Gf) (A : BoundQuiver) (W : Words q A.quiver) (B : IsWordBasis A W) (Y : Rep q A.quiver) (M : IsMod A Y) (t next : Term)
        (d : Hom (sum_of_term W next) (sum_of_term W t))
        → ((i : ℕ) → i < count next → value A W B (count next) (vertex next) d i ≡ generator_row (sum_of_term W t) next i) → (x : Row q (coordinates Y t))
        → follow W Y t next x ≡ coordinate_row A W B (count next) (vertex next) (d ≫ hom_of_row A W B (count t) (vertex t) Y M x) }
    ensures matrix { (q : Gf) (A : BoundQuiver) (W : Words q A.quiver) (B : IsWordBasis A W) (Y : Rep q A.quiver) (M : IsMod A Y) (t next : Term)
        (d : Hom (sum_of_term W next) (sum_of_term W t))
        → ((i : ℕ) → i < count next → value A W B (count next) (vertex next) d i ≡ generator_row (sum_of_term W t) next i)
        → follow_matrix W Y t next ≡ composition_matrix A W B (count next) (vertex next) (count t) (vertex t) Y M d }
    ensures linear { (q : Gf) (Q : Quiver) (W : Words q Q) (Y : Rep q Q) (t next : Term) (x : Row q (coordinates Y t))
        → follow W Y t next x ≡ x · follow_matrix W Y t next }
{}

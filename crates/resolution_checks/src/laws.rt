//! What tests by pivots say, and the entries that following by a differential has. The functions do nothing: their contracts are laws. Chapters are those
//! of Assem, Simson, Skowroński, volume 1.

ghost use Rattle.std.specs.Prelude.{◌≡◌, ◌<◌, ◌+◌, ℕ};
ghost use Rattle.linear_algebra.specs.Field.{Gf, mul};
ghost use Rattle.linear_algebra.specs.Sums.{sum_to};
ghost use Rattle.linear_algebra.specs.Matrix.{Mat, Row, ◌·◌, zeros};
ghost use Rattle.linear_algebra.specs.BlockFamilies.{total};
ghost use Rattle.linear_algebra.specs.Rank.{IsInSpan};
ghost use Rattle.linear_algebra.specs.RowForm.{IsRowReduced, selector};
ghost use Rattle.linear_algebra.proofs.Dimension.{complement};
ghost use Rattle.linear_algebra.proofs.RowForm.{reduced_form};
ghost use Rattle.representations.specs.Quiver.{Quiver};
ghost use Rattle.representations.specs.Rep.{Rep};
ghost use Rattle.projectives.specs.Words.{Words, along_word};
ghost use Rattle.module_types.specs.declared.TermRows.{TermRows as Term};
ghost use Rattle.module_types.specs.TermMatrices.{count, vertex, generator_row, sum_of_term};
ghost use Rattle.module_types.specs.TermCoordinates.{follow_matrix};
ghost use Rattle.claim_conditions.specs.KernelParts.{kernel_rows, IsClosed};

/// The matrix of following by the next differential: at the place of coordinate c of the value of generator j, and that of coordinate z of the value of
/// generator i of the next term, the sum over the words p from the vertex of j to that of i of the coefficient of p in the row of i times entry c, z of
/// the matrix of p. On each representation, a module or not. (Chapter III, 2, and appendix A, 4.)
pub fn following_by_words()
    ensures { (q : Gf) (Q : Quiver) (W : Words q Q) (Y : Rep q Q) (t next : Term) (j c i z : ℕ) → j < count t → c < Y.dim (vertex t j) → i < count next → z < Y.dim (vertex next i)
        → (follow_matrix W Y t next).at (total j (λ g. Y.dim (vertex t g)) + c) (total i (λ g. Y.dim (vertex next g)) + z)
        ≡ sum_to q (W.count (vertex t j) (vertex next i)) (λ p.
        mul q ((generator_row (sum_of_term W t) next i).at 0 (total j (λ g. W.count (vertex t g) (vertex next i)) + p)) ((along_word W Y (vertex t j) (vertex next i) p).at c z)) }
{}

/// A basis of a kernel in reduced row form is the one that the conditions speak of; rows are in its span exactly where their entries at the pivots, as
/// coefficients, give them back; and whether arrows lead out of kernels is a question on arrows below their number. (Chapter III, 1.)
pub fn kernels_by_pivots()
    ensures once { (q : Gf) (m n k : ℕ) (f : Mat q m n) (K : Mat q k m) (pivot : ℕ → ℕ) → IsRowReduced K pivot → K · f ≡ zeros q k n
        → ((x : Row q m) → x · f ≡ zeros q 1 n → IsInSpan K x)
        → (k ≡ (reduced_form (complement f).kernel).size) × ((i j : ℕ) → K.at i j ≡ (reduced_form (complement f).kernel).rows.at i j) }
    ensures coefficients { (q : Gf) (m k n : ℕ) (K : Mat q m n) (pivot : ℕ → ℕ) → IsRowReduced K pivot → (y : Mat q k n) (s : IsInSpan K y) → s.by ≡ y · selector q n m pivot }
    ensures given_back { (q : Gf) (m k n : ℕ) (K : Mat q m n) (pivot : ℕ → ℕ) → IsRowReduced K pivot → (y : Mat q k n) → IsInSpan K y → y · selector q n m pivot · K ≡ y }
    ensures arrows { (q : Gf) (Q : Quiver) (X : Rep q Q) (n : ℕ → ℕ) (f : (w : ℕ) → Mat q (X.dim w) (n w))
        → ((a : ℕ) → a < Q.arrows → IsInSpan (kernel_rows X f (Q.target a)) (kernel_rows X f (Q.source a) · X.mat a)) → IsClosed X f }
{}

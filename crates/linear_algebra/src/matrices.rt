//! The main theorems on matrices over a field of the table.

ghost use Rattle.std.specs.Prelude.{◌≡◌, ◌⊎◌, ℕ, ◌+◌, ◌<◌, ◌≤◌, List};
ghost use Rattle.linear_algebra.specs.Field.{Gf, order};
ghost use Rattle.linear_algebra.specs.Matrix.{Mat, Row, zeros, one, ◌·◌, ◌⊞◌, ◌⊙◌, stack};
ghost use Rattle.linear_algebra.specs.Rank.{RankFactorisation, Complement, IsInSpan, IsSeparate, IsInColumnSpan, HasRightInverse, HasLeftInverse, HasInverse, IsInjective, IsSurjective, IsDependent};
ghost use Rattle.linear_algebra.specs.Ranks.{rank};
ghost use Rattle.linear_algebra.specs.Powers.{mat_power, shifts, IsNilpotent, FittingParts};
ghost use Rattle.linear_algebra.specs.RowForm.{ReducedForm, IsRowReduced, CoReducedForm, IsCoReduced};
ghost use Rattle.linear_algebra.specs.LinearMaps.{IsLinear, matrix_of};
ghost use Rattle.linear_algebra.specs.Solutions.{SolutionBasis};
ghost use Rattle.linear_algebra.specs.Rows.{IsGrid, SameSpan};
ghost use Rattle.linear_algebra.specs.Reduced.{IsReduced};
ghost use Rattle.linear_algebra.specs.Families.{IsCombination, HasFixedRow, ordered_product};

/// Each matrix has a rank factorisation, and the rank is the same in all of them. It is at most the number of rows and
/// at most the number of columns.
pub fn rank()
    ensures exists { (q : Gf) (m n : ℕ) (f : Mat q m n) → RankFactorisation f }
    ensures unique { (q : Gf) (m n : ℕ) (f : Mat q m n) (a b : RankFactorisation f) → a.size ≡ b.size }
    ensures at_most_rows { (q : Gf) (m n : ℕ) (f : Mat q m n) (a : RankFactorisation f) → a.size ≤ m }
    ensures at_most_columns { (q : Gf) (m n : ℕ) (f : Mat q m n) (a : RankFactorisation f) → a.size ≤ n }
{}

/// Kernel and cokernel: the rows that f takes to zero are the combinations of the rows of `kernel`, and a row is in the span
/// of f exactly where `cokernel` takes it to zero; rank and nullity add to the number of rows.
pub fn kernel_and_cokernel()
    ensures exist { (q : Gf) (m n : ℕ) (f : Mat q m n) → Complement f }
    ensures kernel { (q : Gf) (m n : ℕ) (f : Mat q m n) (c : Complement f) (x : Row q m) → x · f ≡ zeros q 1 n → IsInSpan c.kernel x }
    ensures cokernel { (q : Gf) (m n : ℕ) (f : Mat q m n) (c : Complement f) (y : Row q n) → y · c.cokernel ≡ zeros q 1 c.corank → IsInSpan f y }
{}

/// A linear equation x · f = y has a solution, or there is a column that is 0 on the rows of f and 1 on y; never both.
pub fn solvable_or_separated()
    ensures one { (q : Gf) (m n : ℕ) (f : Mat q m n) (y : Row q n) → IsInSpan f y ⊎ IsSeparate f y }
    ensures not_both { (q : Gf) (m n : ℕ) (f : Mat q m n) (y : Row q n) → IsSeparate f y → IsInSpan f y → ⊥ }
{}

/// What is zero on the kernel of f factors through f: where x · b = 0 for each row x with x · f = 0, there is c with f · c = b.
pub fn factors_through()
    ensures { (q : Gf) (m n k : ℕ) (f : Mat q m n) (b : Mat q m k) → ((x : Row q m) → x · f ≡ zeros q 1 n → x · b ≡ zeros q 1 k) → IsInColumnSpan f b }
{}

/// Injective matrices are those with a right inverse, surjective matrices those with a left inverse.
pub fn one_sided_inverses()
    ensures injective { (q : Gf) (m n : ℕ) (f : Mat q m n) → IsInjective f → HasRightInverse f }
    ensures undone_on_the_right { (q : Gf) (m n : ℕ) (f : Mat q m n) → HasRightInverse f → IsInjective f }
    ensures surjective { (q : Gf) (m n : ℕ) (f : Mat q m n) → IsSurjective f → HasLeftInverse f }
    ensures undone_on_the_left { (q : Gf) (m n : ℕ) (f : Mat q m n) → HasLeftInverse f → IsSurjective f }
{}

/// Independent rows are not more than their length (Steinitz), and more rows than their length are dependent.
pub fn independent_rows()
    ensures at_most { (q : Gf) (m n : ℕ) (f : Mat q m n) → HasRightInverse f → m ≤ n }
    ensures dependent { (q : Gf) (m n : ℕ) (f : Mat q m n) → n < m → IsDependent f }
{}

/// A one-sided inverse of a square matrix is two-sided.
pub fn square_inverse()
    ensures { (q : Gf) (n : ℕ) (f g : Mat q n n) → f · g ≡ one q n → g · f ≡ one q n }
{}

/// Fitting's lemma for a square matrix x of size d and an exponent e of at least d: each row is a sum of one that x^e takes
/// to zero and one in the image of x^e; bases of the two spaces are together a basis; and x^e is zero if x is nilpotent.
/// (Assem, Simson, Skowroński, volume 1, chapter I, section 4.)
pub fn fitting()
    ensures parts { (q : Gf) (d e : ℕ) (x : Mat q d d) → d ≤ e → (y : Row q d) → FittingParts x e y }
    ensures basis { (q : Gf) (d e : ℕ) (x : Mat q d d) → d ≤ e → (c : Complement (mat_power x e)) → HasInverse (stack c.kernel c.rank.basis) }
    ensures nilpotent { (q : Gf) (d e : ℕ) (x : Mat q d d) → d ≤ e → IsNilpotent x → mat_power x e ≡ zeros q d d }
{}

/// A family of square matrices of size d whose products of two members are combinations of the family: either every product
/// of d combinations is zero, or some combination fixes a row that is not zero.
pub fn nilpotent_or_fixed()
    ensures { (q : Gf) (d s : ℕ) (g : ℕ → Mat q d d) → ((i j : ℕ) → i < s → j < s → IsCombination s g (g i · g j))
        → ((h : ℕ → Mat q d d) → ((i : ℕ) → i < d → IsCombination s g (h i)) → ordered_product h d ≡ zeros q d d) ⊎ HasFixedRow s g }
{}

/// Reduced row form: each matrix has one with the same span, and two with the same span are equal; so are two lists of rows.
pub fn reduced_row_form()
    ensures exists { (q : Gf) (m n : ℕ) (f : Mat q m n) → ReducedForm f }
    ensures unique { (q : Gf) (k m n : ℕ) (a : Mat q k n) (b : Mat q m n) (p r : ℕ → ℕ) → IsRowReduced a p → IsRowReduced b r → IsInSpan b a → IsInSpan a b
        → (k ≡ m) × ((i j : ℕ) → a.at i j ≡ b.at i j) }
    ensures unique_list { (q : Gf) (k m n : ℕ) (a b : List (List ℕ)) → IsGrid q k n a → IsGrid q m n b → IsReduced n a → IsReduced n b → SameSpan q n a b → a ≡ b }
{}

/// Co-reduced form: the span of each matrix is what some co-reduced matrix takes to zero, and two that take the same rows to
/// zero are equal.
pub fn co_reduced_form()
    ensures exists { (q : Gf) (m n : ℕ) (f : Mat q m n) → CoReducedForm f }
    ensures unique { (q : Gf) (n b c : ℕ) (g : Mat q n b) (h : Mat q n c) (p r : ℕ → ℕ) → IsCoReduced g p → IsCoReduced h r
        → ((x : Row q n) → x · h ≡ zeros q 1 c → x · g ≡ zeros q 1 b) → ((x : Row q n) → x · g ≡ zeros q 1 b → x · h ≡ zeros q 1 c)
        → (b ≡ c) × ((i j : ℕ) → g.at i j ≡ h.at i j) }
{}

/// The Frobenius map on matrices: q-th powers of commuting matrices add, multiples go with them, and a matrix that is its own
/// q-th power is a zero of the product of all X − c, where c runs through the field.
pub fn frobenius()
    ensures powers_add { (q : Gf) (n : ℕ) (y z : Mat q n n) → y · z ≡ z · y → mat_power (y ⊞ z) (order q) ≡ mat_power y (order q) ⊞ mat_power z (order q) }
    ensures multiples { (q : Gf) (n c : ℕ) (y : Mat q n n) → mat_power (c ⊙ y) (order q) ≡ c ⊙ mat_power y (order q) }
    ensures roots { (q : Gf) (n : ℕ) (y : Mat q n n) → mat_power y (order q) ≡ y → shifts y (order q) ≡ zeros q n n }
{}

/// Exactness by ranks: where f · g = 0, every row that g takes to zero is in the span of f exactly where the ranks of f and g
/// add to the number of rows of g.
pub fn exactness()
    ensures by_ranks { (q : Gf) (m n k : ℕ) (f : Mat q m n) (g : Mat q n k) (a : RankFactorisation f) (b : RankFactorisation g) → f · g ≡ zeros q m k
        → a.size + b.size ≡ n → (x : Row q n) → x · g ≡ zeros q 1 k → IsInSpan f x }
    ensures ranks { (q : Gf) (m n k : ℕ) (f : Mat q m n) (g : Mat q n k) (a : RankFactorisation f) (b : RankFactorisation g) → f · g ≡ zeros q m k
        → ((x : Row q n) → x · g ≡ zeros q 1 k → IsInSpan f x) → a.size + b.size ≡ n }
{}

/// The rank tells invertible and zero matrices: of square matrices those of full rank are invertible, and only a zero matrix has rank
/// zero. Matrices that take the same rows to zero have the same rank.
pub fn ranks()
    ensures is_size { (q : Gf) (m n : ℕ) (f : Mat q m n) (a : RankFactorisation f) → rank f ≡ a.size }
    ensures full { (q : Gf) (n : ℕ) (f : Mat q n n) → rank f ≡ n → HasInverse f }
    ensures invertible { (q : Gf) (n : ℕ) (f : Mat q n n) → HasInverse f → rank f ≡ n }
    ensures none { (q : Gf) (m n : ℕ) (f : Mat q m n) → rank f ≡ 0 → f ≡ zeros q m n }
    ensures zero { (q : Gf) (m n : ℕ) (f : Mat q m n) → f ≡ zeros q m n → rank f ≡ 0 }
    ensures same_kernel { (q : Gf) (k m n : ℕ) (f : Mat q k m) (g : Mat q k n)
        → ((x : Row q k) → x · f ≡ zeros q 1 m → x · g ≡ zeros q 1 n) → ((x : Row q k) → x · g ≡ zeros q 1 n → x · f ≡ zeros q 1 m) → rank f ≡ rank g }
{}

/// Kernels by size: rows in reduced row form that f takes to zero span all such rows exactly where they are as many as the rows of f
/// exceed its rank. Cokernels by size: a co-reduced matrix that is zero after f takes to zero just the span of f exactly where its columns are as many as
/// those of f exceed its rank.
pub fn kernels_by_size()
    ensures kernel { (q : Gf) (k m n : ℕ) (f : Mat q m n) (i : Mat q k m) (p : ℕ → ℕ) → IsRowReduced i p → i · f ≡ zeros q k n → k + rank f ≡ m
        → (x : Row q m) → x · f ≡ zeros q 1 n → IsInSpan i x }
    ensures kernel_size { (q : Gf) (k m n : ℕ) (f : Mat q m n) (i : Mat q k m) (p : ℕ → ℕ) → IsRowReduced i p → i · f ≡ zeros q k n
        → ((x : Row q m) → x · f ≡ zeros q 1 n → IsInSpan i x) → k + rank f ≡ m }
    ensures cokernel { (q : Gf) (m n c : ℕ) (f : Mat q m n) (g : Mat q n c) (p : ℕ → ℕ) → IsCoReduced g p → f · g ≡ zeros q m c → rank f + c ≡ n
        → (x : Row q n) → x · g ≡ zeros q 1 c → IsInSpan f x }
    ensures cokernel_size { (q : Gf) (m n c : ℕ) (f : Mat q m n) (g : Mat q n c) (p : ℕ → ℕ) → IsCoReduced g p → f · g ≡ zeros q m c
        → ((x : Row q n) → x · g ≡ zeros q 1 c → IsInSpan f x) → rank f + c ≡ n }
{}

/// The rows that a linear function takes to zero have a basis in reduced row form, of as many rows as the rank of the function's
/// matrix leaves of their length.
pub fn solutions()
    ensures basis { (q : Gf) (m n : ℕ) (f : Row q m → Row q n) → IsLinear f → SolutionBasis f }
    ensures size { (q : Gf) (m n : ℕ) (f : Row q m → Row q n) → IsLinear f → (s : SolutionBasis f) (a : RankFactorisation (matrix_of f)) → s.size + a.size ≡ m }
{}

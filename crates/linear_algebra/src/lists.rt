//! The laws of rows and matrices as lists, which contracts of code speak of.

ghost use Rattle.std.specs.Prelude.{◌≡◌, ◌<◌, ◌↔◌, ℕ, List, [], length, slice_index, slice_index_or};
ghost use Rattle.linear_algebra.specs.Field.{Gf};
ghost use Rattle.linear_algebra.specs.Rows.{IsRow, IsGrid, IsInSpan, SameSpan, times, product};
ghost use Rattle.linear_algebra.specs.Reduced.{IsReduced, remainder};

/// A row times a product is the row times one factor and then times the other.
pub fn products_associate()
    ensures { (q : Gf) (n : ℕ) (x : List ℕ) (a b : List (List ℕ)) → times q n (times q (length b) x a) b ≡ times q n x (product q n a b) }
{}

/// Each row of a matrix is in the span of its rows, and rows that lie in a span have no combinations outside it.
pub fn spans()
    ensures rows { (q : Gf) (m n : ℕ) (rows : List (List ℕ)) (i : ℕ) → IsGrid q m n rows → i < m → IsInSpan q n rows (slice_index_or rows i []) }
    ensures least { (q : Gf) (n : ℕ) (b a : List (List ℕ)) → ((i : ℕ) → i < length a → IsInSpan q n b (slice_index_or a i []))
        → (x : List ℕ) → IsInSpan q n a x → IsInSpan q n b x }
{}

/// A row is in the span of a matrix in reduced row form exactly where nothing is left of it when the pivot columns are cleared.
pub fn remainder_tells()
    ensures { (q : Gf) (m n : ℕ) (form : List (List ℕ)) (x : List ℕ) → IsGrid q m n form → IsReduced n form → IsRow q n x
        → IsInSpan q n form x ↔ ((j : ℕ) → j < n → slice_index (remainder q n form x) j ≡ 0) }
{}

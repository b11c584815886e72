//! What the number that elimination answers is.

ghost use Rattle.std.specs.Prelude.{◌≡◌, ℕ, List};
ghost use Rattle.linear_algebra.specs.Field.{Gf};
ghost use Rattle.linear_algebra.specs.Rank.{RankFactorisation};
ghost use Rattle.linear_algebra.specs.Reduced.{IsReduced, ReducesTo};
ghost use Rattle.linear_algebra.specs.Rows.{IsGrid, SameSpan};
ghost use Rattle.linear_algebra.specs.Typed.{as_mat};

/// Where rows in reduced row form have the span of the rows of a matrix, there are as many as its rank says. So the number that `echelon_rows` and
/// `echelon_in_place` answer is the rank.
pub fn ranks()
    ensures forms { (q : Gf) (m k n : ℕ) (rows form : List (List ℕ)) → IsGrid q m n rows → IsGrid q k n form → IsReduced n form → SameSpan q n rows form
        → (r : RankFactorisation (as_mat q m n rows)) → r.size ≡ k }
    ensures answers { (q : Gf) (m n : ℕ) (old new : List (List ℕ)) (pivots : List ℕ) (rank : ℕ) → IsGrid q m n old → IsGrid q m n new → ReducesTo q n old new pivots rank
        → (r : RankFactorisation (as_mat q m n old)) → r.size ≡ rank }
{}

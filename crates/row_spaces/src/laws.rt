//! Each of the forms is determined by the space.

ghost use Rattle.std.specs.Prelude.{◌≡◌, ℕ};
ghost use Rattle.linear_algebra.specs.Field.{Gf};
ghost use Rattle.linear_algebra.specs.Matrix.{Mat};
ghost use Rattle.row_spaces.specs.RowSpaces.{IsRowFormOf, IsKernelBasis, IsQuotientBy};

/// Two bases in reduced row form of one span are equal, and so are two of one kernel, and two co-reduced projections onto one quotient.
pub fn forms_are_determined()
    ensures row_forms { (q : Gf) (k l m n : ℕ) (f : Mat q m n) (a : Mat q k n) (b : Mat q l n) → IsRowFormOf f a → IsRowFormOf f b
        → (k ≡ l) × ((i j : ℕ) → a.at i j ≡ b.at i j) }
    ensures kernels { (q : Gf) (k l m n : ℕ) (f : Mat q m n) (a : Mat q k m) (b : Mat q l m) → IsKernelBasis f a → IsKernelBasis f b
        → (k ≡ l) × ((i j : ℕ) → a.at i j ≡ b.at i j) }
    ensures quotients { (q : Gf) (b c m n : ℕ) (f : Mat q m n) (g : Mat q n b) (h : Mat q n c) → IsQuotientBy f g → IsQuotientBy f h
        → (b ≡ c) × ((i j : ℕ) → g.at i j ≡ h.at i j) }
{}

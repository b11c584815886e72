//! The laws of minimal projective resolutions. Chapters are those of Assem, Simson, Skowroński, volume 1.

ghost use Rattle.std.specs.Prelude.{◌≡◌, ◌≤◌, ℕ, List};
ghost use Rattle.linear_algebra.specs.Field.{Gf};
ghost use Rattle.linear_algebra.specs.Rank.{IsInSpan};
ghost use Rattle.linear_algebra.specs.RowForm.{IsRowReduced};
ghost use Rattle.representations.specs.Quiver.{Quiver, BoundQuiver};
ghost use Rattle.representations.specs.Rep.{Rep, IsMod};
ghost use Rattle.representations.specs.Hom.{Hom};
ghost use Rattle.representations.specs.Module.{IsExact};
ghost use Rattle.representations.specs.Submodule.{Submodule};
ghost use Rattle.projectives.specs.Words.{Words, IsWordBasis};
ghost use Rattle.projectives.specs.Covers.{KernelInRadical};
ghost use Rattle.projectives.specs.ReducedSubmodule.{reduced, reduced_kernel};
ghost use Rattle.projectives.specs.CanonicalCover.{projectives_at, IsCanonicalCover};
ghost use Rattle.projectives.specs.Resolutions.{ProjectiveSequence, IsMinimalResolution, IsCanonicalResolution, stage};

/// The step of a resolution: the kernel of each homomorphism out of a module has a cover by its canonical generators, and such a cover f of
/// the kernel of d is exact before d, with its kernel in the radical. (Chapter I, 5.)
pub fn resolution_step()
    ensures exists { (q : Gf) (A : BoundQuiver) (W : Words q A.quiver) (B : IsWordBasis A W)
        (X Y : Rep q A.quiver) → IsMod A X → (d : Hom X Y)
        → (vs : List ℕ) × (f : Hom (projectives_at W vs) X) × IsCanonicalCover A W B (reduced_kernel d) vs f }
    ensures exact { (q : Gf) (A : BoundQuiver) (W : Words q A.quiver) (B : IsWordBasis A W)
        (X Y : Rep q A.quiver) → IsMod A X → (d : Hom X Y) (vs : List ℕ) (f : Hom (projectives_at W vs) X)
        → IsCanonicalCover A W B (reduced_kernel d) vs f → IsExact f d }
    ensures minimal { (q : Gf) (A : BoundQuiver) (W : Words q A.quiver) (B : IsWordBasis A W)
        (X Y : Rep q A.quiver) → IsMod A X → (d : Hom X Y) (vs : List ℕ) (f : Hom (projectives_at W vs) X)
        → IsCanonicalCover A W B (reduced_kernel d) vs f → KernelInRadical f }
{}

/// Each module has minimal projective resolutions of each length, and so minimal projective presentations: there is a sequence whose
/// generators are canonical at each place, and each such sequence is a minimal resolution. (Chapter I, 5, and appendix A, 4.)
pub fn each_has_minimal_resolution()
    ensures exists { (q : Gf) (A : BoundQuiver) (W : Words q A.quiver) (B : IsWordBasis A W)
        (M : Rep q A.quiver)
        → IsMod A M → (R : ProjectiveSequence W M) × ((k : ℕ) → IsCanonicalResolution A W B M R k) }
    ensures minimal { (q : Gf) (A : BoundQuiver) (W : Words q A.quiver) (B : IsWordBasis A W)
        (M : Rep q A.quiver) → IsMod A M → (R : ProjectiveSequence W M) (k : ℕ)
        → IsCanonicalResolution A W B M R k → IsMinimalResolution W M R k }
{}

/// The resolution with canonical generators is a function of the module: two of them have the same terms and the same homomorphisms up to
/// the place to which their generators are canonical. (Chapter I, 5, and appendix A, 4.)
pub fn canonical_resolution_is_unique()
    ensures { (q : Gf) (A : BoundQuiver) (W : Words q A.quiver) (B : IsWordBasis A W) (M : Rep q A.quiver)
        → IsMod A M → (R S : ProjectiveSequence W M) (k : ℕ) → IsCanonicalResolution A W B M R k
        → IsCanonicalResolution A W B M S k
        → (n : ℕ) → n ≤ k → stage W M R n ≡ stage W M S n }
{}

/// A submodule has one basis in reduced row form at each vertex. So whether a homomorphism covers it by canonical generators does not
/// depend on where its inclusion in reduced row form comes from. (Chapter I, 5.)
pub fn reduced_inclusions()
    ensures once { (q : Gf) (Q : Quiver) (X : Rep q Q) (U V : Submodule X) (pivot : ℕ → ℕ → ℕ)
        → ((v : ℕ) → IsRowReduced (V.basis v) (pivot v))
        → ((v : ℕ) → IsInSpan (V.basis v) (U.basis v)) → ((v : ℕ) → IsInSpan (U.basis v) (V.basis v))
        → (v : ℕ) → (V.size v ≡ (reduced U).size v) × ((i j : ℕ) → (V.basis v).at i j ≡ ((reduced U).basis v).at i j) }
    ensures covers { (q : Gf) (A : BoundQuiver) (W : Words q A.quiver) (B : IsWordBasis A W)
        (X : Rep q A.quiver) (U V : Submodule X) (pivot : ℕ → ℕ → ℕ)
        → ((v : ℕ) → IsRowReduced (V.basis v) (pivot v))
        → ((v : ℕ) → IsInSpan (V.basis v) (U.basis v)) → ((v : ℕ) → IsInSpan (U.basis v) (V.basis v))
        → (vs : List ℕ) (f : Hom (projectives_at W vs) X)
        → IsCanonicalCover A W B V vs f → IsCanonicalCover A W B (reduced U) vs f }
    ensures is_covered { (q : Gf) (A : BoundQuiver) (W : Words q A.quiver) (B : IsWordBasis A W)
        (X : Rep q A.quiver) (U V : Submodule X) (pivot : ℕ → ℕ → ℕ)
        → ((v : ℕ) → IsRowReduced (V.basis v) (pivot v))
        → ((v : ℕ) → IsInSpan (V.basis v) (U.basis v)) → ((v : ℕ) → IsInSpan (U.basis v) (V.basis v))
        → (vs : List ℕ) (f : Hom (projectives_at W vs) X)
        → IsCanonicalCover A W B (reduced U) vs f → IsCanonicalCover A W B V vs f }
{}

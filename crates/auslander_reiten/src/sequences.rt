//! The main theorem on almost split sequences, and that they exist. Chapters are those of Assem, Simson, Skowroński, volume 1.

ghost use Rattle.std.specs.Prelude.{◌≡◌, ◌≢◌, ◌<◌, ◌⊎◌, ℕ};
ghost use Rattle.linear_algebra.specs.Field.{Gf};
ghost use Rattle.linear_algebra.specs.Matrix.{Mat, Row, zeros};
ghost use Rattle.linear_algebra.specs.Parts.{row, unit};
ghost use Rattle.linear_algebra.specs.Rank.{IsInSpan};
ghost use Rattle.representations.specs.Quiver.{BoundQuiver};
ghost use Rattle.representations.specs.Rep.{Rep, IsMod};
ghost use Rattle.representations.specs.Hom.{Hom, ◌≫◌};
ghost use Rattle.representations.specs.Module.{IsNilpotent};
ghost use Rattle.representations.specs.HomSpace.{HomBasis};
ghost use Rattle.projectives.specs.TwoSided.{TwoSided};
ghost use Rattle.projectives.specs.Injective.{injectives};
ghost use Rattle.projectives.specs.Pairing.{pairing};
ghost use Rattle.local_modules.specs.Certificate.{LocalCertificate};
ghost use Rattle.local_modules.specs.Local.{IsLocal};
ghost use Rattle.local_modules.specs.MatrixAlgebra.{endomorphism_algebra};
ghost use Rattle.auslander_reiten.specs.Presentation.{IsProjective};
ghost use Rattle.auslander_reiten.specs.AlmostSplit.{IsAlmostSplit, AlmostSplitSequence, SequenceIsomorphism};
ghost use Rattle.auslander_reiten.specs.SequenceData.{LocalPresentation, EndFunctional, SequenceData, CanonicalSequence};

/// The sequence of the data is almost split. (Chapter IV, 1 to 3.)
pub fn almost_split_sequences()
    ensures { (q : Gf) (A : BoundQuiver) (T : TwoSided q A) (L E M : Rep q A.quiver) (D : LocalPresentation T M)
        (F : EndFunctional T D) (f : Hom L E) (g : Hom E M) → SequenceData T D F f g → IsAlmostSplit A f g }
{}

/// The data exist: a local module with such a presentation has a functional that is zero on the endomorphisms that are no isomorphisms and
/// not on all. A homomorphism M → νP' that is given is such a functional where it is zero on rows whose span has the nilpotent endomorphisms,
/// as on the ideal of a certificate, and not on some endomorphism; then it is not zero on some member of a basis. Each functional has its sequence, with both embeddings in reduced row form. (Chapter IV, 3.)
pub fn data_exist()
    ensures functionals { (q : Gf) (A : BoundQuiver) (T : TwoSided q A) (M : Rep q A.quiver) (D : LocalPresentation T M)
        → EndFunctional T D }
    ensures by_ideal { (q : Gf) (A : BoundQuiver) (T : TwoSided q A) (M : Rep q A.quiver) (D : LocalPresentation T M) (B : HomBasis M M)
        (t : Hom M (injectives T D.h D.u)) (m : ℕ) (ideal : Mat q m B.size)
        → ((x : Row q B.size) → IsNilpotent (B.hom x) → IsInSpan ideal x)
        → ((i : ℕ) → i < m → pairing T D.h D.u (D.c ≫ B.hom (row i ideal)) t ≡ zeros q 1 1)
        → (e : Row q B.size) → pairing T D.h D.u (D.c ≫ B.hom e) t ≢ zeros q 1 1 → (F : EndFunctional T D) × (F.t ≡ t) }
    ensures by_certificate { (q : Gf) (A : BoundQuiver) (T : TwoSided q A) (M : Rep q A.quiver) (D : LocalPresentation T M) (B : HomBasis M M)
        (t : Hom M (injectives T D.h D.u)) (c : LocalCertificate (endomorphism_algebra B))
        → ((i : ℕ) → i < c.count → pairing T D.h D.u (D.c ≫ B.hom (row i c.ideal)) t ≡ zeros q 1 1)
        → (e : Row q B.size) → pairing T D.h D.u (D.c ≫ B.hom e) t ≢ zeros q 1 1 → (F : EndFunctional T D) × (F.t ≡ t) }
    ensures on_basis { (q : Gf) (A : BoundQuiver) (T : TwoSided q A) (M : Rep q A.quiver) (D : LocalPresentation T M) (B : HomBasis M M)
        (t : Hom M (injectives T D.h D.u)) (x : Hom M M) → pairing T D.h D.u (D.c ≫ x) t ≢ zeros q 1 1
        → (i : ℕ) × (i < B.size) × (pairing T D.h D.u (D.c ≫ B.hom (unit q B.size i)) t ≢ zeros q 1 1) }
    ensures sequences { (q : Gf) (A : BoundQuiver) (T : TwoSided q A) (M : Rep q A.quiver) (D : LocalPresentation T M)
        (F : EndFunctional T D) → CanonicalSequence T D F }
{}

/// Each local module is projective, or the right end of an almost split sequence; and never both. (Chapter IV, 3.1.)
pub fn existence()
    ensures either { (q : Gf) (A : BoundQuiver) (T : TwoSided q A) (M : Rep q A.quiver) → IsMod A M → IsLocal M
        → AlmostSplitSequence A M ⊎ IsProjective T.words M }
    ensures never_both { (q : Gf) (A : BoundQuiver) (T : TwoSided q A) (M : Rep q A.quiver) → AlmostSplitSequence A M
        → IsProjective T.words M → ⊥ }
{}

/// An almost split sequence is determined by its right end: two with the same right end are isomorphic, with the identity there.
/// (Chapter IV, 1.)
pub fn uniqueness()
    ensures { (q : Gf) (A : BoundQuiver) (L E M L' E' : Rep q A.quiver) (f : Hom L E) (g : Hom E M) → IsAlmostSplit A f g
        → (f' : Hom L' E') (g' : Hom E' M) → IsAlmostSplit A f' g' → SequenceIsomorphism f g f' g' }
{}

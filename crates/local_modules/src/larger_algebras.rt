//! The laws of subalgebras and of algebras embedded in larger ones. Chapters are those of Assem, Simson, Skowroński, volume 1.

ghost use Rattle.std.specs.Prelude.{◌≡◌, ◌<◌, ◌+◌, ◌⊎◌, ℕ};
ghost use Rattle.linear_algebra.specs.Field.{Gf, order};
ghost use Rattle.linear_algebra.specs.Matrix.{Mat, ◌⊟◌, ◌·◌};
ghost use Rattle.linear_algebra.specs.Parts.{row};
ghost use Rattle.linear_algebra.specs.Rank.{IsInSpan, HasRightInverse};
ghost use Rattle.linear_algebra.specs.Ranks.{rank};
ghost use Rattle.linear_algebra.specs.RowForm.{IsRowReduced};
ghost use Rattle.representations.specs.Quiver.{Quiver};
ghost use Rattle.representations.specs.Rep.{Rep};
ghost use Rattle.representations.specs.HomSpace.{HomBasis};
ghost use Rattle.local_modules.specs.Algebra.{Algebra, Element, power_in};
ghost use Rattle.local_modules.specs.Ideal.{IsTwoSided, IsLeastPower, IsCongruent, IsUnitModulo, IsFrobeniusField, IsListedDivisionRing};
ghost use Rattle.local_modules.specs.Residue.{ResidueRing, IsRemainder};
ghost use Rattle.local_modules.specs.Certificate.{LocalCertificate};
ghost use Rattle.local_modules.specs.MatrixAlgebra.{endomorphism_algebra};
ghost use Rattle.local_modules.specs.FamilyAlgebra.{family_algebra};
ghost use Rattle.local_modules.specs.Subalgebra.{IsSubalgebra, IsEmbedding, IsIdealOf, CommutesModulo, IsFrobeniusOf, IsListedOf, subalgebra};

/// Rows span a subalgebra where the unit and the products of two rows are in the span; a subspace is an ideal of it where the products of a row of the
/// one and a row of the other are in the subspace, on both sides; modulo the ideal it is commutative where its rows commute. Independent rows are the
/// basis of an algebra of their own, embedded in the larger one. (Chapter I, 1.)
pub fn subalgebras_by_rows()
    ensures subalgebra { (q : Gf) (E : Algebra q) (n : ℕ) (ring : Mat q n E.size) → IsInSpan ring E.unit
        → ((i j : ℕ) → i < n → j < n → IsInSpan ring (E.product (row i ring) (row j ring))) → IsSubalgebra E ring }
    ensures ideal { (q : Gf) (E : Algebra q) (n k : ℕ) (ring : Mat q n E.size) (ideal : Mat q k E.size)
        → ((i j : ℕ) → i < n → j < k → IsInSpan ideal (E.product (row i ring) (row j ideal)))
        → ((i j : ℕ) → i < n → j < k → IsInSpan ideal (E.product (row j ideal) (row i ring))) → IsIdealOf E ring ideal }
    ensures commutative { (q : Gf) (E : Algebra q) (n k : ℕ) (ring : Mat q n E.size) (ideal : Mat q k E.size)
        → ((i j : ℕ) → i < n → j < n → IsCongruent ideal (E.product (row i ring) (row j ring)) (E.product (row j ring) (row i ring))) → CommutesModulo E ring ideal }
    ensures coordinates { (q : Gf) (E : Algebra q) (n : ℕ) (ring : Mat q n E.size) (i : HasRightInverse ring) (c : IsSubalgebra E ring)
        → IsEmbedding (subalgebra E ring i c) E ring }
{}

/// Along an embedding of A in E, rows of A span a two-sided ideal exactly where their images span an ideal of the image of A; the least power of it that
/// is zero is the same; and the residue ring has each of the two forms exactly where it has it in E. So the certificates of A are what such images are
/// that stand for rows in reduced row form. (Chapter I, 1 and 4.)
pub fn embeddings()
    ensures ideal { (q : Gf) (A E : Algebra q) (f : Mat q A.size E.size) → IsEmbedding A E f → (k : ℕ) (I : Mat q k A.size) → IsIdealOf E f (I · f) → IsTwoSided A I }
    ensures ideal_back { (q : Gf) (A E : Algebra q) (f : Mat q A.size E.size) → IsEmbedding A E f → (k : ℕ) (I : Mat q k A.size) → IsTwoSided A I → IsIdealOf E f (I · f) }
    ensures power { (q : Gf) (A E : Algebra q) (f : Mat q A.size E.size) → IsEmbedding A E f → (k : ℕ) (I : Mat q k A.size) (s : ℕ) → IsLeastPower E (I · f) s → IsLeastPower A I s }
    ensures power_back { (q : Gf) (A E : Algebra q) (f : Mat q A.size E.size) → IsEmbedding A E f → (k : ℕ) (I : Mat q k A.size) (s : ℕ) → IsLeastPower A I s → IsLeastPower E (I · f) s }
    ensures frobenius { (q : Gf) (A E : Algebra q) (f : Mat q A.size E.size) → IsEmbedding A E f → (k : ℕ) (I : Mat q k A.size) → IsFrobeniusOf E f (I · f) → IsFrobeniusField A I }
    ensures frobenius_back { (q : Gf) (A E : Algebra q) (f : Mat q A.size E.size) → IsEmbedding A E f → (k : ℕ) (I : Mat q k A.size) → IsFrobeniusField A I → IsFrobeniusOf E f (I · f) }
    ensures listed { (q : Gf) (A E : Algebra q) (f : Mat q A.size E.size) → IsEmbedding A E f → (k : ℕ) (I : Mat q k A.size) → IsListedOf E f (I · f) → IsListedDivisionRing A I }
    ensures listed_back { (q : Gf) (A E : Algebra q) (f : Mat q A.size E.size) → IsEmbedding A E f → (k : ℕ) (I : Mat q k A.size) → IsListedDivisionRing A I → IsListedOf E f (I · f) }
    ensures certificate { (q : Gf) (A E : Algebra q) (f : Mat q A.size E.size) → IsEmbedding A E f → (k : ℕ) (I : Mat q k A.size) (pivot : ℕ → ℕ) → IsRowReduced I pivot
        → IsIdealOf E f (I · f) → (s : ℕ) → IsLeastPower E (I · f) s → IsFrobeniusOf E f (I · f) ⊎ IsListedOf E f (I · f)
        → (c : LocalCertificate A) × IsInSpan c.ideal I × IsInSpan I c.ideal × (c.power ≡ s) }
    ensures certificate_back { (q : Gf) (A E : Algebra q) (f : Mat q A.size E.size) → IsEmbedding A E f → (c : LocalCertificate A)
        → IsIdealOf E f (c.ideal · f) × IsLeastPower E (c.ideal · f) c.power × (IsFrobeniusOf E f (c.ideal · f) ⊎ IsListedOf E f (c.ideal · f)) }
{}

/// Of a subalgebra and its ideal only the spans count: by other rows with the same spans the residue ring has the same form. (Chapter I, 1.)
pub fn spans_count()
    ensures subalgebra { (q : Gf) (E : Algebra q) (m n : ℕ) (ring : Mat q m E.size) (f : Mat q n E.size) → IsInSpan ring f → IsInSpan f ring → IsSubalgebra E f → IsSubalgebra E ring }
    ensures ideal { (q : Gf) (E : Algebra q) (m n k l : ℕ) (ring : Mat q m E.size) (f : Mat q n E.size) (ideal : Mat q k E.size) (J : Mat q l E.size)
        → IsInSpan ring f → IsInSpan f ring → IsInSpan ideal J → IsInSpan J ideal → IsIdealOf E f J → IsIdealOf E ring ideal }
    ensures frobenius { (q : Gf) (E : Algebra q) (m n k l : ℕ) (ring : Mat q m E.size) (f : Mat q n E.size) (ideal : Mat q k E.size) (J : Mat q l E.size)
        → IsInSpan ring f → IsInSpan f ring → IsInSpan ideal J → IsInSpan J ideal → IsFrobeniusOf E f J → IsFrobeniusOf E ring ideal }
    ensures listed { (q : Gf) (E : Algebra q) (m n k l : ℕ) (ring : Mat q m E.size) (f : Mat q n E.size) (ideal : Mat q k E.size) (J : Mat q l E.size)
        → IsInSpan ring f → IsInSpan f ring → IsInSpan ideal J → IsInSpan J ideal → IsListedOf E f J → IsListedOf E ring ideal }
{}

/// The residue ring of an embedded algebra, by rows of the larger one. Let J be the rows in reduced row form that span the image of the ideal. The dimension of
/// the residue ring is that of the algebra less the number of rows of J. Where it is commutative it is a Frobenius field exactly where the remainders
/// modulo J of the q-th powers of the basis have that dimension as their rank, and those of these powers less the basis that dimension less 1. And y is invertible modulo the
/// ideal exactly where the remainders of the products of the basis with y have that rank. (Chapter I, 1.)
pub fn residue_rings_by_rows()
    ensures size { (q : Gf) (A E : Algebra q) (f : Mat q A.size E.size) → IsEmbedding A E f → HasRightInverse f → (k l : ℕ) (I : Mat q k A.size) (R : ResidueRing A I)
        (J : Mat q l E.size) (pivot : ℕ → ℕ) → IsRowReduced J pivot → IsInSpan (I · f) J → IsInSpan J (I · f) → l + R.ring.size ≡ A.size }
    ensures frobenius { (q : Gf) (A E : Algebra q) (f : Mat q A.size E.size) → IsEmbedding A E f → HasRightInverse f → (k l : ℕ) (I : Mat q k A.size) (R : ResidueRing A I)
        (J : Mat q l E.size) (pivot : ℕ → ℕ) → IsRowReduced J pivot → IsInSpan (I · f) J → IsInSpan J (I · f) → CommutesModulo E f (I · f)
        → (p first second : Mat q A.size E.size) → ((i : ℕ) → i < A.size → row i p ≡ power_in E (row i f) (order q))
        → IsRemainder J pivot p first → IsRemainder J pivot (p ⊟ f) second
        → rank first ≡ R.ring.size → 1 + rank second ≡ R.ring.size → IsFrobeniusOf E f (I · f) }
    ensures frobenius_back { (q : Gf) (A E : Algebra q) (f : Mat q A.size E.size) → IsEmbedding A E f → HasRightInverse f → (k l : ℕ) (I : Mat q k A.size) (R : ResidueRing A I)
        (J : Mat q l E.size) (pivot : ℕ → ℕ) → IsRowReduced J pivot → IsInSpan (I · f) J → IsInSpan J (I · f)
        → (p first second : Mat q A.size E.size) → ((i : ℕ) → i < A.size → row i p ≡ power_in E (row i f) (order q))
        → IsRemainder J pivot p first → IsRemainder J pivot (p ⊟ f) second
        → IsFrobeniusOf E f (I · f) → (rank first ≡ R.ring.size) × (1 + rank second ≡ R.ring.size) }
    ensures unit { (q : Gf) (A E : Algebra q) (f : Mat q A.size E.size) → IsEmbedding A E f → HasRightInverse f → (k l : ℕ) (I : Mat q k A.size) (R : ResidueRing A I)
        (J : Mat q l E.size) (pivot : ℕ → ℕ) → IsRowReduced J pivot → IsInSpan (I · f) J → IsInSpan J (I · f) → (y : Element A) (p rest : Mat q A.size E.size)
        → ((i : ℕ) → i < A.size → row i p ≡ E.product (row i f) (y · f)) → IsRemainder J pivot p rest → rank rest ≡ R.ring.size → IsUnitModulo A I y }
    ensures unit_back { (q : Gf) (A E : Algebra q) (f : Mat q A.size E.size) → IsEmbedding A E f → HasRightInverse f → (k l : ℕ) (I : Mat q k A.size) (R : ResidueRing A I)
        (J : Mat q l E.size) (pivot : ℕ → ℕ) → IsRowReduced J pivot → IsInSpan (I · f) J → IsInSpan J (I · f) → (y : Element A) (p rest : Mat q A.size E.size)
        → ((i : ℕ) → i < A.size → row i p ≡ E.product (row i f) (y · f)) → IsRemainder J pivot p rest → IsUnitModulo A I y → rank rest ≡ R.ring.size }
{}

/// The endomorphism algebra of a module is embedded in the algebra of all families of matrices, by the rows of a basis. (Chapter I, 1.)
pub fn endomorphisms_among_families()
    ensures { (q : Gf) (Q : Quiver) (X : Rep q Q) (B : HomBasis X X) → IsEmbedding (endomorphism_algebra B) (family_algebra X) B.basis }
{}

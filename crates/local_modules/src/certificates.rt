//! The laws of matrix algebras, certificates of locality, and decompositions into local modules. Chapters are those of Assem, Simson, Skowroński,
//! volume 1.

ghost use Rattle.std.specs.Prelude.{◌≡◌, ◌≢◌, ◌<◌, ◌≤◌, ◌⊎◌, ℕ, zero, suc};
ghost use Rattle.linear_algebra.specs.Field.{Gf};
ghost use Rattle.linear_algebra.specs.Matrix.{Mat, Row, zeros, one, ◌·◌};
ghost use Rattle.linear_algebra.specs.Parts.{row, unit};
ghost use Rattle.linear_algebra.specs.Rank.{IsInSpan, HasRightInverse};
ghost use Rattle.linear_algebra.specs.RowForm.{IsRowReduced};
ghost use Rattle.representations.specs.Quiver.{Quiver};
ghost use Rattle.representations.specs.Rep.{Rep};
ghost use Rattle.representations.specs.Hom.{Hom};
ghost use Rattle.representations.specs.HomSpace.{HomBasis};
ghost use Rattle.representations.specs.Module.{IsIso, IsNilpotent, IsZero};
ghost use Rattle.local_modules.specs.Algebra.{Algebra, Element, product_in, IsUnitIn, IsNilpotentIn, IsMixed};
ghost use Rattle.local_modules.specs.Ideal.{IsTwoSided, PowerVanishes, IsLeastPower, IsCommutativeModulo, IsFrobeniusField, IsListedDivisionRing};
ghost use Rattle.local_modules.specs.Annihilator.{IsStableAt, IsAnnihilatorAt};
ghost use Rattle.local_modules.specs.ImageChain.{IsImageChain, IsImageAfter, IsImageOf, ProductsVanish, VanishFrom};
ghost use Rattle.local_modules.specs.MatrixAlgebra.{MatrixAlgebra, algebra_of, endomorphism_algebra, IsCombinationOf, IsClosedSpan};
ghost use Rattle.local_modules.specs.Certificate.{LocalCertificate};
ghost use Rattle.local_modules.specs.Local.{IsLocal};
ghost use Rattle.local_modules.specs.Decomposition.{LocalDecomposition};
ghost use Rattle.local_modules.specs.Isomorphic.{Matching};

/// A span of endomorphisms that contains the identity and is closed under composition is a matrix algebra. Its invertible elements are isomorphisms, and
/// its nilpotent elements are nilpotent. (Chapter I, 1.)
pub fn matrix_algebras()
    ensures of_span { (q : Gf) (Q : Quiver) (X : Rep q Q) (m : ℕ) (h : ℕ → Hom X X) → IsClosedSpan m h
        → (M : MatrixAlgebra X) × ((x : Row q M.size) → IsCombinationOf m h (M.element x)) × ((f : Hom X X) → IsCombinationOf m h f → (x : Row q M.size) × (M.element x ≡ f)) }
    ensures invertible { (q : Gf) (Q : Quiver) (X : Rep q Q) (M : MatrixAlgebra X) (x : Row q M.size) → IsUnitIn (algebra_of M) x → IsIso (M.element x) }
    ensures nilpotent { (q : Gf) (Q : Quiver) (X : Rep q Q) (M : MatrixAlgebra X) (x : Row q M.size) → IsNilpotentIn (algebra_of M) x → IsNilpotent (M.element x) }
    ensures nilpotent_back { (q : Gf) (Q : Quiver) (X : Rep q Q) (M : MatrixAlgebra X) (x : Row q M.size) → IsNilpotent (M.element x) → IsNilpotentIn (algebra_of M) x }
{}

/// All products of s members of an ideal of a matrix algebra are zero exactly where all products of s of its rows are zero at each vertex, and exactly
/// where the s-th images of all rows under them are zero at each vertex. If they are zero for some s, they are zero for each number that is at least the
/// dimension at each vertex; so the least number from 1 on is at most the largest dimension, or 1. (Chapter I, 1.)
pub fn powers_at_vertices()
    ensures at_vertices { (q : Gf) (Q : Quiver) (X : Rep q Q) (M : MatrixAlgebra X) (k : ℕ) (I : Mat q k M.size) (s : ℕ) → PowerVanishes (algebra_of M) I s
        → (v : ℕ) → ProductsVanish k (λ j. (M.element (row j I)).at v) s }
    ensures from_vertices { (q : Gf) (Q : Quiver) (X : Rep q Q) (M : MatrixAlgebra X) (k : ℕ) (I : Mat q k M.size) (s : ℕ)
        → ((v : ℕ) → ProductsVanish k (λ j. (M.element (row j I)).at v) s) → PowerVanishes (algebra_of M) I s }
    ensures images { (q : Gf) (Q : Quiver) (X : Rep q Q) (M : MatrixAlgebra X) (k : ℕ) (I : Mat q k M.size) (size : ℕ → ℕ → ℕ) (V : (v i : ℕ) → Mat q (size v i) (X.dim v))
        → ((v : ℕ) → IsImageChain k (λ j. (M.element (row j I)).at v) (size v) (V v)) → (s : ℕ) → PowerVanishes (algebra_of M) I s → (v : ℕ) → V v s ≡ zeros q (size v s) (X.dim v) }
    ensures from_images { (q : Gf) (Q : Quiver) (X : Rep q Q) (M : MatrixAlgebra X) (k : ℕ) (I : Mat q k M.size) (size : ℕ → ℕ → ℕ) (V : (v i : ℕ) → Mat q (size v i) (X.dim v))
        → ((v : ℕ) → IsImageChain k (λ j. (M.element (row j I)).at v) (size v) (V v)) → (s : ℕ) → ((v : ℕ) → V v s ≡ zeros q (size v s) (X.dim v)) → PowerVanishes (algebra_of M) I s }
    ensures bound { (q : Gf) (Q : Quiver) (X : Rep q Q) (M : MatrixAlgebra X) (k : ℕ) (I : Mat q k M.size) → IsTwoSided (algebra_of M) I
        → (s : ℕ) → PowerVanishes (algebra_of M) I s → (d : ℕ) → ((v : ℕ) → X.dim v ≤ d) → PowerVanishes (algebra_of M) I d }
    ensures least_bound { (q : Gf) (Q : Quiver) (X : Rep q Q) (M : MatrixAlgebra X) (k : ℕ) (I : Mat q k M.size) → IsTwoSided (algebra_of M) I
        → (s : ℕ) → IsLeastPower (algebra_of M) I s → (d : ℕ) → 1 ≤ d → ((v : ℕ) → X.dim v ≤ d) → s ≤ d }
{}

/// The images of all rows under square matrices, taken again and again, by bases: at first all rows; then the sum of the images of the last ones. Their
/// number does not grow. There are none after i times exactly where all products of i matrices are zero; and where the number is the same once more, and
/// not 0, that never comes.
pub fn images_step_by_step()
    ensures first { (q : Gf) (d k : ℕ) (g : ℕ → Mat q d d) (V : Mat q d d) → V ≡ one q d → IsImageAfter k g 0 V }
    ensures step { (q : Gf) (d k : ℕ) (g : ℕ → Mat q d d) (i r s : ℕ) (V : Mat q r d) (W : Mat q s d) → IsImageAfter k g i V → HasRightInverse W → IsImageOf k g V W → IsImageAfter k g (suc i) W }
    ensures smaller { (q : Gf) (d k : ℕ) (g : ℕ → Mat q d d) (i r s : ℕ) (V : Mat q r d) (W : Mat q s d) → IsImageAfter k g i V → IsImageAfter k g (suc i) W → s ≤ r }
    ensures zero { (q : Gf) (d k : ℕ) (g : ℕ → Mat q d d) (i r : ℕ) (V : Mat q r d) → IsImageAfter k g i V → r ≡ 0 → ProductsVanish k g i }
    ensures zero_back { (q : Gf) (d k : ℕ) (g : ℕ → Mat q d d) (i r : ℕ) (V : Mat q r d) → IsImageAfter k g i V → ProductsVanish k g i → r ≡ 0 }
    ensures just_from { (q : Gf) (d k : ℕ) (g : ℕ → Mat q d d) (i r : ℕ) (V : Mat q r d) → IsImageAfter k g i V → r ≡ 0 → ((s : ℕ) → s < i → ProductsVanish k g s → ⊥) → VanishFrom k g i }
    ensures never { (q : Gf) (d k : ℕ) (g : ℕ → Mat q d d) (i r : ℕ) (V W : Mat q r d) → IsImageAfter k g i V → IsImageAfter k g (suc i) W → r ≢ 0 → (t : ℕ) → ProductsVanish k g t → ⊥ }
{}

/// The least power of an ideal of a matrix algebra that is zero is the least number from 1 on that is at least the number at each vertex from which on
/// the products of the ideal's matrices there are zero. Where at some vertex they never are, no power is zero. (Chapter I, 1.)
pub fn least_power_at_vertices()
    ensures least { (q : Gf) (Q : Quiver) (X : Rep q Q) (M : MatrixAlgebra X) (k : ℕ) (I : Mat q k M.size) (p : ℕ → ℕ)
        → ((v : ℕ) → VanishFrom k (λ j. (M.element (row j I)).at v) (p v))
        → (s : ℕ) → 1 ≤ s → ((v : ℕ) → p v ≤ s) → ((t : ℕ) → 1 ≤ t → ((v : ℕ) → p v ≤ t) → s ≤ t) → IsLeastPower (algebra_of M) I s }
    ensures least_back { (q : Gf) (Q : Quiver) (X : Rep q Q) (M : MatrixAlgebra X) (k : ℕ) (I : Mat q k M.size) (p : ℕ → ℕ)
        → ((v : ℕ) → VanishFrom k (λ j. (M.element (row j I)).at v) (p v))
        → (s : ℕ) → IsLeastPower (algebra_of M) I s → ((v : ℕ) → p v ≤ s) × ((t : ℕ) → 1 ≤ t → ((v : ℕ) → p v ≤ t) → s ≤ t) }
    ensures never { (q : Gf) (Q : Quiver) (X : Rep q Q) (M : MatrixAlgebra X) (k : ℕ) (I : Mat q k M.size) (v : ℕ)
        → ((t : ℕ) → ProductsVanish k (λ j. (M.element (row j I)).at v) t → ⊥) → (s : ℕ) → PowerVanishes (algebra_of M) I s → ⊥ }
{}

/// The elements of a matrix algebra that take a stable space of rows at a vertex to zero are a two-sided ideal. The space is stable where the basis takes
/// it to itself. (Chapter I, 1.)
pub fn annihilators()
    ensures two_sided { (q : Gf) (Q : Quiver) (X : Rep q Q) (M : MatrixAlgebra X) (v k l : ℕ) (W : Mat q k (X.dim v)) (I : Mat q l M.size)
        → IsStableAt M v W → IsAnnihilatorAt M v W I → IsTwoSided (algebra_of M) I }
    ensures stable { (q : Gf) (Q : Quiver) (X : Rep q Q) (M : MatrixAlgebra X) (v k : ℕ) (W : Mat q k (X.dim v))
        → ((i : ℕ) → i < M.size → IsInSpan W (W · (M.element (unit q M.size i)).at v)) → IsStableAt M v W }
{}

/// For a nilpotent member x of a matrix algebra on a representation that is not zero, either all products of d members of the right ideal of x are zero,
/// d being at least the dimension at each vertex, or that right ideal has a member that is neither invertible nor nilpotent. (Levitzki's theorem;
/// chapter I, 1.)
pub fn nil_right_ideals_at_vertices()
    ensures { (q : Gf) (Q : Quiver) (X : Rep q Q) (M : MatrixAlgebra X) (x : Row q M.size) (v : ℕ) → X.dim v ≢ zero → IsNilpotentIn (algebra_of M) x
        → (d : ℕ) → ((v : ℕ) → X.dim v ≤ d)
        → ((y : ℕ → Row q M.size) → product_in (algebra_of M) (λ i. M.composite x (y i)) d ≡ zeros q 1 M.size) ⊎ ((y : Row q M.size) × IsMixed (algebra_of M) (M.composite x y)) }
{}

/// A module that is not zero is local exactly where its endomorphism algebra has a certificate. (Chapter I, 4.)
pub fn local_exactly_by_certificate()
    ensures sufficient { (q : Gf) (Q : Quiver) (X : Rep q Q) (B : HomBasis X X) (v : ℕ) → X.dim v ≢ zero → LocalCertificate (endomorphism_algebra B) → IsLocal X }
    ensures necessary { (q : Gf) (Q : Quiver) (X : Rep q Q) (B : HomBasis X X) → IsLocal X → LocalCertificate (endomorphism_algebra B) }
    ensures algebra { (q : Gf) (A : Algebra q) → LocalCertificate A → (x : Element A) → IsUnitIn A x ⊎ IsNilpotentIn A x }
{}

/// The ideal of a certificate has just the nilpotent elements, and not the unit, where the algebra is not zero. So two certificates of one algebra have the same ideal, by rows with the same span, and the
/// same power; and rows in reduced row form with that span are the ideal of a certificate, whose residue ring has the first form where it is commutative,
/// and the second where it is not. (Chapter I, 4.)
pub fn ideal_of_a_certificate()
    ensures nilpotent { (q : Gf) (A : Algebra q) (c : LocalCertificate A) (x : Element A) → IsNilpotentIn A x → IsInSpan c.ideal x }
    ensures members { (q : Gf) (A : Algebra q) (c : LocalCertificate A) (x : Element A) → IsInSpan c.ideal x → IsNilpotentIn A x }
    ensures unit { (q : Gf) (A : Algebra q) (c : LocalCertificate A) → A.unit ≢ zeros q 1 A.size → IsInSpan c.ideal A.unit → ⊥ }
    ensures endomorphisms { (q : Gf) (Q : Quiver) (X : Rep q Q) (B : HomBasis X X) (c : LocalCertificate (endomorphism_algebra B)) (x : Row q B.size) → IsNilpotent (B.hom x) → IsInSpan c.ideal x }
    ensures endomorphisms_back { (q : Gf) (Q : Quiver) (X : Rep q Q) (B : HomBasis X X) (c : LocalCertificate (endomorphism_algebra B)) (x : Row q B.size) → IsInSpan c.ideal x → IsNilpotent (B.hom x) }
    ensures one_ideal { (q : Gf) (A : Algebra q) (c d : LocalCertificate A) → IsInSpan c.ideal d.ideal }
    ensures one_power { (q : Gf) (A : Algebra q) (c d : LocalCertificate A) → c.power ≡ d.power }
    ensures other_rows { (q : Gf) (A : Algebra q) (c : LocalCertificate A) (l : ℕ) (J : Mat q l A.size) → IsInSpan c.ideal J → IsInSpan J c.ideal
        → (pivot : ℕ → ℕ) → IsRowReduced J pivot → IsTwoSided A J × IsLeastPower A J c.power × (IsFrobeniusField A J ⊎ IsListedDivisionRing A J) }
    ensures commutative { (q : Gf) (A : Algebra q) (c : LocalCertificate A) (l : ℕ) (J : Mat q l A.size) → IsInSpan c.ideal J → IsInSpan J c.ideal
        → IsCommutativeModulo A J → IsFrobeniusField A J }
    ensures not_commutative { (q : Gf) (A : Algebra q) (c : LocalCertificate A) (l : ℕ) (J : Mat q l A.size) → IsInSpan c.ideal J → IsInSpan J c.ideal
        → (IsCommutativeModulo A J → ⊥) → IsListedDivisionRing A J }
{}

/// It is decided whether a module is zero, or local with a certificate, or has an endomorphism that is neither an isomorphism nor nilpotent; and so for
/// each algebra that is not zero. (Chapter I, 4.)
pub fn locality_is_decided()
    ensures module { (q : Gf) (Q : Quiver) (X : Rep q Q) (B : HomBasis X X)
        → IsZero X ⊎ (IsLocal X × LocalCertificate (endomorphism_algebra B)) ⊎ ((f : Hom X X) × (IsIso f → ⊥) × (IsNilpotent f → ⊥)) }
    ensures algebra { (q : Gf) (A : Algebra q) → A.unit ≢ zeros q 1 A.size → ((x : Element A) × IsMixed A x) ⊎ LocalCertificate A }
{}

/// Each module is a direct sum of local modules, and in one way only: of two such decompositions the parts match. (Chapter I, 4.10.)
pub fn decomposition_into_local_modules()
    ensures exists { (q : Gf) (Q : Quiver) (X : Rep q Q) → LocalDecomposition X }
    ensures unique { (q : Gf) (Q : Quiver) (X : Rep q Q) (D E : LocalDecomposition X)
        → Matching D.parts.count (λ i. (D.parts.summand i).part) E.parts.count (λ i. (E.parts.summand i).part) }
{}

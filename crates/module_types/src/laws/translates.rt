//! Presentations, transposed maps, functionals and pullbacks. Chapters are those of Assem, Simson, Skowroński, volume 1.

ghost use Rattle.std.specs.Prelude.{◌≡◌, ◌<◌, ◌+◌, ◌%◌, ℕ, List, slice_index};
ghost use Rattle.linear_algebra.specs.Field.{Gf, order};
ghost use Rattle.linear_algebra.specs.Matrix.{Mat, Row, zeros, ◌·◌, transpose, beside};
ghost use Rattle.linear_algebra.specs.BlockFamilies.{total};
ghost use Rattle.representations.specs.Quiver.{BoundQuiver};
ghost use Rattle.representations.specs.Rep.{Rep, IsMod};
ghost use Rattle.representations.specs.Hom.{Hom, ◌≫◌};
ghost use Rattle.projectives.specs.Words.{along_word};
ghost use Rattle.projectives.specs.Families.{projectives};
ghost use Rattle.projectives.specs.HomRows.{value};
ghost use Rattle.projectives.specs.TwoSided.{TwoSided, other};
ghost use Rattle.projectives.specs.Pairing.{pairing, hom_of_columns};
ghost use Rattle.module_types.specs.declared.TermRows.{TermRows as Term};
ghost use Rattle.module_types.specs.TermMatrices.{rows_along, count, vertex, generator_row, sum_of_term, term_matrix};
ghost use Rattle.module_types.specs.Presentations.{Presentation, injective_term, differential, transposed_of, nakayama_of, transposed_row, part, theta, value_on, pullback};

/// The differential of a presentation takes the generators to the printed rows, and has the matrices of the printed term. Its transposed takes generator j
/// to the row whose component i has the numbers that component j of the printed row of generator i has; and its image under the Nakayama functor has the
/// transposed matrices of the transposed. (Chapter III, 2, and IV, 2.)
pub fn transposed_maps()
    ensures values { (q : Gf) (A : BoundQuiver) (T : TwoSided q A) (p : Presentation) (i : ℕ) → i < count p.syzygy
        → value A T.words T.basis (count p.syzygy) (vertex p.syzygy) (differential T p) i ≡ generator_row (sum_of_term T.words p.cover) p.syzygy i }
    ensures matrices { (q : Gf) (A : BoundQuiver) (T : TwoSided q A) (p : Presentation) (w : ℕ)
        → (differential T p).at w ≡ term_matrix T.words (sum_of_term T.words p.cover) p.syzygy w }
    ensures entries { (q : Gf) (A : BoundQuiver) (T : TwoSided q A) (p : Presentation) (i j x : ℕ) → i < count p.syzygy → j < count p.cover
        → x < T.words.count (vertex p.cover j) (vertex p.syzygy i)
        → (transposed_row T p j).at 0 (total i (λ c. T.words.count (vertex p.cover j) (vertex p.syzygy c)) + x)
        ≡ (generator_row (sum_of_term T.words p.cover) p.syzygy i).at 0 (total j (λ c. T.words.count (vertex p.cover c) (vertex p.syzygy i)) + x) }
    ensures transposed { (q : Gf) (A : BoundQuiver) (T : TwoSided q A) (p : Presentation) (w : ℕ)
        → (transposed_of T p).at w ≡ rows_along (other T) (projectives (other T) (count p.syzygy) (vertex p.syzygy)) (count p.cover) (vertex p.cover) (transposed_row T p) w }
    ensures nakayama { (q : Gf) (A : BoundQuiver) (T : TwoSided q A) (p : Presentation) (w : ℕ) → (nakayama_of T p).at w ≡ transpose ((transposed_of T p).at w) }
{}

/// The parts of a functional are its numbers, one part behind the other. θ has in row r at the place of generator j and word p the value of part j on row r
/// behind p; on a module it is the homomorphism to the injective modules of the term whose pairing with the images of the generators is the value of the
/// functional. (Chapter IV, 2.)
pub fn functionals()
    ensures parts { (q : Gf) (A : BoundQuiver) (T : TwoSided q A) (M : Rep q A.quiver) (t : Term) (functional : List ℕ) (j i : ℕ) → i < M.dim (vertex t j)
        → (part T M t functional j).at i 0 ≡ slice_index functional (total j (λ c. M.dim (vertex t c)) + i) % order q }
    ensures entries { (q : Gf) (A : BoundQuiver) (T : TwoSided q A) (M : Rep q A.quiver) (t : Term) (functional : List ℕ) (w r j i : ℕ) → j < count t
        → i < T.words.count w (vertex t j)
        → (theta T M t functional w).at r (total j (λ c. T.words.count w (vertex t c)) + i) ≡ (along_word T.words M w (vertex t j) i · part T M t functional j).at r 0 }
    ensures whole { (q : Gf) (A : BoundQuiver) (T : TwoSided q A) (M : Rep q A.quiver) (t : Term) (functional : List ℕ) (m : IsMod A M) (w : ℕ)
        → (hom_of_columns T (count t) (vertex t) M m (part T M t functional)).at w ≡ theta T M t functional w }
    ensures values { (q : Gf) (A : BoundQuiver) (T : TwoSided q A) (M : Rep q A.quiver) (t : Term) (functional : List ℕ) (m : IsMod A M)
        (c : Hom (sum_of_term T.words t) M)
        → ((j : ℕ) → j < count t → value A T.words T.basis (count t) (vertex t) c j ≡ generator_row M t j) → (x : Hom M M)
        → pairing T (count t) (vertex t) (c ≫ x) (hom_of_columns T (count t) (vertex t) M m (part T M t functional)) ≡ value_on T M t functional x.at }
{}

/// The rows (y, m) of the pullback, which its matrices take to zero, are exactly those with y · νd = m · θ. (Appendix A.)
pub fn pullbacks()
    ensures equal { (q : Gf) (A : BoundQuiver) (T : TwoSided q A) (M : Rep q A.quiver) (p : Presentation) (functional : List ℕ) (w : ℕ)
        (y : Row q ((injective_term T p.syzygy).dim w)) (m : Row q (M.dim w))
        → beside y m · pullback T M p functional w ≡ zeros q 1 ((injective_term T p.cover).dim w) → y · (nakayama_of T p).at w ≡ m · theta T M p.cover functional w }
    ensures member { (q : Gf) (A : BoundQuiver) (T : TwoSided q A) (M : Rep q A.quiver) (p : Presentation) (functional : List ℕ) (w : ℕ)
        (y : Row q ((injective_term T p.syzygy).dim w)) (m : Row q (M.dim w))
        → y · (nakayama_of T p).at w ≡ m · theta T M p.cover functional w → beside y m · pullback T M p functional w ≡ zeros q 1 ((injective_term T p.cover).dim w) }
{}

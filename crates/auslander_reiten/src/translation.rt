//! The laws of minimal presentations, of the Auslander–Reiten translates and of the transpose. Chapters are those of Assem, Simson,
//! Skowroński, volume 1. `T : TwoSided q A` is a basis of the algebra A by words that, reversed, are a basis of the opposite algebra;
//! what holds over `T` holds for left modules over `swap T`.

ghost use Rattle.std.specs.Prelude.{◌≡◌, ◌+◌, ◌⊎◌, ℕ};
ghost use Rattle.linear_algebra.specs.Field.{Gf};
ghost use Rattle.linear_algebra.proofs.Dimension.{rank};
ghost use Rattle.representations.specs.Quiver.{Quiver, opposite, BoundQuiver, opposite_algebra};
ghost use Rattle.representations.specs.Rep.{Rep, IsMod};
ghost use Rattle.representations.specs.Hom.{Hom};
ghost use Rattle.representations.specs.Dual.{dual};
ghost use Rattle.representations.specs.KernelOf.{IsKernel, IsCokernel, IsReduced, IsCoReducedProjection};
ghost use Rattle.projectives.specs.Families.{projectives};
ghost use Rattle.projectives.specs.TwoSided.{TwoSided, other};
ghost use Rattle.projectives.specs.Injective.{injectives};
ghost use Rattle.projectives.specs.Transposed.{transposed, nakayama};
ghost use Rattle.local_modules.specs.Local.{IsLocal};
ghost use Rattle.local_modules.specs.Isomorphic.{Isomorphic};
ghost use Rattle.auslander_reiten.specs.Presentation.{IsMinimalPresentation, PresentationIsomorphism, IsProjective};
ghost use Rattle.auslander_reiten.specs.Translates.{IsTranslate, IsTranspose, IsInverseTranslate};
ghost use Rattle.auslander_reiten.specs.SequenceData.{LocalPresentation};

/// Each module has a minimal presentation by sums of projective modules, and two of them are isomorphic. A local module is projective, or it has one that begins with a
/// sum that is not zero; and never both. (Chapter I, 5, and IV, 2.)
pub fn presentations()
    ensures exists { (q : Gf) (A : BoundQuiver) (T : TwoSided q A) (M : Rep q A.quiver) → IsMod A M
        → (k : ℕ) × (v : ℕ → ℕ) × (h : ℕ) × (u : ℕ → ℕ) × (d : Hom (projectives T.words k v) (projectives T.words h u))
        × (c : Hom (projectives T.words h u) M) × IsMinimalPresentation T k v h u d c }
    ensures once { (q : Gf) (A : BoundQuiver) (T : TwoSided q A) (k : ℕ) (v : ℕ → ℕ) (h : ℕ) (u : ℕ → ℕ) (l : ℕ) (w : ℕ → ℕ)
        (m : ℕ) (z : ℕ → ℕ) (M : Rep q A.quiver) (d : Hom (projectives T.words k v) (projectives T.words h u))
        (c : Hom (projectives T.words h u) M) (e : Hom (projectives T.words l w) (projectives T.words m z))
        (b : Hom (projectives T.words m z) M)
        → IsMinimalPresentation T k v h u d c → IsMinimalPresentation T l w m z e b → PresentationIsomorphism d c e b }
    ensures local { (q : Gf) (A : BoundQuiver) (T : TwoSided q A) (M : Rep q A.quiver) → IsMod A M → IsLocal M
        → LocalPresentation T M ⊎ IsProjective T.words M }
    ensures never_both { (q : Gf) (A : BoundQuiver) (T : TwoSided q A) (M : Rep q A.quiver) → LocalPresentation T M
        → IsProjective T.words M → ⊥ }
{}

/// The kernel of νd : νP → νP', for any d : P → P' between sums of projective modules: it exists with its embedding into νP in reduced row
/// form, which is determined; it is a module, and its size at each vertex is that of νP less the rank of νd. (Chapter IV, 2.)
pub fn kernels_of_nakayama()
    ensures exists { (q : Gf) (A : BoundQuiver) (T : TwoSided q A) (k : ℕ) (v : ℕ → ℕ) (h : ℕ) (u : ℕ → ℕ)
        (d : Hom (projectives T.words k v) (projectives T.words h u))
        → (N : Rep q A.quiver) × (i : Hom N (injectives T k v)) × IsKernel i (nakayama T k v h u d) × IsReduced i }
    ensures once { (q : Gf) (Q : Quiver) (N N' X Y : Rep q Q) (i : Hom N X) (j : Hom N' X) (f : Hom X Y) → IsKernel i f
        → IsReduced i → IsKernel j f → IsReduced j
        → (w : ℕ) → (N.dim w ≡ N'.dim w) × ((r c : ℕ) → (i.at w).at r c ≡ (j.at w).at r c) }
    ensures modules { (q : Gf) (A : BoundQuiver) (T : TwoSided q A) (k : ℕ) (v : ℕ → ℕ) (h : ℕ) (u : ℕ → ℕ)
        (d : Hom (projectives T.words k v) (projectives T.words h u)) (N : Rep q A.quiver) (i : Hom N (injectives T k v))
        → IsKernel i (nakayama T k v h u d) → IsMod A N }
    ensures sizes { (q : Gf) (A : BoundQuiver) (T : TwoSided q A) (k : ℕ) (v : ℕ → ℕ) (h : ℕ) (u : ℕ → ℕ)
        (d : Hom (projectives T.words k v) (projectives T.words h u)) (N : Rep q A.quiver) (i : Hom N (injectives T k v))
        → IsKernel i (nakayama T k v h u d)
        → (w : ℕ) → N.dim w + rank ((nakayama T k v h u d).at w) ≡ (injectives T k v).dim w }
{}

/// The translate τM, the kernel of νd where d : P → P' begins a minimal presentation of M: each module has one, two of them are isomorphic,
/// and there is one by each minimal presentation, with its embedding into νP in reduced row form; it is a module, and its size at each
/// vertex is that of νP less the rank of νd. (Chapter IV, 2.)
pub fn translates()
    ensures exists { (q : Gf) (A : BoundQuiver) (T : TwoSided q A) (M : Rep q A.quiver) → IsMod A M
        → (k : ℕ) × (v : ℕ → ℕ) × (h : ℕ) × (u : ℕ → ℕ) × (d : Hom (projectives T.words k v) (projectives T.words h u))
        × (c : Hom (projectives T.words h u) M)
        × (N : Rep q A.quiver) × (i : Hom N (injectives T k v)) × IsTranslate T k v h u M d c i × IsReduced i }
    ensures once { (q : Gf) (A : BoundQuiver) (T : TwoSided q A) (k : ℕ) (v : ℕ → ℕ) (h : ℕ) (u : ℕ → ℕ) (l : ℕ) (w : ℕ → ℕ)
        (m : ℕ) (z : ℕ → ℕ) (M : Rep q A.quiver) (d : Hom (projectives T.words k v) (projectives T.words h u))
        (c : Hom (projectives T.words h u) M) (e : Hom (projectives T.words l w) (projectives T.words m z))
        (b : Hom (projectives T.words m z) M) (N N' : Rep q A.quiver)
        (i : Hom N (injectives T k v)) (j : Hom N' (injectives T l w))
        → IsTranslate T k v h u M d c i → IsTranslate T l w m z M e b j → Isomorphic N N' }
    ensures by_each_presentation { (q : Gf) (A : BoundQuiver) (T : TwoSided q A) (k : ℕ) (v : ℕ → ℕ) (h : ℕ) (u : ℕ → ℕ) (M : Rep q A.quiver)
        (d : Hom (projectives T.words k v) (projectives T.words h u)) (c : Hom (projectives T.words h u) M)
        → IsMinimalPresentation T k v h u d c
        → (N : Rep q A.quiver) × (i : Hom N (injectives T k v)) × IsTranslate T k v h u M d c i × IsReduced i }
    ensures modules { (q : Gf) (A : BoundQuiver) (T : TwoSided q A) (k : ℕ) (v : ℕ → ℕ) (h : ℕ) (u : ℕ → ℕ) (M : Rep q A.quiver)
        (d : Hom (projectives T.words k v) (projectives T.words h u)) (c : Hom (projectives T.words h u) M)
        (N : Rep q A.quiver) (i : Hom N (injectives T k v)) → IsTranslate T k v h u M d c i → IsMod A N }
    ensures sizes { (q : Gf) (A : BoundQuiver) (T : TwoSided q A) (k : ℕ) (v : ℕ → ℕ) (h : ℕ) (u : ℕ → ℕ) (M : Rep q A.quiver)
        (d : Hom (projectives T.words k v) (projectives T.words h u)) (c : Hom (projectives T.words h u) M)
        (N : Rep q A.quiver) (i : Hom N (injectives T k v)) → IsTranslate T k v h u M d c i
        → (w : ℕ) → N.dim w + rank ((nakayama T k v h u d).at w) ≡ (injectives T k v).dim w }
{}

/// The cokernel of the transposed of d, a module of the other side, for any d : P → P' between sums of projective modules: it exists with
/// a co-reduced projection, which is determined; it is a module over the opposite algebra, of the size of the cokernel at
/// each vertex. (Chapter IV, 2.)
pub fn cokernels_of_transposed()
    ensures exists { (q : Gf) (A : BoundQuiver) (T : TwoSided q A) (k : ℕ) (v : ℕ → ℕ) (h : ℕ) (u : ℕ → ℕ)
        (d : Hom (projectives T.words k v) (projectives T.words h u))
        → (N : Rep q (opposite A.quiver)) × (p : Hom (projectives (other T) k v) N) × IsCokernel (transposed T k v h u d) p
        × IsCoReducedProjection p }
    ensures once { (q : Gf) (Q : Quiver) (X Y N N' : Rep q Q) (f : Hom X Y) (p : Hom Y N) (r : Hom Y N') → IsCokernel f p
        → IsCoReducedProjection p → IsCokernel f r → IsCoReducedProjection r
        → (w : ℕ) → (N.dim w ≡ N'.dim w) × ((i j : ℕ) → (p.at w).at i j ≡ (r.at w).at i j) }
    ensures modules { (q : Gf) (A : BoundQuiver) (T : TwoSided q A) (k : ℕ) (v : ℕ → ℕ) (h : ℕ) (u : ℕ → ℕ)
        (d : Hom (projectives T.words k v) (projectives T.words h u)) (N : Rep q (opposite A.quiver))
        (p : Hom (projectives (other T) k v) N) → IsCokernel (transposed T k v h u d) p → IsMod (opposite_algebra A) N }
    ensures sizes { (q : Gf) (A : BoundQuiver) (T : TwoSided q A) (k : ℕ) (v : ℕ → ℕ) (h : ℕ) (u : ℕ → ℕ)
        (d : Hom (projectives T.words k v) (projectives T.words h u)) (N : Rep q (opposite A.quiver))
        (p : Hom (projectives (other T) k v) N) → IsCokernel (transposed T k v h u d) p
        → (w : ℕ) → rank ((transposed T k v h u d).at w) + N.dim w ≡ (projectives (other T) k v).dim w }
{}

/// The transpose of M, a module of the other side, the cokernel of the transposed of d where d : P → P' begins a minimal presentation of
/// M: each module has one, two of them are isomorphic, and there is one by each minimal presentation, with a co-reduced
/// projection; it is a module over the opposite algebra, of the size of the cokernel at each vertex. (Chapter IV, 2.)
pub fn transposes()
    ensures exists { (q : Gf) (A : BoundQuiver) (T : TwoSided q A) (M : Rep q A.quiver) → IsMod A M
        → (k : ℕ) × (v : ℕ → ℕ) × (h : ℕ) × (u : ℕ → ℕ) × (d : Hom (projectives T.words k v) (projectives T.words h u))
        × (c : Hom (projectives T.words h u) M)
        × (N : Rep q (opposite A.quiver)) × (p : Hom (projectives (other T) k v) N) × IsTranspose T k v h u M d c p
        × IsCoReducedProjection p }
    ensures once { (q : Gf) (A : BoundQuiver) (T : TwoSided q A) (k : ℕ) (v : ℕ → ℕ) (h : ℕ) (u : ℕ → ℕ) (l : ℕ) (w : ℕ → ℕ)
        (m : ℕ) (z : ℕ → ℕ) (M : Rep q A.quiver) (d : Hom (projectives T.words k v) (projectives T.words h u))
        (c : Hom (projectives T.words h u) M) (e : Hom (projectives T.words l w) (projectives T.words m z))
        (b : Hom (projectives T.words m z) M) (N N' : Rep q (opposite A.quiver))
        (p : Hom (projectives (other T) k v) N) (r : Hom (projectives (other T) l w) N')
        → IsTranspose T k v h u M d c p → IsTranspose T l w m z M e b r → Isomorphic N N' }
    ensures by_each_presentation { (q : Gf) (A : BoundQuiver) (T : TwoSided q A) (k : ℕ) (v : ℕ → ℕ) (h : ℕ) (u : ℕ → ℕ) (M : Rep q A.quiver)
        (d : Hom (projectives T.words k v) (projectives T.words h u)) (c : Hom (projectives T.words h u) M)
        → IsMinimalPresentation T k v h u d c
        → (N : Rep q (opposite A.quiver)) × (p : Hom (projectives (other T) k v) N) × IsTranspose T k v h u M d c p
        × IsCoReducedProjection p }
    ensures modules { (q : Gf) (A : BoundQuiver) (T : TwoSided q A) (k : ℕ) (v : ℕ → ℕ) (h : ℕ) (u : ℕ → ℕ) (M : Rep q A.quiver)
        (d : Hom (projectives T.words k v) (projectives T.words h u)) (c : Hom (projectives T.words h u) M)
        (N : Rep q (opposite A.quiver)) (p : Hom (projectives (other T) k v) N) → IsTranspose T k v h u M d c p
        → IsMod (opposite_algebra A) N }
    ensures sizes { (q : Gf) (A : BoundQuiver) (T : TwoSided q A) (k : ℕ) (v : ℕ → ℕ) (h : ℕ) (u : ℕ → ℕ) (M : Rep q A.quiver)
        (d : Hom (projectives T.words k v) (projectives T.words h u)) (c : Hom (projectives T.words h u) M)
        (N : Rep q (opposite A.quiver)) (p : Hom (projectives (other T) k v) N) → IsTranspose T k v h u M d c p
        → (w : ℕ) → rank ((transposed T k v h u d).at w) + N.dim w ≡ (projectives (other T) k v).dim w }
{}

/// The inverse translate of a module X, the transpose of its dual, exists with a co-reduced projection, is a module of the
/// same side, and two of them are isomorphic. (Chapter IV, 2.)
pub fn inverse_translates()
    ensures exists { (q : Gf) (A : BoundQuiver) (T : TwoSided q A) (X : Rep q A.quiver) → IsMod A X
        → (k : ℕ) × (v : ℕ → ℕ) × (h : ℕ) × (u : ℕ → ℕ) × (d : Hom (projectives (other T) k v) (projectives (other T) h u))
        × (c : Hom (projectives (other T) h u) (dual X)) × (N : Rep q A.quiver) × (p : Hom (projectives T.words k v) N)
        × IsInverseTranslate T k v h u X d c p × IsCoReducedProjection p }
    ensures once { (q : Gf) (A : BoundQuiver) (T : TwoSided q A) (k : ℕ) (v : ℕ → ℕ) (h : ℕ) (u : ℕ → ℕ) (l : ℕ) (w : ℕ → ℕ)
        (m : ℕ) (z : ℕ → ℕ) (X : Rep q A.quiver) (d : Hom (projectives (other T) k v) (projectives (other T) h u))
        (c : Hom (projectives (other T) h u) (dual X)) (e : Hom (projectives (other T) l w) (projectives (other T) m z))
        (b : Hom (projectives (other T) m z) (dual X)) (N N' : Rep q A.quiver)
        (p : Hom (projectives T.words k v) N) (r : Hom (projectives T.words l w) N')
        → IsInverseTranslate T k v h u X d c p → IsInverseTranslate T l w m z X e b r → Isomorphic N N' }
    ensures modules { (q : Gf) (A : BoundQuiver) (T : TwoSided q A) (X : Rep q A.quiver) (k : ℕ) (v : ℕ → ℕ) (h : ℕ) (u : ℕ → ℕ)
        (d : Hom (projectives (other T) k v) (projectives (other T) h u)) (c : Hom (projectives (other T) h u) (dual X))
        (N : Rep q A.quiver) (p : Hom (projectives T.words k v) N) → IsInverseTranslate T k v h u X d c p → IsMod A N }
{}

//! What the theory says of the modules over the algebra of an allowed header, right and left. The words are those of the header, by which
//! the projective modules at vertices are written; nothing else is assumed. Chapters are those of Assem, Simson, Skowroński, volume 1.

ghost use Rattle.std.specs.Prelude.{◌<◌, ◌⊎◌, ℕ, List};
ghost use Rattle.quiver_paths.specs.declared.Path.{Path};
ghost use Rattle.quiver_paths.specs.Quiver.{vertex_count};
ghost use Rattle.path_algebra.specs.declared.Header.{Header};
ghost use Rattle.path_algebra.specs.Allowed.{IsAllowed};
ghost use Rattle.path_algebra.specs.Words.{AreNormalWords};
ghost use Rattle.representations.specs.Quiver.{opposite, opposite_algebra};
ghost use Rattle.representations.specs.Rep.{Rep, IsMod};
ghost use Rattle.representations.specs.Dual.{dual};
ghost use Rattle.projectives.specs.Words.{projective};
ghost use Rattle.local_modules.specs.Local.{IsLocal};
ghost use Rattle.auslander_reiten.specs.Presentation.{IsProjective};
ghost use Rattle.auslander_reiten.specs.AlmostSplit.{AlmostSplitSequence};
ghost use Rattle.bound_algebra.specs.TypedPaths.{quiver_of};
ghost use Rattle.bound_algebra.specs.BoundAlgebra.{bound_algebra};
ghost use Rattle.bound_algebra.specs.AlgebraWords.{algebra_words, opposite_words};

/// Each local right module is projective, or the right end of an almost split sequence, and never both. (Chapter IV, 3.1.)
pub fn local_modules_end_sequences()
    ensures either { (h : Header) (ok : IsAllowed h) (words : List Path) (w : AreNormalWords h words) (M : Rep h.field (quiver_of h.quiver))
        → IsMod (bound_algebra h) M → IsLocal M → AlmostSplitSequence (bound_algebra h) M ⊎ IsProjective (algebra_words h ok words w) M }
    ensures never_both { (h : Header) (ok : IsAllowed h) (words : List Path) (w : AreNormalWords h words)
        (M : Rep h.field (quiver_of h.quiver)) → AlmostSplitSequence (bound_algebra h) M → IsProjective (algebra_words h ok words w) M → ⊥ }
{}

/// The same for left modules.
pub fn local_left_modules_end_sequences()
    ensures either { (h : Header) (ok : IsAllowed h) (words : List Path) (w : AreNormalWords h words)
        (M : Rep h.field (opposite (quiver_of h.quiver))) → IsMod (opposite_algebra (bound_algebra h)) M → IsLocal M
        → AlmostSplitSequence (opposite_algebra (bound_algebra h)) M ⊎ IsProjective (opposite_words h ok words w) M }
    ensures never_both { (h : Header) (ok : IsAllowed h) (words : List Path) (w : AreNormalWords h words)
        (M : Rep h.field (opposite (quiver_of h.quiver))) → AlmostSplitSequence (opposite_algebra (bound_algebra h)) M
        → IsProjective (opposite_words h ok words w) M → ⊥ }
{}

/// The projective right module at a vertex, whose rows are the words from there, is a local module; so is the injective one, the dual of the
/// projective left module there, whose rows are the words to there. (Chapter III, 2.)
pub fn modules_at_vertices()
    ensures projective { (h : Header) (ok : IsAllowed h) (words : List Path) (w : AreNormalWords h words) (v : ℕ)
        → v < vertex_count h.quiver → IsLocal (projective (algebra_words h ok words w) v) }
    ensures projective_module { (h : Header) (ok : IsAllowed h) (words : List Path) (w : AreNormalWords h words) (v : ℕ)
        → IsMod (bound_algebra h) (projective (algebra_words h ok words w) v) }
    ensures injective { (h : Header) (ok : IsAllowed h) (words : List Path) (w : AreNormalWords h words) (v : ℕ)
        → v < vertex_count h.quiver → IsLocal (dual (projective (opposite_words h ok words w) v)) }
    ensures injective_module { (h : Header) (ok : IsAllowed h) (words : List Path) (w : AreNormalWords h words) (v : ℕ)
        → IsMod (bound_algebra h) (dual (projective (opposite_words h ok words w) v)) }
{}

/// The same for left modules: the projective one has the words to the vertex, the injective one is the dual of the right module of the words
/// from there.
pub fn left_modules_at_vertices()
    ensures projective { (h : Header) (ok : IsAllowed h) (words : List Path) (w : AreNormalWords h words) (v : ℕ)
        → v < vertex_count h.quiver → IsLocal (projective (opposite_words h ok words w) v) }
    ensures projective_module { (h : Header) (ok : IsAllowed h) (words : List Path) (w : AreNormalWords h words) (v : ℕ)
        → IsMod (opposite_algebra (bound_algebra h)) (projective (opposite_words h ok words w) v) }
    ensures injective { (h : Header) (ok : IsAllowed h) (words : List Path) (w : AreNormalWords h words) (v : ℕ)
        → v < vertex_count h.quiver → IsLocal (dual (projective (algebra_words h ok words w) v)) }
    ensures injective_module { (h : Header) (ok : IsAllowed h) (words : List Path) (w : AreNormalWords h words) (v : ℕ)
        → IsMod (opposite_algebra (bound_algebra h)) (dual (projective (algebra_words h ok words w) v)) }
{}

//! The projective and the injective modules at vertices are local. Chapters are those of Assem, Simson, Skowroński, volume 1.

ghost use Rattle.std.specs.Prelude.{◌<◌, ◌⊎◌, ℕ};
ghost use Rattle.linear_algebra.specs.Field.{Gf};
ghost use Rattle.representations.specs.Quiver.{Quiver, BoundQuiver};
ghost use Rattle.representations.specs.Rep.{Rep, IsMod};
ghost use Rattle.representations.specs.Hom.{Hom};
ghost use Rattle.representations.specs.Module.{IsSplitEpi, IsZero};
ghost use Rattle.representations.specs.Submodule.{inclusion};
ghost use Rattle.representations.specs.RadicalModule.{radical};
ghost use Rattle.representations.specs.Dual.{dual};
ghost use Rattle.projectives.specs.Words.{Words, IsWordBasis, projective};
ghost use Rattle.projectives.specs.TwoSided.{TwoSided};
ghost use Rattle.projectives.specs.Injective.{injective};
ghost use Rattle.local_modules.specs.Local.{IsLocal};
ghost use Rattle.auslander_reiten.specs.AlmostSplit.{Lifts};

/// The projective module and the injective module at a vertex are local, and so is the dual of a local module. (Chapter I, 5, and III, 2.)
pub fn modules_at_vertices()
    ensures projectives { (q : Gf) (A : BoundQuiver) (W : Words q A.quiver) → IsWordBasis A W → (v : ℕ) → v < A.quiver.vertices
        → IsLocal (projective W v) }
    ensures injectives { (q : Gf) (A : BoundQuiver) (T : TwoSided q A) (v : ℕ) → v < A.quiver.vertices → IsLocal (injective T v) }
    ensures duals { (q : Gf) (Q : Quiver) (X : Rep q Q) → IsLocal X → IsLocal (dual X) }
{}

/// The inclusion of the radical of the projective module at a vertex is right almost split: each homomorphism of a module to the projective
/// module lifts along it, or is a split epimorphism, and it is none itself. (Chapter IV, 3.)
pub fn radical_of_projective()
    ensures lifts_or_splits { (q : Gf) (A : BoundQuiver) (W : Words q A.quiver) → IsWordBasis A W → (v : ℕ) → v < A.quiver.vertices
        → (X : Rep q A.quiver) → IsMod A X → (h : Hom X (projective W v)) → Lifts (inclusion (radical (projective W v))) h ⊎ IsSplitEpi h }
    ensures not_split { (q : Gf) (A : BoundQuiver) (X : Rep q A.quiver) → IsMod A X → (IsZero X → ⊥)
        → IsSplitEpi (inclusion (radical X)) → ⊥ }
{}

//! The laws of closed lists of local modules. Chapters are those of Assem, Simson, Skowroński, volume 1.

ghost use Rattle.std.specs.Prelude.{◌≡◌, ◌<◌, ℕ};
ghost use Rattle.linear_algebra.specs.Field.{Gf};
ghost use Rattle.representations.specs.Quiver.{BoundQuiver};
ghost use Rattle.representations.specs.Rep.{Rep, IsMod};
ghost use Rattle.representations.specs.Hom.{Hom};
ghost use Rattle.representations.specs.Submodule.{inclusion};
ghost use Rattle.representations.specs.RadicalModule.{radical};
ghost use Rattle.projectives.specs.Words.{projective};
ghost use Rattle.projectives.specs.TwoSided.{TwoSided};
ghost use Rattle.local_modules.specs.Local.{IsLocal};
ghost use Rattle.auslander_reiten.specs.AlmostSplit.{IsAlmostSplit};
ghost use Rattle.local_modules.specs.Isomorphic.{Isomorphic};
ghost use Rattle.auslander_reiten.specs.Presentation.{IsProjective};
ghost use Rattle.auslander_reiten.specs.ClosedList.{IsRightAlmostSplit, IsListed, IsClosedList};

/// A closed list has each local module, of any dimension, up to isomorphism, and by one member only. (Chapter IV, 5.)
pub fn closed_lists()
    ensures complete { (q : Gf) (A : BoundQuiver) (T : TwoSided q A) (n : ℕ) (Y : ℕ → Rep q A.quiver) → IsClosedList T n Y
        → (X : Rep q A.quiver) → IsMod A X → IsLocal X → IsListed n Y X }
    ensures once { (q : Gf) (A : BoundQuiver) (T : TwoSided q A) (n : ℕ) (Y : ℕ → Rep q A.quiver) → IsClosedList T n Y
        → (X : Rep q A.quiver) (a b : IsListed n Y X) → a.member ≡ b.member }
{}

/// The right half of an almost split sequence is right almost split. (Chapter IV, 1.)
pub fn right_almost_split()
    ensures { (q : Gf) (A : BoundQuiver) (L E M : Rep q A.quiver) (f : Hom L E) (g : Hom E M) → IsAlmostSplit A f g → IsRightAlmostSplit A g }
{}

/// A local projective module is isomorphic to the projective module at a vertex, and the inclusion of its radical is right almost split.
/// (Chapter I, 5, and chapter IV, 3.)
pub fn local_projective_modules()
    ensures at_a_vertex { (q : Gf) (A : BoundQuiver) (T : TwoSided q A) (Y : Rep q A.quiver) → IsLocal Y → IsProjective T.words Y
        → (v : ℕ) × (v < A.quiver.vertices) × Isomorphic Y (projective T.words v) }
    ensures radical { (q : Gf) (A : BoundQuiver) (T : TwoSided q A) (Y : Rep q A.quiver) → IsMod A Y → IsLocal Y → IsProjective T.words Y
        → IsRightAlmostSplit A (inclusion (radical Y)) }
{}

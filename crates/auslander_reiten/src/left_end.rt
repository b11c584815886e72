//! The laws of the left end of the sequence of the data. Chapters are those of Assem, Simson, Skowroński, volume 1. The modules Y to
//! which L is mapped have any dimension.

ghost use Rattle.std.specs.Prelude.{◌⊎◌};
ghost use Rattle.linear_algebra.specs.Field.{Gf};
ghost use Rattle.representations.specs.Quiver.{BoundQuiver};
ghost use Rattle.representations.specs.Rep.{Rep, IsMod};
ghost use Rattle.representations.specs.Hom.{Hom};
ghost use Rattle.representations.specs.Module.{IsSplitMono, IsSplitEpi};
ghost use Rattle.projectives.specs.TwoSided.{TwoSided};
ghost use Rattle.projectives.specs.Injective.{injectives};
ghost use Rattle.local_modules.specs.Local.{IsLocal};
ghost use Rattle.auslander_reiten.specs.Translates.{IsTranslate};
ghost use Rattle.auslander_reiten.specs.AlmostSplit.{Lifts, Extends, IsShortExact};
ghost use Rattle.auslander_reiten.specs.SequenceData.{LocalPresentation, EndFunctional, SequenceData};

/// The translate of a local module that is not projective is local. (Chapter IV, 2.)
pub fn translate_is_local()
    ensures { (q : Gf) (A : BoundQuiver) (T : TwoSided q A) (L M : Rep q A.quiver) (D : LocalPresentation T M)
        (i : Hom L (injectives T D.k D.v)) → IsTranslate T D.k D.v D.h D.u M D.d D.c i → IsLocal L }
{}

/// Each homomorphism out of L extends along f, or is a split monomorphism. It follows for each short exact sequence with local left end
/// from what holds at the right end: each homomorphism to M lifts along g or is a split epimorphism, and g is none. (Chapter IV, 1.)
pub fn left_property()
    ensures extends_or_splits { (q : Gf) (A : BoundQuiver) (T : TwoSided q A) (L E M Y : Rep q A.quiver) (D : LocalPresentation T M)
        (F : EndFunctional T D) (f : Hom L E) (g : Hom E M) → SequenceData T D F f g
        → IsMod A Y → (h : Hom L Y) → Extends f h ⊎ IsSplitMono h }
    ensures from_right_end { (q : Gf) (A : BoundQuiver) (L E M : Rep q A.quiver) (f : Hom L E) (g : Hom E M) → IsShortExact f g
        → (IsSplitEpi g → ⊥) → IsLocal L → IsMod A E
        → ((X : Rep q A.quiver) → IsMod A X → (h : Hom X M) → Lifts g h ⊎ IsSplitEpi h)
        → (Y : Rep q A.quiver) → IsMod A Y → (h : Hom L Y) → Extends f h ⊎ IsSplitMono h }
{}

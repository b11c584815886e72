//! The laws of submodules, quotients, kernels, cokernels, images and direct sums. Chapters are those of Assem, Simson, Skowroński,
//! volume 1.

ghost use Rattle.std.specs.Prelude.{◌≡◌, ℕ, ◌+◌, ◌<◌};
ghost use Rattle.linear_algebra.specs.Field.{Gf};
ghost use Rattle.linear_algebra.specs.Matrix.{Row, zeros, ◌·◌};
ghost use Rattle.linear_algebra.specs.Rank.{IsInSpan, RankFactorisation};
ghost use Rattle.linear_algebra.specs.Ranks.{rank};
ghost use Rattle.representations.specs.Quiver.{Quiver, Relation, BoundQuiver, with_relations};
ghost use Rattle.representations.specs.Rep.{Rep, IsMod};
ghost use Rattle.representations.specs.Hom.{Hom, ◌≫◌, zero_hom};
ghost use Rattle.representations.specs.Module.{IsMono, IsEpi, IsExact};
ghost use Rattle.representations.specs.Factoring.{FactorsAfter, FactorsBefore};
ghost use Rattle.representations.specs.Submodule.{Submodule, Quotient, sub_rep, inclusion, quotient_rep, projection};
ghost use Rattle.representations.specs.Kernel.{kernel, cokernel, image};
ghost use Rattle.representations.specs.KernelOf.{IsKernel, IsCokernel, IsReduced, IsCoReducedProjection};
ghost use Rattle.representations.specs.Sum.{sum_rep, into_first, into_second, onto_first, onto_second, from_sum, into_sum};

/// Whatever has an injection into a module over an algebra is a module over it; whatever a module has a surjection to is one;
/// so submodules and quotients of modules are modules, and so are direct sums. Modules do not see what stands past the last relation.
/// (Chapter I, 1, and III, 1.)
pub fn modules()
    ensures injections { (q : Gf) (A : BoundQuiver) (X Y : Rep q A.quiver) (f : Hom X Y) → IsMono f → IsMod A Y
        → IsMod A X }
    ensures surjections { (q : Gf) (A : BoundQuiver) (X Y : Rep q A.quiver) (f : Hom X Y) → IsEpi f → IsMod A X
        → IsMod A Y }
    ensures submodules { (q : Gf) (A : BoundQuiver) (X : Rep q A.quiver) (U : Submodule X) → IsMod A X
        → IsMod A (sub_rep U) }
    ensures quotients { (q : Gf) (A : BoundQuiver) (X : Rep q A.quiver) (U : Quotient X) → IsMod A X
        → IsMod A (quotient_rep U) }
    ensures sums { (q : Gf) (A : BoundQuiver) (X Y : Rep q A.quiver) → IsMod A X → IsMod A Y
        → IsMod A (sum_rep X Y) }
    ensures written_relations { (q : Gf) (A : BoundQuiver) (r : ℕ → Relation A.quiver)
        → ((i : ℕ) → i < A.relations → A.relation i ≡ r i)
        → (X : Rep q A.quiver) → IsMod A X → IsMod (with_relations A r) X }
{}

/// Surjections cancel on the left of a composite, injections on the right. (Appendix A, 1.)
pub fn cancelling()
    ensures surjections { (q : Gf) (Q : Quiver) (X A Z : Rep q Q) (g : Hom X A) → IsEpi g → (k l : Hom A Z)
        → g ≫ k ≡ g ≫ l → k ≡ l }
    ensures injections { (q : Gf) (Q : Quiver) (X N Z : Rep q Q) (i : Hom N Z) → IsMono i → (k l : Hom X N)
        → k ≫ i ≡ l ≫ i → k ≡ l }
{}

/// A homomorphism that vanishes wherever a surjection g does is g and then another homomorphism, in exactly one way; one whose
/// rows are all reached by an injection i is another homomorphism and then i, in exactly one way. (Appendix A, 1.)
pub fn factoring()
    ensures through_surjections { (q : Gf) (Q : Quiver) (X A Z : Rep q Q) (g : Hom X A) (u : Hom X Z) → IsEpi g
        → ((v : ℕ) (x : Row q (X.dim v)) → x · g.at v ≡ zeros q 1
        (A.dim v) → x · u.at v ≡ zeros q 1 (Z.dim v))
        → FactorsAfter g u }
    ensures through_injections { (q : Gf) (Q : Quiver) (X N Z : Rep q Q) (i : Hom N Z) (u : Hom X Z) → IsMono i
        → ((v : ℕ) (x : Row q (X.dim v)) → IsInSpan (i.at v) (x · u.at v)) → FactorsBefore i u }
{}

/// The universal property of the kernel: its inclusion is injective and exact before f, and a homomorphism h with h ≫ f = 0 goes
/// through it in exactly one way. The same holds of every injection that is exact before f. (Chapter III, 1, and appendix A, 1.)
pub fn kernels()
    ensures injective { (q : Gf) (Q : Quiver) (X Y : Rep q Q) (f : Hom X Y) → IsMono (inclusion (kernel f)) }
    ensures exact { (q : Gf) (Q : Quiver) (X Y : Rep q Q) (f : Hom X Y) → IsExact (inclusion (kernel f)) f }
    ensures universal { (q : Gf) (Q : Quiver) (W X Y : Rep q Q) (f : Hom X Y) (h : Hom W X)
        → h ≫ f ≡ zero_hom W Y → FactorsBefore (inclusion (kernel f)) h }
    ensures of_each { (q : Gf) (Q : Quiver) (W N X Y : Rep q Q) (i : Hom N X) (f : Hom X Y) → IsMono i
        → IsExact i f → (h : Hom W X) → h ≫ f ≡ zero_hom W Y → FactorsBefore i h }
    ensures size { (q : Gf) (Q : Quiver) (N X Y : Rep q Q) (i : Hom N X) (f : Hom X Y) → IsMono i
        → IsExact i f → (v : ℕ) (F : RankFactorisation (f.at v)) → N.dim v + F.size ≡ X.dim v }
{}

/// The universal property of the cokernel: its projection is surjective and exact after f, and a homomorphism h with f ≫ h = 0 goes
/// through it in exactly one way. The same holds of every surjection that is exact after f. (Chapter III, 1, and appendix A, 1.)
pub fn cokernels()
    ensures surjective { (q : Gf) (Q : Quiver) (X Y : Rep q Q) (f : Hom X Y) → IsEpi (projection (cokernel f)) }
    ensures exact { (q : Gf) (Q : Quiver) (X Y : Rep q Q) (f : Hom X Y)
        → IsExact f (projection (cokernel f)) }
    ensures universal { (q : Gf) (Q : Quiver) (X Y Z : Rep q Q) (f : Hom X Y) (h : Hom Y Z)
        → f ≫ h ≡ zero_hom X Z → FactorsAfter (projection (cokernel f)) h }
    ensures of_each { (q : Gf) (Q : Quiver) (X Y C Z : Rep q Q) (f : Hom X Y) (p : Hom Y C) → IsEpi p
        → IsExact f p → (h : Hom Y Z) → f ≫ h ≡ zero_hom X Z → FactorsAfter p h }
    ensures size { (q : Gf) (Q : Quiver) (X Y C : Rep q Q) (f : Hom X Y) (p : Hom Y C) → IsEpi p
        → IsExact f p → (v : ℕ) (F : RankFactorisation (f.at v)) → F.size + C.dim v ≡ Y.dim v }
{}

/// Kernels and cokernels by size: an embedding in reduced row form that f takes to zero is the kernel exactly where at each vertex its rows
/// are as many as the dimension exceeds the rank of f, and a co-reduced projection that is zero after f is the cokernel exactly where its columns are as
/// many as the dimension exceeds the rank. (Chapter III, 1, and appendix A, 1.)
pub fn kernels_by_size()
    ensures kernel { (q : Gf) (Q : Quiver) (N X Y : Rep q Q) (i : Hom N X) (f : Hom X Y) → IsReduced i
        → ((w : ℕ) → i.at w · f.at w ≡ zeros q (N.dim w) (Y.dim w))
        → ((w : ℕ) → N.dim w + rank (f.at w) ≡ X.dim w) → IsKernel i f }
    ensures kernel_size { (q : Gf) (Q : Quiver) (N X Y : Rep q Q) (i : Hom N X) (f : Hom X Y) → IsKernel i f
        → (w : ℕ) → N.dim w + rank (f.at w) ≡ X.dim w }
    ensures cokernel { (q : Gf) (Q : Quiver) (X Y N : Rep q Q) (f : Hom X Y) (p : Hom Y N) → IsCoReducedProjection p
        → ((w : ℕ) → f.at w · p.at w ≡ zeros q (X.dim w) (N.dim w))
        → ((w : ℕ) → rank (f.at w) + N.dim w ≡ Y.dim w) → IsCokernel f p }
    ensures cokernel_size { (q : Gf) (Q : Quiver) (X Y N : Rep q Q) (f : Hom X Y) (p : Hom Y N) → IsCokernel f p
        → (w : ℕ) → rank (f.at w) + N.dim w ≡ Y.dim w }
{}

/// The image: f is a surjection and then the inclusion of the image. (Chapter III, 1, and appendix A, 1.)
pub fn images()
    ensures factor { (q : Gf) (Q : Quiver) (X Y : Rep q Q) (f : Hom X Y)
        → FactorsBefore (inclusion (image f)) f }
    ensures surjective { (q : Gf) (Q : Quiver) (X Y : Rep q Q) (f : Hom X Y) (k : Hom X (sub_rep (image f)))
        → k ≫ inclusion (image f) ≡ f → IsEpi k }
{}

/// The universal properties of the direct sum: a homomorphism out of it, or into it, is a pair of homomorphisms, and is determined by
/// them. (Chapter III, 1, and appendix A, 1.)
pub fn direct_sums()
    ensures out_first { (q : Gf) (Q : Quiver) (X Y Z : Rep q Q) (f : Hom X Z) (g : Hom Y Z)
        → into_first X Y ≫ from_sum f g ≡ f }
    ensures out_second { (q : Gf) (Q : Quiver) (X Y Z : Rep q Q) (f : Hom X Z) (g : Hom Y Z)
        → into_second X Y ≫ from_sum f g ≡ g }
    ensures out_once { (q : Gf) (Q : Quiver) (X Y Z : Rep q Q) (h : Hom (sum_rep X Y) Z)
        → from_sum (into_first X Y ≫ h) (into_second X Y ≫ h) ≡ h }
    ensures in_first { (q : Gf) (Q : Quiver) (X Y Z : Rep q Q) (f : Hom Z X) (g : Hom Z Y)
        → into_sum f g ≫ onto_first X Y ≡ f }
    ensures in_second { (q : Gf) (Q : Quiver) (X Y Z : Rep q Q) (f : Hom Z X) (g : Hom Z Y)
        → into_sum f g ≫ onto_second X Y ≡ g }
    ensures in_once { (q : Gf) (Q : Quiver) (X Y Z : Rep q Q) (h : Hom Z (sum_rep X Y))
        → into_sum (h ≫ onto_first X Y) (h ≫ onto_second X Y) ≡ h }
{}

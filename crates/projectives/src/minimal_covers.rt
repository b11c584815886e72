//! The laws of minimal covers by projective modules. Chapters are those of Assem, Simson, Skowroński, volume 1.

ghost use Rattle.std.specs.Prelude.{◌≡◌, ◌<◌, ◌+◌, ℕ, length};
ghost use Rattle.linear_algebra.specs.Field.{Gf};
ghost use Rattle.linear_algebra.specs.Matrix.{Row, ◌·◌};
ghost use Rattle.representations.specs.Quiver.{BoundQuiver};
ghost use Rattle.representations.specs.Rep.{Rep, IsMod};
ghost use Rattle.representations.specs.Hom.{Hom, ◌≫◌};
ghost use Rattle.representations.specs.Module.{IsMono, IsEpi, IsExact, IsIso};
ghost use Rattle.representations.specs.Radical.{IsInRadical};
ghost use Rattle.representations.specs.RadicalModule.{radical};
ghost use Rattle.projectives.specs.Words.{Words, IsWordBasis};
ghost use Rattle.projectives.specs.Families.{projectives, generator_of};
ghost use Rattle.projectives.specs.Generators.{count_at, IsIndependentModuloRadical, SpansModuloRadical, VanishesAtTrivialWords};
ghost use Rattle.projectives.specs.Covers.{KernelInRadical, IsMinimalCover};
ghost use Rattle.projectives.specs.HomRows.{value};
ghost use Rattle.projectives.specs.Canonical.{canonical_vertices};
ghost use Rattle.projectives.specs.ReducedSubmodule.{whole};
ghost use Rattle.projectives.specs.CanonicalCover.{vertex_in, projectives_at, IsCanonicalCover};

/// The radical of a projective module: a row of a sum of projective modules at vertices lies in the radical exactly where its
/// coefficients at the trivial words are zero. So the generators are a basis modulo the radical. (Chapter III, 2.4.)
pub fn radical_of_projective()
    ensures vanishes { (q : Gf) (A : BoundQuiver) (W : Words q A.quiver) (B : IsWordBasis A W) (k : ℕ)
        (v : ℕ → ℕ) (w : ℕ) (x : Row q ((projectives W k v).dim w))
        → IsInRadical (projectives W k v) w x → VanishesAtTrivialWords A W B k v w x }
    ensures lies { (q : Gf) (A : BoundQuiver) (W : Words q A.quiver) (B : IsWordBasis A W) (k : ℕ)
        (v : ℕ → ℕ) (w : ℕ) (x : Row q ((projectives W k v).dim w))
        → VanishesAtTrivialWords A W B k v w x → IsInRadical (projectives W k v) w x }
    ensures independent { (q : Gf) (A : BoundQuiver) (W : Words q A.quiver) (B : IsWordBasis A W) (k : ℕ)
        (v : ℕ → ℕ) → IsIndependentModuloRadical (projectives W k v) k v (generator_of A W B k v) }
    ensures span { (q : Gf) (A : BoundQuiver) (W : Words q A.quiver) (B : IsWordBasis A W) (k : ℕ)
        (v : ℕ → ℕ) → SpansModuloRadical (projectives W k v) k v (generator_of A W B k v) }
{}

/// When a homomorphism out of a sum of projective modules is a minimal cover: it is surjective exactly where the values of the generators
/// span the module modulo the radical, and a surjection has its kernel in the radical exactly where they are independent modulo the
/// radical. (Chapter I, 5.)
pub fn cover_criterion()
    ensures onto { (q : Gf) (A : BoundQuiver) (W : Words q A.quiver) (B : IsWordBasis A W) (k : ℕ)
        (v : ℕ → ℕ) (X : Rep q A.quiver) → IsMod A X → (f : Hom (projectives W k v) X)
        → SpansModuloRadical X k v (value A W B k v f) → IsEpi f }
    ensures span { (q : Gf) (A : BoundQuiver) (W : Words q A.quiver) (B : IsWordBasis A W) (k : ℕ)
        (v : ℕ → ℕ) (X : Rep q A.quiver) (f : Hom (projectives W k v) X)
        → IsEpi f → SpansModuloRadical X k v (value A W B k v f) }
    ensures minimal { (q : Gf) (A : BoundQuiver) (W : Words q A.quiver) (B : IsWordBasis A W) (k : ℕ)
        (v : ℕ → ℕ) (X : Rep q A.quiver) (f : Hom (projectives W k v) X)
        → IsIndependentModuloRadical X k v (value A W B k v f) → KernelInRadical f }
    ensures independent { (q : Gf) (A : BoundQuiver) (W : Words q A.quiver) (B : IsWordBasis A W) (k : ℕ)
        (v : ℕ → ℕ) (X : Rep q A.quiver) (f : Hom (projectives W k v) X)
        → IsEpi f → KernelInRadical f
        → IsIndependentModuloRadical X k v (value A W B k v f) }
{}

/// The same for what covers the kernel of d, where i is an inclusion of the kernel and the rows x of it are the values of the generators:
/// the kernel of f lies in the radical exactly where the rows x are independent modulo the radical of the kernel of d. (Chapter I, 5.)
pub fn kernel_cover_criterion()
    ensures minimal { (q : Gf) (A : BoundQuiver) (W : Words q A.quiver) (B : IsWordBasis A W) (k : ℕ)
        (v : ℕ → ℕ) (N X Y : Rep q A.quiver) (i : Hom N X) → IsMono i → (d : Hom X Y) → IsExact i d
        → (f : Hom (projectives W k v) X) → IsExact f d → (x : (j : ℕ) → Row q (N.dim (v j)))
        → ((j : ℕ) → j < k → x j · i.at (v j) ≡ value A W B k v f j)
        → IsIndependentModuloRadical N k v x → KernelInRadical f }
    ensures independent { (q : Gf) (A : BoundQuiver) (W : Words q A.quiver) (B : IsWordBasis A W) (k : ℕ)
        (v : ℕ → ℕ) (N X Y : Rep q A.quiver) (i : Hom N X) → IsMono i → (d : Hom X Y) → IsExact i d
        → (f : Hom (projectives W k v) X) → IsExact f d → (x : (j : ℕ) → Row q (N.dim (v j)))
        → ((j : ℕ) → j < k → x j · i.at (v j) ≡ value A W B k v f j)
        → KernelInRadical f → IsIndependentModuloRadical N k v x }
{}

/// Each module has a minimal cover: by its canonical generators, the basis rows at the columns where the reduced row form of its radical
/// has no pivot. (Chapter I, 5.)
pub fn each_has_minimal_cover()
    ensures { (q : Gf) (A : BoundQuiver) (W : Words q A.quiver) (B : IsWordBasis A W) (X : Rep q A.quiver)
        → IsMod A X → (f : Hom (projectives_at W (canonical_vertices X)) X)
        × IsMinimalCover A W B (length (canonical_vertices X)) (vertex_in (canonical_vertices X)) f
        × IsCanonicalCover A W B (whole X) (canonical_vertices X) f }
{}

/// A minimal cover of a module has as many generators at each vertex as the module modulo its radical has dimensions there.
/// (Chapter I, 5, and III, 2.)
pub fn number_of_generators()
    ensures { (q : Gf) (A : BoundQuiver) (W : Words q A.quiver) (B : IsWordBasis A W) (k : ℕ) (v : ℕ → ℕ)
        (X : Rep q A.quiver) (f : Hom (projectives W k v) X) → IsMinimalCover A W B k v f
        → (w : ℕ) → w < A.quiver.vertices → count_at k v w + (radical X).size w ≡ X.dim w }
{}

/// The minimal cover of a module is unique up to isomorphism: between two of them there is an isomorphism that goes with them.
/// (Chapter I, 5.)
pub fn minimal_cover_is_unique()
    ensures { (q : Gf) (A : BoundQuiver) (W : Words q A.quiver) (B : IsWordBasis A W) (k l : ℕ) (v u : ℕ → ℕ)
        (X : Rep q A.quiver)
        → IsMod A X → (f : Hom (projectives W k v) X) (g : Hom (projectives W l u) X)
        → IsMinimalCover A W B k v f → IsMinimalCover A W B l u g
        → (h : Hom (projectives W k v) (projectives W l u)) × IsIso h × (h ≫ g ≡ f) }
{}

//! The quiver, the paths and the relations of a header as the theory has them. Chapters are those of Assem, Simson, Skowroński, volume 1.

ghost use Rattle.std.specs.Prelude.{◌≡◌, ◌<◌, ◌⊎◌, ℕ, List, length};
ghost use Rattle.linear_algebra.specs.Field.{Gf};
ghost use Rattle.linear_algebra.specs.Matrix.{zeros};
ghost use Rattle.quiver_paths.specs.declared.Quiver.{Quiver};
ghost use Rattle.quiver_paths.specs.Path.{Leads};
ghost use Rattle.path_algebra.specs.declared.Header.{Header};
ghost use Rattle.path_algebra.specs.Allowed.{IsAllowed};
ghost use Rattle.representations.specs.Quiver.{Path as TypedPath};
ghost use Rattle.representations.specs.Rep.{Rep, along};
ghost use Rattle.bound_algebra.specs.TypedPaths.{quiver_of, arrows_of, path_of, listed};
ghost use Rattle.bound_algebra.specs.BoundAlgebra.{term_at, relation_at, relation_of};

/// The two forms of paths: the path of a list of arrows that lead from v to w has those arrows; two paths from v to w with the same arrows are
/// equal; and the arrows of each path of the theory from v to w lead from v to w, or the path acts as zero on each
/// representation. (Chapter II, 1.)
pub fn paths_by_arrows()
    ensures arrows { (Q : Quiver) (v : ℕ) (xs : List ℕ) (w : ℕ) (l : Leads Q v xs w) → arrows_of (path_of Q v xs w l) ≡ xs }
    ensures same { (Q : Quiver) (v w : ℕ) (p r : TypedPath (quiver_of Q) v w) → arrows_of p ≡ arrows_of r → p ≡ r }
    ensures lead_or_zero { (Q : Quiver) (v w : ℕ) (p : TypedPath (quiver_of Q) v w)
        → Leads Q v (arrows_of p) w ⊎ ((q : Gf) (X : Rep q (quiver_of Q)) → along X p ≡ zeros q (X.dim v) (X.dim w)) }
{}

/// The relations of the algebra of an allowed header are the written ones, term by term. (Chapter II, 2.)
pub fn relations_by_terms()
    ensures count { (h : Header) → IsAllowed h → (i : ℕ) → i < length h.relations
        → (relation_of h i).terms ≡ length (relation_at h.relations i).terms }
    ensures coefficient { (h : Header) → IsAllowed h → (i : ℕ) → i < length h.relations → (k : ℕ) → k < length (relation_at h.relations i).terms
        → (relation_of h i).coefficient k ≡ (term_at (relation_at h.relations i).terms k).coef }
    ensures path { (h : Header) → IsAllowed h → (i : ℕ) → i < length h.relations → (k : ℕ) → k < length (relation_at h.relations i).terms
        → listed ((relation_of h i).path k) ≡ (term_at (relation_at h.relations i).terms k).path }
{}

//! What is a module over the algebra of a header, by the terms of its relations. Chapters are those of Assem, Simson, Skowroński, volume 1.

ghost use Rattle.std.specs.Prelude.{◌≡◌, ◌<◌, ℕ};
ghost use Rattle.linear_algebra.specs.Field.{Gf};
ghost use Rattle.linear_algebra.specs.Matrix.{zeros, one, ◌·◌};
ghost use Rattle.quiver_paths.specs.declared.Quiver.{Quiver};
ghost use Rattle.quiver_paths.specs.declared.Path.{Path};
ghost use Rattle.quiver_paths.specs.Quiver.{arrow_count, source, target};
ghost use Rattle.quiver_paths.specs.Path.{concat, trivial_path, arrow_path};
ghost use Rattle.path_algebra.specs.declared.Header.{Header};
ghost use Rattle.path_algebra.specs.Allowed.{IsAllowed};
ghost use Rattle.representations.specs.Quiver.{opposite, opposite_algebra};
ghost use Rattle.representations.specs.Rep.{Rep, IsMod};
ghost use Rattle.bound_algebra.specs.TypedPaths.{quiver_of, Runs};
ghost use Rattle.bound_algebra.specs.PathMatrices.{path_matrix, left_path_matrix};
ghost use Rattle.bound_algebra.specs.BoundAlgebra.{bound_algebra};
ghost use Rattle.bound_algebra.specs.ModulesByTerms.{IsModuleByTerms, IsLeftModuleByTerms};

/// A representation is a module over the algebra of an allowed header exactly where each relation, its terms of the bound's length or more
/// left out, acts as zero, and so does each path of the bound's length. (Chapter III, 1.)
pub fn right_modules_by_terms()
    ensures necessary { (h : Header) → IsAllowed h → (X : Rep h.field (quiver_of h.quiver)) → IsMod (bound_algebra h) X
        → IsModuleByTerms h X }
    ensures sufficient { (h : Header) → IsAllowed h → (X : Rep h.field (quiver_of h.quiver)) → IsModuleByTerms h X
        → IsMod (bound_algebra h) X }
{}

/// The same for left modules, which are the modules over the opposite algebra: the matrix of a path is the product of the matrices of its
/// arrows from the last to the first. (Chapter III, 1.)
pub fn left_modules_by_terms()
    ensures necessary { (h : Header) → IsAllowed h → (X : Rep h.field (opposite (quiver_of h.quiver)))
        → IsMod (opposite_algebra (bound_algebra h)) X → IsLeftModuleByTerms h X }
    ensures sufficient { (h : Header) → IsAllowed h → (X : Rep h.field (opposite (quiver_of h.quiver))) → IsLeftModuleByTerms h X
        → IsMod (opposite_algebra (bound_algebra h)) X }
{}

/// The matrix of a path on a right module: one of a trivial path; that of a path with an arrow behind it is the product with the matrix of
/// the arrow, which acts last; and zero between vertices that the path does not lead between. (Chapter III, 1.)
pub fn matrices_of_paths()
    ensures trivial { (q : Gf) (Q : Quiver) (X : Rep q (quiver_of Q)) (v : ℕ) → path_matrix Q X v v (trivial_path v) ≡ one q (X.dim v) }
    ensures behind { (q : Gf) (Q : Quiver) (X : Rep q (quiver_of Q)) (v : ℕ) (p : Path) (a : ℕ) → a < arrow_count Q
        → Runs Q v (source Q a) p
        → path_matrix Q X v (target Q a) (concat p (arrow_path Q a)) ≡ path_matrix Q X v (source Q a) p · X.mat a }
    ensures apart { (q : Gf) (Q : Quiver) (X : Rep q (quiver_of Q)) (v w : ℕ) (p : Path) → (Runs Q v w p → ⊥)
        → path_matrix Q X v w p ≡ zeros q (X.dim v) (X.dim w) }
{}

/// The same on a left module, where the arrow behind the path acts first.
pub fn left_matrices_of_paths()
    ensures trivial { (q : Gf) (Q : Quiver) (X : Rep q (opposite (quiver_of Q))) (v : ℕ)
        → left_path_matrix Q X v v (trivial_path v) ≡ one q (X.dim v) }
    ensures behind { (q : Gf) (Q : Quiver) (X : Rep q (opposite (quiver_of Q))) (v : ℕ) (p : Path) (a : ℕ) → a < arrow_count Q
        → Runs Q v (source Q a) p
        → left_path_matrix Q X v (target Q a) (concat p (arrow_path Q a)) ≡ X.mat a · left_path_matrix Q X v (source Q a) p }
    ensures apart { (q : Gf) (Q : Quiver) (X : Rep q (opposite (quiver_of Q))) (v w : ℕ) (p : Path) → (Runs Q v w p → ⊥)
        → left_path_matrix Q X v w p ≡ zeros q (X.dim w) (X.dim v) }
{}

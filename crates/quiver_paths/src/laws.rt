//! What holds of paths and of their order. The functions do nothing: their contracts are laws, which range over all
//! paths and quivers.
ghost use Rattle.std.specs.Prelude.{ℕ, ◌≡◌, ◌+◌, ◌<◌, ◌≤◌, ◌↔◌, ◌⊎◌, List};
ghost use Rattle.quiver_paths.specs.declared.Path.{Path};
ghost use Rattle.quiver_paths.specs.declared.Quiver.{Quiver};
ghost use Rattle.quiver_paths.specs.Quiver.{HasEnds};
ghost use Rattle.quiver_paths.specs.Path.{IsPath, IsFactor, Meets, concat, path_length, trivial_path};
ghost use Rattle.quiver_paths.specs.PathParts.{IsCut, IsArrowThen, IsThenArrow};
ghost use Rattle.quiver_paths.specs.PathOrder.{IsSmaller, ComesBefore};
ghost use Rattle.quiver_paths.specs.PathList.{ListsPathsBelow, paths_below};

/// The order of paths, case by case.
pub fn smaller_by_cases()
    ensures { (p q : Path) → IsSmaller p q ↔ ComesBefore p q }
{}

/// The order is strict, and of two different paths of a quiver one is smaller.
pub fn order_is_total()
    ensures irreflexive { (p : Path) → ¬ IsSmaller p p }
    ensures transitive { (p q r : Path) → IsSmaller p q → IsSmaller q r → IsSmaller p r }
    ensures total { (Q : Quiver) (p q : Path) → IsPath Q p → IsPath Q q → (p ≡ q) ⊎ (IsSmaller p q ⊎ IsSmaller q p) }
{}

/// The order goes with concatenation on both sides.
pub fn order_respects_concatenation()
    ensures behind { (p q v : Path) → IsSmaller p q → IsSmaller (concat p v) (concat q v) }
    ensures before { (u p q : Path) → Meets u p → Meets u q → IsSmaller p q → IsSmaller (concat u p) (concat u q) }
{}

/// Paths of a quiver that meet make a path, of which the lengths add. Concatenation is associative, and the trivial paths
/// are its units.
pub fn paths_concatenate()
    ensures path { (Q : Quiver) (p q : Path) → IsPath Q p → IsPath Q q → Meets p q → IsPath Q (concat p q) }
    ensures lengths { (p q : Path) → path_length (concat p q) ≡ path_length p + path_length q }
    ensures associative { (p q r : Path) → concat (concat p q) r ≡ concat p (concat q r) }
    ensures trivial_before { (p : Path) → concat (trivial_path p.start) p ≡ p }
    ensures trivial_behind { (p : Path) → concat p (trivial_path p.end) ≡ p }
{}

/// A path may be cancelled in front and behind.
pub fn concatenation_cancels()
    ensures before { (u p q : Path) → Meets u p → Meets u q → concat u p ≡ concat u q → p ≡ q }
    ensures behind { (p q v : Path) → Meets p v → Meets q v → concat p v ≡ concat q v → p ≡ q }
{}

/// A path of a quiver is cut at each place in exactly one way, and a path that has arrows is an arrow and then a path,
/// and a path and then an arrow.
pub fn paths_are_cut_once()
    ensures cut { (Q : Quiver) (p : Path) (k : ℕ) → HasEnds Q → IsPath Q p → k ≤ path_length p
        → ((front : Path) × (rest : Path) × IsCut Q p k front rest) }
    ensures once { (Q : Quiver) (p : Path) (k : ℕ) (u v u' v' : Path) → IsCut Q p k u v → IsCut Q p k u' v' → (u ≡ u') × (v ≡ v') }
    ensures first { (Q : Quiver) (p : Path) → HasEnds Q → IsPath Q p → 0 < path_length p
        → ((arrow : ℕ) × (rest : Path) × IsArrowThen Q p arrow rest) }
    ensures last { (Q : Quiver) (p : Path) → HasEnds Q → IsPath Q p → 0 < path_length p
        → ((front : Path) × (arrow : ℕ) × IsThenArrow Q p front arrow) }
{}

/// A factor of a path of a quiver is a path, and a factor of a factor is one.
pub fn factors_are_paths()
    ensures path { (Q : Quiver) (f p : Path) → HasEnds Q → IsPath Q p → IsFactor Q f p → IsPath Q f }
    ensures itself { (Q : Quiver) (p : Path) → HasEnds Q → IsPath Q p → IsFactor Q p p }
    ensures transitive { (Q : Quiver) (f g p : Path) → IsFactor Q f g → IsFactor Q g p → IsFactor Q f p }
{}

/// `paths_below` of the definitions lists the paths below a length, and there is one such list.
pub fn lists_all_paths()
    ensures lists { (Q : Quiver) (t : ℕ) → HasEnds Q → ListsPathsBelow Q t (paths_below Q t) }
    ensures once { (Q : Quiver) (t : ℕ) (ps qs : List Path) → ListsPathsBelow Q t ps → ListsPathsBelow Q t qs → ps ≡ qs }
{}

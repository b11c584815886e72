//! What holds of products and of normal forms. The functions do nothing: their contracts are laws.
ghost use Rattle.std.specs.Prelude.{◌≡◌, ◌<◌, ℕ, List, ◌+◌, ◌*◌, ◌++◌, length};
ghost use Rattle.quiver_paths.specs.declared.Path.{Path};
ghost use Rattle.quiver_paths.specs.Path.{IsPath, Leads, concat, path_length, trivial_path, arrow_path};
ghost use Rattle.linear_algebra.specs.Rows.{unit};
ghost use Rattle.path_algebra.specs.Rows.{path_at};
ghost use Rattle.word_products.specs.SparseRows.{acted_along};
ghost use Rattle.quiver_paths.specs.Quiver.{arrow_count, source};
ghost use Rattle.path_algebra.specs.declared.rules.Rule.{Rule};
ghost use Rattle.path_algebra.specs.declared.rules.Step.{Step};
ghost use Rattle.path_algebra.specs.Reduction.{IsReduction, act_arrow, act_arrows};
ghost use Rattle.path_algebra.specs.BasisClauses.{IsBasisClaim, StepsHold, RulesHold, ReducedHolds, WordsHold, MeetsClauses};
ghost use Rattle.word_products.specs.WordProducts.{CanAct, KnowsProducts};
ghost use Rattle.word_products.specs.declared.sparse.Entry.{Entry};
ghost use Rattle.alg_table.specs.NormalForm.{IsNormalForm, AreRightProducts};
ghost use Rattle.path_algebra.specs.declared.Header.{Header};
ghost use Rattle.path_algebra.specs.Allowed.{IsAllowed};
ghost use Rattle.path_algebra.specs.Words.{IsBasis};

use crate::Table;

/// Reduction by rules whose tails are smaller than their tips makes one thing of each path of the quiver. (Green.)
pub fn reduction_is_unique()
    ensures { (h : Header) (words : List Path) (rules : List Rule) → CanAct h words rules → (f g : Path → Path → ℕ) → IsReduction h rules f → IsReduction h rules g
        → (p : Path) → IsPath h.quiver p → (r : Path) → f p r ≡ g p r }
{}

/// An arrow behind a path may be put there before the path is reduced, or act on what the path becomes, where the whole is shorter than the bound.
pub fn arrows_act_behind()
    ensures { (h : Header) (words : List Path) (rules : List Rule) → CanAct h words rules → (becomes : Path → Path → ℕ) → IsReduction h rules becomes → (b : ℕ) → b < arrow_count h.quiver
        → (p : Path) → IsPath h.quiver p → p.end ≡ source h.quiver b → path_length p + 1 < h.bound → act_arrow h becomes words b (becomes p) ≡ becomes (concat p (arrow_path h.quiver b)) }
{}

/// Arrows can act by rules and words of which the conditions before the last hold.
pub fn conditions_before_the_last()
    ensures { (h : Header) (words : List Path) (steps : List Step) (rules : List Rule) → IsAllowed h → IsBasisClaim h words steps rules → StepsHold h steps rules → RulesHold h steps rules
        → ReducedHolds h rules → WordsHold h words rules → CanAct h words rules }
{}

/// The rows of products by reduction are the normal forms of the words with the arrows behind them, where all conditions hold.
pub fn products_are_normal_forms()
    ensures { (h : Header) (words : List Path) (steps : List Step) (rules : List Rule) → IsAllowed h → IsBasisClaim h words steps rules → MeetsClauses h words steps rules
        → (rows : List (List Entry)) → KnowsProducts h words rules rows → length rows ≡ length words * arrow_count h.quiver → AreRightProducts h words rows }
{}

/// A path of the quiver has one normal form over a basis of words.
pub fn normal_forms_are_unique()
    ensures { (h : Header) (words : List Path) → IsBasis h words → (p : Path) → IsPath h.quiver p → (c d : List ℕ) → IsNormalForm h words p c → IsNormalForm h words p d → c ≡ d }
{}

/// Where all conditions hold, arrows behind a path act on what the path becomes, however long it is.
pub fn arrows_always_act_behind()
    ensures { (h : Header) (words : List Path) (steps : List Step) (rules : List Rule) → IsAllowed h → IsBasisClaim h words steps rules → (m : MeetsClauses h words steps rules)
        → (xs : List ℕ) (p : Path) (v : ℕ) → IsPath h.quiver p → Leads h.quiver p.end xs v
        → act_arrows h m.action.becomes words xs (m.action.becomes p) ≡ m.action.becomes (record { start = p.start; end = v; arrows = p.arrows ++ xs }) }
{}

/// Where all conditions hold, the arrows of a path make of the row of the trivial word where it starts the path's normal form.
pub fn rows_give_normal_forms()
    ensures { (h : Header) (words : List Path) (steps : List Step) (rules : List Rule) → IsAllowed h → IsBasisClaim h words steps rules → MeetsClauses h words steps rules
        → (rows : List (List Entry)) → KnowsProducts h words rules rows → length rows ≡ length words * arrow_count h.quiver
        → (p : Path) → IsPath h.quiver p → (place : ℕ) → place < length words → path_at words place ≡ trivial_path p.start
        → IsNormalForm h words p (acted_along h.field rows (arrow_count h.quiver) p.arrows (unit (length words) place)) }
{}

/// Tables cross threads: they may be handed to other threads and shared by them.
pub fn tables_cross_threads(table: &Table) {
    crosses_threads(table);
}

fn crosses_threads<T: Send + Sync>(_value: &T) {}

//! What a table's calls answer, by their contracts in `alg_table`: places of words (`AreWordsAt`), rows of a word and an arrow (`IsProduct`),
//! and rows of paths (`IsNormalForm`). Chapters are those of Assem, Simson, Skowroński, volume 1.

ghost use Rattle.std.specs.Prelude.{◌≡◌, ◌<◌, ℕ, List, length, slice_index_or};
ghost use Rattle.linear_algebra.specs.Families.{combine};
ghost use Rattle.quiver_paths.specs.declared.Path.{Path};
ghost use Rattle.quiver_paths.specs.Quiver.{vertex_count, arrow_count, source, target};
ghost use Rattle.path_algebra.specs.declared.Header.{Header};
ghost use Rattle.path_algebra.specs.Rows.{path_at};
ghost use Rattle.alg_table.specs.declared.table.Side.TheVariants.{Right, Left};
ghost use Rattle.alg_table.specs.TableView.{IsTable};
ghost use Rattle.alg_table.specs.WordPlaces.{AreWordsAt};
ghost use Rattle.alg_table.specs.NormalForm.{IsNormalForm, IsProduct};
ghost use Rattle.representations.specs.Quiver.{opposite, opposite_algebra, reverse};
ghost use Rattle.representations.specs.Rep.{Rep, IsMod};
ghost use Rattle.projectives.specs.Words.{along_word, projective};
ghost use Rattle.projectives.specs.TwoSided.{other};
ghost use Rattle.bound_algebra.specs.TypedPaths.{quiver_of, listed, Runs};
ghost use Rattle.bound_algebra.specs.BoundAlgebra.{bound_algebra};
ghost use Rattle.bound_algebra.specs.PathMatrices.{path_matrix, left_path_matrix};
ghost use Rattle.bound_tables.specs.TableSides.{table_sides};
ghost use Rattle.bound_tables.specs.PlacedEntries.{entry_at_place, ArePlaced};

/// The places of the words from v to w are as many as the words of the algebra there, and the word at place i is the i-th of those. On the
/// left the words of the opposite algebra from v to w are those from w to v, reversed.
pub fn words_at_places()
    ensures count { (h : Header) (words : List Path) (t : IsTable h words) (v w : ℕ) (places : List ℕ) → AreWordsAt words Right v w places
        → (table_sides h words t).words.count v w ≡ length places }
    ensures word { (h : Header) (words : List Path) (t : IsTable h words) (v w : ℕ) (places : List ℕ) → AreWordsAt words Right v w places
        → (i : ℕ) (l : i < (table_sides h words t).words.count v w)
        → listed ((table_sides h words t).words.word v w i l) ≡ path_at words (slice_index_or places i 0) }
    ensures left_count { (h : Header) (words : List Path) (t : IsTable h words) (v w : ℕ) (places : List ℕ) → AreWordsAt words Left v w places
        → (other (table_sides h words t)).count v w ≡ length places }
    ensures left_word { (h : Header) (words : List Path) (t : IsTable h words) (v w : ℕ) (places : List ℕ) → AreWordsAt words Left v w places
        → (i : ℕ) (l : i < (other (table_sides h words t)).count v w)
        → listed (reverse ((other (table_sides h words t)).word v w i l)) ≡ path_at words (slice_index_or places i 0) }
{}

/// The row of the i-th word from v to the source of an arrow, and then the arrow, has at the places of the words from v to the target the
/// entries of row i of the algebra's matrix of the arrow, and is zero elsewhere. On the left the arrow stands before the word.
pub fn rows_of_products()
    ensures behind { (h : Header) (words : List Path) (t : IsTable h words) (v a i : ℕ) (sources targets row : List ℕ)
        → a < arrow_count h.quiver → AreWordsAt words Right v (source h.quiver a) sources → AreWordsAt words Right v (target h.quiver a) targets
        → i < length sources → IsProduct h words Right (path_at words (slice_index_or sources i 0)) a row
        → ArePlaced targets row (((table_sides h words t).words.act v a).at i) }
    ensures before { (h : Header) (words : List Path) (t : IsTable h words) (v a i : ℕ) (targets sources row : List ℕ)
        → a < arrow_count h.quiver → AreWordsAt words Left v (target h.quiver a) targets → AreWordsAt words Left v (source h.quiver a) sources
        → i < length targets → IsProduct h words Left (path_at words (slice_index_or targets i 0)) a row
        → ArePlaced sources row (((other (table_sides h words t)).act v a).at i) }
{}

/// The row of a path from v to w: at the places of the words from v to w it has the coordinates of the path in the projective module at v,
/// what the path makes of the generator there, and is zero elsewhere. On each module the path acts as that combination of words, on the
/// right and on the left. (Chapter III, 2.)
pub fn rows_of_paths()
    ensures coordinates { (h : Header) (words : List Path) (t : IsTable h words) (v w : ℕ) (p : Path) (places row : List ℕ)
        → v < vertex_count h.quiver → Runs h.quiver v w p → AreWordsAt words Right v w places → IsNormalForm h words p row
        → ArePlaced places row ((path_matrix h.quiver (projective (table_sides h words t).words v) v w p).at ((table_sides h words t).basis.place v)) }
    ensures acts { (h : Header) (words : List Path) (t : IsTable h words) (v w : ℕ) (p : Path) (places row : List ℕ)
        → v < vertex_count h.quiver → Runs h.quiver v w p → AreWordsAt words Right v w places → IsNormalForm h words p row
        → (X : Rep h.field (quiver_of h.quiver)) → IsMod (bound_algebra h) X
        → path_matrix h.quiver X v w p ≡ combine (length places) (entry_at_place places row) (along_word (table_sides h words t).words X v w) }
    ensures left_acts { (h : Header) (words : List Path) (t : IsTable h words) (v w : ℕ) (p : Path) (places row : List ℕ)
        → v < vertex_count h.quiver → Runs h.quiver v w p → AreWordsAt words Left w v places → IsNormalForm h words p row
        → (X : Rep h.field (opposite (quiver_of h.quiver))) → IsMod (opposite_algebra (bound_algebra h)) X
        → left_path_matrix h.quiver X v w p ≡ combine (length places) (entry_at_place places row) (along_word (other (table_sides h words t)) X w v) }
{}

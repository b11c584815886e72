//! The normal words of a header as a basis of its algebra, on both sides. The laws have no premise but that the header is allowed, and that
//! the words are its normal words. Chapters are those of Assem, Simson, Skowroński, volume 1; normal words are Green's.

ghost use Rattle.std.specs.Prelude.{◌≡◌, ◌<◌, ℕ, List};
ghost use Rattle.linear_algebra.specs.Rows.{list_of};
ghost use Rattle.quiver_paths.specs.declared.Path.{Path};
ghost use Rattle.quiver_paths.specs.Quiver.{source, target};
ghost use Rattle.quiver_paths.specs.Path.{concat, arrow_path};
ghost use Rattle.path_algebra.specs.declared.Header.{Header};
ghost use Rattle.path_algebra.specs.Allowed.{IsAllowed};
ghost use Rattle.path_algebra.specs.Elements.{path_element, combination};
ghost use Rattle.path_algebra.specs.Ideals.{Congruent};
ghost use Rattle.path_algebra.specs.Words.{AreNormalWords};
ghost use Rattle.representations.specs.Quiver.{opposite_algebra};
ghost use Rattle.projectives.specs.Words.{IsWordBasis};
ghost use Rattle.projectives.specs.TwoSided.{TwoSided, other};
ghost use Rattle.bound_algebra.specs.TypedPaths.{listed};
ghost use Rattle.bound_algebra.specs.BoundAlgebra.{bound_algebra};
ghost use Rattle.bound_algebra.specs.WordLists.{words_between};
ghost use Rattle.bound_algebra.specs.NormalWords.{word_count, normal_word, typed_word};
ghost use Rattle.bound_algebra.specs.AlgebraWords.{arrows_behind, arrows_before, algebra_words, opposite_words};

/// Each allowed header has normal words. (By the law `normal_words_are_unique` of `path_algebra` it has one list of them.)
pub fn normal_words_exist()
    ensures { (h : Header) → IsAllowed h → (words : List Path) × AreNormalWords h words }
{}

/// The normal words are a basis of the algebra of the header, and reversed one of the opposite algebra: so they make the two sides that the
/// laws of projective and injective modules, of translates and of almost split sequences are about. On each side the trivial path is the first
/// word from its vertex to itself. (Chapter II, 1 and 2.)
pub fn normal_words_are_two_sided()
    ensures basis { (h : Header) (ok : IsAllowed h) (words : List Path) (w : AreNormalWords h words)
        → IsWordBasis (bound_algebra h) (algebra_words h ok words w) }
    ensures opposite_basis { (h : Header) (ok : IsAllowed h) (words : List Path) (w : AreNormalWords h words)
        → IsWordBasis (opposite_algebra (bound_algebra h)) (opposite_words h ok words w) }
    ensures two_sides { (h : Header) (ok : IsAllowed h) (words : List Path) (w : AreNormalWords h words)
        → (T : TwoSided h.field (bound_algebra h)) × (T.words ≡ algebra_words h ok words w) × (other T ≡ opposite_words h ok words w) }
    ensures trivial_first { (h : Header) (ok : IsAllowed h) (words : List Path) (w : AreNormalWords h words)
        → (T : TwoSided h.field (bound_algebra h)) × (T.words ≡ algebra_words h ok words w) × (other T ≡ opposite_words h ok words w)
        × ((v : ℕ) → T.basis.place v ≡ 0) × ((v : ℕ) → T.opposite_basis.place v ≡ 0) }
{}

/// The i-th word from v to w is the i-th of the normal words that lead from v to w.
pub fn words_by_place()
    ensures { (h : Header) (ok : IsAllowed h) (words : List Path) (n : AreNormalWords h words) (v w i : ℕ)
        → (l : i < word_count h ok words n v w) → listed (typed_word h ok words n v w i l) ≡ normal_word h ok words n v w i }
{}

/// What an arrow makes of a word, on each side: the word and then the arrow is congruent to the combination of words that row i of
/// `arrows_behind` says, and the arrow and then the word to the one that row i of `arrows_before` says.
pub fn words_and_arrows()
    ensures behind { (h : Header) (ok : IsAllowed h) (words : List Path) (n : AreNormalWords h words) (v a i : ℕ)
        → i < word_count h ok words n v (source h.quiver a)
        → Congruent h (path_element h.bound (concat (normal_word h ok words n v (source h.quiver a) i) (arrow_path h.quiver a)))
        (combination h.field h.bound (list_of (word_count h ok words n v (target h.quiver a)) ((arrows_behind h ok words n v a).at i))
        (words_between words v (target h.quiver a))) }
    ensures before { (h : Header) (ok : IsAllowed h) (words : List Path) (n : AreNormalWords h words) (v a i : ℕ)
        → i < word_count h ok words n (target h.quiver a) v
        → Congruent h (path_element h.bound (concat (arrow_path h.quiver a) (normal_word h ok words n (target h.quiver a) v i)))
        (combination h.field h.bound (list_of (word_count h ok words n (source h.quiver a) v) ((arrows_before h ok words n v a).at i))
        (words_between words (source h.quiver a) v)) }
{}

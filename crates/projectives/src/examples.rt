//! Two small algebras whose words are a basis: so what the laws ask of an algebra can be met.

ghost use Rattle.linear_algebra.specs.Field.{Gf};
ghost use Rattle.projectives.specs.Words.{IsWordBasis};
ghost use Rattle.projectives.specs.SmallAlgebras.{loop_algebra, loop_words, kronecker_algebra, kronecker_words};

/// Over each field, the words 1, x, x² are a basis of the algebra of one loop x with x³ = 0, and the two trivial paths and the two arrows
/// are a basis of the path algebra of the Kronecker quiver.
pub fn small_algebras()
    ensures one_loop { (q : Gf) → IsWordBasis loop_algebra (loop_words q) }
    ensures kronecker { (q : Gf) → IsWordBasis kronecker_algebra (kronecker_words q) }
{}

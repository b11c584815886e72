//! Modules and maps. Chapters are those of Assem, Simson, Skowroński, volume 1.

ghost use Rattle.std.specs.Prelude.{◌≡◌, ◌≢◌, ◌<◌, ◌≤◌, ◌+◌, ◌*◌, ◌%◌, ◌⊎◌, ℕ, List, [], ◌∷◌, ◌++◌, length, slice_index, Contains};
ghost use Rattle.linear_algebra.specs.Field.{Gf, order};
ghost use Rattle.linear_algebra.specs.Matrix.{Mat, Row, join};
ghost use Rattle.linear_algebra.specs.BlockFamilies.{total};
ghost use Rattle.linear_algebra.specs.Rows.{IsRow, entry};
ghost use Rattle.linear_algebra.specs.Typed.{as_row};
ghost use Rattle.path_algebra.specs.declared.Header.{Header};
ghost use Rattle.path_algebra.specs.Allowed.{IsAllowed};
ghost use Rattle.representations.specs.Quiver.{Quiver, opposite, BoundQuiver, opposite_algebra};
ghost use Rattle.representations.specs.Rep.{Rep, IsMod};
ghost use Rattle.representations.specs.Hom.{Hom};
ghost use Rattle.representations.specs.HomSpace.{unknowns, flat};
ghost use Rattle.representations.specs.Sum.{zero_rep, sum_rep, sum_family};
ghost use Rattle.representations.specs.Dual.{dual};
ghost use Rattle.fp_linear.specs.Matrix.{PlainMatrix, most_entries};
ghost use Rattle.module_types.specs.declared.Side.{Side as Hand};
ghost use Rattle.module_types.specs.declared.Module.{Module as Printed};
ghost use Rattle.projectives.specs.TwoSided.{TwoSided, other, swap};
ghost use Rattle.module_types.specs.Algebras.{other_side, sided, algebra_at, words_at, sided_words};
ghost use Rattle.module_types.specs.Readings.{dim_at, rows_at, rep_of, IsModuleOver, family_of, IsHom, hom_by};
ghost use Rattle.module_types.specs.Shapes.{IsModule, HasModuleShape, dimension};
ghost use Rattle.module_types.specs.SimpleModules.{simple, dim_of_simple};
ghost use Rattle.module_types.specs.Written.{written, block_sum, block_sum_of, part_at, dual_of, simple_at};
ghost use Rattle.module_types.specs.Flattening.{flat_family, family_of_row, flat_place};

/// Each representation is written in one way, and read back from it; a module that has its shape is what its reading is written as.
pub fn reading_and_writing()
    ensures read { (q : Gf) (Q : Quiver) (side : Hand) (X : Rep q Q) → rep_of q Q (written side X) ≡ X }
    ensures write { (q : Gf) (Q : Quiver) (m : Printed) → IsModule q Q m → written m.side (rep_of q Q m) ≡ m }
    ensures shape { (q : Gf) (Q : Quiver) (side : Hand) (X : Rep q Q) → total Q.vertices X.dim ≤ 256 → IsModule q Q (written side X) }
{}

/// What is printed has the shape of a module where it has that without the limit, and its dimension is not too large; without the limit too it is what its
/// reading is written as. A writing has the shape where its matrices have no more entries than matrices may have.
pub fn printed_modules()
    ensures shape { (q : Gf) (Q : Quiver) (m : Printed) → IsModule q Q m → HasModuleShape q Q m }
    ensures small { (q : Gf) (Q : Quiver) (m : Printed) → HasModuleShape q Q m → dimension m.dims ≤ 256 → IsModule q Q m }
    ensures write { (q : Gf) (Q : Quiver) (m : Printed) → HasModuleShape q Q m → written m.side (rep_of q Q m) ≡ m }
    ensures writing { (q : Gf) (Q : Quiver) (side : Hand) (X : Rep q Q) → ((a : ℕ) → a < Q.arrows → X.dim (Q.source a) * X.dim (Q.target a) ≤ most_entries)
        → HasModuleShape q Q (written side X) }
{}

/// The dimensions of a reading are the printed ones, and none past the vertices. The entries of its matrices, and of those of a map, are the printed ones
/// modulo the order of the field where the list has them (`entry` is zero where it has none), and zero outside the dimensions.
pub fn readings()
    ensures dims { (q : Gf) (Q : Quiver) (m : Printed) (v : ℕ) → v < Q.vertices → (rep_of q Q m).dim v ≡ slice_index m.dims v }
    ensures past { (q : Gf) (Q : Quiver) (m : Printed) (v : ℕ) → Q.vertices ≤ v → (rep_of q Q m).dim v ≡ 0 }
    ensures entries { (q : Gf) (Q : Quiver) (m : Printed) (a i j : ℕ) → i < dim_at Q m.dims (Q.source a) → j < dim_at Q m.dims (Q.target a)
        → ((rep_of q Q m).mat a).at i j ≡ entry (rows_at m.matrices a) i j % order q }
    ensures outside { (q : Gf) (Q : Quiver) (m : Printed) (a i j : ℕ) → (dim_at Q m.dims (Q.source a) ≤ i) ⊎ (dim_at Q m.dims (Q.target a) ≤ j)
        → ((rep_of q Q m).mat a).at i j ≡ 0 }
    ensures map_entries { (q : Gf) (Q : Quiver) (X Y : Rep q Q) (matrices : List PlainMatrix) (v i j : ℕ) → i < X.dim v → j < Y.dim v
        → (family_of X Y matrices v).at i j ≡ entry (rows_at matrices v) i j % order q }
    ensures map_outside { (q : Gf) (Q : Quiver) (X Y : Rep q Q) (matrices : List PlainMatrix) (v i j : ℕ) → (X.dim v ≤ i) ⊎ (Y.dim v ≤ j)
        → (family_of X Y matrices v).at i j ≡ 0 }
{}

/// The block sum of two modules is read as their direct sum; it has their side, and the shape of a module where its dimension is not too large; over
/// an algebra it is a module where both are. In the rows of the first it has the entries of the first, and then zeros; in those of the second zeros, and
/// then the entries of the second. (Chapter III, 1.)
pub fn block_sums()
    ensures read { (q : Gf) (Q : Quiver) (a b : Printed) → rep_of q Q (block_sum q Q a b) ≡ sum_rep (rep_of q Q a) (rep_of q Q b) }
    ensures side { (q : Gf) (Q : Quiver) (a b : Printed) → (block_sum q Q a b).side ≡ a.side }
    ensures shape { (q : Gf) (Q : Quiver) (a b : Printed) → IsModule q Q a → IsModule q Q b → dimension a.dims + dimension b.dims ≤ 256
        → IsModule q Q (block_sum q Q a b) }
    ensures module { (q : Gf) (A : BoundQuiver) (a b : Printed) → IsMod A (rep_of q A.quiver a) → IsMod A (rep_of q A.quiver b)
        → IsMod A (rep_of q A.quiver (block_sum q A.quiver a b)) }
    ensures over { (h : Header) (a b : Printed) → a.side ≡ b.side → IsModuleOver h a → IsModuleOver h b
        → IsModuleOver h (block_sum h.field (algebra_at a.side h).quiver a b) }
    ensures dims { (q : Gf) (Q : Quiver) (a b : Printed) (v : ℕ) → v < Q.vertices
        → slice_index (block_sum q Q a b).dims v ≡ slice_index a.dims v + slice_index b.dims v }
    ensures upper { (q : Gf) (Q : Quiver) (a b : Printed) (r i j : ℕ) → i < dim_at Q a.dims (Q.source r)
        → ((rep_of q Q (block_sum q Q a b)).mat r).at i j ≡ join (dim_at Q a.dims (Q.target r)) (((rep_of q Q a).mat r).at i) (λ t. 0) j }
    ensures lower { (q : Gf) (Q : Quiver) (a b : Printed) (r i j : ℕ)
        → ((rep_of q Q (block_sum q Q a b)).mat r).at (dim_at Q a.dims (Q.source r) + i) j
        ≡ join (dim_at Q a.dims (Q.target r)) (λ t. 0) (((rep_of q Q b).mat r).at i) j }
{}

/// The block sum of a list is read as the direct sum of its members in their order: without members it is zero, and a member more is put
/// behind. It has the side that is given, and over a header it is a module where each member is one of that side.
pub fn block_sums_of_lists()
    ensures read { (q : Gf) (Q : Quiver) (side : Hand) (parts : List Printed)
        → rep_of q Q (block_sum_of q Q side parts) ≡ sum_family (length parts) (part_at q Q side parts) }
    ensures none { (q : Gf) (Q : Quiver) (side : Hand) → block_sum_of q Q side [] ≡ written side (zero_rep q Q) }
    ensures push { (q : Gf) (Q : Quiver) (side : Hand) (parts : List Printed) (m : Printed)
        → block_sum_of q Q side (parts ++ m ∷ []) ≡ block_sum q Q (block_sum_of q Q side parts) m }
    ensures shape { (q : Gf) (Q : Quiver) (side : Hand) (parts : List Printed)
        → total (length parts) (λ i. total Q.vertices (part_at q Q side parts i).dim) ≤ 256 → IsModule q Q (block_sum_of q Q side parts) }
    ensures module { (q : Gf) (A : BoundQuiver) (side : Hand) (parts : List Printed)
        → ((i : ℕ) → i < length parts → IsMod A (part_at q A.quiver side parts i)) → IsMod A (rep_of q A.quiver (block_sum_of q A.quiver side parts)) }
    ensures side { (q : Gf) (Q : Quiver) (side : Hand) (parts : List Printed) → (block_sum_of q Q side parts).side ≡ side }
    ensures over { (h : Header) (side : Hand) (parts : List Printed) → ((m : Printed) → Contains parts m → (m.side ≡ side) × IsModuleOver h m)
        → IsModuleOver h (block_sum_of h.field (algebra_at side h).quiver side parts) }
{}

/// The dual has the transposed matrices and the other side; twice it is the module itself. It is a module over the opposite algebra exactly where the
/// module is one; so the left modules are the duals of the right ones, and the dual of a module over a header is one. (Chapter I, 2.9, and III, 1.)
pub fn duals()
    ensures read { (q : Gf) (Q : Quiver) (m : Printed) → rep_of q (opposite Q) (dual_of q Q m) ≡ dual (rep_of q Q m) }
    ensures entries { (q : Gf) (Q : Quiver) (m : Printed) (a i j : ℕ)
        → ((rep_of q (opposite Q) (dual_of q Q m)).mat a).at i j ≡ ((rep_of q Q m).mat a).at j i }
    ensures side { (q : Gf) (Q : Quiver) (m : Printed) → (dual_of q Q m).side ≡ other_side m.side }
    ensures twice { (q : Gf) (Q : Quiver) (m : Printed) → IsModule q Q m → dual_of q (opposite Q) (dual_of q Q m) ≡ m }
    ensures shape { (q : Gf) (Q : Quiver) (m : Printed) → IsModule q Q m → IsModule q (opposite Q) (dual_of q Q m) }
    ensures module { (q : Gf) (A : BoundQuiver) (m : Printed) → IsMod A (rep_of q A.quiver m)
        → IsMod (opposite_algebra A) (rep_of q (opposite A.quiver) (dual_of q A.quiver m)) }
    ensures back { (q : Gf) (A : BoundQuiver) (m : Printed) → IsMod (opposite_algebra A) (rep_of q (opposite A.quiver) (dual_of q A.quiver m))
        → IsMod A (rep_of q A.quiver m) }
    ensures over { (h : Header) (m : Printed) → IsModuleOver h m → IsModuleOver h (dual_of h.field (algebra_at m.side h).quiver m) }
{}

/// The side of the other side is the side itself, and its quiver is the opposite one. The words of a side are those of the two sides, exchanged on the
/// left; the other side's words of the sides exchanged are the words themselves, so that what is read on the left of the opposite algebra reaches them.
pub fn sides()
    ensures back { (s : Hand) → other_side (other_side s) ≡ s }
    ensures across { (s : Hand) (A : BoundQuiver) → (sided (other_side s) A).quiver ≡ opposite (sided s A).quiver }
    ensures words { (q : Gf) (A : BoundQuiver) (s : Hand) (T : TwoSided q A) → (sided_words s T).words ≡ words_at s T }
    ensures exchanged { (q : Gf) (A : BoundQuiver) (T : TwoSided q A) → other (swap T) ≡ T.words }
{}

/// The simple module at a vertex is read as the representation with dimension 1 there, none elsewhere, and zero matrices; it has the shape of a module,
/// and over an allowed header it is a module of its side. (Chapter III, 2.)
pub fn simple_modules()
    ensures read { (q : Gf) (Q : Quiver) (side : Hand) (v : ℕ) → rep_of q Q (simple_at q Q side v) ≡ simple q Q v }
    ensures there { (Q : Quiver) (v : ℕ) → v < Q.vertices → dim_of_simple Q v v ≡ 1 }
    ensures elsewhere { (Q : Quiver) (v w : ℕ) → v ≢ w → dim_of_simple Q v w ≡ 0 }
    ensures shape { (q : Gf) (Q : Quiver) (side : Hand) (v : ℕ) → IsModule q Q (simple_at q Q side v) }
    ensures over { (h : Header) → IsAllowed h → (side : Hand) (v : ℕ) → IsModuleOver h (simple_at h.field (algebra_at side h).quiver side v) }
{}

/// A homomorphism as one row has its matrices vertex by vertex, each row by row; a list with these entries at these places is read as that row.
/// Rows of this length and families of matrices at the vertices are the same. (Chapter III, 1.)
pub fn flattened_maps()
    ensures whole { (q : Gf) (Q : Quiver) (X Y : Rep q Q) (f : (v : ℕ) → Mat q (X.dim v) (Y.dim v)) (h : IsHom X Y f) → flat (hom_by X Y f h) ≡ flat_family X Y f }
    ensures entries { (q : Gf) (Q : Quiver) (X Y : Rep q Q) (f : (v : ℕ) → Mat q (X.dim v) (Y.dim v)) (v i j : ℕ) → v < Q.vertices → i < X.dim v
        → j < Y.dim v → (flat_family X Y f).at 0 (flat_place X Y v i j) ≡ (f v).at i j }
    ensures read { (q : Gf) (Q : Quiver) (X Y : Rep q Q) (f : (v : ℕ) → Mat q (X.dim v) (Y.dim v)) (row : List ℕ) → IsRow q (unknowns X Y) row
        → ((v i j : ℕ) → v < Q.vertices → i < X.dim v → j < Y.dim v → slice_index row (flat_place X Y v i j) ≡ (f v).at i j)
        → as_row q (unknowns X Y) row ≡ flat_family X Y f }
    ensures back { (q : Gf) (Q : Quiver) (X Y : Rep q Q) (f : (v : ℕ) → Mat q (X.dim v) (Y.dim v)) (v : ℕ) → v < Q.vertices
        → family_of_row X Y (flat_family X Y f) v ≡ f v }
    ensures forth { (q : Gf) (Q : Quiver) (X Y : Rep q Q) (x : Row q (unknowns X Y)) → flat_family X Y (family_of_row X Y x) ≡ x }
{}

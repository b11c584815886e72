//! What holds of the modules of vertices. The functions do nothing: their contracts are laws. Chapters are those of Assem, Simson, Skowroński, volume 1.
ghost use Rattle.std.specs.Prelude.{ℕ, ◌≡◌, List, length};
ghost use Rattle.linear_algebra.specs.BlockFamilies.{total};
ghost use Rattle.quiver_paths.specs.declared.Path.{Path};
ghost use Rattle.quiver_paths.specs.Quiver.{vertex_count};
ghost use Rattle.path_algebra.specs.declared.Header.{Header};
ghost use Rattle.alg_table.specs.TableView.{IsTable};
ghost use Rattle.projectives.specs.CanonicalCover.{vertex_in, projectives_at};
ghost use Rattle.projectives.specs.Injective.{injectives};
ghost use Rattle.bound_tables.specs.TableSides.{table_sides};
ghost use Rattle.module_types.specs.declared.Side.{Side};
ghost use Rattle.module_types.specs.Algebras.{sided_words};
ghost use Rattle.standard_modules.specs.StandardModules.{projective_dim, injective_dim, projectives_dim, injectives_dim, projective_rep, injective_rep};

/// The numbers of words are the dimensions of the projective module at a vertex, of the injective one, and of the sums of such modules at some
/// vertices; that of the injective ones is what the Nakayama functor makes of the sum of the projective modules there. (Chapter III, 2.)
pub fn words_count_dimensions()
    ensures projective { (h : Header) (words : List Path) (t : IsTable h words) (side : Side) (v : ℕ)
        → total (vertex_count h.quiver) (projective_rep h words t side v).dim ≡ projective_dim h words side v }
    ensures injective { (h : Header) (words : List Path) (t : IsTable h words) (side : Side) (v : ℕ)
        → total (vertex_count h.quiver) (injective_rep h words t side v).dim ≡ injective_dim h words side v }
    ensures projectives { (h : Header) (words : List Path) (t : IsTable h words) (side : Side) (vertices : List ℕ)
        → total (vertex_count h.quiver) (projectives_at (sided_words side (table_sides h words t)).words vertices).dim ≡ projectives_dim h words side vertices }
    ensures injectives { (h : Header) (words : List Path) (t : IsTable h words) (side : Side) (vertices : List ℕ)
        → total (vertex_count h.quiver) (injectives (sided_words side (table_sides h words t)) (length vertices) (vertex_in vertices)).dim ≡ injectives_dim h words side vertices }
{}

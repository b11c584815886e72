//! The tables of statements, computed on small settings (`SmallSettings`): what references mean, which refusal comes first, both sides of each limit, and
//! the records and names of single statements. The functions do nothing: their contracts are laws.

ghost use Rattle.std.specs.Prelude.{ℕ, ◌≡◌, ◌≤◌, List, [], ◌∷◌, Some, None};
ghost use Rattle.linear_algebra.specs.Field.{f2};
ghost use Rattle.fp_linear.specs.Matrix.{plain};
ghost use Rattle.quiver_paths.specs.declared.names.Reference.{Reference};
ghost use Rattle.path_algebra.specs.declared.Relation.{Relation};
ghost use Rattle.module_types.specs.declared.Module.{Module};
ghost use Rattle.module_types.specs.declared.TermRows.{TermRows};
ghost use Rattle.module_types.specs.declared.Side.TheVariants.{Right, Left};
ghost use Rattle.claim_conditions.specs.Locals.{LocalHolds};
ghost use Rattle.script_types.specs.declared.Standard.TheVariants.{Simple, Projective, Injective};
ghost use Rattle.script_types.specs.declared.StatementKind.TheVariants.{Rep, Std, Sum, Map, Kernel, Cokernel, Radical, Hom, Resolve, Ext, Decompose, Transpose, Tau, Taui, Ars};
ghost use Rattle.report_types.specs.declared.claims.Claim.TheVariants as claim;
ghost use Rattle.report_types.specs.declared.claims.Translation.TheVariants as translation;
ghost use Rattle.report_types.specs.declared.claims.Record.{Record};
ghost use Rattle.report_types.specs.declared.reports.Why.{Why};
ghost use Rattle.report_types.specs.declared.reports.Why.TheVariants as why;
ghost use Rattle.report_types.specs.Verdicts.{NormalWords};
ghost use Rattle.script_answers.specs.declared.bound.Bound.TheVariants.{Whole, Arrow, WithMap, Parts};
ghost use Rattle.script_answers.specs.Names.{module_named, map_named};
ghost use Rattle.script_answers.specs.Settings.{Setting, module_of};
ghost use Rattle.script_answers.specs.FirstTests.{term_limit_at, dual_limit_at};
ghost use Rattle.script_answers.specs.Refusals.{early, cover_dim, dual_written};
ghost use Rattle.script_answers.specs.Written.{rep_written, map_written};
ghost use Rattle.script_answers.specs.Statements.{Takes, binds};
ghost use Rattle.script_answers.specs.LateRefusals.{extension_limit, dual_limit, sequence_refused, IsLargeTerm, IsLargeCover, Shows};
ghost use Rattle.script_answers.specs.SmallSettings.{vertex_one, vertex_two, vertex_three, arrow_a, arrow_x, name_A, name_B, name_F, name_X, name_N, name_E, to, to_map, to_inverse, to_part, copies, at_one, along_arrow, line_at, bare_line_at, goes, with_words, with_loop, path_xx, relation_xx, relation_xxx, term_of, two_modules, two_simple, names_behind, map_behind, no_rows, claims_only, with_module, with_map, local_by, two_parts, no_parts, sequence_records};

/// What a reference means, where its name is bound to a module, to a map, to a module with a map, and to a sum of two parts: 5 and 6, with the sum 7 and
/// the maps 3 and 4.
pub fn references_mean()
    ensures whole { let names = (name_A, Whole 1) ∷ (name_F, Arrow 2) ∷ [] in
        (module_named names (to name_A) ≡ Some 1) × (map_named names (to name_A) ≡ None) × (map_named names (to_map name_A) ≡ None)
        × (map_named names (to name_F) ≡ Some 2) × (module_named names (to name_F) ≡ None) × (module_named names (to name_X) ≡ None) }
    ensures with_map { let names = (name_N, WithMap 3 2) ∷ [] in
        (module_named names (to name_N) ≡ Some 3) × (map_named names (to_map name_N) ≡ Some 2) × (map_named names (to name_N) ≡ None)
        × (map_named names (to_inverse name_N) ≡ None) × (module_named names (to_part name_N 1) ≡ None) }
    ensures sum { let names = (name_X, Parts 5 2 7 3) ∷ [] in
        (module_named names (to name_X) ≡ Some 7) × (map_named names (to_map name_X) ≡ Some 3) × (map_named names (to_inverse name_X) ≡ Some 4)
        × (map_named names (to name_X) ≡ None) × (module_named names (to_map name_X) ≡ None) }
    ensures parts { let names = (name_X, Parts 5 2 7 3) ∷ [] in
        (module_named names (to_part name_X 1) ≡ Some 5) × (module_named names (to_part name_X 2) ≡ Some 6) × (module_named names (to_part name_X 3) ≡ None)
        × (map_named names (to_part name_X 1) ≡ None) }
{}

/// Names are tested in the order of writing: what is referred to before a new name or behind it, each with its kind; a name that is given twice is taken.
pub fn names_come_first()
    ensures references { (early two_simple (Hom (to name_X) (to name_N)) ≡ Some (why.UnknownName (to name_X)))
        × (early two_simple (Hom (to name_A) (to name_N)) ≡ Some (why.UnknownName (to name_N)))
        × (early two_simple (Hom (to name_F) (to name_A)) ≡ Some (why.UnknownName (to name_F)))
        × (early two_simple (Hom (to_map name_A) (to name_X)) ≡ Some (why.UnknownName (to_map name_A))) }
    ensures new_first { (early two_simple (Kernel name_A (to name_X)) ≡ Some (why.NameTaken name_A))
        × (early two_simple (Kernel name_N (to name_A)) ≡ Some (why.UnknownName (to name_A)))
        × (early two_simple (Kernel name_N (to name_F)) ≡ None) × (early two_simple (Radical name_N (to name_F)) ≡ Some (why.UnknownName (to name_F)))
        × (early two_simple (Tau name_A (to name_X)) ≡ Some (why.NameTaken name_A)) }
    ensures reference_first { (early two_simple (Decompose (to name_X) name_A) ≡ Some (why.UnknownName (to name_X)))
        × (early two_simple (Decompose (to name_A) name_B) ≡ Some (why.NameTaken name_B)) × (early two_simple (Decompose (to name_A) name_X) ≡ None) }
    ensures sequences { (early two_simple (Ars (to name_X) name_A name_A) ≡ Some (why.UnknownName (to name_X)))
        × (early two_simple (Ars (to name_A) name_B name_F) ≡ Some (why.NameTaken name_B))
        × (early two_simple (Ars (to name_A) name_N name_F) ≡ Some (why.NameTaken name_F))
        × (early two_simple (Ars (to name_A) name_N name_N) ≡ Some (why.NameTaken name_N)) × (early two_simple (Ars (to name_A) name_N name_E) ≡ None) }
    ensures vertices { (early two_simple (Std name_A Simple vertex_three) ≡ Some (why.NameTaken name_A))
        × (early two_simple (Std name_N Simple vertex_three) ≡ Some (why.UnknownName (to vertex_three)))
        × (early two_simple (Rep name_N (257 ∷ []) (bare_line_at vertex_one ∷ [])) ≡ Some (why.UnknownName (to vertex_one))) }
{}

/// Behind the names: the side, then the shape, then limits, and then whether arrows commute. A space of homomorphisms is counted last.
pub fn sides_shapes_limits()
    ensures maps { (early (two_modules (at_one Right 1) (at_one Left 1)) (Map name_N (to name_A) (to name_B) (line_at vertex_three 1 ∷ []))
        ≡ Some (why.UnknownName (to vertex_three)))
        × (early (two_modules (at_one Right 1) (at_one Left 1)) (Map name_N (to name_A) (to name_B) (line_at vertex_two 1 ∷ [])) ≡ Some why.Side)
        × (early two_simple (Map name_N (to name_A) (to name_B) (line_at vertex_two 1 ∷ [])) ≡ Some why.Shape) }
    ensures not_hom { early (two_modules (at_one Right 1) (along_arrow 1)) (Map name_N (to name_A) (to name_B) (line_at vertex_one 1 ∷ []))
        ≡ Some (why.NotHom 0) }
    ensures sides { (early (two_modules (at_one Right 256) (at_one Left 256)) (Sum name_N (to name_A) (to name_B)) ≡ Some why.Side)
        × (early (two_modules (at_one Right 256) (at_one Left 256)) (Hom (to name_A) (to name_B)) ≡ Some why.Side)
        × (early (two_modules (at_one Right 256) (at_one Left 256)) (Ext 1 (to name_A) (to name_B)) ≡ Some why.Side) }
    ensures shapes { (early two_simple (Rep name_N (257 ∷ []) []) ≡ Some why.Shape)
        × (early two_simple (Rep name_N (257 ∷ 1 ∷ []) (bare_line_at arrow_a ∷ [])) ≡ Some why.Shape)
        × (early two_simple (Rep name_N (1 ∷ 1 ∷ []) (line_at arrow_a 1 ∷ line_at arrow_a 1 ∷ [])) ≡ Some why.Shape)
        × (early two_simple (Rep name_N (1 ∷ 0 ∷ []) (line_at arrow_a 1 ∷ [])) ≡ Some why.Shape)
        × (early two_simple (Rep name_N (1 ∷ 0 ∷ []) (bare_line_at arrow_a ∷ [])) ≡ None) }
    ensures sequences { (early (two_modules (at_one Right 0) (at_one Right 0)) (Ars (to name_A) name_N name_E) ≡ Some why.Zero)
        × (early (two_modules (at_one Right 33) (at_one Right 0)) (Ars (to name_A) name_N name_E) ≡ Some (why.HomLimit 1089)) }
{}

/// A module has at most 256 dimensions, a space of homomorphisms 1,024 coordinates, a term of a resolution, and its injective modules, 512 dimensions: so
/// many pass, and one more does not. A projective module of vertex 1 has the words that lead from it, an injective one of vertex 2 those that lead to it.
pub fn limits()
    ensures modules { (early two_simple (Rep name_N (256 ∷ 0 ∷ []) []) ≡ None) × (early two_simple (Rep name_N (256 ∷ 1 ∷ []) []) ≡ Some (why.DimLimit 257))
        × (early (two_modules (at_one Right 128) (at_one Right 128)) (Sum name_N (to name_A) (to name_B)) ≡ None)
        × (early (two_modules (at_one Right 128) (at_one Right 129)) (Sum name_N (to name_A) (to name_B)) ≡ Some (why.DimLimit 257)) }
    ensures projectives { (early (with_words (copies 256) (at_one Right 1) (at_one Right 1)) (Std name_N Projective vertex_one) ≡ None)
        × (early (with_words (copies 257) (at_one Right 1) (at_one Right 1)) (Std name_N Projective vertex_one) ≡ Some (why.DimLimit 257))
        × (early (with_words (copies 257) (at_one Right 1) (at_one Right 1)) (Std name_N Projective vertex_two) ≡ None) }
    ensures injectives { (early (with_words (copies 256) (at_one Right 1) (at_one Right 1)) (Std name_N Injective vertex_two) ≡ None)
        × (early (with_words (copies 257) (at_one Right 1) (at_one Right 1)) (Std name_N Injective vertex_two) ≡ Some (why.DimLimit 257))
        × (early (with_words (copies 257) (at_one Right 1) (at_one Right 1)) (Std name_N Injective vertex_one) ≡ None)
        × (early (with_words (copies 257) (at_one Right 1) (at_one Right 1)) (Std name_N Simple vertex_one) ≡ None) }
    ensures homs { (early (two_modules (at_one Right 32) (at_one Right 32)) (Hom (to name_A) (to name_B)) ≡ None)
        × (early (two_modules (at_one Right 41) (at_one Right 25)) (Hom (to name_A) (to name_B)) ≡ Some (why.HomLimit 1025))
        × (early (two_modules (at_one Right 32) (at_one Right 1)) (Decompose (to name_A) name_X) ≡ None)
        × (early (two_modules (at_one Right 33) (at_one Right 1)) (Decompose (to name_A) name_X) ≡ Some (why.HomLimit 1089)) }
    ensures terms { (step : ℕ) → (term_limit_at step 512 ≡ None) × (term_limit_at step 513 ≡ Some (why.TermLimit step 513)) }
    ensures duals { (step : ℕ) → (dual_limit_at step 512 ≡ None) × (dual_limit_at step 513 ≡ Some (why.DualLimit step 513)) }
    ensures covers { (a b : Module) (n : ℕ) → (cover_dim (two_modules a b) a ≡ 512 → early (two_modules a b) (Resolve (to name_A) n) ≡ None)
        × (cover_dim (two_modules a b) a ≡ 513 → early (two_modules a b) (Resolve (to name_A) n) ≡ Some (why.TermLimit 0 513)) }
{}

/// Behind records: homomorphisms from term n are counted before those from the term before, of which term 0 has none; the injective modules of term 0 before
/// those of term 1; and that term 1 has no generator comes before both. What is too large has more than 512 dimensions.
pub fn late_limits()
    ensures extensions { let at = two_modules (at_one Right 1) (at_one Right 1) in
        let four = term_of (0 ∷ 0 ∷ 0 ∷ 0 ∷ []) in let five = term_of (0 ∷ 0 ∷ 0 ∷ 0 ∷ 0 ∷ []) in
        (extension_limit at (at_one Right 256) (four ∷ []) 0 ≡ None) × (extension_limit at (at_one Right 205) (five ∷ []) 0 ≡ Some (why.HomLimit 1025))
        × (extension_limit at (at_one Right 256) (five ∷ four ∷ []) 1 ≡ Some (why.HomLimit 1280))
        × (extension_limit at (at_one Right 256) (four ∷ five ∷ four ∷ []) 1 ≡ Some (why.HomLimit 1280))
        × (extension_limit at (at_one Right 256) (four ∷ four ∷ five ∷ []) 1 ≡ None) }
    ensures injectives { let one = term_of (0 ∷ []) in let two = term_of (1 ∷ []) in
        (dual_limit (with_words (copies 512) (at_one Right 1) (at_one Right 1)) (at_one Right 1) (two ∷ two ∷ []) ≡ None)
        × (dual_limit (with_words (copies 513) (at_one Right 1) (at_one Right 1)) (at_one Right 1) (two ∷ two ∷ []) ≡ Some (why.DualLimit 0 513))
        × (dual_limit (with_words (copies 513) (at_one Right 1) (at_one Right 1)) (at_one Right 1) (one ∷ two ∷ []) ≡ Some (why.DualLimit 1 513))
        × (dual_limit (with_words (copies 513) (at_one Right 1) (at_one Right 1)) (at_one Left 1) (two ∷ one ∷ []) ≡ Some (why.DualLimit 1 513)) }
    ensures projective { (n : NormalWords two_simple.header)
        → sequence_refused (with_words (copies 513) (at_one Right 1) (at_one Right 1)) (at_one Right 1) (term_of (1 ∷ []) ∷ term_of [] ∷ []) n ≡ Some why.Projective }
    ensures terms { (at : Setting) (m : Module) (terms : List TermRows) (s dim : ℕ) → IsLargeTerm at m terms s dim → 513 ≤ dim }
    ensures covers { (at : Setting) (m : Module) (w : Why) → IsLargeCover at m w → 513 ≤ cover_dim at m }
{}

/// What is not written is zero.
pub fn matrices_written()
    ensures modules { (rep_written two_simple.header (1 ∷ 1 ∷ []) (line_at arrow_a 1 ∷ []) ≡ along_arrow 1)
        × (rep_written two_simple.header (1 ∷ 1 ∷ []) [] ≡ along_arrow 0) }
    ensures maps { map_written two_simple.header (along_arrow 1) (along_arrow 1) (line_at vertex_two 1 ∷ [])
        ≡ plain f2 1 1 ((0 ∷ []) ∷ []) ∷ plain f2 1 1 ((1 ∷ []) ∷ []) ∷ [] }
{}

/// Over one loop x with the matrix 1: the first relation that does not hold is named, counted from 1, and terms of the bound's length or more count as zero; behind
/// the relations comes the first path of the bound's length; before them the limit.
pub fn relations_and_bounds()
    ensures relations { early (with_loop 3 (relation_xxx ∷ relation_xx ∷ [])) (Rep name_N (1 ∷ []) (line_at arrow_x 1 ∷ [])) ≡ Some (why.RelationFails 2) }
    ensures bounds { (early (with_loop 2 []) (Rep name_N (1 ∷ []) (line_at arrow_x 1 ∷ [])) ≡ Some (why.BoundFails path_xx))
        × (early (with_loop 2 (relation_xx ∷ [])) (Rep name_N (1 ∷ []) (line_at arrow_x 1 ∷ [])) ≡ Some (why.BoundFails path_xx))
        × (early (with_loop 2 []) (Rep name_N (1 ∷ []) (line_at arrow_x 0 ∷ [])) ≡ None) }
    ensures limit { (rel : Relation) → early (with_loop 3 (rel ∷ [])) (Rep name_N (257 ∷ []) []) ≡ Some (why.DimLimit 257) }
{}

/// Claims name what the statement refers to, in its order; the map of a kernel goes from it to where F starts, that of a cokernel to it from where F ends,
/// and that of a radical from it to the module.
pub fn records_name()
    ensures homs { (Takes two_simple (Hom (to name_A) (to name_B)) (claims_only (claim.Hom 1 2 no_rows) ∷ []))
        × (Takes two_simple (Hom (to name_A) (to name_B)) (claims_only (claim.Hom 1 1 no_rows) ∷ []) → ⊥)
        × (Takes two_simple (Hom (to name_A) (to name_B)) (claims_only (claim.Hom 2 1 no_rows) ∷ []) → ⊥) }
    ensures extensions { (Takes two_simple (Resolve (to name_B) 3) (claims_only (claim.Resolution 2 3 []) ∷ []))
        × (Takes two_simple (Ext 3 (to name_A) (to name_B)) (claims_only (claim.Resolution 1 4 []) ∷ claims_only (claim.Ext 3 1 2 no_rows 5) ∷ [])) }
    ensures modules { (Takes two_simple (Rep name_N (1 ∷ 1 ∷ []) (line_at arrow_a 1 ∷ [])) (with_module (along_arrow 1) (claim.Module 3) ∷ []))
        × (Takes two_simple (Rep name_N (1 ∷ 1 ∷ []) (line_at arrow_a 1 ∷ [])) (with_module (along_arrow 0) (claim.Module 3) ∷ []) → ⊥) }
    ensures kernels { (Takes two_simple (Kernel name_N (to name_F)) (with_map (goes 3 1) (claim.Kernel 3 1 2) ∷ []))
        × (Takes two_simple (Kernel name_N (to name_F)) (with_map (goes 1 3) (claim.Kernel 3 1 2) ∷ []) → ⊥) }
    ensures cokernels { (Takes two_simple (Cokernel name_N (to name_F)) (with_map (goes 2 3) (claim.Cokernel 3 1 2) ∷ []))
        × (Takes two_simple (Cokernel name_N (to name_F)) (with_map (goes 3 2) (claim.Cokernel 3 1 2) ∷ []) → ⊥) }
    ensures radicals { (Takes two_simple (Radical name_N (to name_B)) (with_map (goes 3 2) (claim.Radical 3 2 2) ∷ []))
        × (Takes two_simple (Radical name_N (to name_B)) (with_map (goes 2 3) (claim.Radical 3 2 2) ∷ []) → ⊥) }
    ensures translates { (Takes two_simple (Tau name_N (to name_B)) (claims_only (claim.Resolution 2 1 [])
        ∷ with_module (at_one Right 1) (claim.Translate translation.Tau 3 2 5 []) ∷ []))
        × (Takes two_simple (Transpose name_N (to name_B)) (claims_only (claim.Resolution 2 1 [])
        ∷ with_module (at_one Left 1) (claim.Translate translation.Transpose 3 2 5 []) ∷ []))
        × (Takes two_simple (Taui name_N (to name_B)) (with_module (dual_written two_simple.header (at_one Right 1)) (claim.Resolution 3 1 [])
        ∷ with_module (at_one Right 1) (claim.Translate (translation.Taui 3) 4 2 5 []) ∷ [])) }
    ensures bound { let names = names_behind two_simple (Cokernel name_N (to name_F)) (with_map (goes 2 3) (claim.Cokernel 3 1 2) ∷ []) in
        (module_named names (to name_N) ≡ Some 3) × (map_named names (to_map name_N) ≡ Some 2) }
{}

/// A decomposition into two parts: X is the sum, X.1 and X.2 are the parts, X.map goes from the sum to the module, and X.inv back.
pub fn decompositions_name()
    ensures taken { Takes (two_modules (at_one Right 2) (at_one Right 1)) (Decompose (to name_A) name_X) (two_parts (goes 5 1) (goes 1 5)) }
    ensures turned { Takes (two_modules (at_one Right 2) (at_one Right 1)) (Decompose (to name_A) name_X) (two_parts (goes 1 5) (goes 5 1)) → ⊥ }
    ensures modules { let names = names_behind two_simple (Decompose (to name_A) name_X) (two_parts (goes 5 1) (goes 1 5)) in
        (module_named names (to name_X) ≡ Some 5) × (module_named names (to_part name_X 1) ≡ Some 3) × (module_named names (to_part name_X 2) ≡ Some 4)
        × (module_named names (to_part name_X 3) ≡ None) }
    ensures maps { (map_behind two_simple (Decompose (to name_A) name_X) (two_parts (goes 5 1) (goes 1 5)) (to_map name_X) ≡ goes 5 1)
        × (map_behind two_simple (Decompose (to name_A) name_X) (two_parts (goes 5 1) (goes 1 5)) (to_inverse name_X) ≡ goes 1 5) }
    ensures zero { (Takes (two_modules (at_one Right 0) (at_one Right 1)) (Decompose (to name_A) name_X) no_parts)
        × (let names = names_behind two_simple (Decompose (to name_A) name_X) no_parts in
        (module_named names (to name_X) ≡ Some 3) × (module_named names (to_part name_X 1) ≡ None) × (map_named names (to_map name_X) ≡ Some 2)
        × (map_named names (to_inverse name_X) ≡ Some 3)) }
{}

/// A sequence: N is the left end, with the map to the middle, and E the middle, with the map to the module. It is taken where the module is local, and
/// only there, and only there it is refused as projective. Of an inverse translate the second module is named, behind the dual.
pub fn sequences_name()
    ensures taken { LocalHolds two_simple.header (at_one Right 1) → Takes two_simple (Ars (to name_A) name_N name_E) sequence_records }
    ensures modules { let names = names_behind two_simple (Ars (to name_A) name_N name_E) sequence_records in
        (module_named names (to name_N) ≡ Some 3) × (module_named names (to name_E) ≡ Some 4) }
    ensures maps { (map_behind two_simple (Ars (to name_A) name_N name_E) sequence_records (to_map name_N) ≡ goes 3 4)
        × (map_behind two_simple (Ars (to name_A) name_N name_E) sequence_records (to_map name_E) ≡ goes 4 1) }
    ensures local { (at : Setting) (a : Reference) (left middle : List ℕ) (records : List Record) → Takes at (Ars a left middle) records
        → LocalHolds at.header (module_of at a) }
    ensures projective { (at : Setting) (a : Reference) (left middle : List ℕ) (records : List Record) → Shows at (Ars a left middle) records why.Projective
        → LocalHolds at.header (module_of at a) }
    ensures inverse { binds two_simple (Taui name_N (to name_A)) [] ≡ (name_N, Whole 4) ∷ [] }
{}

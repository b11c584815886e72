//! The canonical generators of a module, one place after another.
ghost use Rattle.std.specs.Prelude.{ℕ, ◌≡◌, ◌<◌, ◌≤◌, ◌+◌, List, length, slice_index, IfOk, OnOk};
ghost use Rattle.linear_algebra.specs.Field.{Gf};
ghost use Rattle.linear_algebra.specs.Rows.{unit};
ghost use Rattle.quiver_paths.specs.Quiver.{vertex_count};
ghost use Rattle.path_algebra.specs.Allowed.{IsAllowed};
ghost use Rattle.representations.specs.Quiver.{Quiver};
ghost use Rattle.representations.specs.Rep.{Rep};
ghost use Rattle.representations.specs.RadicalModule.{arrow_rows};
ghost use Rattle.projectives.specs.Canonical.{Place, is_among, is_pivot, with_free};
ghost use Rattle.module_types.specs.Readings.{read};
ghost use Rattle.module_operations.specs.ArrowSpans.{arrow_size, arrow_family};
ghost use Rattle.module_operations.specs.VertexSpaces.{IsFormOf, HaveForms};
ghost use Rattle.proj_cover.specs.CanonicalTerms.{term_of, canonical_term};

use fp_linear::Matrix;
use module_types::{Module, TermRows};
use path_algebra::Header;
use row_spaces::pivots;
use seq::Seq;
use std::alloc::{AllocError, Global};

/// The canonical generators of a module, by the bases of its radical in reduced row form at the vertices.
pub(crate) fn canonical_term(
    alloc: Global,
    header: &Header,
    m: &Module,
    bases: &Seq<Matrix>,
) -> Result<TermRows, AllocError>
    requires allowed { IsAllowed header.now }
    requires forms { HaveForms (read header.now m.now) (arrow_size (read header.now m.now)) (arrow_family (read header.now m.now)) (vertex_count header.now.quiver) bases.now }
    ensures { IfOk result (λ term. term ≡ canonical_term (read header.now m.now)) }
{
    let mut term = TermRows {
        vertices: Seq::new(alloc),
        images: Seq::new(alloc),
    };
    for w in 0..bases.len() {
        add_vertex(alloc, w as u8, &bases[w], &mut term)?;
    }
    Ok(term)
}

/// Adds the generators at a vertex, by the basis of the radical there.
fn add_vertex(alloc: Global, w: u8, basis: &Matrix, term: &mut TermRows) -> Result<(), AllocError>
    ensures { (q : Gf) (Q : Quiver) (X : Rep q Q) (before : List Place) → IsFormOf (arrow_rows X w) basis.now → term.old ≡ term_of X before
        → OnOk result (term.new ≡ term_of X (with_free X w (X.dim w) before)) }
{
    let pivots = pivots(alloc, basis)?;
    let width = basis.cols();
    for c in 0..width {
        add_column(alloc, w, c, width, &pivots, term)?;
    }
    Ok(())
}

/// Adds the generator at a column, if it is no pivot: the vertex `w`, and the unit row of `width` numbers.
fn add_column(
    alloc: Global,
    w: u8,
    c: u32,
    width: u32,
    pivots: &[u32],
    term: &mut TermRows,
) -> Result<(), AllocError>
    requires { c < width }
    ensures { (q : Gf) (Q : Quiver) (X : Rep q Q) (before : List Place) → width ≡ X.dim w → is_pivot X w c ≡ is_among (length pivots.now) (slice_index pivots.now) c
        → term.old ≡ term_of X (with_free X w c before) → OnOk result (term.new ≡ term_of X (with_free X w (c + 1) before)) }
{
    if has_pivot(pivots, c) {
        return Ok(());
    }
    let image = unit_row(alloc, width, c)?;
    term.vertices.push(w)?;
    term.images.push(image)?;
    Ok(())
}

/// Whether `c` is one of the pivots.
fn has_pivot(pivots: &[u32], c: u32) -> bool
    ensures { result ≡ is_among (length pivots.now) (slice_index pivots.now) c }
{
    for i in 0..pivots.len() {
        if pivots[i] == c {
            return true;
        }
    }
    false
}

/// The row of `width` numbers with 1 at place `c` and zeros elsewhere.
fn unit_row(alloc: Global, width: u32, c: u32) -> Result<Seq<u8>, AllocError>
    requires { c < width }
    ensures { IfOk result (λ row. row ≡ unit width c) }
{
    let mut row = vec![in alloc; 0u8; width as usize]?;
    row[c as usize] = 1;
    Ok(Seq::from_vec(row))
}

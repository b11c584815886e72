//! Reading the first lines of terms of resolutions.
ghost use Rattle.std.specs.Prelude.{ℕ, ◌≡◌, ◌≤◌, ◌∷◌, List, length, map, decimal, IfOk};
ghost use Rattle.quiver_paths.specs.Quiver.{vertex_count};
ghost use Rattle.header_text.specs.Spelling.{vertex_name};
ghost use Rattle.header_text.specs.Reading.{Reads};
ghost use Rattle.object_lines.specs.Spelling.{term_line};
ghost use Rattle.object_lines.specs.Items.{FitsTerm};

use crate::numbers::{take_vertices, take_word_and_number};
use path_algebra::Header;
use seq::Seq;
use std::alloc::{AllocError, Global};
use text_lines::Parts;

/// The vertices, behind their number, that are all that is left.
fn count_and_vertices(
    alloc: Global,
    header: &Header,
    tokens: Parts<'_>,
) -> Result<Option<Seq<u8>>, AllocError>
    requires { vertex_count header.now.quiver ≤ 32 }
    ensures { IfOk result (λ r. Reads (FitsTerm header.now) (λ (x : List ℕ). decimal (length x) ∷ map (vertex_name header.now.quiver) x) tokens.entry r) }
{
    let mut tokens = tokens;
    let Some(count) = tokens.take_numeral(u64::MAX) else {
        return Ok(None);
    };
    let mut vertices = Seq::new(alloc);
    let taken = take_vertices(&mut vertices, &header.quiver, count, &mut tokens)?;
    if !taken {
        return Ok(None);
    }
    if !tokens.is_done() {
        return Ok(None);
    }
    Ok(Some(vertices))
}

/// Reads the tokens of the first line of term k of a resolution: the vertices of its generators, behind their number. `Ok(None)`: they are not those of such a
/// line. `Err`: memory is wanting.
pub fn read_term(
    alloc: Global,
    header: &Header,
    k: u32,
    tokens: Parts<'_>,
) -> Result<Option<Seq<u8>>, AllocError>
    requires { vertex_count header.now.quiver ≤ 32 }
    ensures { IfOk result (λ r. Reads (FitsTerm header.now) (term_line header.now.quiver k) tokens.entry r) }
{
    let mut tokens = tokens;
    if !take_word_and_number(&mut tokens, b"term", k) {
        return Ok(None);
    }
    let vertices = count_and_vertices(alloc, header, tokens)?;
    Ok(vertices)
}

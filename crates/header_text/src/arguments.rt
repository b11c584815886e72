//! Reading the arguments of a line.
ghost use Rattle.std.specs.Prelude.{ℕ, ◌≡◌, ◌<◌, ◌≤◌, ◌≢◌, [], ◌∷◌, ◌↔◌, List, All, IsTrue, decimal};
ghost use Rattle.linear_algebra.specs.Field.{Gf};
ghost use Rattle.quiver_paths.specs.Name.{IsName};
ghost use Rattle.quiver_paths.specs.Quiver.{vertex_count};
ghost use Rattle.quiver_paths.specs.declared.Name.{Name};
ghost use Rattle.quiver_paths.specs.declared.Arrow.{Arrow};
ghost use Rattle.path_algebra.specs.Allowed.{is_letter, IsArrowName};
ghost use Rattle.header_text.specs.Spelling.{vertex_name, field_arguments, vertex_arguments, arrow_arguments};
ghost use Rattle.header_text.specs.Named.{IsNamed};
ghost use Rattle.header_text.specs.Part.{IsArrowOf, AreVertices};
ghost use Rattle.header_text.specs.Reading.{Reads, ReadsFirst};

use crate::tokens::vertex_place;
use fp_linear::Field;
use quiver_paths::{Arrow, Name, Quiver};
use text_lines::Parts;

/// The number, at most `most`, that is all that is left.
pub fn only_number(tokens: Parts<'_>, most: u64) -> Option<u64>
    ensures { Reads (λ (n : ℕ). n ≤ most) (λ (n : ℕ). decimal n ∷ []) tokens.entry result }
{
    let mut tokens = tokens;
    let Some(n) = tokens.take_numeral(most) else {
        return None;
    };
    let mut rest = tokens;
    match rest.next_part() {
        None => Some(n),
        Some(_) => None,
    }
}

/// The name that is all that is left.
pub(crate) fn only_name(tokens: Parts<'_>) -> Option<Name>
    ensures { Reads (λ (n : List ℕ). IsName n) vertex_arguments tokens.entry result }
{
    let mut tokens = tokens;
    let Some(name) = tokens.next_part() else {
        return None;
    };
    match tokens.next_part() {
        None => Name::of(name),
        Some(_) => None,
    }
}

/// The field whose size is all that is left.
pub(crate) fn only_field(tokens: Parts<'_>) -> Option<Field>
    ensures { Reads (λ (f : Gf). Unit {0}) field_arguments tokens.entry result }
{
    let Some(q) = only_number(tokens, 27) else {
        return None;
    };
    Field::of(q as u32)
}

/// Whether the name begins with a letter.
fn begins_with_letter(name: &Name) -> bool
    ensures { IsTrue result ↔ IsArrowName name.now }
{
    matches!(name.text()[0], b'a'..=b'z' | b'A'..=b'Z')
}

/// The name of an arrow.
fn arrow_name_of(token: &[u8]) -> Option<Name>
    ensures { Reads IsArrowName (λ (n : List ℕ). n) token.now result }
{
    let Some(name) = Name::of(token) else {
        return None;
    };
    if begins_with_letter(&name) {
        Some(name)
    } else {
        None
    }
}

/// The arrow whose name and ends are all that is left.
pub(crate) fn only_arrow(quiver: &Quiver, tokens: Parts<'_>) -> Option<Arrow>
    requires { IsNamed quiver.now }
    ensures { Reads (IsArrowOf quiver.now) (arrow_arguments quiver.now) tokens.entry result }
{
    let mut tokens = tokens;
    let Some(name) = tokens.next_part() else {
        return None;
    };
    let Some(name) = arrow_name_of(name) else {
        return None;
    };
    let Some((from, to)) = two_vertices(quiver, tokens) else {
        return None;
    };
    Some(Arrow { name, from, to })
}

/// The places of the two vertices whose names are all that is left.
fn two_vertices(quiver: &Quiver, tokens: Parts<'_>) -> Option<(u8, u8)>
    requires { IsNamed quiver.now }
    ensures { Reads (λ (x : ℕ × ℕ). AreVertices quiver.now x.0 x.1) (λ (x : ℕ × ℕ). vertex_name quiver.now x.0 ∷ vertex_name quiver.now x.1 ∷ []) tokens.entry result }
{
    let mut tokens = tokens;
    let Some(from) = next_vertex(quiver, &mut tokens) else {
        return None;
    };
    let Some(to) = next_vertex(quiver, &mut tokens) else {
        return None;
    };
    if tokens.next_part().is_some() {
        return None;
    }
    Some((from, to))
}

/// The place of the vertex whose name is the next token.
fn next_vertex(quiver: &Quiver, tokens: &mut Parts<'_>) -> Option<u8>
    requires { IsNamed quiver.now }
    ensures { ReadsFirst (λ (v : ℕ). v < vertex_count quiver.now) (λ (v : ℕ). vertex_name quiver.now v ∷ []) tokens.old tokens.new result }
{
    let Some(name) = tokens.next_part() else {
        return None;
    };
    vertex_place(quiver, name)
}

/// Whether no vertex has the name.
pub fn is_new_vertex(vertices: &[Name], name: &Name) -> bool
    ensures { IsTrue result ↔ All (λ (n : Name). n ≢ name.now) vertices.now }
{
    for vertex in vertices {
        if vertex.text() == name.text() {
            return false;
        }
    }
    true
}

/// Whether no arrow has the name.
pub fn is_new_arrow(arrows: &[Arrow], name: &Name) -> bool
    ensures { IsTrue result ↔ All (λ (a : Arrow). a.name ≢ name.now) arrows.now }
{
    for arrow in arrows {
        if arrow.name.text() == name.text() {
            return false;
        }
    }
    true
}

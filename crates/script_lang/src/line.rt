//! Lines of a script by their tokens.
ghost use Rattle.std.specs.Prelude.{◌≡◌, ◌≤◌, IfOk};
ghost use Rattle.quiver_paths.specs.Quiver.{vertex_count, arrow_count};
ghost use Rattle.linear_algebra.specs.Field.{order};
ghost use Rattle.script_lang.specs.Arguments.{one_of, three_of};
ghost use Rattle.script_lang.specs.Lines.{field_of, field_from, vertex_of, vertex_from, arrow_of, arrow_from, bound_of, bound_from, statement_line, nothing_in, short_in, at_line, at_in, relation_line, line_in};

use super::arguments::{one_word, read_matrix, three_words};
use super::relations::read_relation;
use super::statements::{read_plain, read_rep};
use super::tokens::{is_word, read_name, read_number, read_vertex};
use fp_linear::Field;
use path_algebra::{Header, Relation};
use quiver_paths::Name;
use script_types::{AtLine, StatementKind};
use seq::Seq;
use std::alloc::{AllocError, Global};
use text_lines::Words;

/// A line of a script. A statement of several lines is its first line; its lines `at` and `end` are lines of their own.
#[derive(Drop)]
pub enum Line {
    Field(Field),
    Vertex(Name),
    Arrow { name: Name, from: Name, to: Name },
    Bound(u32),
    Relation(Relation),
    Basis,
    Statement(StatementKind),
    At(AtLine),
    End,
}

fn field_of(q: Option<u32>) -> Option<Line>
    ensures { result ≡ field_of q }
{
    Some(Line::Field(Field::of(q?)?))
}

fn read_field(words: &mut Words<'_>) -> Option<Line>
    ensures { result ≡ field_from (one_of words.old) }
{
    field_of(read_number(one_word(words)?, 27))
}

fn vertex_of(name: Option<Name>) -> Option<Line>
    ensures { result ≡ vertex_of name }
{
    Some(Line::Vertex(name?))
}

fn read_vertex_line(words: &mut Words<'_>) -> Option<Line>
    ensures { result ≡ vertex_from (one_of words.old) }
{
    vertex_of(read_vertex(one_word(words)?))
}

fn arrow_of(name: Option<Name>, from: Option<Name>, to: Option<Name>) -> Option<Line>
    ensures { result ≡ arrow_of name from to }
{
    Some(Line::Arrow {
        name: name?,
        from: from?,
        to: to?,
    })
}

fn read_arrow(words: &mut Words<'_>) -> Option<Line>
    ensures { result ≡ arrow_from (three_of words.old) }
{
    let (name, from, to) = three_words(words)?;
    arrow_of(read_name(name), read_vertex(from), read_vertex(to))
}

fn bound_of(t: Option<u32>) -> Option<Line>
    ensures { result ≡ bound_of t }
{
    Some(Line::Bound(t?))
}

fn read_bound(words: &mut Words<'_>) -> Option<Line>
    ensures { result ≡ bound_from (one_of words.old) }
{
    bound_of(read_number(one_word(words)?, 32))
}

fn read_nothing(words: &mut Words<'_>, line: Line) -> Option<Line>
    ensures { result ≡ nothing_in line words.old }
{
    match words.next_word() {
        Some(_) => None,
        None => Some(line),
    }
}

fn statement_line(kind: Option<StatementKind>) -> Option<Line>
    ensures { result ≡ statement_line kind }
{
    Some(Line::Statement(kind?))
}

// A line that takes no memory.
fn read_short(alloc: Global, word: &[u8], words: &mut Words<'_>) -> Option<Line>
    ensures { result ≡ short_in word.now words.old }
{
    if is_word(word, b"field") {
        read_field(words)
    } else if is_word(word, b"vertex") {
        read_vertex_line(words)
    } else if is_word(word, b"arrow") {
        read_arrow(words)
    } else if is_word(word, b"bound") {
        read_bound(words)
    } else if is_word(word, b"basis") {
        read_nothing(words, Line::Basis)
    } else if is_word(word, b"end") {
        read_nothing(words, Line::End)
    } else {
        statement_line(read_plain(alloc, word, words))
    }
}

fn at_line(name: Option<Name>, rows: Option<Seq<Seq<u8>>>) -> Option<Line>
    ensures { result ≡ at_line name rows }
{
    Some(Line::At(AtLine {
        name: name?,
        rows: rows?,
    }))
}

fn read_at(alloc: Global, words: &mut Words<'_>, field: Field) -> Result<Option<Line>, AllocError>
    ensures { IfOk result (λ r. r ≡ at_in (order field) words.old) }
{
    match words.next_word() {
        Some(name) => {
            let rows = read_matrix(alloc, words, (field.size() - 1) as u8)?;
            Ok(at_line(read_vertex(name), rows))
        }
        None => Ok(None),
    }
}

fn relation_line(relation: Option<Relation>) -> Option<Line>
    ensures { result ≡ relation_line relation }
{
    Some(Line::Relation(relation?))
}

/// The line that a word and the tokens behind it are.
pub fn read_line(
    alloc: Global,
    header: &Header,
    word: &[u8],
    words: &mut Words<'_>,
) -> Result<Option<Line>, AllocError>
    requires vertices { vertex_count header.now.quiver ≤ 32 }
    requires arrows { arrow_count header.now.quiver ≤ 128 }
    ensures { IfOk result (λ r. r ≡ line_in header.now word.now words.old) }
{
    if is_word(word, b"rep") {
        let kind = read_rep(alloc, words)?;
        Ok(statement_line(kind))
    } else if is_word(word, b"at") {
        read_at(alloc, words, header.field)
    } else if is_word(word, b"relation") {
        let relation = read_relation(alloc, header, words)?;
        Ok(relation_line(relation))
    } else {
        Ok(read_short(alloc, word, words))
    }
}

//! Lines that follow what has been read.
ghost use Rattle.std.specs.Prelude.{◌≡◌, ◌≤◌, length, IfOk, MatchBool};
ghost use Rattle.path_algebra.specs.Allowed.{is_letter};
ghost use Rattle.script_lang.specs.Parts.{IsSmall, FitsField, with_field, FitsVertex, with_vertex, vertex_place, awaits_arrows, FitsArrow, with_arrow, FitsBound, with_bound, FitsRelation, with_relation, FitsBasis, with_basis, FitsStatement, opens, with_statement, kind_takes, takes_at, FitsAt, kind_with, place_with, with_at, is_block, FitsEnd, with_end, MayFollow, after};

use super::line::Line;
use super::part::{Part, Place};
use super::related::is_relation;
use super::tokens::{is_word, letter};
use fp_linear::Field;
use header_text::{is_new_arrow, is_new_vertex};
use path_algebra::Relation;
use quiver_paths::{Arrow, Name};
use script_types::{AtLine, Statement, StatementKind};
use std::alloc::AllocError;
use std::mem;

fn vertex_place(vertices: &[Name], name: &Name) -> Option<u8>
    requires { length vertices.now ≤ 32 }
    ensures { result ≡ vertex_place vertices.now name.now }
{
    for (i, vertex) in vertices.iter().enumerate() {
        if is_word(vertex.text(), name.text()) {
            return Some(i as u8);
        }
    }
    None
}

fn awaits_arrows(place: &Place) -> bool
    ensures { result ≡ awaits_arrows place.now }
{
    matches!(place, Place::Vertices | Place::Arrows)
}

fn opens(kind: &StatementKind) -> bool
    ensures { result ≡ opens kind.now }
{
    matches!(kind, StatementKind::Rep { .. } | StatementKind::Map { .. })
}

fn kind_takes(kind: &StatementKind, line: &AtLine) -> bool
    ensures { result ≡ kind_takes kind.now line.now }
{
    match kind {
        StatementKind::Rep { .. } => letter(line.name.text()),
        StatementKind::Map { .. } => true,
        _ => false,
    }
}

fn takes_at(place: &Place, line: &AtLine) -> bool
    ensures { result ≡ takes_at place.now line.now }
{
    match place {
        Place::Block(statement) => kind_takes(&statement.kind, line),
        _ => false,
    }
}

fn kind_with(kind: StatementKind, line: AtLine) -> Result<StatementKind, AllocError>
    ensures { IfOk result (λ k. k ≡ kind_with kind line) }
{
    match kind {
        StatementKind::Rep { name, dims, lines } => {
            let mut lines = lines;
            lines.push(line)?;
            Ok(StatementKind::Rep { name, dims, lines })
        }
        StatementKind::Map { name, a, b, lines } => {
            let mut lines = lines;
            lines.push(line)?;
            Ok(StatementKind::Map { name, a, b, lines })
        }
        other => Ok(other),
    }
}

fn place_with(place: Place, line: AtLine) -> Result<Place, AllocError>
    ensures { IfOk result (λ p. p ≡ place_with place line) }
{
    match place {
        Place::Block(statement) => {
            let kind = kind_with(statement.kind, line)?;
            Ok(Place::Block(Statement {
                line: statement.line,
                kind,
            }))
        }
        other => Ok(other),
    }
}

impl Part {
    fn take_field(&mut self, field: Field) -> bool
        requires { IsSmall self.old }
        ensures kept { IsSmall self.new }
        ensures taken { MatchBool result (FitsField self.old × (self.new ≡ with_field self.old field)) (¬ FitsField self.old) }
    {
        if !matches!(self.place, Place::Start) {
            return false;
        }
        self.header.field = field;
        self.place = Place::Vertices;
        true
    }

    fn take_vertex(&mut self, name: Name) -> Result<bool, AllocError>
        requires { IsSmall self.old }
        ensures kept { IsSmall self.new }
        ensures taken { IfOk result (λ taken. MatchBool taken (FitsVertex self.old name × (self.new ≡ with_vertex self.old name)) (¬ FitsVertex self.old name)) }
    {
        if !matches!(self.place, Place::Vertices) || self.header.quiver.vertices.len() >= 32 {
            return Ok(false);
        }
        if !is_new_vertex(self.header.quiver.vertices.as_slice(), &name) {
            return Ok(false);
        }
        self.header.quiver.vertices.push(name)?;
        Ok(true)
    }

    fn take_arrow(&mut self, name: Name, from: Name, to: Name) -> Result<bool, AllocError>
        requires { IsSmall self.old }
        ensures kept { IsSmall self.new }
        ensures taken { IfOk result (λ taken. MatchBool taken (FitsArrow self.old name from to × (self.new ≡ with_arrow self.old name from to)) (¬ FitsArrow self.old name from to)) }
    {
        if !awaits_arrows(&self.place) || self.header.quiver.arrows.len() >= 128 {
            return Ok(false);
        }
        if !is_new_arrow(self.header.quiver.arrows.as_slice(), &name) {
            return Ok(false);
        }
        let Some(from) = vertex_place(self.header.quiver.vertices.as_slice(), &from) else {
            return Ok(false);
        };
        let Some(to) = vertex_place(self.header.quiver.vertices.as_slice(), &to) else {
            return Ok(false);
        };
        self.header.quiver.arrows.push(Arrow { name, from, to })?;
        self.place = Place::Arrows;
        Ok(true)
    }

    fn take_bound(&mut self, bound: u32) -> bool
        requires { IsSmall self.old }
        ensures kept { IsSmall self.new }
        ensures taken { MatchBool result (FitsBound self.old bound × (self.new ≡ with_bound self.old bound)) (¬ FitsBound self.old bound) }
    {
        if !awaits_arrows(&self.place) || self.header.quiver.vertices.is_empty() {
            return false;
        }
        if bound < 2 || bound > 32 {
            return false;
        }
        self.header.bound = bound;
        self.bound_line = self.lines;
        self.place = Place::Relations;
        true
    }

    fn take_relation(&mut self, relation: Relation) -> Result<bool, AllocError>
        requires { IsSmall self.old }
        ensures kept { IsSmall self.new }
        ensures taken { IfOk result (λ taken. MatchBool taken (FitsRelation self.old relation × (self.new ≡ with_relation self.old relation)) (¬ FitsRelation self.old relation)) }
    {
        if !matches!(self.place, Place::Relations) || self.header.relations.len() >= 256 {
            return Ok(false);
        }
        if !is_relation(&self.header, &relation) {
            return Ok(false);
        }
        self.header.relations.push(relation)?;
        Ok(true)
    }

    fn take_basis(&mut self) -> bool
        requires { IsSmall self.old }
        ensures kept { IsSmall self.new }
        ensures taken { MatchBool result (FitsBasis self.old × (self.new ≡ with_basis self.old)) (¬ FitsBasis self.old) }
    {
        if !matches!(self.place, Place::Relations) {
            return false;
        }
        self.basis_line = self.lines;
        self.place = Place::Body;
        true
    }

    fn take_statement(&mut self, kind: StatementKind) -> Result<bool, AllocError>
        requires { IsSmall self.old }
        ensures kept { IsSmall self.new }
        ensures taken { IfOk result (λ taken. MatchBool taken (FitsStatement self.old × (self.new ≡ with_statement self.old kind)) (¬ FitsStatement self.old)) }
    {
        if !matches!(self.place, Place::Body) {
            return Ok(false);
        }
        let is_open = opens(&kind);
        let statement = Statement {
            line: self.lines,
            kind,
        };
        if is_open {
            self.place = Place::Block(statement);
        } else {
            self.statements.push(statement)?;
        }
        Ok(true)
    }

    fn take_at(&mut self, line: AtLine) -> Result<bool, AllocError>
        requires { IsSmall self.old }
        ensures kept { IsSmall self.new }
        ensures taken { IfOk result (λ taken. MatchBool taken (FitsAt self.old line × (self.new ≡ with_at self.old line)) (¬ FitsAt self.old line)) }
    {
        if !takes_at(&self.place, &line) {
            return Ok(false);
        }
        let place = mem::replace(&mut self.place, Place::Body);
        self.place = place_with(place, line)?;
        Ok(true)
    }

    fn take_end(&mut self) -> Result<bool, AllocError>
        requires { IsSmall self.old }
        ensures kept { IsSmall self.new }
        ensures taken { IfOk result (λ taken. MatchBool taken (FitsEnd self.old × (self.new ≡ with_end self.old)) (¬ FitsEnd self.old)) }
    {
        match mem::replace(&mut self.place, Place::Body) {
            Place::Block(statement) => {
                self.statements.push(statement)?;
                Ok(true)
            }
            _ => Ok(false),
        }
    }

    /// Reads the line, if it may follow.
    pub fn take(&mut self, line: Line) -> Result<bool, AllocError>
        requires { IsSmall self.old }
        ensures kept { IsSmall self.new }
        ensures taken { IfOk result (λ taken. MatchBool taken (MayFollow self.old line × (self.new ≡ after self.old line)) (¬ MayFollow self.old line)) }
    {
        match line {
            Line::Field(field) => Ok(self.take_field(field)),
            Line::Vertex(name) => self.take_vertex(name),
            Line::Arrow { name, from, to } => self.take_arrow(name, from, to),
            Line::Bound(bound) => Ok(self.take_bound(bound)),
            Line::Relation(relation) => self.take_relation(relation),
            Line::Basis => Ok(self.take_basis()),
            Line::Statement(kind) => self.take_statement(kind),
            Line::At(line) => self.take_at(line),
            Line::End => self.take_end(),
        }
    }
}

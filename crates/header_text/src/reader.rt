//! Reading a header line by line.
ghost use Rattle.std.specs.Prelude.{ℕ, ◌≡◌, ◌<◌, ◌+◌, ◌^◌, ◌∷◌, ◌↔◌, List, codes, length, IfOk, IfErr, OnOk, IsTrue, MatchBool};
ghost use Rattle.header_text.specs.Reading.{Reads};
ghost use Rattle.header_text.specs.Part.{Part, IsStart, start, Fits, tokens_of, after, Step, MayEnd, IsFront};

use crate::arguments::{
    is_new_arrow, is_new_vertex, only_arrow, only_field, only_name, only_number,
};
use crate::forms::Form;
use crate::terms::read_relation;
use fp_linear::Field;
use path_algebra::Header;
use quiver_paths::Quiver;
use seq::Seq;
use std::alloc::{AllocError, Global};
use std::marker::Model;
use text_lines::{LineReader, Parts, strict_tokens};

/// What has been read of a header.
#[derive(Drop)]
pub struct HeaderReader {
    alloc: Global,
    is_begun: bool,
    header: Header,
}

impl Model for HeaderReader {
    ghost use Rattle.header_text.specs.Part.{Part, IsFront};

    ghost Value = { Part };

    ghost view = { λ r. record { is_begun = r.is_begun; header = r.header } };

    ghost invariant = { λ r. IsFront record { is_begun = r.is_begun; header = r.header } };
}

impl HeaderReader {
    /// A reader that has read nothing.
    pub fn new(alloc: Global) -> HeaderReader
        ensures unread { IsStart result }
        ensures value { result ≡ start }
    {
        let field = match Field::of(2) {
            Some(field) => field,
            None => unreachable!(),
        };
        let quiver = Quiver {
            vertices: Seq::new(alloc),
            arrows: Seq::new(alloc),
        };
        let header = Header {
            field,
            quiver,
            bound: 0,
            relations: Seq::new(alloc),
        };
        HeaderReader {
            alloc,
            is_begun: false,
            header,
        }
    }

    /// What was read so far.
    pub fn header(&self) -> &Header
        ensures same { result.now ≡ self.now.header }
        ensures front { IsFront self.now }
    {
        &self.header
    }

    /// What was read.
    pub fn into_header(self) -> Header
        ensures { result ≡ self.header }
    {
        self.header
    }

    /// Whether the line of the field was read.
    fn has_begun(&self) -> bool
        ensures begun { result ≡ self.now.is_begun }
        ensures front { IsFront self.now }
    {
        self.is_begun
    }

    fn field_form(&self, rest: Parts<'_>) -> Option<Form>
        ensures { Reads (Fits self.now) (tokens_of self.now) (codes "field" ∷ rest.entry) result }
    {
        if self.is_begun {
            return None;
        }
        let Some(field) = only_field(rest) else {
            return None;
        };
        Some(Form::Field(field))
    }

    fn vertex_form(&self, rest: Parts<'_>) -> Option<Form>
        ensures { Reads (Fits self.now) (tokens_of self.now) (codes "vertex" ∷ rest.entry) result }
    {
        if !self.is_begun
            || self.header.bound != 0
            || !self.header.quiver.arrows.is_empty()
            || self.header.quiver.vertices.len() >= 32
        {
            return None;
        }
        let Some(name) = only_name(rest) else {
            return None;
        };
        if !is_new_vertex(self.header.quiver.vertices.as_slice(), &name) {
            return None;
        }
        Some(Form::Vertex(name))
    }

    fn arrow_form(&self, rest: Parts<'_>) -> Option<Form>
        ensures { Reads (Fits self.now) (tokens_of self.now) (codes "arrow" ∷ rest.entry) result }
    {
        if !self.is_begun || self.header.bound != 0 || self.header.quiver.arrows.len() >= 128 {
            return None;
        }
        let Some(arrow) = only_arrow(&self.header.quiver, rest) else {
            return None;
        };
        if !is_new_arrow(self.header.quiver.arrows.as_slice(), &arrow.name) {
            return None;
        }
        Some(Form::Arrow(arrow))
    }

    fn bound_form(&self, rest: Parts<'_>) -> Option<Form>
        ensures { Reads (Fits self.now) (tokens_of self.now) (codes "bound" ∷ rest.entry) result }
    {
        if !self.is_begun || self.header.bound != 0 || self.header.quiver.vertices.is_empty() {
            return None;
        }
        let Some(bound) = only_number(rest, 32) else {
            return None;
        };
        if bound < 2 {
            return None;
        }
        Some(Form::Bound(bound as u32))
    }

    fn relation_form(&self, rest: Parts<'_>) -> Result<Option<Form>, AllocError>
        ensures { IfOk result (λ r. Reads (Fits self.now) (tokens_of self.now) (codes "relation" ∷ rest.entry) r) }
    {
        if self.header.bound == 0 || self.header.relations.len() >= 256 {
            return Ok(None);
        }
        let Some(relation) = read_relation(self.alloc, &self.header, rest)? else {
            return Ok(None);
        };
        Ok(Some(Form::Relation(relation)))
    }

    /// The form of a line with these tokens that fits behind what was read.
    fn form_of(&self, tokens: Parts<'_>) -> Result<Option<Form>, AllocError>
        ensures { IfOk result (λ r. Reads (Fits self.now) (tokens_of self.now) tokens.entry r) }
    {
        let mut tokens = tokens;
        let Some(word) = tokens.next_part() else {
            return Ok(None);
        };
        if word == b"field".as_slice() {
            return Ok(self.field_form(tokens));
        }
        if word == b"vertex".as_slice() {
            return Ok(self.vertex_form(tokens));
        }
        if word == b"arrow".as_slice() {
            return Ok(self.arrow_form(tokens));
        }
        if word == b"bound".as_slice() {
            return Ok(self.bound_form(tokens));
        }
        if word == b"relation".as_slice() {
            return self.relation_form(tokens);
        }
        Ok(None)
    }

    /// Takes a line that fits.
    fn take(&mut self, form: Form) -> Result<(), AllocError>
        requires { Fits self.old form }
        ensures { OnOk result (self.new ≡ after self.old form) }
    {
        match form {
            Form::Field(field) => {
                self.header.field = field;
                self.is_begun = true;
            }
            Form::Vertex(name) => self.header.quiver.vertices.push(name)?,
            Form::Arrow(arrow) => self.header.quiver.arrows.push(arrow)?,
            Form::Bound(bound) => self.header.bound = bound,
            Form::Relation(relation) => self.header.relations.push(relation)?,
        }
        Ok(())
    }
}

impl LineReader for HeaderReader {
    ghost use Rattle.header_text.specs.Part.{Step, MayEnd};

    ghost Step = { Step };

    ghost MayEnd = { MayEnd };

    fn take_line(&mut self, line: &[u8]) -> Result<bool, AllocError> {
        let Some(tokens) = strict_tokens(line) else {
            return Ok(false);
        };
        // A reader always holds the front of a header.
        let _begun = self.has_begun();
        let Some(form) = self.form_of(tokens)? else {
            return Ok(false);
        };
        self.take(form)?;
        Ok(true)
    }

    fn may_end(&self) -> bool {
        self.header.bound != 0
    }

    ghost determined = { λ p line q r a b. b.only q a.step };
}

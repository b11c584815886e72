//! The quotient with its basis of words.
ghost use Rattle.std.specs.Prelude.{◌≡◌, ◌<◌, ◌^◌, length, slice_index_or};
ghost use Rattle.quiver_paths.specs.Quiver.{vertex_count, arrow_count};
ghost use Rattle.quiver_paths.specs.Path.{IsPath, arrow_path};
ghost use Rattle.path_algebra.specs.Rows.{path_at};
ghost use Rattle.alg_table.specs.NormalForm.{IsNormalForm, IsProduct, IsProductOf};
ghost use Rattle.alg_table.specs.WordPlaces.{AreWordsAt, ArePlacesBetween};

use path_algebra::Header;
use quiver_paths::Path;
use seq::Seq;
use std::marker::Model;
use word_products::{SparseRows, act_on_word, act_on_word_behind};

/// On which side of a word an arrow acts.
#[derive(Clone, Copy, Debug, Drop, PartialEq, Eq)]
pub enum Side {
    /// Behind it: the word and then the arrow.
    Right,
    /// Before it: the arrow and then the word.
    Left,
}

/// An algebra, and the normal words of its ideal in ascending order, with their products.
#[derive(Drop)]
pub struct Table {
    header: Header,
    words: Seq<Path>,
    rows: SparseRows,
    places: Seq<Seq<u32>>,
}

impl Model for Table {
    ghost use Rattle.alg_table.specs.TableView.{TableView, HoldsTable};

    ghost Value = { TableView };

    ghost view = { λ t. record { header = t.header; words = t.words } };

    ghost invariant = { λ t. HoldsTable t.header t.words t.rows t.places };
}

impl Table {
    ghost use Rattle.alg_table.specs.TableView.{HoldsTable, IsTable};

    pub(crate) fn new(
        header: Header,
        words: Seq<Path>,
        rows: SparseRows,
        places: Seq<Seq<u32>>,
    ) -> Table
        requires { HoldsTable header words rows places }
        ensures { result ≡ record { header = header; words = words } }
    {
        Table {
            header,
            words,
            rows,
            places,
        }
    }

    /// The header that the table was made for.
    pub fn header(&self) -> &Header
        ensures header { result.now ≡ self.now.header }
        ensures table { IsTable self.now.header self.now.words }
    {
        &self.header
    }

    /// How many words there are: the dimension of the algebra.
    pub fn word_count(&self) -> u32
        ensures { result ≡ length self.now.words }
    {
        self.words.len() as u32
    }

    /// The word at a place, counted from 0, in ascending order.
    pub fn word(&self, i: u32) -> &Path
        requires { i < length self.now.words }
        ensures { result.now ≡ slice_index_or self.now.words i result.now }
    {
        &self.words[i as usize]
    }

    /// The places, ascending, of the words from v to w for `Right`, and from w to v for `Left`.
    pub fn words_at(&self, side: Side, v: u8, w: u8) -> &[u32]
        requires first { v < vertex_count self.now.header.quiver }
        requires second { w < vertex_count self.now.header.quiver }
        ensures { AreWordsAt self.now.words side v w result.now }
    {
        match side {
            Side::Right => self.places_between(v, w),
            Side::Left => self.places_between(w, v),
        }
    }

    // The places, ascending, of the words from a vertex to a vertex.
    fn places_between(&self, start: u8, end: u8) -> &[u32]
        requires start { start < vertex_count self.now.header.quiver }
        requires end { end < vertex_count self.now.header.quiver }
        ensures { ArePlacesBetween self.now.words start end result.now }
    {
        let vertices = self.header.quiver.vertices.len();
        self.places[start as usize * vertices + end as usize].as_slice()
    }

    /// Writes the coordinates of word·arrow for `Right`, and of arrow·word for `Left`; zeros where they do not meet. It takes no memory.
    pub fn act(&self, side: Side, word: u32, arrow: u8, into: &mut [u8])
        requires word { word < length self.now.words }
        requires arrow { arrow < arrow_count self.now.header.quiver }
        requires into { length into.old ≡ length self.now.words }
        ensures { IsProduct self.now.header self.now.words side (path_at self.now.words word) arrow into.new }
    {
        match side {
            Side::Right => self.act_behind(word as usize, arrow, into),
            Side::Left => self.act_before(word as usize, arrow, into),
        }
    }

    // Writes the coordinates of word·arrow.
    fn act_behind(&self, word: usize, arrow: u8, into: &mut [u8])
        requires word { word < length self.now.words }
        requires arrow { arrow < arrow_count self.now.header.quiver }
        requires into { length into.old ≡ length self.now.words }
        ensures { IsProductOf self.now.header self.now.words (path_at self.now.words word) (arrow_path self.now.header.quiver arrow) into.new }
    {
        let arrows = self.header.quiver.arrows.len();
        self.rows.write_row(word * arrows + arrow as usize, into);
    }

    // Writes the coordinates of arrow·word: what the arrow and then the word's arrows make of the trivial word where the arrow starts.
    fn act_before(&self, word: usize, arrow: u8, into: &mut [u8])
        requires word { word < length self.now.words }
        requires arrow { arrow < arrow_count self.now.header.quiver }
        requires into { length into.old ≡ length self.now.words }
        ensures { IsProductOf self.now.header self.now.words (arrow_path self.now.header.quiver arrow) (path_at self.now.words word) into.new }
    {
        let word = &self.words[word];
        let ends = &self.header.quiver.arrows[arrow as usize];
        if ends.to != word.start {
            into.fill(0);
            return;
        }
        let arrows = self.header.quiver.arrows.len();
        let mut spare = [0u8; 4096];
        let spare = &mut spare[..self.words.len()];
        act_on_word_behind(
            &self.rows,
            arrows,
            arrow,
            word,
            ends.from as usize,
            into,
            spare,
        );
    }

    /// Writes the coordinates of the class of a path; zeros where its length is the bound or more. It takes no memory.
    pub fn normal_form(&self, path: &Path, into: &mut [u8])
        requires path { IsPath self.now.header.quiver path.now }
        requires into { length into.old ≡ length self.now.words }
        ensures { IsNormalForm self.now.header self.now.words path.now into.new }
    {
        let arrows = self.header.quiver.arrows.len();
        let mut spare = [0u8; 4096];
        let spare = &mut spare[..self.words.len()];
        act_on_word(&self.rows, arrows, path, path.start as usize, into, spare);
    }
}

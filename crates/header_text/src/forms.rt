//! The forms of the lines of a header.
use fp_linear::Field;
use path_algebra::Relation;
use quiver_paths::{Arrow, Name};

/// A line of a header without its spelling.
#[derive(Drop)]
pub enum Form {
    Field(Field),
    Vertex(Name),
    Arrow(Arrow),
    Bound(u32),
    Relation(Relation),
}

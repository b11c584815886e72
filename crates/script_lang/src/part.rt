//! What has been read of a script.

use path_algebra::Header;
use script_types::Statement;
use seq::Seq;

/// Where a script stands: before its `field`, among its vertices, its arrows, its relations, its statements, or among the
/// lines of a `rep` or a `map`.
#[derive(Drop)]
pub enum Place {
    Start,
    Vertices,
    Arrows,
    Relations,
    Body,
    Block(Statement),
}

/// What has been read of a script. Before the field is read it is any field; before the bound is read it is 0.
#[derive(Drop)]
pub struct Part {
    pub place: Place,
    pub header: Header,
    pub bound_line: u32,
    pub basis_line: u32,
    pub statements: Seq<Statement>,
    /// How many lines have been read.
    pub lines: u32,
}

//! The sides, and arrows as a side takes them.

ghost use Rattle.std.specs.Prelude.{◌≡◌, ◌<◌};
ghost use Rattle.quiver_paths.specs.Quiver.{arrow_count};
ghost use Rattle.module_types.specs.Algebras.{other_side, algebra_at};

use crate::Side;
use path_algebra::Header;

impl Side {
    /// The other side.
    pub fn other(self) -> Side
        ensures { result ≡ other_side self }
    {
        match self {
            Side::Right => Side::Left,
            Side::Left => Side::Right,
        }
    }
}

/// The vertex from whose rows a module of the side goes along the arrow: where the arrow starts on the right, where it ends on the left.
pub fn source_at(header: &Header, side: Side, arrow: u8) -> u8
    requires { arrow < arrow_count header.now.quiver }
    ensures { result ≡ (algebra_at side header.now).quiver.source arrow }
{
    let arrow = &header.quiver.arrows[arrow as usize];
    match side {
        Side::Right => arrow.from,
        Side::Left => arrow.to,
    }
}

/// The vertex to whose rows it goes: where the arrow ends on the right, where it starts on the left.
pub fn target_at(header: &Header, side: Side, arrow: u8) -> u8
    requires { arrow < arrow_count header.now.quiver }
    ensures { result ≡ (algebra_at side header.now).quiver.target arrow }
{
    let arrow = &header.quiver.arrows[arrow as usize];
    match side {
        Side::Right => arrow.to,
        Side::Left => arrow.from,
    }
}

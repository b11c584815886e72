//! What names are bound to.

/// What a name is bound to, by numbers of the report, which count from 1.
#[derive(Clone, Copy, Debug, Drop, PartialEq, Eq)]
pub enum Bound {
    /// A module.
    Whole {
        module: u32,
    },
    /// A map.
    Arrow {
        map: u32,
    },
    /// A module, and as `.map` a map that belongs to it.
    WithMap {
        module: u32,
        map: u32,
    },
    /// A direct sum; as `.1`, `.2` and so on its parts, so many, which are numbered from `first` on; as `.map` the map from it, and as `.inv` the map to it,
    /// which has the next number.
    Parts {
        first: u32,
        parts: u32,
        sum: u32,
        map: u32,
    },
}

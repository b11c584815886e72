//! Numbers of entries, and heights of their lists.

use std::marker::Model;

/// A module of an arena, by its number in the list of modules, counted from 1.
#[derive(Clone, Copy, Debug, Drop, PartialEq, Eq)]
pub struct RepId {
    pub number: u32,
}

/// A map of an arena, by its number in the list of maps, counted from 1.
#[derive(Clone, Copy, Debug, Drop, PartialEq, Eq)]
pub struct MapId {
    pub number: u32,
}

/// How many modules and maps there were.
#[derive(Clone, Copy, Debug, Drop, PartialEq, Eq)]
pub struct Mark {
    pub(crate) modules: u32,
    pub(crate) maps: u32,
}

impl Model for Mark {
    ghost use Rattle.rep_arena.specs.Marks.{Heights};

    ghost Value = { Heights };

    ghost view = { λ m. record { modules = m.modules; maps = m.maps } };

    ghost inverse = { λ h. record { modules = h.modules; maps = h.maps } };
}

/// The first new number in each list, counted from 1.
#[derive(Clone, Copy, Debug, Drop, PartialEq, Eq)]
pub struct Kept {
    pub first_module: u32,
    pub first_map: u32,
}

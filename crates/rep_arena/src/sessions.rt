//! What stays from command to command.
ghost use Rattle.std.specs.Prelude.{◌≡◌, length, IfOk};
ghost use Rattle.module_faults.specs.ModuleFaults.{IsSmallModule};
ghost use Rattle.rep_arena.specs.Entries.{AreLawful, no_entries, NamesModule, NamesMap, module_at, map_at, IsMapAmong};

use crate::arenas::Arena;
use crate::marks::{MapId, RepId};
use crate::views::{MapRef, ModuleRef};
use alg_table::Table;
use bumpalo::Bump;
use path_algebra::Header;
use std::alloc::{AllocError, Global};
use std::marker::Model;

/// Modules over a header and maps between them. Their numbers stand in an arena for as long as that is lent. Contracts see the header and the two lists.
#[derive(Drop)]
pub struct Session<'s> {
    pub(crate) alloc: Global,
    pub(crate) header: Header,
    pub(crate) bump: &'s Bump,
    pub(crate) modules: Vec<ModuleRef<'s>>,
    pub(crate) maps: Vec<MapRef<'s>>,
}

impl<'s> Model for Session<'s> {
    ghost use Rattle.rep_arena.specs.Entries.{Entries, AreLawful};

    ghost Value = { Entries };

    ghost view = { λ s. record { header = s.header; modules = s.modules.items; maps = s.maps.items } };

    ghost invariant = { λ s. AreLawful (record { header = s.header; modules = s.modules.items; maps = s.maps.items }) };
}

impl<'s> Session<'s> {
    /// A session without entries, over the table's header. The allocator is kept.
    pub fn new(alloc: Global, table: &Table, bump: &'s Bump) -> Result<Session<'s>, AllocError>
        ensures { IfOk result (λ s. s ≡ no_entries table.now.header) }
    {
        let header = table.header().clone()?;
        Ok(Session {
            alloc,
            header,
            bump,
            modules: Vec::new(alloc),
            maps: Vec::new(alloc),
        })
    }

    /// Begins a command, whose own entries stand in another arena. It takes no memory.
    pub fn begin<'c>(self, bump: &'c Bump) -> Arena<'s, 'c>
        ensures { result ≡ self.entry }
    {
        Arena {
            alloc: self.alloc,
            header: self.header,
            session: self.bump,
            command: bump,
            old_modules: self.modules,
            old_maps: self.maps,
            modules: Vec::new(self.alloc),
            maps: Vec::new(self.alloc),
        }
    }

    /// The header that the entries are over.
    pub fn header(&self) -> &Header
        ensures header { result.now ≡ self.now.header }
        ensures lawful { AreLawful self.now }
    {
        &self.header
    }

    /// How many modules there are.
    pub fn module_count(&self) -> u32
        ensures { result ≡ length self.now.modules }
    {
        self.modules.len() as u32
    }

    /// How many maps there are.
    pub fn map_count(&self) -> u32
        ensures { result ≡ length self.now.maps }
    {
        self.maps.len() as u32
    }

    /// The module with this number.
    pub fn module(&self, id: RepId) -> ModuleRef<'_>
        requires { NamesModule self.now id.number }
        ensures entry { result ≡ module_at self.now id.number }
        ensures lawful { IsSmallModule self.now.header result }
    {
        self.modules[id.number as usize - 1].shorter()
    }

    /// The map with this number.
    pub fn map(&self, id: MapId) -> MapRef<'_>
        requires { NamesMap self.now id.number }
        ensures entry { result ≡ map_at self.now id.number }
        ensures lawful { IsMapAmong self.now result }
    {
        self.maps[id.number as usize - 1].shorter()
    }
}

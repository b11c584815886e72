//! What a command works in.
ghost use Rattle.std.specs.Prelude.{◌≡◌, ◌<◌, ◌-◌, ◌+◌, ◌^◌, length, OnOk, OnErr, IfOk, IfErr, MatchResult};
ghost use Rattle.module_faults.specs.ModuleFaults.{IsSmallModule, IsModuleFault};
ghost use Rattle.module_faults.specs.MapFaults.{IsMapFault};
ghost use Rattle.rep_arena.specs.Entries.{AreLawful, NamesModule, module_at, with_module, with_map, IsMapAmong};
ghost use Rattle.rep_arena.specs.Marks.{heights_of, Fits, cut_at, MayKeep, kept, module_numbers, map_numbers};

use crate::keeping::{kept_maps, kept_modules};
use crate::marks::{Kept, MapId, Mark, RepId};
use crate::sessions::Session;
use crate::storing::{append_entries, push, store_map, store_module};
use crate::views::{MapRef, ModuleRef};
use alg_table::Table;
use bumpalo::Bump;
use module_faults::{MapFault, ModuleFault, check_map, check_module};
use module_types::{Map, Module};
use path_algebra::Header;
use std::alloc::{AllocError, Global};
use std::marker::Model;

/// The entries of a session, and behind them those of the command that is at work. Contracts see the header and the two lists.
#[derive(Drop)]
pub struct Arena<'s, 'c> {
    pub(crate) alloc: Global,
    pub(crate) header: Header,
    pub(crate) session: &'s Bump,
    pub(crate) command: &'c Bump,
    pub(crate) old_modules: Vec<ModuleRef<'s>>,
    pub(crate) old_maps: Vec<MapRef<'s>>,
    pub(crate) modules: Vec<ModuleRef<'c>>,
    pub(crate) maps: Vec<MapRef<'c>>,
}

impl<'s, 'c> Model for Arena<'s, 'c> {
    ghost use Rattle.std.specs.Prelude.{◌++◌};
    ghost use Rattle.rep_arena.specs.Entries.{Entries, AreLawful};

    ghost Value = { Entries };

    ghost view = { λ a. record { header = a.header; modules = a.old_modules.items ++ a.modules.items; maps = a.old_maps.items ++ a.maps.items } };

    ghost invariant = { λ a. AreLawful (record { header = a.header; modules = a.old_modules.items ++ a.modules.items; maps = a.old_maps.items ++ a.maps.items }) };
}

/// There was no memory for the session to keep the command's entries; the arena is as it was.
#[derive(Drop)]
pub struct CloseRefused<'s, 'c> {
    pub arena: Arena<'s, 'c>,
}

impl<'s, 'c> Arena<'s, 'c> {
    /// The header that the entries are over.
    pub fn header(&self) -> &Header
        ensures header { result.now ≡ self.now.header }
        ensures lawful { AreLawful self.now }
    {
        &self.header
    }

    /// Adds a module behind the others, or says why not. The table is one of the arena's header. After a refusal the lists are as before.
    pub fn add_module(&mut self, table: &Table, m: Module) -> Result<RepId, ModuleFault>
        requires table { table.now.header ≡ self.old.header }
        requires room { length self.old.modules < 2 ^ 32 - 2 }
        ensures added { IfOk result (λ id. (self.new ≡ with_module self.old m) × (id.number ≡ length self.new.modules)) }
        ensures lawful { IfOk result (λ _. IsSmallModule self.old.header m) }
        ensures fault { IfErr result (IsModuleFault self.old.header m) }
        ensures refused { OnErr result (self.new ≡ self.old) }
    {
        check_module(self.alloc, table.header(), &m)?;
        let id = self.put_module(m)?;
        Ok(id)
    }

    /// Adds a map behind the others, or says why not; the modules that it goes from and to stand. After a refusal the lists are as before.
    pub fn add_map(&mut self, f: Map) -> Result<MapId, MapFault>
        requires source { NamesModule self.old f.source }
        requires target { NamesModule self.old f.target }
        requires room { length self.old.maps < 2 ^ 32 - 2 }
        ensures added { IfOk result (λ id. (self.new ≡ with_map self.old f) × (id.number ≡ length self.new.maps)) }
        ensures lawful { IfOk result (λ _. IsMapAmong self.old f) }
        ensures fault { IfErr result (IsMapFault self.old.header (module_at self.old f.source) (module_at self.old f.target) f.matrices) }
        ensures refused { OnErr result (self.new ≡ self.old) }
    {
        let source = self
            .module(RepId { number: f.source })
            .to_module(self.alloc)?;
        let target = self
            .module(RepId { number: f.target })
            .to_module(self.alloc)?;
        check_map(&self.header, &source, &target, &f.matrices)?;
        let id = self.put_map(f)?;
        Ok(id)
    }

    /// Adds a module that is known to be one over the header, of at most the largest dimension; it is not tested. Where there is no memory the lists are as
    /// before.
    pub fn put_module(&mut self, m: Module) -> Result<RepId, AllocError>
        requires lawful { IsSmallModule self.old.header m }
        requires room { length self.old.modules < 2 ^ 32 - 2 }
        ensures added { IfOk result (λ id. (self.new ≡ with_module self.old m) × (id.number ≡ length self.new.modules)) }
        ensures refused { OnErr result (self.new ≡ self.old) }
    {
        let stored = store_module(self.command, &m)?;
        push(&mut self.modules, stored)?;
        let number = self.old_modules.len() + self.modules.len();
        Ok(RepId {
            number: number as u32,
        })
    }

    /// Adds a map that is known to be a homomorphism between modules that stand; it is not tested. Where there is no memory the lists are as before.
    pub fn put_map(&mut self, f: Map) -> Result<MapId, AllocError>
        requires lawful { IsMapAmong self.old f }
        requires room { length self.old.maps < 2 ^ 32 - 2 }
        ensures added { IfOk result (λ id. (self.new ≡ with_map self.old f) × (id.number ≡ length self.new.maps)) }
        ensures refused { OnErr result (self.new ≡ self.old) }
    {
        let stored = store_map(self.command, &f)?;
        push(&mut self.maps, stored)?;
        let number = self.old_maps.len() + self.maps.len();
        Ok(MapId {
            number: number as u32,
        })
    }

    /// How many modules and maps there are.
    pub fn mark(&self) -> Mark
        ensures mark { result ≡ heights_of self.now }
        ensures fits { Fits self.now result }
    {
        let modules = self.old_modules.len() + self.modules.len();
        let maps = self.old_maps.len() + self.maps.len();
        Mark {
            modules: modules as u32,
            maps: maps as u32,
        }
    }

    /// Lets the entries go that were added since the mark; those before it stay.
    pub fn release(&mut self, mark: Mark)
        requires { Fits self.old mark }
        ensures { self.new ≡ cut_at self.old mark }
    {
        let modules = mark.modules as usize;
        let maps = mark.maps as usize;
        self.modules
            .truncate(modules.saturating_sub(self.old_modules.len()));
        self.old_modules.truncate(modules);
        self.maps.truncate(maps.saturating_sub(self.old_maps.len()));
        self.old_maps.truncate(maps);
    }

    /// Lets the entries go that were added since the mark, but for these, which then stand behind those before it, in this order, and get new numbers. Where
    /// there is no memory the lists are as before.
    pub fn keep(
        &mut self,
        mark: Mark,
        modules: &[RepId],
        maps: &[MapId],
    ) -> Result<Kept, AllocError>
        requires { MayKeep self.old mark (module_numbers modules.now) (map_numbers maps.now) }
        ensures kept { OnOk result (self.new ≡ kept self.old mark (module_numbers modules.now) (map_numbers maps.now)) }
        ensures numbers { IfOk result (λ k. (k.first_module ≡ mark.modules + 1) × (k.first_map ≡ mark.maps + 1)) }
        ensures refused { OnErr result (self.new ≡ self.old) }
    {
        let below = mark.modules as usize;
        let kept_modules = kept_modules(
            self.alloc,
            self.command,
            &self.old_modules,
            &self.modules,
            below,
            modules,
        )?;
        let below = mark.maps as usize;
        let kept_maps = kept_maps(
            self.alloc,
            self.command,
            &self.old_maps,
            &self.maps,
            below,
            maps,
            mark.modules,
            modules,
        )?;
        self.old_modules.truncate(mark.modules as usize);
        self.old_maps.truncate(mark.maps as usize);
        self.modules = kept_modules;
        self.maps = kept_maps;
        Ok(Kept {
            first_module: mark.modules + 1,
            first_map: mark.maps + 1,
        })
    }

    /// Ends the command: its entries are copied to the session's arena. Where there is no memory for them the arena comes back as it was.
    pub fn close(self) -> Result<Session<'s>, CloseRefused<'s, 'c>>
        ensures { MatchResult result (λ s. s ≡ self.entry) (λ refused. refused.arena ≡ self.entry) }
    {
        let Arena {
            alloc,
            header,
            session,
            command,
            mut old_modules,
            mut old_maps,
            modules,
            maps,
        } = self;
        if append_entries(session, &modules, &maps, &mut old_modules, &mut old_maps).is_err() {
            return Err(CloseRefused {
                arena: Arena {
                    alloc,
                    header,
                    session,
                    command,
                    old_modules,
                    old_maps,
                    modules,
                    maps,
                },
            });
        }
        Ok(Session {
            alloc,
            header,
            bump: session,
            modules: old_modules,
            maps: old_maps,
        })
    }
}

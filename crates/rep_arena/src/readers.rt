//! Reading entries. No call takes memory.
ghost use Rattle.std.specs.Prelude.{◌≡◌, ◌<◌, length, slice_index, slice_index_or, []};
ghost use Rattle.linear_algebra.specs.Rows.{IsRow};
ghost use Rattle.quiver_paths.specs.Quiver.{vertex_count, arrow_count};
ghost use Rattle.module_types.specs.Readings.{rows_at};
ghost use Rattle.module_faults.specs.ModuleFaults.{IsSmallModule};
ghost use Rattle.rep_arena.specs.Entries.{NamesModule, NamesMap, module_at, map_at, quiver_at, IsMapAmong};

use crate::arenas::Arena;
use crate::marks::{MapId, RepId};
use crate::views::{MapRef, ModuleRef};
use module_types::Side;

impl<'s, 'c> Arena<'s, 'c> {
    /// How many modules there are.
    pub fn module_count(&self) -> u32
        ensures { result ≡ length self.now.modules }
    {
        self.mark().modules
    }

    /// How many maps there are.
    pub fn map_count(&self) -> u32
        ensures { result ≡ length self.now.maps }
    {
        self.mark().maps
    }

    /// The module with this number.
    pub fn module(&self, id: RepId) -> ModuleRef<'_>
        requires { NamesModule self.now id.number }
        ensures entry { result ≡ module_at self.now id.number }
        ensures lawful { IsSmallModule self.now.header result }
    {
        let at = id.number as usize - 1;
        let old = self.old_modules.len();
        if at < old {
            self.old_modules[at].shorter()
        } else {
            self.modules[at - old].shorter()
        }
    }

    /// The map with this number.
    pub fn map(&self, id: MapId) -> MapRef<'_>
        requires { NamesMap self.now id.number }
        ensures entry { result ≡ map_at self.now id.number }
        ensures lawful { IsMapAmong self.now result }
    {
        let at = id.number as usize - 1;
        let old = self.old_maps.len();
        if at < old {
            self.old_maps[at].shorter()
        } else {
            self.maps[at - old].shorter()
        }
    }

    /// The side of a module.
    pub fn side(&self, id: RepId) -> Side
        requires { NamesModule self.now id.number }
        ensures { result ≡ (module_at self.now id.number).side }
    {
        self.module(id).side()
    }

    /// The dimensions of a module at the vertices, in order of declaration.
    pub fn dims(&self, id: RepId) -> &[u32]
        requires { NamesModule self.now id.number }
        ensures dims { result.now ≡ (module_at self.now id.number).dims }
        ensures lawful { IsSmallModule self.now.header (module_at self.now id.number) }
    {
        self.module(id).dims()
    }

    /// Row `i` of the matrix of an arrow on a module, both counted from 0.
    pub fn arrow_row(&self, id: RepId, arrow: u8, i: u32) -> &[u8]
        requires names { NamesModule self.now id.number }
        requires arrow { arrow < arrow_count self.now.header.quiver }
        requires row { i < slice_index (module_at self.now id.number).dims ((quiver_at self.now id.number).source arrow) }
        ensures row { result.now ≡ slice_index_or (rows_at (module_at self.now id.number).matrices arrow) i [] }
        ensures is_row { IsRow self.now.header.field (slice_index (module_at self.now id.number).dims ((quiver_at self.now id.number).target arrow)) result.now }
    {
        self.module(id).arrow_row(arrow, i)
    }

    /// The modules that a map goes from and to.
    pub fn ends(&self, id: MapId) -> (RepId, RepId)
        requires { NamesMap self.now id.number }
        ensures source { result.0.number ≡ (map_at self.now id.number).source }
        ensures target { result.1.number ≡ (map_at self.now id.number).target }
        ensures lawful { IsMapAmong self.now (map_at self.now id.number) }
    {
        let f = self.map(id);
        f.ends()
    }

    /// Row `i` of a map's matrix at a vertex, both counted from 0.
    pub fn vertex_row(&self, id: MapId, vertex: u8, i: u32) -> &[u8]
        requires names { NamesMap self.now id.number }
        requires vertex { vertex < vertex_count self.now.header.quiver }
        requires row { i < slice_index (module_at self.now (map_at self.now id.number).source).dims vertex }
        ensures row { result.now ≡ slice_index_or (rows_at (map_at self.now id.number).matrices vertex) i [] }
        ensures is_row { IsRow self.now.header.field (slice_index (module_at self.now (map_at self.now id.number).target).dims vertex) result.now }
    {
        self.map(id).vertex_row(vertex, i)
    }
}

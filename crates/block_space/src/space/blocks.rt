//! Blocks that come and go.
ghost use Rattle.std.specs.Prelude.{List, ◌≡◌, ◌≤◌, ◌+◌, ◌∷◌, [], length, get_or, slice_get, Some, None, IfSome, IsTrue};
ghost use Rattle.block_layouts.specs.Layouts.{len_of, quanta};
ghost use Rattle.quantum_space.specs.Regions.{IsRegion, quanta_in, room_of};
ghost use Rattle.block_space.specs.Tables.{numbers};
ghost use Rattle.block_space.specs.Spaces.{kind_of, region, spot_of, HasBlockAt, IsFreedIn, IsTakenOff, IsPlacedAt, IsPlacedIn, block_quanta};
ghost use Rattle.block_space.specs.Maps.{AreTakenOff, HasBlockLess, HasBlockMore, HasBlocksLess, IsFreedThere, KnowsNone, MayFree};
ghost use Rattle.quantum_space.specs.declared.place.Place.{Place as APlace};
ghost use Rattle.quantum_space.specs.declared.spot.Spot.{Spot as ASpot};
ghost use Rattle.block_space.specs.Marking.{HasBlockIn, HasBlockLessIn, HasBlockMoreIn, IsUnknown};

use crate::sized::SizedRegion;
use crate::space::{Space, kind_of, spot_by};
use crate::table::Table;
use az_base::BlockId;
use block_layouts::Layout;
use quantum_space::{Kind, Place, Spot};

/// Puts a block into the first hole of its kind's subzones, and says its place.
fn place_in(
    region: &mut SizedRegion,
    table: &mut Table,
    kind: Kind,
    id: BlockId,
    layout: Layout,
) -> Place
    requires few { quanta_in region.old.width (len_of layout) ≤ 32 }
    requires room { quanta_in region.old.width (len_of layout) + 31 ≤ room_of region.old }
    requires size { region.old.map.size ≤ 4096 }
    requires opened { length (numbers table.old kind) ≡ region.old.opened }
    requires unopened { region.old.map.subzones ≤ region.old.opened + table.old.room }
    ensures placed { IsPlacedIn region.old region.new table.old table.new kind id layout result }
    ensures room { room_of region.old ≤ room_of region.new + quanta_in region.old.width (len_of layout) }
{
    let (index, quantum) = region.place(id, layout);
    if index == table.count(kind) {
        table.open(kind);
    }
    let subzone = table.number(kind, index);
    Place {
        subzone,
        quantum: quantum as u32,
    }
}

/// The small quanta of the block that begins at a quantum.
fn quanta_at(region: &SizedRegion, at: usize) -> u32
    ensures { IfSome (get_or region.now.layouts at None) (λ l. result ≡ quanta (len_of l)) }
{
    match region.layout(at) {
        Some(layout) => layout.quanta(),
        None => 0,
    }
}

/// Frees the block at a quantum, if one begins there.
fn free_at(region: &mut SizedRegion, used: &mut u32, at: usize)
    requires { block_quanta region.old.layouts ≤ used.old }
    ensures freed { IsFreedIn region.old region.new used.old used.new at }
    ensures whole { IsRegion region.old × IsRegion region.new }
{
    let _ = region.unopened();
    if region.begins_at(at) {
        *used -= quanta_at(region, at);
        region.free(at);
    }
    let _ = region.unopened();
}

/// Frees the block at a place, if one begins there.
fn free_there(
    small: &mut SizedRegion,
    medium: &mut SizedRegion,
    table: &Table,
    used: &mut u32,
    p: Place,
)
    requires { used.old ≡ block_quanta small.old.layouts + block_quanta medium.old.layouts }
    ensures freed { IsFreedThere small.old medium.old table.now used.old p small.new medium.new used.new }
    ensures whole { (IsRegion small.old × IsRegion small.new) × (IsRegion medium.old × IsRegion medium.new) }
{
    let _ = small.unopened();
    let _ = medium.unopened();
    let Some(spot) = spot_by(table, p) else {
        return;
    };
    match spot.kind {
        Kind::Small => free_at(small, used, spot.at),
        Kind::Medium => free_at(medium, used, spot.at),
    }
}

impl Space {
    /// Puts a block into the first hole of its kind's subzones that is long enough, or at the beginning of a new subzone
    /// where there is none, and takes its length off those that are to come. Its words are null or 0; it is white, of age
    /// 0, not remembered and not finalised. It takes no memory. O(quanta and words, and what no search for that length has
    /// passed over since the last free before it: at most the quanta of a subzone, and the subzones of the kind).
    pub fn place(&mut self, id: BlockId, layout: Layout) -> Place
        requires { slice_get self.old.spare 0 ≡ Some (len_of layout) }
        ensures placed { IsPlacedAt self.old self.new id layout result }
        ensures more { HasBlockMore self.old self.new id layout result }
        ensures by_quantum { (x : ASpot) → spot_of self.new result ≡ Some x → HasBlockMoreIn self.old self.new id layout x }
    {
        self.is_sound();
        self.place_first(id, layout)
    }

    fn place_first(&mut self, id: BlockId, layout: Layout) -> Place
        requires { slice_get self.old.spare 0 ≡ Some (len_of layout) }
        ensures { IsPlacedAt self.old self.new id layout result }
    {
        self.is_sound();
        let kind = kind_of(layout.len());
        self.used += layout.quanta();
        self.spare.take_first();
        match kind {
            Kind::Small => place_in(&mut self.small, &mut self.table, Kind::Small, id, layout),
            Kind::Medium => place_in(&mut self.medium, &mut self.table, Kind::Medium, id, layout),
        }
    }

    /// Whether no word of any subzone, free or in use, knows where its block lies: then any blocks may be freed. O(words of
    /// the subzones).
    pub fn knows_no_place(&self) -> bool
        ensures may { IsTrue result → (ps : List APlace) → MayFree self.now ps }
        ensures exact { KnowsNone self.now → IsTrue result }
    {
        self.is_sound();
        self.small.knows_none() && self.medium.knows_none()
    }

    /// Frees the block at a place. The place may be given to another block. O(quanta).
    pub fn free(&mut self, p: Place)
        requires block { HasBlockAt self.old p }
        requires may { MayFree self.old (p ∷ []) }
        ensures freed { IsTakenOff self.old self.new p }
        ensures less { HasBlockLess self.old self.new p }
    {
        self.free_all(&[p]);
    }

    /// Frees the blocks at these places, and passes over a place at which none begins. No word of a block that stays may
    /// know that its block lies at one of them. O(places, and quanta of the blocks).
    pub fn free_all(&mut self, places: &[Place])
        requires { MayFree self.old places.now }
        ensures freed { AreTakenOff self.old places.now self.new }
        ensures less { HasBlocksLess self.old self.new places.now }
    {
        self.is_sound();
        for place in places {
            free_there(
                &mut self.small,
                &mut self.medium,
                &self.table,
                &mut self.used,
                *place,
            );
        }
    }

    /// Frees the block that begins at a quantum. O(quanta).
    pub fn free_spot(&mut self, spot: Spot)
        requires block { HasBlockIn self.old spot }
        requires unknown { IsUnknown self.old spot }
        ensures { HasBlockLessIn self.old self.new spot }
    {
        self.is_sound();
        let p = self.place_of(spot);
        self.free(p);
    }
}

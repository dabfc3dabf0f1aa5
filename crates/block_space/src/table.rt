//! The numbers of subzones: both kinds have one list of numbers, in the order in which they were opened.
ghost use Rattle.std.specs.Prelude.{ℕ, ◌≡◌, ◌<◌, ◌≤◌, ◌+◌, [], length, slice_get, get_or, OnOk, OnErr, Some, None, IfSome, ◌^◌};
ghost use Rattle.block_space.specs.Tables.{Table', numbers, opened_with, with_room, subzone_of, HasRoom, IsTable};
ghost use Rattle.std.specs.Vec.{vec_capacity};

use az_base::NoMemory;
use quantum_space::Kind;
use std::alloc::Global;
use std::marker::Model;

/// Which of its kind's subzones one is, in the order in which these were opened.
#[derive(Clone, Copy)]
pub struct Subzone {
    pub kind: Kind,
    pub index: u32,
}

/// Which subzone each number is, and the numbers of each kind's subzones. It has room for so many more.
#[derive(Drop)]
pub struct Table {
    subzones: Vec<Subzone>,
    small: Vec<u32>,
    medium: Vec<u32>,
    room: u32,
}

impl Model for Table {
    ghost use Rattle.std.specs.Vec.{vec_capacity};
    ghost use Rattle.block_space.specs.Tables.{Table', IsTable, HasRoom};

    ghost Value = { Table' };

    ghost view = { λ t. record { subzones = t.subzones.items; small = t.small.items; medium = t.medium.items; room = t.room } };

    ghost invariant = { λ t. IsTable (record { subzones = t.subzones.items; small = t.small.items; medium = t.medium.items; room = t.room }) × HasRoom t.subzones.items (vec_capacity t.subzones) t.room × HasRoom t.small.items (vec_capacity t.small) t.room × HasRoom t.medium.items (vec_capacity t.medium) t.room };
}

/// Room for so many items more. NoMemory leaves the list as it was.
fn make_room<T>(list: &mut Vec<T>, count: usize) -> Result<(), NoMemory>
    ensures same { list.new.items ≡ list.old.items }
    ensures room { OnOk result (HasRoom list.new.items (vec_capacity list.new) count) }
    ensures more { vec_capacity list.old ≤ vec_capacity list.new }
{
    match list.reserve(count) {
        Ok(()) => Ok(()),
        Err(_) => Err(NoMemory),
    }
}

impl Table {
    /// No subzone.
    pub fn new(alloc: Global) -> Table
        ensures subzones { result.subzones ≡ [] }
        ensures small { result.small ≡ [] }
        ensures medium { result.medium ≡ [] }
        ensures room { result.room ≡ 0 }
    {
        Table {
            subzones: Vec::new(alloc),
            small: Vec::new(alloc),
            medium: Vec::new(alloc),
            room: 0,
        }
    }

    /// How many subzones were opened. O(1).
    pub fn len(&self) -> usize
        ensures value { result ≡ length self.now.subzones }
        ensures whole { IsTable self.now }
    {
        self.subzones.len()
    }

    /// How many subzones of a kind were opened. O(1).
    pub fn count(&self, kind: Kind) -> usize
        ensures { result ≡ length (numbers self.now kind) }
    {
        match kind {
            Kind::Small => self.small.len(),
            Kind::Medium => self.medium.len(),
        }
    }

    /// The subzone of a number; None exactly where there is none. O(1).
    pub fn subzone(&self, number: u32) -> Option<Subzone>
        ensures value { result ≡ slice_get self.now.subzones number }
        ensures there { IfSome result (λ z. z.index < length (numbers self.now z.kind)) }
    {
        self.subzones.get(number as usize).copied()
    }

    /// The number of a kind's subzone. O(1).
    pub fn number(&self, kind: Kind, index: usize) -> u32
        requires { index < length (numbers self.now kind) }
        ensures { result ≡ get_or (numbers self.now kind) index 0 }
    {
        match kind {
            Kind::Small => self.small[index],
            Kind::Medium => self.medium[index],
        }
    }

    /// Room for so many more. NoMemory, also where there would be more than 2^32 subzones, leaves all as it was.
    pub fn reserve(&mut self, count: u32) -> Result<(), NoMemory>
        ensures ok { OnOk result (count ≤ self.new.room) }
        ensures same { self.new ≡ with_room self.old self.new.room }
        ensures more { self.old.room ≤ self.new.room }
        ensures range { self.new.room < 2 ^ 32 }
        ensures err { OnErr result (self.new ≡ self.old) }
    {
        if count <= self.room {
            return Ok(());
        }
        if self.subzones.len() + count as usize > u32::MAX as usize {
            return Err(NoMemory);
        }
        make_room(&mut self.subzones, count as usize)?;
        make_room(&mut self.small, count as usize)?;
        make_room(&mut self.medium, count as usize)?;
        self.room = count;
        Ok(())
    }

    fn open_small(&mut self)
        requires { 0 < self.old.room }
        ensures { self.new ≡ opened_with self.old Kind.Small }
    {
        let number = self.subzones.len() as u32;
        let index = self.small.len() as u32;
        self.subzones.push_reserved(Subzone {
            kind: Kind::Small,
            index,
        });
        self.small.push_reserved(number);
        self.room -= 1;
    }

    fn open_medium(&mut self)
        requires { 0 < self.old.room }
        ensures { self.new ≡ opened_with self.old Kind.Medium }
    {
        let number = self.subzones.len() as u32;
        let index = self.medium.len() as u32;
        self.subzones.push_reserved(Subzone {
            kind: Kind::Medium,
            index,
        });
        self.medium.push_reserved(number);
        self.room -= 1;
    }

    /// One more of a kind. It takes no memory. O(1).
    pub fn open(&mut self, kind: Kind)
        requires { 0 < self.old.room }
        ensures { self.new ≡ opened_with self.old kind }
    {
        match kind {
            Kind::Small => self.open_small(),
            Kind::Medium => self.open_medium(),
        }
    }
}

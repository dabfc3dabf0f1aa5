//! Lists of finaliser actions, and of ids.
ghost use Rattle.std.specs.Prelude.{◌≡◌, ◌≤◌, ◌<◌, ◌+◌, ◌-◌, ◌↔◌, [], ◌∷◌, ◌++◌, length, IfOk, IsTrue, MatchOption, slice_get};
ghost use Rattle.std.specs.Vec.{vec_capacity, vec_len};

use az_base::{Action, BlockId, NoMemory, RootNo};
use std::alloc::Global;
use std::marker::Model;

/// The most actions of a finaliser.
pub const MOST_ACTIONS: usize = 8;

/// The actions of a finaliser, at most eight, in the order in which they are applied. It takes no memory.
#[derive(Debug, Drop)]
pub struct ActionList {
    actions: [Action; 8],
    len: usize,
}

impl Model for ActionList {
    ghost use Rattle.std.specs.Prelude.{List, take, ◌≤◌};
    ghost use Rattle.az_base.specs.declared.action.Action.{Action};

    ghost Value = { List Action };

    ghost view = { λ a. take a.len a.actions };

    ghost invariant = { λ a. a.len ≤ 8 };
}

impl ActionList {
    /// No action.
    pub fn new() -> ActionList
        ensures { result ≡ [] }
    {
        ActionList {
            actions: [Action::Keep(RootNo(0)); 8],
            len: 0,
        }
    }

    /// These actions; None exactly where there are more than eight.
    pub fn from_slice(actions: &[Action]) -> Option<ActionList>
        ensures { MatchOption result (8 < length actions.now) (λ list. (length actions.now ≤ 8) × (list ≡ actions.now)) }
    {
        let len = actions.len();
        if len > MOST_ACTIONS {
            return None;
        }
        let mut list = [Action::Keep(RootNo(0)); 8];
        list[..len].copy_from_slice(actions);
        Some(ActionList { actions: list, len })
    }

    pub fn as_slice(&self) -> &[Action]
        ensures actions { result.now ≡ self.now }
        ensures few { length result.now ≤ 8 }
    {
        &self.actions[..self.len]
    }

    pub fn len(&self) -> usize
        ensures { result ≡ length self.now }
    {
        self.as_slice().len()
    }

    pub fn is_empty(&self) -> bool
        ensures { IsTrue result ↔ (self.now ≡ []) }
    {
        self.as_slice().is_empty()
    }

    /// The n-th action, from 0; None exactly past the end.
    pub fn get(&self, n: usize) -> Option<Action>
        ensures { result ≡ slice_get self.now n }
    {
        self.as_slice().get(n).copied()
    }

    /// An equal list. It takes no memory.
    pub fn copy(&self) -> ActionList
        ensures { result ≡ self.now }
    {
        ActionList {
            actions: self.actions,
            len: self.len,
        }
    }
}

/// Ids in order, and room for more: how many can be pushed without asking for memory.
#[derive(Debug, Drop)]
pub struct IdList {
    ids: Vec<BlockId>,
}

impl Model for IdList {
    ghost use Rattle.std.specs.Prelude.{◌-◌, length};
    ghost use Rattle.std.specs.Vec.{vec_capacity};
    ghost use Rattle.zone_model.specs.Room.{WithRoom};

    ghost Value = { WithRoom };

    ghost view = { λ v. record { list = v.ids.items; spare = vec_capacity v.ids - length v.ids.items } };
}

impl IdList {
    /// No id, and room for `n`.
    pub fn with_room(alloc: Global, n: usize) -> Result<IdList, NoMemory>
        ensures empty { IfOk result (λ ids. ids.list ≡ []) }
        ensures room { IfOk result (λ ids. n ≤ ids.spare) }
    {
        match Vec::with_capacity(alloc, n) {
            Ok(ids) => Ok(IdList { ids }),
            Err(_) => Err(NoMemory),
        }
    }

    /// These ids, and the room that the vector has left. It takes no memory.
    pub fn from_vec(ids: Vec<BlockId>) -> IdList
        ensures list { result.list ≡ ids.items }
        ensures room { result.spare ≡ vec_capacity ids - vec_len ids }
    {
        IdList { ids }
    }

    /// The ids. It takes no memory.
    pub fn into_vec(self) -> Vec<BlockId>
        ensures list { result.items ≡ self.list }
        ensures room { vec_capacity result - vec_len result ≡ self.spare }
    {
        self.ids
    }

    pub fn as_slice(&self) -> &[BlockId]
        ensures { result.now ≡ self.now.list }
    {
        self.ids.as_slice()
    }

    pub fn len(&self) -> usize
        ensures { result ≡ length self.now.list }
    {
        self.ids.len()
    }

    pub fn is_empty(&self) -> bool
        ensures { IsTrue result ↔ (self.now.list ≡ []) }
    {
        self.ids.is_empty()
    }

    /// The n-th id, from 0; None exactly past the end.
    pub fn get(&self, n: usize) -> Option<BlockId>
        ensures { result ≡ slice_get self.now.list n }
    {
        self.ids.get(n).copied()
    }

    /// Appends an id, for which there is room.
    pub fn push(&mut self, id: BlockId)
        requires { 0 < self.old.spare }
        ensures list { self.new.list ≡ self.old.list ++ id ∷ [] }
        ensures room { self.new.spare + 1 ≡ self.old.spare }
    {
        self.ids.push_reserved(id);
    }

    /// A list of the same ids. O(their number).
    pub fn try_copy(&self, alloc: Global) -> Result<IdList, NoMemory>
        ensures { IfOk result (λ ids. ids.list ≡ self.now.list) }
    {
        match Vec::from_slice(alloc, self.ids.as_slice()) {
            Ok(ids) => Ok(IdList { ids }),
            Err(_) => Err(NoMemory),
        }
    }
}

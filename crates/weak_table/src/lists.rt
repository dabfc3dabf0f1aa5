//! The lists of groups.
ghost use Rattle.std.specs.Prelude.{Option, ◌≡◌, ◌<◌, ◌≤◌, ◌+◌, ◌++◌, [], ◌∷◌, None, Some, cond, IsSome, OnOk, length, slice_get};
ghost use Rattle.std.specs.List.{swap_remove};
ghost use Rattle.std.specs.Option.{IfSome};
ghost use Rattle.indexmap.specs.IndexMap.{spare};
ghost use Rattle.az_base.specs.declared.block_id.BlockId.{BlockId};
ghost use Rattle.az_base.specs.Ids.{id_eq};
ghost use Rattle.weak_table.specs.Lists.{members_at, IsRoomy, SameMembers, Enters, Leaves};

use crate::member::Member;
use az_base::{BlockId, NoMemory, WeakLoc};
use indexmap::IndexMap;
use smallvec::SmallVec;
use std::alloc::Global;

/// The location at this place of the group's list. O(1).
pub fn member_in(
    lists: &IndexMap<BlockId, SmallVec<Member, 2>>,
    group: BlockId,
    at: usize,
) -> Option<WeakLoc>
    ensures { result ≡ slice_get (members_at lists.now.entries group) at }
{
    let list = lists.get(&group)?;
    let member = list.as_slice().get(at)?;
    Some(member.loc())
}

/// The location enters the group's list, and the answer is its place there. O(1), in the room that there is.
pub fn enlist(
    lists: &mut IndexMap<BlockId, SmallVec<Member, 2>>,
    group: BlockId,
    loc: WeakLoc,
) -> usize
    requires roomy { IsRoomy None lists.old.entries }
    requires spare { 0 < spare lists.old }
    ensures place { result ≡ length (members_at lists.old.entries group) }
    ensures members { Enters group loc lists.old.entries lists.new.entries }
    ensures roomy { IsRoomy (Some group) lists.new.entries }
{
    if !lists.contains_key(&group) {
        let mut list = SmallVec::new(*lists.allocator());
        list.push_reserved(Member::new(loc));
        let Ok(_) = lists.insert(group, list) else {
            unreachable!()
        };
        return 0;
    }
    let Some(list) = lists.get_mut(&group) else {
        unreachable!()
    };
    let at = list.len();
    list.push_reserved(Member::new(loc));
    at
}

/// The location at the place leaves the group's list, and the last takes its place. The answer is the location that is
/// there now. O(1).
pub fn delist(
    lists: &mut IndexMap<BlockId, SmallVec<Member, 2>>,
    group: BlockId,
    at: usize,
) -> Option<WeakLoc>
    requires { at < length (members_at lists.old.entries group) }
    ensures moved { result ≡ slice_get (members_at lists.new.entries group) at }
    ensures members { Leaves group at lists.old.entries lists.new.entries }
    ensures roomy { (tight : Option BlockId) → IsRoomy tight lists.old.entries → IsRoomy tight lists.new.entries }
    ensures spare { spare lists.old ≤ spare lists.new }
{
    let Some(list) = lists.get_mut(&group) else {
        unreachable!()
    };
    let _ = list.swap_remove(at);
    prune(lists, group);
    member_in(lists, group, at)
}

/// The list that may be full gets room for one more.
pub fn widen(
    lists: &mut IndexMap<BlockId, SmallVec<Member, 2>>,
    tight: Option<BlockId>,
) -> Result<(), NoMemory>
    requires { IsRoomy tight lists.old.entries }
    ensures members { SameMembers lists.old.entries lists.new.entries }
    ensures ok { OnOk result (IsRoomy None lists.new.entries) }
    ensures err { IsRoomy tight lists.new.entries }
    ensures spare { spare lists.new ≡ spare lists.old }
{
    let Some(group) = tight else {
        return Ok(());
    };
    if !lists.contains_key(&group) {
        return Ok(());
    }
    let Some(list) = lists.get_mut(&group) else {
        unreachable!()
    };
    list.reserve(1)?;
    Ok(())
}

// An empty list goes.
fn prune(lists: &mut IndexMap<BlockId, SmallVec<Member, 2>>, group: BlockId)
    ensures members { SameMembers lists.old.entries lists.new.entries }
    ensures roomy { (tight : Option BlockId) → IsRoomy tight lists.old.entries → IsRoomy tight lists.new.entries }
    ensures spare { spare lists.old ≤ spare lists.new }
{
    let Some(list) = lists.get(&group) else {
        return;
    };
    if !list.is_empty() {
        return;
    }
    let Some(_empty) = lists.swap_remove(&group) else {
        return;
    };
}

//! The calls on weak locations: weak roots, and the Weak words of blocks. What a location shows is the heap's business: so
//! a block in which something is shown escapes, and no word of an unescaped block shows a block.
ghost use Rattle.std.specs.Prelude.{◌≡◌, true, [], Some, None, IfOk, OnErr};
ghost use Rattle.az_base.specs.declared.word.Class.TheVariants as class;
ghost use Rattle.block_layouts.specs.Layouts.{class_at};
ghost use Rattle.shared_heap.specs.Words.{class_misuse};
ghost use Rattle.zone_model.specs.declared.call.Call.TheVariants as call;
ghost use Rattle.zone_model.specs.declared.call.Loc.TheVariants as loc;
ghost use Rattle.zone_model.specs.Part.{is_in};
ghost use Rattle.zone_model.specs.State.{State};
ghost use Rattle.local_set.specs.LocalSets.{part_in};
ghost use Rattle.escape_plan.specs.Together.{Together};
ghost use Rattle.escape_plan.specs.Escapes.{KeepsCycle};
ghost use Rattle.zone_escape.specs.Making.{CanMake, Makes, Stays};
ghost use Rattle.zone_escape.specs.WeakWords.{IsWeakMisuse, IsHeld};

use crate::receiving::receive;
use az_base::{BlockId, Class, Misuse, NoMemory, Reg, WeakLoc, WeakNo};
use block_layouts::Layout;
use escape_plan::escape;
use local_set::Local;
use shared_heap::Heap;
use std::alloc::Global;
use zone_model::{Loc, Reply};

/// The least of NoWord and WrongClass where a Weak word is needed at the place of a block with this layout.
fn layout_misuse(layout: &Layout, at: u32) -> Option<Misuse>
    ensures { result ≡ class_misuse class.Weak (class_at layout.now at) }
{
    match layout.class_at(at) {
        None => Some(Misuse::NoWord),
        Some(Class::Weak) => None,
        Some(Class::Strong | Class::Plain) => Some(Misuse::WrongClass),
    }
}

/// The least of NoWord and WrongClass where a Weak word of a block that the thread holds is needed.
fn weak_misuse(local: &Local, heap: &Heap, id: BlockId, at: u32) -> Option<Misuse>
    requires held { IsHeld local.now heap.now id }
    requires out { local.now.waiting ≡ [] }
    ensures { IsWeakMisuse local.now heap.now id at result }
{
    if local.is_own(id) {
        layout_misuse(local.layout_of(id), at)
    } else {
        heap.word_misuse(Some(id), at, Class::Weak)
    }
}

/// The call `readweak`: the register gets what the location shows. NullBlock, NoWord or WrongClass, after which nothing has
/// changed, and NoMemory leaves all as it was. O(1) expected, and O(threads that hold the blocks that the register gets and
/// held).
pub fn read_weak(local: &mut Local, heap: &mut Heap, to: Reg, loc: Loc) -> Result<Reply, NoMemory>
    requires { CanMake local.old heap.old (call.ReadWeak to loc) }
    ensures ok { IfOk result (λ reply. Makes local.old local.new heap.old heap.new (call.ReadWeak to loc) reply) }
    ensures err { OnErr result (Stays local.old local.new heap.old heap.new) }
    ensures cycle { KeepsCycle heap.old heap.new }
{
    match loc {
        Loc::Root(root) => read_root(local, heap, to, root),
        Loc::Word(from, at) => read_word(local, heap, to, from, at),
    }
}

/// The call `readweak` of a weak root.
fn read_root(local: &mut Local, heap: &mut Heap, to: Reg, root: WeakNo) -> Result<Reply, NoMemory>
    requires { CanMake local.old heap.old (call.ReadWeak to (loc.Root root)) }
    ensures ok { IfOk result (λ reply. Makes local.old local.new heap.old heap.new (call.ReadWeak to (loc.Root root)) reply) }
    ensures err { OnErr result (Stays local.old local.new heap.old heap.new) }
    ensures cycle { KeepsCycle heap.old heap.new }
{
    let reply = heap.read_weak(local.thread(), WeakLoc::Root(root))?;
    receive(local, heap, to, &reply);
    Ok(reply)
}

/// The call `readweak` of a word.
fn read_word(
    local: &mut Local,
    heap: &mut Heap,
    to: Reg,
    from: Reg,
    at: u32,
) -> Result<Reply, NoMemory>
    requires { CanMake local.old heap.old (call.ReadWeak to (loc.Word from at)) }
    ensures ok { IfOk result (λ reply. Makes local.old local.new heap.old heap.new (call.ReadWeak to (loc.Word from at)) reply) }
    ensures err { OnErr result (Stays local.old local.new heap.old heap.new) }
    ensures cycle { KeepsCycle heap.old heap.new }
{
    let Some(id) = local.register(from) else {
        return Ok(Reply::Misuse(Misuse::NullBlock));
    };
    if local.is_own(id) {
        return Ok(read_own(local, heap, to, from, id, at));
    }
    let reply = heap.read_weak(local.thread(), WeakLoc::Word(id, at))?;
    receive(local, heap, to, &reply);
    Ok(reply)
}

/// The call `readweak` of a word of the thread's own block that `from` holds: null.
fn read_own(local: &mut Local, heap: &mut Heap, to: Reg, from: Reg, id: BlockId, at: u32) -> Reply
    requires can { CanMake local.old heap.old (call.ReadWeak to (loc.Word from at)) }
    requires holds { (part_in local.old).registers from ≡ Some id }
    requires own { is_in (part_in local.old) id ≡ true }
    ensures makes { Makes local.old local.new heap.old heap.new (call.ReadWeak to (loc.Word from at)) result }
    ensures cycle { KeepsCycle heap.old heap.new }
{
    if let Some(misuse) = layout_misuse(local.layout_of(id), at) {
        return Reply::Misuse(misuse);
    }
    let reply = Reply::Block(None);
    receive(local, heap, to, &reply);
    reply
}

/// The call `setweak`: the location shows what the register holds, which escapes with all that it leads to, and so does the
/// block whose word the location is. NullBlock, NoWord, WrongClass or ZoneFull, after which nothing has changed, and
/// NoMemory leaves all as it was. O(1) expected, O(words of the blocks that escape) expected, and O(locations) where a
/// table grows.
pub fn set_weak(
    alloc: Global,
    local: &mut Local,
    heap: &mut Heap,
    loc: Loc,
    from: Reg,
) -> Result<Reply, NoMemory>
    requires { CanMake local.old heap.old (call.SetWeak loc from) }
    ensures ok { IfOk result (λ reply. Makes local.old local.new heap.old heap.new (call.SetWeak loc from) reply) }
    ensures err { OnErr result (Stays local.old local.new heap.old heap.new) }
    ensures cycle { KeepsCycle heap.old heap.new }
{
    match loc {
        Loc::Root(root) => set_root(alloc, local, heap, root, from),
        Loc::Word(into, at) => set_word(alloc, local, heap, into, at, from),
    }
}

/// The call `setweak` of a weak root.
fn set_root(
    alloc: Global,
    local: &mut Local,
    heap: &mut Heap,
    root: WeakNo,
    from: Reg,
) -> Result<Reply, NoMemory>
    requires { CanMake local.old heap.old (call.SetWeak (loc.Root root) from) }
    ensures ok { IfOk result (λ reply. Makes local.old local.new heap.old heap.new (call.SetWeak (loc.Root root) from) reply) }
    ensures err { OnErr result (Stays local.old local.new heap.old heap.new) }
    ensures cycle { KeepsCycle heap.old heap.new }
{
    let value = &local.register(from);
    if !escape(alloc, local, heap, None, *value)? {
        return Ok(Reply::Misuse(Misuse::ZoneFull));
    }
    let Ok(reply) = heap.assign_weak(local.thread(), WeakLoc::Root(root), *value) else {
        unreachable!()
    };
    Ok(reply)
}

/// The call `setweak` of a word.
fn set_word(
    alloc: Global,
    local: &mut Local,
    heap: &mut Heap,
    into: Reg,
    at: u32,
    from: Reg,
) -> Result<Reply, NoMemory>
    requires { CanMake local.old heap.old (call.SetWeak (loc.Word into at) from) }
    ensures ok { IfOk result (λ reply. Makes local.old local.new heap.old heap.new (call.SetWeak (loc.Word into at) from) reply) }
    ensures err { OnErr result (Stays local.old local.new heap.old heap.new) }
    ensures cycle { KeepsCycle heap.old heap.new }
{
    let Some(id) = local.register(into) else {
        return Ok(Reply::Misuse(Misuse::NullBlock));
    };
    let id = &id;
    if let Some(misuse) = weak_misuse(local, heap, *id, at) {
        return Ok(Reply::Misuse(misuse));
    }
    show(alloc, local, heap, into, *id, at, from)
}

/// The call `setweak` of the block that `into` holds, where the place is that of a Weak word.
fn show(
    alloc: Global,
    local: &mut Local,
    heap: &mut Heap,
    into: Reg,
    id: BlockId,
    at: u32,
    from: Reg,
) -> Result<Reply, NoMemory>
    requires can { CanMake local.old heap.old (call.SetWeak (loc.Word into at) from) }
    requires holds { (part_in local.old).registers into ≡ Some id }
    requires right { IsWeakMisuse local.old heap.old id at None }
    ensures ok { IfOk result (λ reply. Makes local.old local.new heap.old heap.new (call.SetWeak (loc.Word into at) from) reply) }
    ensures err { OnErr result (Stays local.old local.new heap.old heap.new) }
    ensures cycle { KeepsCycle heap.old heap.new }
{
    let id = &id;
    let value = &local.register(from);
    if !escape(alloc, local, heap, Some(*id), *value)? {
        return Ok(Reply::Misuse(Misuse::ZoneFull));
    }
    let Ok(reply) = heap.assign_weak(local.thread(), WeakLoc::Word(*id, at), *value) else {
        unreachable!()
    };
    Ok(reply)
}

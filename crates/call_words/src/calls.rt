//! The calls with their arguments, one function for each call.
ghost use Rattle.std.specs.Prelude.{◌≡◌, ◌≤◌, ℕ};
ghost use Rattle.call_words.specs.Reading.Calls.{Reads, Takes, act_at};

use crate::argument_err::ArgumentErr;
use crate::keywords::CollectName;
use crate::memory::next_memory;
use crate::names::CallName;
use crate::pieces::{
    next_block, next_collect_name, next_key, next_location, next_place, next_register, next_root,
    next_wide_number,
};
use az_base::Mode;
use az_words::Words;
use std::alloc::Global;
use zone_model::{Act, Call};

#[tactic(auto, unfolding(crate::specs::Reading::Calls::act_at))]
fn new_block(alloc: Global, most_actions: usize, words: &mut Words) -> Result<Act, ArgumentErr>
    requires { most_actions ≤ 8 }
    ensures { Takes result words.new (act_at most_actions CallName.New words.old) }
{
    let to = next_register(words).ok_or(ArgumentErr::Wrong)?;
    let (layout, actions) = next_memory(alloc, most_actions, words)?;
    Ok(Act::Call(Call::New {
        to,
        layout,
        actions,
    }))
}

#[tactic(auto, unfolding(crate::specs::Reading::Calls::act_at))]
fn load(words: &mut Words) -> Option<Act>
    ensures { (most : ℕ) → Reads result words.new (act_at most CallName.Load words.old) }
{
    let to = next_register(words)?;
    let from = next_register(words)?;
    let at = next_place(words)?;
    Some(Act::Call(Call::Load { to, from, at }))
}

#[tactic(auto, unfolding(crate::specs::Reading::Calls::act_at))]
fn store(words: &mut Words) -> Option<Act>
    ensures { (most : ℕ) → Reads result words.new (act_at most CallName.Store words.old) }
{
    let into = next_register(words)?;
    let at = next_place(words)?;
    let from = next_register(words)?;
    Some(Act::Call(Call::Store { into, at, from }))
}

#[tactic(auto, unfolding(crate::specs::Reading::Calls::act_at))]
fn put(words: &mut Words) -> Option<Act>
    ensures { (most : ℕ) → Reads result words.new (act_at most CallName.Put words.old) }
{
    let into = next_register(words)?;
    let at = next_place(words)?;
    let number = next_wide_number(0, u64::MAX, words)?;
    Some(Act::Call(Call::Put { into, at, number }))
}

#[tactic(auto, unfolding(crate::specs::Reading::Calls::act_at))]
fn get(words: &mut Words) -> Option<Act>
    ensures { (most : ℕ) → Reads result words.new (act_at most CallName.Get words.old) }
{
    let from = next_register(words)?;
    let at = next_place(words)?;
    Some(Act::Call(Call::Get { from, at }))
}

#[tactic(auto, unfolding(crate::specs::Reading::Calls::act_at))]
fn copy(words: &mut Words) -> Option<Act>
    ensures { (most : ℕ) → Reads result words.new (act_at most CallName.Copy words.old) }
{
    let to = next_register(words)?;
    let from = next_register(words)?;
    Some(Act::Call(Call::Copy { to, from }))
}

#[tactic(auto, unfolding(crate::specs::Reading::Calls::act_at))]
fn drop_reg(words: &mut Words) -> Option<Act>
    ensures { (most : ℕ) → Reads result words.new (act_at most CallName.Drop words.old) }
{
    let reg = next_register(words)?;
    Some(Act::Call(Call::DropReg { reg }))
}

#[tactic(auto, unfolding(crate::specs::Reading::Calls::act_at))]
fn collect(words: &mut Words) -> Option<Act>
    ensures { (most : ℕ) → Reads result words.new (act_at most CallName.Collect words.old) }
{
    match next_collect_name(words)? {
        CollectName::Local => Some(Act::Call(Call::CollectLocal)),
        CollectName::Young => Some(Act::Collect(Mode::Young)),
        CollectName::Full => Some(Act::Collect(Mode::Full)),
    }
}

#[tactic(auto, unfolding(crate::specs::Reading::Calls::act_at))]
fn set_root(words: &mut Words) -> Option<Act>
    ensures { (most : ℕ) → Reads result words.new (act_at most CallName.SetRoot words.old) }
{
    let root = next_root(words)?;
    let from = next_register(words)?;
    Some(Act::Call(Call::SetRoot { root, from }))
}

#[tactic(auto, unfolding(crate::specs::Reading::Calls::act_at))]
fn get_root(words: &mut Words) -> Option<Act>
    ensures { (most : ℕ) → Reads result words.new (act_at most CallName.GetRoot words.old) }
{
    let to = next_register(words)?;
    let root = next_root(words)?;
    Some(Act::Call(Call::GetRoot { to, root }))
}

#[tactic(auto, unfolding(crate::specs::Reading::Calls::act_at))]
fn retain(words: &mut Words) -> Option<Act>
    ensures { (most : ℕ) → Reads result words.new (act_at most CallName.Retain words.old) }
{
    let reg = next_register(words)?;
    Some(Act::Call(Call::Retain { reg }))
}

#[tactic(auto, unfolding(crate::specs::Reading::Calls::act_at))]
fn release(words: &mut Words) -> Option<Act>
    ensures { (most : ℕ) → Reads result words.new (act_at most CallName.Release words.old) }
{
    let reg = next_register(words)?;
    Some(Act::Call(Call::Release { reg }))
}

#[tactic(auto, unfolding(crate::specs::Reading::Calls::act_at))]
fn count(words: &mut Words) -> Option<Act>
    ensures { (most : ℕ) → Reads result words.new (act_at most CallName.Count words.old) }
{
    let reg = next_register(words)?;
    Some(Act::Call(Call::Count { reg }))
}

#[tactic(auto, unfolding(crate::specs::Reading::Calls::act_at))]
fn take(words: &mut Words) -> Option<Act>
    ensures { (most : ℕ) → Reads result words.new (act_at most CallName.Take words.old) }
{
    let to = next_register(words)?;
    let id = next_block(words)?;
    Some(Act::Call(Call::Take { to, id }))
}

#[tactic(auto, unfolding(crate::specs::Reading::Calls::act_at))]
fn set_assoc(words: &mut Words) -> Option<Act>
    ensures { (most : ℕ) → Reads result words.new (act_at most CallName.SetAssoc words.old) }
{
    let object = next_register(words)?;
    let key = next_key(words)?;
    let value = next_register(words)?;
    Some(Act::Call(Call::SetAssoc { object, key, value }))
}

#[tactic(auto, unfolding(crate::specs::Reading::Calls::act_at))]
fn get_assoc(words: &mut Words) -> Option<Act>
    ensures { (most : ℕ) → Reads result words.new (act_at most CallName.GetAssoc words.old) }
{
    let to = next_register(words)?;
    let object = next_register(words)?;
    let key = next_key(words)?;
    Some(Act::Call(Call::GetAssoc { to, object, key }))
}

#[tactic(auto, unfolding(crate::specs::Reading::Calls::act_at))]
fn set_weak(words: &mut Words) -> Option<Act>
    ensures { (most : ℕ) → Reads result words.new (act_at most CallName.SetWeak words.old) }
{
    let loc = next_location(words)?;
    let from = next_register(words)?;
    Some(Act::Call(Call::SetWeak { loc, from }))
}

#[tactic(auto, unfolding(crate::specs::Reading::Calls::act_at))]
fn read_weak(words: &mut Words) -> Option<Act>
    ensures { (most : ℕ) → Reads result words.new (act_at most CallName.ReadWeak words.old) }
{
    let to = next_register(words)?;
    let loc = next_location(words)?;
    Some(Act::Call(Call::ReadWeak { to, loc }))
}

/// What a call of this name asks for, by its arguments, which are taken off the words that are left. An object may have
/// at most `most_actions` actions: where a further word would begin one, it is left. O(bytes of the arguments).
pub fn arguments(
    alloc: Global,
    name: CallName,
    most_actions: usize,
    words: &mut Words,
) -> Result<Act, ArgumentErr>
    requires { most_actions ≤ 8 }
    ensures { Takes result words.new (act_at most_actions name words.old) }
{
    match name {
        CallName::New => new_block(alloc, most_actions, words),
        CallName::Load => load(words).ok_or(ArgumentErr::Wrong),
        CallName::Store => store(words).ok_or(ArgumentErr::Wrong),
        CallName::Put => put(words).ok_or(ArgumentErr::Wrong),
        CallName::Get => get(words).ok_or(ArgumentErr::Wrong),
        CallName::Copy => copy(words).ok_or(ArgumentErr::Wrong),
        CallName::Drop => drop_reg(words).ok_or(ArgumentErr::Wrong),
        CallName::Collect => collect(words).ok_or(ArgumentErr::Wrong),
        CallName::SetRoot => set_root(words).ok_or(ArgumentErr::Wrong),
        CallName::GetRoot => get_root(words).ok_or(ArgumentErr::Wrong),
        CallName::Retain => retain(words).ok_or(ArgumentErr::Wrong),
        CallName::Release => release(words).ok_or(ArgumentErr::Wrong),
        CallName::Count => count(words).ok_or(ArgumentErr::Wrong),
        CallName::Take => take(words).ok_or(ArgumentErr::Wrong),
        CallName::SetAssoc => set_assoc(words).ok_or(ArgumentErr::Wrong),
        CallName::GetAssoc => get_assoc(words).ok_or(ArgumentErr::Wrong),
        CallName::SetWeak => set_weak(words).ok_or(ArgumentErr::Wrong),
        CallName::ReadWeak => read_weak(words).ok_or(ArgumentErr::Wrong),
        CallName::Stats => Ok(Act::Call(Call::Stats)),
    }
}

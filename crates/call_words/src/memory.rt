//! Layouts, and the actions of objects.
ghost use Rattle.std.specs.Prelude.{◌≡◌, ◌≤◌, length};
ghost use Rattle.call_words.specs.Reading.Words.{object_of};
ghost use Rattle.call_words.specs.Reading.Calls.{Reads, Gives, Takes, next_as, action_by, next_action, actions_at, memory_by, memory_at};

use crate::argument_err::ArgumentErr;
use crate::keywords::{LayoutName, Verb, action_verb};
use crate::pieces::{next_layout_name, next_number, next_place, next_root};
use az_base::Action;
use az_words::Words;
use block_layouts::{Layout, LayoutErr};
use std::alloc::Global;
use std::str;
use zone_model::ActionList;

/// The object that a word of letters says. O(bytes of the word).
#[tactic(auto, unfolding(crate::specs::Reading::Words::object_of))]
fn object(alloc: Global, word: &[u8]) -> Result<Layout, ArgumentErr>
    ensures { Gives result (object_of word.now) }
{
    let Ok(text) = str::from_utf8(word) else {
        return Err(ArgumentErr::Wrong);
    };
    match Layout::parse(alloc, text) {
        Ok(layout) => Ok(layout),
        Err(LayoutErr::NoMemory) => Err(ArgumentErr::NoMemory),
        Err(_) => Err(ArgumentErr::Wrong),
    }
}

#[tactic(auto, unfolding(crate::specs::Reading::Calls::next_as))]
fn next_object(alloc: Global, words: &mut Words) -> Result<Layout, ArgumentErr>
    ensures { Takes result words.new (next_as object_of words.old) }
{
    let word = words.next().ok_or(ArgumentErr::Wrong)?;
    object(alloc, word)
}

/// The words of an action, after its first one.
#[tactic(auto, unfolding(crate::specs::Reading::Calls::action_by))]
fn action(verb: Verb, words: &mut Words) -> Option<Action>
    ensures { Reads result words.new (action_by verb words.old) }
{
    let root = next_root(words)?;
    match verb {
        Verb::Keep => Some(Action::Keep(root)),
        Verb::Pass => {
            let at = next_place(words)?;
            Some(Action::Pass(root, at))
        }
    }
}

/// The next action, where a word begins one here.
#[tactic(auto, unfolding(crate::specs::Reading::Calls::next_action))]
fn next_action(words: &mut Words) -> Result<Option<Action>, ArgumentErr>
    ensures { Takes result words.new (next_action words.old) }
{
    let Some(word) = words.peek() else {
        return Ok(None);
    };
    let Some(verb) = action_verb(word) else {
        return Ok(None);
    };
    words.next();
    let action = action(verb, words).ok_or(ArgumentErr::Wrong)?;
    Ok(Some(action))
}

fn listed(actions: &[Action]) -> ActionList
    requires { length actions.now ≤ 8 }
    ensures { result ≡ actions.now }
{
    match ActionList::from_slice(actions) {
        Some(list) => list,
        None => unreachable!(),
    }
}

/// The actions that follow, up to so many.
fn next_actions(alloc: Global, most: usize, words: &mut Words) -> Result<ActionList, ArgumentErr>
    requires { most ≤ 8 }
    ensures { Takes result words.new (actions_at most words.old) }
{
    let mut actions = Vec::new(alloc);
    for used in 0..most {
        match next_action(words)? {
            Some(action) => actions.push(action)?,
            None => return Ok(listed(&actions)),
        }
    }
    Ok(listed(&actions))
}

/// The rest of a layout of this kind, with its actions.
#[tactic(auto, unfolding(crate::specs::Reading::Calls::memory_by))]
fn memory(
    alloc: Global,
    most: usize,
    name: LayoutName,
    words: &mut Words,
) -> Result<(Layout, ActionList), ArgumentErr>
    requires { most ≤ 8 }
    ensures { Takes result words.new (memory_by most name words.old) }
{
    match name {
        LayoutName::Scanned => {
            let count = next_number(0, 4096, words).ok_or(ArgumentErr::Wrong)?;
            match Layout::scanned(count) {
                Ok(layout) => Ok((layout, ActionList::new())),
                Err(_) => unreachable!(),
            }
        }
        LayoutName::Unscanned => {
            let count = next_number(0, 4096, words).ok_or(ArgumentErr::Wrong)?;
            match Layout::unscanned(count) {
                Ok(layout) => Ok((layout, ActionList::new())),
                Err(_) => unreachable!(),
            }
        }
        LayoutName::Object => {
            let layout = next_object(alloc, words)?;
            let actions = next_actions(alloc, most, words)?;
            Ok((layout, actions))
        }
    }
}

/// A layout, and up to so many actions of an object.
#[tactic(auto, unfolding(crate::specs::Reading::Calls::memory_at))]
pub fn next_memory(
    alloc: Global,
    most: usize,
    words: &mut Words,
) -> Result<(Layout, ActionList), ArgumentErr>
    requires { most ≤ 8 }
    ensures { Takes result words.new (memory_at most words.old) }
{
    let name = next_layout_name(words).ok_or(ArgumentErr::Wrong)?;
    memory(alloc, most, name, words)
}

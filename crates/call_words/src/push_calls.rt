//! Writers of calls with their arguments, each word behind a space.
ghost use Rattle.std.specs.Prelude.{◌≡◌, All, OnOk, string_bytes};
ghost use Rattle.std.specs.List.{flat_map};
ghost use Rattle.az_base.specs.Texts.{mode_text};
ghost use Rattle.call_words.specs.Spacing.{Adds, spread};
ghost use Rattle.call_words.specs.Words.{letter_text, layout_words, action_words, actions_words, loc_words, words_of_call, act_words};
ghost use Rattle.call_words.specs.Ranges.{IsLayout, IsAction, IsLoc, IsCall};

use crate::push_pieces::{
    push_id, push_key, push_number, push_place, push_register, push_root, push_weak_root, push_word,
};
use az_base::{Action, Class, Mode};
use block_layouts::{Layout, Shape};
use std::alloc::AllocError;
use zone_model::{Act, Call, Loc};

fn letter(class: Class) -> &'static str
    ensures { result.now ≡ letter_text class }
{
    match class {
        Class::Strong => "S",
        Class::Weak => "W",
        Class::Plain => "P",
    }
}

fn push_letters(out: &mut String, classes: &[Class]) -> Result<(), AllocError>
    ensures { Adds (string_bytes out.old) (string_bytes out.new) result (flat_map letter_text classes.now) }
{
    for class in classes {
        out.push_str(letter(*class))?;
    }
    Ok(())
}

#[tactic(auto, unfolding(crate::specs::Words::layout_words))]
fn push_layout(out: &mut String, layout: &Layout) -> Result<(), AllocError>
    ensures adds { Adds (string_bytes out.old) (string_bytes out.new) result (spread (layout_words layout.now)) }
    ensures range { OnOk result (IsLayout layout.now) }
{
    match layout.shape() {
        Shape::Scanned(words) => {
            out.push_str(" scanned")?;
            push_place(out, *words)
        }
        Shape::Unscanned(words) => {
            out.push_str(" unscanned")?;
            push_place(out, *words)
        }
        Shape::Object(classes) => {
            out.push_str(" object ")?;
            push_letters(out, classes.as_slice())
        }
    }
}

#[tactic(auto, unfolding(crate::specs::Words::action_words))]
fn push_action(out: &mut String, action: &Action) -> Result<(), AllocError>
    ensures adds { Adds (string_bytes out.old) (string_bytes out.new) result (spread (action_words action.now)) }
    ensures range { OnOk result (IsAction action.now) }
{
    match action {
        Action::Keep(root) => {
            out.push_str(" keep")?;
            push_root(out, *root)
        }
        Action::Pass(root, at) => {
            out.push_str(" pass")?;
            push_root(out, *root)?;
            push_place(out, *at)
        }
    }
}

fn push_actions(out: &mut String, actions: &[Action]) -> Result<(), AllocError>
    ensures adds { Adds (string_bytes out.old) (string_bytes out.new) result (spread (actions_words actions.now)) }
    ensures range { OnOk result (All IsAction actions.now) }
{
    for action in actions {
        push_action(out, action)?;
    }
    Ok(())
}

#[tactic(auto, unfolding(crate::specs::Words::loc_words))]
fn push_loc(out: &mut String, loc: Loc) -> Result<(), AllocError>
    ensures adds { Adds (string_bytes out.old) (string_bytes out.new) result (spread (loc_words loc)) }
    ensures range { OnOk result (IsLoc loc) }
{
    match loc {
        Loc::Root(root) => push_weak_root(out, root),
        Loc::Word(reg, at) => {
            push_register(out, reg)?;
            push_place(out, at)
        }
    }
}

#[tactic(auto, unfolding(az_base::specs::Texts::mode_text))]
fn mode_word(mode: Mode) -> &'static str
    ensures { result.now ≡ mode_text mode }
{
    match mode {
        Mode::Young => "young",
        Mode::Full => "full",
    }
}

/// Adds a call with its arguments, each word behind a space.
#[tactic(auto, unfolding(crate::specs::Words::words_of_call))]
pub fn push_call(out: &mut String, call: &Call) -> Result<(), AllocError>
    ensures adds { Adds (string_bytes out.old) (string_bytes out.new) result (spread (words_of_call call.now)) }
    ensures range { OnOk result (IsCall call.now) }
{
    match call {
        Call::New {
            to,
            layout,
            actions,
        } => {
            out.push_str(" new")?;
            push_register(out, *to)?;
            push_layout(out, layout)?;
            push_actions(out, actions.as_slice())
        }
        Call::Load { to, from, at } => {
            out.push_str(" load")?;
            push_register(out, *to)?;
            push_register(out, *from)?;
            push_place(out, *at)
        }
        Call::Store { into, at, from } => {
            out.push_str(" store")?;
            push_register(out, *into)?;
            push_place(out, *at)?;
            push_register(out, *from)
        }
        Call::Put { into, at, number } => {
            out.push_str(" put")?;
            push_register(out, *into)?;
            push_place(out, *at)?;
            push_number(out, *number)
        }
        Call::Get { from, at } => {
            out.push_str(" get")?;
            push_register(out, *from)?;
            push_place(out, *at)
        }
        Call::Copy { to, from } => {
            out.push_str(" copy")?;
            push_register(out, *to)?;
            push_register(out, *from)
        }
        Call::DropReg { reg } => {
            out.push_str(" drop")?;
            push_register(out, *reg)
        }
        Call::CollectLocal => out.push_str(" collect local"),
        Call::SetRoot { root, from } => {
            out.push_str(" setroot")?;
            push_root(out, *root)?;
            push_register(out, *from)
        }
        Call::GetRoot { to, root } => {
            out.push_str(" getroot")?;
            push_register(out, *to)?;
            push_root(out, *root)
        }
        Call::Retain { reg } => {
            out.push_str(" retain")?;
            push_register(out, *reg)
        }
        Call::Release { reg } => {
            out.push_str(" release")?;
            push_register(out, *reg)
        }
        Call::Count { reg } => {
            out.push_str(" count")?;
            push_register(out, *reg)
        }
        Call::Take { to, id } => {
            out.push_str(" take")?;
            push_register(out, *to)?;
            push_id(out, *id)
        }
        Call::SetAssoc { object, key, value } => {
            out.push_str(" setassoc")?;
            push_register(out, *object)?;
            push_key(out, *key)?;
            push_register(out, *value)
        }
        Call::GetAssoc { to, object, key } => {
            out.push_str(" getassoc")?;
            push_register(out, *to)?;
            push_register(out, *object)?;
            push_key(out, *key)
        }
        Call::SetWeak { loc, from } => {
            out.push_str(" setweak")?;
            push_loc(out, *loc)?;
            push_register(out, *from)
        }
        Call::ReadWeak { to, loc } => {
            out.push_str(" readweak")?;
            push_register(out, *to)?;
            push_loc(out, *loc)
        }
        Call::Stats => out.push_str(" stats"),
        Call::Begin { mode } => {
            out.push_str(" begin")?;
            push_word(out, mode_word(*mode))
        }
        Call::Condemn => out.push_str(" condemn"),
        Call::Finalise => out.push_str(" finalise"),
        Call::Reclaim => out.push_str(" reclaim"),
        Call::Leave => out.push_str(" leave"),
    }
}

/// Adds what a line of a script asks for, each word behind a space. O(bytes added).
#[tactic(auto, unfolding(crate::specs::Words::act_words))]
pub fn push_act(out: &mut String, act: &Act) -> Result<(), AllocError>
    ensures { Adds (string_bytes out.old) (string_bytes out.new) result (spread (act_words act.now)) }
{
    match act {
        Act::Call(call) => push_call(out, call),
        Act::Collect(mode) => {
            out.push_str(" collect")?;
            push_word(out, mode_word(*mode))
        }
    }
}

//! What the words of a line say.
//!
//! Each reader takes its words off those that are left, and looks no closer at them than it must to tell what they say.
ghost use Rattle.std.specs.Prelude.{◌≡◌, ◌≤◌};
ghost use Rattle.zone_model.specs.Bare.{bare_reply, bare_entry};
ghost use Rattle.call_words.specs.Reading.Calls.{Reads, next_as};
ghost use Rattle.call_words.specs.Options.{least};
ghost use Rattle.history_text.specs.Lines.{most, bare_line};
ghost use Rattle.history_text.specs.Names.{mode_of};
ghost use Rattle.history_text.specs.Reading.{Gives, Takes, step_by, call_by, call_at, fixed_at, named_at, stats_at, ids_at, list_at, settled_by, misuse_of, reply_by, plain_reply, reply_of, entry_of, setting_to, setting_of, end_of, line_of};

use crate::lines::{HistoryLine, Setting};
use crate::names::{ReplyName, StepName, mode_name, reply_name, step_name};
use az_base::{Misuse, Mode};
use az_words::{Words, is_word, number};
use call_words::{
    ArgumentErr, CallName, OptionName, arguments, call_name, next_block, next_option, next_thread,
    next_wide_number,
};
use std::alloc::Global;
use zone_model::{Act, Call, Entry, IdList, Reply, Stats};

/// The most actions of an object.
const MOST_ACTIONS: usize = 8;

#[tactic(auto, unfolding(call_words::specs::Reading::Calls::next_as))]
fn next_mode(words: &mut Words) -> Option<Mode>
    ensures { Reads result words.new (next_as mode_of words.old) }
{
    let word = words.next()?;
    mode_name(word)
}

#[tactic(auto, unfolding(crate::specs::Reading::step_by))]
fn step(name: StepName, words: &mut Words) -> Option<Call>
    ensures { Reads result words.new (step_by name words.old) }
{
    match name {
        StepName::Begin => {
            let mode = next_mode(words)?;
            Some(Call::Begin { mode })
        }
        StepName::Condemn => Some(Call::Condemn),
        StepName::Finalise => Some(Call::Finalise),
        StepName::Reclaim => Some(Call::Reclaim),
        StepName::Leave => Some(Call::Leave),
    }
}

#[tactic(auto, unfolding(crate::specs::Reading::call_by))]
fn table_call(alloc: Global, name: CallName, words: &mut Words) -> Result<Call, ArgumentErr>
    ensures { Takes (λ call. call) result words.new (call_by name words.old) }
{
    match arguments(alloc, name, MOST_ACTIONS, words)? {
        Act::Call(call) => Ok(call),
        Act::Collect(_) => Err(ArgumentErr::Wrong),
    }
}

/// A call with its arguments.
#[tactic(auto, unfolding(crate::specs::Reading::call_at))]
fn next_call(alloc: Global, words: &mut Words) -> Result<Call, ArgumentErr>
    ensures { Takes (λ call. call) result words.new (call_at words.old) }
{
    let word = words.next().ok_or(ArgumentErr::Wrong)?;
    if let Some(name) = call_name(word) {
        return table_call(alloc, name, words);
    }
    let name = step_name(word).ok_or(ArgumentErr::Wrong)?;
    step(name, words).ok_or(ArgumentErr::Wrong)
}

/// Takes a fixed word.
#[tactic(auto, unfolding(crate::specs::Reading::fixed_at))]
fn next_fixed(text: &[u8], words: &mut Words) -> Option<()>
    ensures { Reads result words.new (fixed_at text.now words.old) }
{
    let word = words.next()?;
    if is_word(word, text) { Some(()) } else { None }
}

/// A number behind its name.
#[tactic(auto, unfolding(crate::specs::Reading::named_at))]
fn next_named(name: &[u8], words: &mut Words) -> Option<u64>
    ensures { Reads result words.new (named_at name.now words.old) }
{
    next_fixed(name, words)?;
    next_wide_number(0, u64::MAX, words)
}

/// Statistics, behind the word `blocks`.
#[tactic(auto, unfolding(crate::specs::Reading::stats_at))]
fn next_stats(words: &mut Words) -> Option<Stats>
    ensures { Reads result words.new (stats_at words.old) }
{
    let blocks = next_wide_number(0, u64::MAX, words)?;
    let quanta = next_named(b"quanta", words)?;
    let retained = next_named(b"retained", words)?;
    let weak = next_named(b"weak", words)?;
    let assocs = next_named(b"assocs", words)?;
    Some(Stats {
        blocks,
        quanta,
        retained,
        weak,
        assocs,
    })
}

/// Ids up to the end, or to the word `kept`.
fn next_ids(alloc: Global, words: &mut Words) -> Result<IdList, ArgumentErr>
    ensures { Takes (λ ids. ids.list) result words.new (ids_at words.old) }
{
    let mut ids = Vec::new(alloc);
    'ids: while let Some(word) = words.peek() {
        if is_word(word, b"kept") {
            return Ok(IdList::from_vec(ids));
        }
        let Some(id) = next_block(words) else {
            return Err(ArgumentErr::Wrong);
        };
        ids.push(id)?;
    }
    Ok(IdList::from_vec(ids))
}

/// The word `none`, or ids.
#[tactic(auto, unfolding(crate::specs::Reading::list_at))]
fn next_list(alloc: Global, words: &mut Words) -> Result<IdList, ArgumentErr>
    ensures { Takes (λ ids. ids.list) result words.new (list_at words.old) }
{
    let word = words.peek().ok_or(ArgumentErr::Wrong)?;
    if is_word(word, b"none") {
        words.next();
        return Ok(IdList::from_vec(Vec::new(alloc)));
    }
    next_ids(alloc, words)
}

#[tactic(auto, unfolding(crate::specs::Reading::settled_by))]
fn settled(alloc: Global, gone: IdList, words: &mut Words) -> Result<Reply, ArgumentErr>
    ensures { Gives bare_reply result (settled_by gone.list words.old) }
{
    if words.next().is_none() {
        return Ok(Reply::Reclaimed(gone));
    }
    let kept = next_list(alloc, words)?;
    Ok(Reply::Settled {
        reclaimed: gone,
        kept,
    })
}

#[tactic(auto, unfolding(crate::specs::Reading::misuse_of))]
fn misuse(number: u64) -> Option<Misuse>
    ensures { result ≡ misuse_of number }
{
    match number {
        1 => Some(Misuse::NullBlock),
        2 => Some(Misuse::NoWord),
        3 => Some(Misuse::WrongClass),
        4 => Some(Misuse::OverRelease),
        5 => Some(Misuse::CountFull),
        6 => Some(Misuse::SerialsUsed),
        7 => Some(Misuse::ZoneFull),
        8 => Some(Misuse::NotHeld),
        _ => None,
    }
}

/// The rest of a reply of this name.
#[tactic(auto, unfolding(crate::specs::Reading::reply_by))]
fn named_reply(alloc: Global, name: ReplyName, words: &mut Words) -> Result<Reply, ArgumentErr>
    ensures { Gives bare_reply result (reply_by name words.old) }
{
    match name {
        ReplyName::Done => Ok(Reply::Done),
        ReplyName::Null => Ok(Reply::Block(None)),
        ReplyName::Busy => Ok(Reply::Busy),
        ReplyName::Begun => Ok(Reply::Begun),
        ReplyName::Condemned => {
            let ids = next_list(alloc, words)?;
            Ok(Reply::Condemned(ids))
        }
        ReplyName::Finalised => {
            let id = next_block(words).ok_or(ArgumentErr::Wrong)?;
            Ok(Reply::Finalised(id))
        }
        ReplyName::Reclaimed => {
            let gone = next_list(alloc, words)?;
            settled(alloc, gone, words)
        }
        ReplyName::Stats => {
            let stats = next_stats(words).ok_or(ArgumentErr::Wrong)?;
            Ok(Reply::Stats(stats))
        }
        ReplyName::Misuse => {
            let number = next_wide_number(0, u64::MAX, words).ok_or(ArgumentErr::Wrong)?;
            let misuse = misuse(number).ok_or(ArgumentErr::Wrong)?;
            Ok(Reply::Misuse(misuse))
        }
    }
}

#[tactic(auto, unfolding(crate::specs::Reading::plain_reply))]
fn plain_reply(number: Option<u64>, words: &mut Words) -> Result<Reply, ArgumentErr>
    ensures { Gives bare_reply result (plain_reply number words.old) }
{
    match number {
        Some(number) => Ok(Reply::Number(number)),
        None => {
            let id = next_block(words).ok_or(ArgumentErr::Wrong)?;
            Ok(Reply::Block(Some(id)))
        }
    }
}

/// A reply.
#[tactic(auto, unfolding(crate::specs::Reading::reply_of))]
fn reply(alloc: Global, words: &mut Words) -> Result<Reply, ArgumentErr>
    ensures { Gives bare_reply result (reply_of words.old) }
{
    let word = words.peek().ok_or(ArgumentErr::Wrong)?;
    match reply_name(word) {
        Some(name) => {
            words.next();
            named_reply(alloc, name, words)
        }
        None => plain_reply(number(0, u64::MAX, word), words),
    }
}

#[tactic(auto, unfolding(crate::specs::Reading::entry_of))]
fn entry(alloc: Global, words: &mut Words) -> Result<Entry, ArgumentErr>
    ensures { Gives bare_entry result (entry_of words.old) }
{
    let thread = next_thread(words).ok_or(ArgumentErr::Wrong)?;
    let call = next_call(alloc, words)?;
    next_fixed(b"=", words).ok_or(ArgumentErr::Wrong)?;
    let reply = reply(alloc, words)?;
    Ok(Entry {
        thread,
        call,
        reply,
    })
}

fn least(name: OptionName) -> u64
    ensures { result ≡ least name }
{
    match name {
        OptionName::Local => 0,
        OptionName::Heap | OptionName::Serials | OptionName::Counts | OptionName::Pending => 1,
    }
}

fn most(name: OptionName) -> u64
    ensures { result ≡ most name }
{
    match name {
        OptionName::Heap => 1_048_575,
        OptionName::Local => 65_535,
        OptionName::Serials => 4_294_967_295,
        OptionName::Counts => 4_294_967_294,
        OptionName::Pending => 4_095,
    }
}

fn setting_to(name: OptionName, number: u64) -> Option<Setting>
    ensures { result ≡ setting_to name number }
{
    if least(name) <= number && number <= most(name) {
        Some(Setting { name, number })
    } else {
        None
    }
}

/// An option and its number, behind the word `option`.
#[tactic(auto, unfolding(crate::specs::Reading::setting_of))]
fn setting(words: &mut Words) -> Option<Setting>
    ensures { result ≡ setting_of words.old }
{
    let name = next_option(words)?;
    let number = next_wide_number(0, u64::MAX, words)?;
    setting_to(name, number)
}

/// The last line, behind the word `end`.
#[tactic(auto, unfolding(crate::specs::Reading::end_of))]
fn end(words: &mut Words) -> Option<(u64, Stats)>
    ensures { result ≡ end_of words.old }
{
    let count = next_named(b"entries", words)?;
    next_fixed(b"blocks", words)?;
    let stats = next_stats(words)?;
    Some((count, stats))
}

/// What the words of a line say.
#[tactic(auto, unfolding(crate::specs::Reading::line_of))]
pub fn line(alloc: Global, words: &mut Words) -> Result<HistoryLine, ArgumentErr>
    ensures { Gives bare_line result (line_of words.old) }
{
    let word = words.peek().ok_or(ArgumentErr::Wrong)?;
    if is_word(word, b"option") {
        words.next();
        let setting = setting(words).ok_or(ArgumentErr::Wrong)?;
        return Ok(HistoryLine::Setting(setting));
    }
    if is_word(word, b"end") {
        words.next();
        let (count, stats) = end(words).ok_or(ArgumentErr::Wrong)?;
        return Ok(HistoryLine::End(count, stats));
    }
    let entry = entry(alloc, words)?;
    Ok(HistoryLine::Entry(entry))
}

//! Replies as words.
ghost use Rattle.std.specs.Prelude.{◌≡◌, ◌∷◌, All, OnOk, codes, map, string_bytes};
ghost use Rattle.az_base.specs.Texts.{id_text, misuse_name};
ghost use Rattle.call_words.specs.Spacing.{Adds, spread};
ghost use Rattle.call_words.specs.Ranges.{IsId};
ghost use Rattle.history_text.specs.Words.{ids_words, stats_words, reply_words};
ghost use Rattle.history_text.specs.Ranges.{AreIds, AreStats, IsReply};

use az_base::{BlockId, Misuse};
use call_words::{push_id, push_named, push_number, push_word};
use std::alloc::AllocError;
use zone_model::{Reply, Stats};

fn push_more_ids(out: &mut String, ids: &[BlockId]) -> Result<(), AllocError>
    ensures adds { Adds (string_bytes out.old) (string_bytes out.new) result (spread (map id_text ids.now)) }
    ensures range { OnOk result (AreIds ids.now) }
{
    for id in ids {
        push_id(out, *id)?;
    }
    Ok(())
}

#[tactic(auto, unfolding(crate::specs::Words::ids_words))]
fn push_ids(out: &mut String, ids: &[BlockId]) -> Result<(), AllocError>
    ensures adds { Adds (string_bytes out.old) (string_bytes out.new) result (spread (ids_words ids.now)) }
    ensures range { OnOk result (AreIds ids.now) }
{
    if ids.is_empty() {
        return out.push_str(" none");
    }
    push_more_ids(out, ids)
}

/// Adds the five numbers, each behind its name.
#[tactic(auto, unfolding(crate::specs::Words::stats_words))]
pub fn push_stats(out: &mut String, stats: &Stats) -> Result<(), AllocError>
    ensures adds { Adds (string_bytes out.old) (string_bytes out.new) result (spread (stats_words stats.now)) }
    ensures range { OnOk result (AreStats stats.now) }
{
    push_named(out, "blocks", stats.blocks)?;
    push_named(out, "quanta", stats.quanta)?;
    push_named(out, "retained", stats.retained)?;
    push_named(out, "weak", stats.weak)?;
    push_named(out, "assocs", stats.assocs)
}

#[tactic(auto, unfolding(az_base::specs::Texts::misuse_name))]
fn misuse_word(misuse: Misuse) -> &'static str
    ensures { result.now ≡ misuse_name misuse }
{
    match misuse {
        Misuse::NullBlock => "NullBlock",
        Misuse::NoWord => "NoWord",
        Misuse::WrongClass => "WrongClass",
        Misuse::OverRelease => "OverRelease",
        Misuse::CountFull => "CountFull",
        Misuse::SerialsUsed => "SerialsUsed",
        Misuse::ZoneFull => "ZoneFull",
        Misuse::NotHeld => "NotHeld",
    }
}

/// Adds a reply, each word behind a space.
#[tactic(auto, unfolding(crate::specs::Words::reply_words))]
fn push_reply(out: &mut String, reply: &Reply) -> Result<(), AllocError>
    ensures adds { Adds (string_bytes out.old) (string_bytes out.new) result (spread (reply_words reply.now)) }
    ensures range { OnOk result (IsReply reply.now) }
{
    match reply {
        Reply::Done => out.push_str(" ok"),
        Reply::Block(None) => out.push_str(" null"),
        Reply::Block(Some(id)) => push_id(out, *id),
        Reply::Number(number) => push_number(out, *number),
        Reply::Busy => out.push_str(" busy"),
        Reply::Begun => out.push_str(" begun"),
        Reply::Condemned(ids) => {
            out.push_str(" condemned")?;
            push_ids(out, ids.as_slice())
        }
        Reply::Finalised(id) => {
            out.push_str(" finalised")?;
            push_id(out, *id)
        }
        Reply::Reclaimed(ids) => {
            out.push_str(" reclaimed")?;
            push_ids(out, ids.as_slice())
        }
        Reply::Settled { reclaimed, kept } => {
            out.push_str(" reclaimed")?;
            push_ids(out, reclaimed.as_slice())?;
            out.push_str(" kept")?;
            push_ids(out, kept.as_slice())
        }
        Reply::Stats(stats) => push_stats(out, stats),
        Reply::Misuse(misuse) => {
            out.push_str(" misuse")?;
            push_number(out, u64::from(misuse.number()))?;
            push_word(out, misuse_word(*misuse))
        }
    }
}

/// Adds the equals sign and a reply, each word behind a space. What most calls answer is added in one piece.
#[tactic(auto, unfolding(crate::specs::Words::reply_words))]
pub fn push_answer(out: &mut String, reply: &Reply) -> Result<(), AllocError>
    ensures adds { Adds (string_bytes out.old) (string_bytes out.new) result (spread (codes "=" ∷ reply_words reply.now)) }
    ensures range { OnOk result (IsReply reply.now) }
{
    match reply {
        Reply::Done => out.push_str(" = ok"),
        _ => {
            out.push_str(" =")?;
            push_reply(out, reply)
        }
    }
}

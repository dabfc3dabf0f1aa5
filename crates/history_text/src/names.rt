//! The names of what histories have and scripts don't.
ghost use Rattle.std.specs.Prelude.{◌≡◌};
ghost use Rattle.history_text.specs.Names.{mode_of, step_of, reply_name_of};

use az_base::Mode;
use az_words::is_word;

/// A step of a collection, or the end of a thread.
#[derive(Clone, Copy)]
pub enum StepName {
    Begin,
    Condemn,
    Finalise,
    Reclaim,
    Leave,
}

/// The step that a word names; None exactly where it names none.
#[tactic(auto, unfolding(crate::specs::Names::step_of))]
pub fn step_name(word: &[u8]) -> Option<StepName>
    ensures { result ≡ step_of word.now }
{
    if is_word(word, b"begin") {
        Some(StepName::Begin)
    } else if is_word(word, b"condemn") {
        Some(StepName::Condemn)
    } else if is_word(word, b"finalise") {
        Some(StepName::Finalise)
    } else if is_word(word, b"reclaim") {
        Some(StepName::Reclaim)
    } else if is_word(word, b"leave") {
        Some(StepName::Leave)
    } else {
        None
    }
}

/// What a collection looks at, as a word names it; None exactly where it names none.
#[tactic(auto, unfolding(crate::specs::Names::mode_of, az_base::specs::Texts::mode_text))]
pub fn mode_name(word: &[u8]) -> Option<Mode>
    ensures { result ≡ mode_of word.now }
{
    if is_word(word, b"young") {
        Some(Mode::Young)
    } else if is_word(word, b"full") {
        Some(Mode::Full)
    } else {
        None
    }
}

/// A reply, as its first word says, where it is neither a number nor an id.
#[derive(Clone, Copy)]
pub enum ReplyName {
    Done,
    Null,
    Busy,
    Begun,
    Condemned,
    Finalised,
    Reclaimed,
    Stats,
    Misuse,
}

/// The reply that a word begins; None exactly where it is none of these words.
#[tactic(auto, unfolding(crate::specs::Names::reply_name_of))]
pub fn reply_name(word: &[u8]) -> Option<ReplyName>
    ensures { result ≡ reply_name_of word.now }
{
    if is_word(word, b"ok") {
        Some(ReplyName::Done)
    } else if is_word(word, b"null") {
        Some(ReplyName::Null)
    } else if is_word(word, b"busy") {
        Some(ReplyName::Busy)
    } else if is_word(word, b"begun") {
        Some(ReplyName::Begun)
    } else if is_word(word, b"condemned") {
        Some(ReplyName::Condemned)
    } else if is_word(word, b"finalised") {
        Some(ReplyName::Finalised)
    } else if is_word(word, b"reclaimed") {
        Some(ReplyName::Reclaimed)
    } else if is_word(word, b"blocks") {
        Some(ReplyName::Stats)
    } else if is_word(word, b"misuse") {
        Some(ReplyName::Misuse)
    } else {
        None
    }
}

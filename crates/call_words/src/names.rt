//! The names of calls.
ghost use Rattle.std.specs.Prelude.{◌≡◌};
ghost use Rattle.call_words.specs.Names.{name_of};

use az_words::is_word;

/// A call that scripts and histories both name.
#[derive(Clone, Copy)]
pub enum CallName {
    New,
    Load,
    Store,
    Put,
    Get,
    Copy,
    Drop,
    Collect,
    SetRoot,
    GetRoot,
    Retain,
    Release,
    Count,
    Take,
    SetAssoc,
    GetAssoc,
    SetWeak,
    ReadWeak,
    Stats,
}

/// The call that a word names; None exactly where it names none.
#[tactic(auto, unfolding(crate::specs::Names::name_of))]
pub fn call_name(word: &[u8]) -> Option<CallName>
    ensures { result ≡ name_of word.now }
{
    if is_word(word, b"new") {
        Some(CallName::New)
    } else if is_word(word, b"load") {
        Some(CallName::Load)
    } else if is_word(word, b"store") {
        Some(CallName::Store)
    } else if is_word(word, b"put") {
        Some(CallName::Put)
    } else if is_word(word, b"get") {
        Some(CallName::Get)
    } else if is_word(word, b"copy") {
        Some(CallName::Copy)
    } else if is_word(word, b"drop") {
        Some(CallName::Drop)
    } else if is_word(word, b"collect") {
        Some(CallName::Collect)
    } else if is_word(word, b"setroot") {
        Some(CallName::SetRoot)
    } else if is_word(word, b"getroot") {
        Some(CallName::GetRoot)
    } else if is_word(word, b"retain") {
        Some(CallName::Retain)
    } else if is_word(word, b"release") {
        Some(CallName::Release)
    } else if is_word(word, b"count") {
        Some(CallName::Count)
    } else if is_word(word, b"take") {
        Some(CallName::Take)
    } else if is_word(word, b"setassoc") {
        Some(CallName::SetAssoc)
    } else if is_word(word, b"getassoc") {
        Some(CallName::GetAssoc)
    } else if is_word(word, b"setweak") {
        Some(CallName::SetWeak)
    } else if is_word(word, b"readweak") {
        Some(CallName::ReadWeak)
    } else if is_word(word, b"stats") {
        Some(CallName::Stats)
    } else {
        None
    }
}

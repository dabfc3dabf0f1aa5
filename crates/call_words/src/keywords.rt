//! The words that choose among the forms of an argument.
ghost use Rattle.std.specs.Prelude.{◌≡◌};
ghost use Rattle.call_words.specs.Names.{layout_of, verb_of, collect_of};

use az_words::is_word;

/// A kind of layout.
#[derive(Clone, Copy)]
pub enum LayoutName {
    Scanned,
    Unscanned,
    Object,
}

/// The kind of layout that a word names; None exactly where it names none.
#[tactic(auto, unfolding(crate::specs::Names::layout_of))]
pub fn layout_name(word: &[u8]) -> Option<LayoutName>
    ensures { result ≡ layout_of word.now }
{
    if is_word(word, b"scanned") {
        Some(LayoutName::Scanned)
    } else if is_word(word, b"unscanned") {
        Some(LayoutName::Unscanned)
    } else if is_word(word, b"object") {
        Some(LayoutName::Object)
    } else {
        None
    }
}

/// A kind of finaliser action.
#[derive(Clone, Copy)]
pub enum Verb {
    Keep,
    Pass,
}

/// The kind of action that a word names; None exactly where it names none.
#[tactic(auto, unfolding(crate::specs::Names::verb_of))]
pub fn action_verb(word: &[u8]) -> Option<Verb>
    ensures { result ≡ verb_of word.now }
{
    if is_word(word, b"keep") {
        Some(Verb::Keep)
    } else if is_word(word, b"pass") {
        Some(Verb::Pass)
    } else {
        None
    }
}

/// A kind of collection.
#[derive(Clone, Copy)]
pub enum CollectName {
    Local,
    Young,
    Full,
}

/// The kind of collection that a word names; None exactly where it names none.
#[tactic(auto, unfolding(crate::specs::Names::collect_of))]
pub fn collect_name(word: &[u8]) -> Option<CollectName>
    ensures { result ≡ collect_of word.now }
{
    if is_word(word, b"local") {
        Some(CollectName::Local)
    } else if is_word(word, b"young") {
        Some(CollectName::Young)
    } else if is_word(word, b"full") {
        Some(CollectName::Full)
    } else {
        None
    }
}

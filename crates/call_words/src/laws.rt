//! Laws that say what is read apart from how: exactly the words of the grammar are read. And what is written is in the
//! grammar, as the call that was written.
ghost use Rattle.call_words.specs.Laws.{NamesAreRead, CollectNamesAreRead, OptionNamesAreRead, ArgumentsAreRead};
ghost use Rattle.call_words.specs.Laws.{ReadCallsAreSpelled, WrittenCallsAreRead, WrittenCallsArePlain, SpacedWordsAreCut};

use az_words::numbers_are_read;

/// Exactly the names of calls are read, each as its call.
pub fn names_are_read()
    ensures { NamesAreRead }
{}

/// Exactly the names of kinds of collection are read, each as its kind.
pub fn collect_names_are_read()
    ensures { CollectNamesAreRead }
{}

/// Exactly the names of options are read, each as its option.
pub fn option_names_are_read()
    ensures { OptionNamesAreRead }
{}

/// Exactly the arguments of the grammar are read, each as what it says.
pub fn arguments_are_read()
    ensures { ArgumentsAreRead }
{
    numbers_are_read();
}

/// What is read of a call is spelled as the grammar has it: a layout that blocks may have, and actions of objects alone.
pub fn read_calls_are_spelled()
    ensures { ReadCallsAreSpelled }
{}

/// What is written of a call that is in its ranges asks for this call, before words that begin no action.
pub fn written_calls_are_read()
    ensures { WrittenCallsAreRead }
{}

/// The words that are written of a call have one or more characters, all of which can be seen.
pub fn written_calls_are_plain()
    ensures { WrittenCallsArePlain }
{}

/// Words of characters that can be seen, with single spaces between them, are cut into the same words.
pub fn spaced_words_are_cut()
    ensures { SpacedWordsAreCut }
{}

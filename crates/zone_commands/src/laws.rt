//! Laws over the words, and over what is written.
ghost use Rattle.zone_commands.specs.Laws.{BytesHaveOneText, CommandsAreAsked, HistoriesAreSpelled, SoaksHaveOneText, TextsAreReadAsPlayed, TextsAreReadAsRun};

use heap_script::{scripts_are_read, scripts_can_be_played};
use history_text::texts_are_read_back;
use play_order::requests_are_played_in_one_way;
use soak_script::soak_scripts_can_be_played;

/// The bytes of a script determine the text of its history: which calls are local, where their entries stand, and what
/// each reply is.
pub fn bytes_have_one_text()
    ensures { BytesHaveOneText }
{
    scripts_are_read();
    scripts_can_be_played();
    requests_are_played_in_one_way();
}

/// Each call in a history of a script is one that the grammar of histories has.
pub fn histories_are_spelled()
    ensures { HistoriesAreSpelled }
{}

/// The text that is written for a script is read by `read_text` as the history that was played: its options, its entries
/// but for the room of the lists in their replies, and its statistics, unless memory runs out.
pub fn texts_are_read_as_played()
    ensures { TextsAreReadAsPlayed }
{
    texts_are_read_back();
}

/// The text that is written for a script that threads ran is read by `read_text` as the history that they made.
pub fn texts_are_read_as_run()
    ensures { TextsAreReadAsRun }
{
    texts_are_read_back();
}

/// A start and a number of calls determine what `soak` writes.
pub fn soaks_have_one_text()
    ensures { SoaksHaveOneText }
{
    soak_scripts_can_be_played();
    requests_are_played_in_one_way();
}

/// Words are a command exactly where they are the word `play`, the word `run`, or the word `soak` with a number of 64 bits and one from
/// 1 to 65,536.
pub fn commands_are_asked()
    ensures { CommandsAreAsked }
{}

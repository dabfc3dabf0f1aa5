//! Laws that say what is read apart from how: exactly the scripts of the grammar are read, and all else is refused at the
//! first line that lacks what the grammar wants.
ghost use Rattle.heap_script.specs.Laws.{LinesAreRead, LinesAreRefused, OptionsAreRead, OptionsAreRefused};
ghost use Rattle.heap_script.specs.Laws.{ScriptsAreRead, ScriptsAreRefused, ScriptsCanBePlayed, TextsHaveOneReading};
ghost use Rattle.heap_script.specs.Printed.{PrintedScriptsAreRead};

use az_words::numbers_are_read;
use call_words::{arguments_are_read, names_are_read};

/// Exactly the call lines of the grammar are read, each as what it says.
pub fn lines_are_read()
    ensures { LinesAreRead }
{
    numbers_are_read();
    names_are_read();
    arguments_are_read();
}

/// A call line is refused exactly where it lacks what the grammar wants, with that cause.
pub fn lines_are_refused()
    ensures { LinesAreRefused }
{
    numbers_are_read();
    names_are_read();
    arguments_are_read();
}

/// After the word `option` exactly an option and a number in its range are read.
pub fn options_are_read()
    ensures { OptionsAreRead }
{
    numbers_are_read();
}

/// An option line is refused exactly where it lacks what the grammar wants, with that cause.
pub fn options_are_refused()
    ensures { OptionsAreRefused }
{
    numbers_are_read();
}

/// Exactly the scripts of the grammar are read, each as what it says.
pub fn scripts_are_read()
    ensures { ScriptsAreRead }
{
    lines_are_read();
    options_are_read();
}

/// Bytes are refused exactly at their first line that has a cause, with the first one of that line.
pub fn scripts_are_refused()
    ensures { ScriptsAreRefused }
{
    lines_are_read();
    lines_are_refused();
    options_are_read();
    options_are_refused();
}

/// Each text is one script, or is refused at one line for one cause, and never both.
pub fn texts_have_one_reading()
    ensures { TextsHaveOneReading }
{
    scripts_are_read();
    scripts_are_refused();
}

/// Each script has options in their ranges, and each of its lines asks a thread that there is for what scripts have a name
/// for, and for what the grammar of histories has too: a layout that blocks may have, and actions of objects alone.
pub fn scripts_can_be_played()
    ensures { ScriptsCanBePlayed }
{}

/// A printed script that keeps the limits of scripts is read as the same script.
pub fn printed_scripts_are_read()
    ensures { PrintedScriptsAreRead }
{}

//! What the text of a line says.
ghost use Rattle.history_text.specs.Laws.{LinesHaveOneReading, TextsHaveOneReading, TextsAreReadBack, OneLineIsWrong};

use az_words::numbers_are_read;
use call_words::arguments_are_read;

/// Bytes are one line at most, but for the room that lists of ids have.
pub fn lines_have_one_reading()
    ensures { LinesHaveOneReading }
{
    numbers_are_read();
    arguments_are_read();
}

/// Bytes are the text of one history at most, but for the room that lists of ids have: its options, its entries and its
/// statistics.
pub fn texts_have_one_reading()
    ensures { TextsHaveOneReading }
{
    lines_have_one_reading();
}

/// The text of a history is read as this history, but for the room that lists of ids have, unless memory runs out.
pub fn texts_are_read_back()
    ensures { TextsAreReadBack }
{
    texts_have_one_reading();
}

/// The first line of bytes that can't stand in a text is one.
pub fn one_line_is_the_first_wrong_one()
    ensures { OneLineIsWrong }
{}

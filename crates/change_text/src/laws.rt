//! The laws of changes and states, each the contract of a function that does nothing.

ghost use Rattle.change_text.specs.Laws.{ChangedTextIsLaterText, ChangesStandWhereLinesDiffer, KeptTablesAreMadeTables};
ghost use Rattle.change_text.specs.StateLaw.{StateLinesAreRead};

/// Kept tables: the text of the earlier table with the change made to it is the text of the later
/// one.
pub fn kept_tables_are_made_tables()
    ensures { KeptTablesAreMadeTables }
{}

/// A change text put into the text of the earlier table, row for row, gives the text of the later
/// one, byte for byte: each row takes the place of the one that begins with the same two words.
pub fn changed_text_is_later_text()
    ensures { ChangedTextIsLaterText }
{}

/// A link, a group or a task stands in a change exactly where its lines differ.
pub fn changes_stand_where_lines_differ()
    ensures { ChangesStandWhereLinesDiffer }
{}

/// The lines of a state are lines of the input that mean the reports that count: with names as
/// documents have them, each line is short enough and means its report.
pub fn state_lines_are_read()
    ensures { StateLinesAreRead }
{}

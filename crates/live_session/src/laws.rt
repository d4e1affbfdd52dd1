//! The laws of all inputs, each the contract of a function that does nothing.

ghost use Rattle.live_session.specs.Laws.{EmptyScriptIsAccepted, FollowedTexts, KeptTables, KeptTexts, NeverBack, PostsAlone, PrintedSnapshot, RefusedLinesAreNoReports, SnapshotPromise};

/// Kept tables: a post is answered by the change from the table that was written last; who makes it
/// to that table's text has the text that `bwe solve` writes for the document with the accepted
/// reports at the end of its script.
pub fn kept_tables()
    ensures { KeptTables }
{}

/// Kept texts: the answer to a post, put row for row into the text of the table that was written
/// last, gives the table text that `bwe solve` writes for the document with the accepted reports at
/// the end of its script, byte for byte.
pub fn kept_texts()
    ensures { KeptTexts }
{}

/// A client that begins with what is written first, and puts each answer to a post into it, has the
/// text of the table that was written last.
pub fn followed_texts()
    ensures { FollowedTexts }
{}

/// No line but a post writes a table.
pub fn posts_alone()
    ensures { PostsAlone }
{}

/// Never back: the counts of reports accepted and written never fall, and no table holds more than
/// was accepted.
pub fn never_back()
    ensures { NeverBack }
{}

/// A refused line is no report: without all refused lines the reports and tables are the same.
pub fn refused_lines_are_no_reports()
    ensures { RefusedLinesAreNoReports }
{}

/// Where a document is accepted, so is the same one with an empty script, behind which a snapshot is
/// taken up.
pub fn empty_script_is_accepted()
    ensures { EmptyScriptIsAccepted }
{}

/// Snapshot promise: what `state` said, behind the same document with an empty script, has the same
/// table, but for the count of reports.
pub fn snapshot_promise()
    ensures { SnapshotPromise }
{}

/// The same of the printed bytes, for every document that is accepted: what `state` wrote before its
/// last line, behind the same document with an empty script, has the same table, but for the count
/// of reports.
pub fn printed_snapshot()
    ensures { PrintedSnapshot }
{}

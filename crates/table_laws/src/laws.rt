//! The laws, each the contract of a function that does nothing.

ghost use Rattle.table_laws.specs.Laws.{KeptByChanges, NoMoreThanAsked, NoPlaceMatters, NoWaste, OneTextOneTable, TheSameShare};

/// No more than asked: each task's limit is at most its demand, and at most its weight times what
/// its job's task function gives at the top share.
pub fn no_more_than_asked()
    ensures { NoMoreThanAsked }
{}

/// The same share: a group's amount is what its function gives at its stop share, and at each
/// closing every group that then grew over the link stood at the closing's share.
pub fn the_same_share()
    ensures { TheSameShare }
{}

/// No waste: a group that has less than at the top has a closed link on each path group, and on a
/// closed link less is left free than the groups that then grew over it would have put there with
/// the next whole share.
pub fn no_waste()
    ensures { NoWaste }
{}

/// Kept by changes: a table with the changes along any list of later tables, applied in their
/// order, is the last of them.
pub fn kept_by_changes()
    ensures { KeptByChanges }
{}

/// Nobody's place matters: the groups in another order, with their tasks, get the same; only the
/// numbers of links break ties.
pub fn no_place_matters()
    ensures { NoPlaceMatters }
{}

/// One text, one table: two tables with one text are equal, and no text of a table is a beginning
/// of another's.
pub fn one_text_one_table()
    ensures { OneTextOneTable }
{}

//! The laws of a table, each as a call whose contract is the law. A call does nothing when it runs.

ghost use Rattle.key_table.specs.Looked.{TableAnswers};
ghost use Rattle.key_table.specs.Rows.{RowsAreTable};

/// A look-up for a digest in its row of the table of a clear list finds what the list has for the digest, and that row
/// is never broken.
pub fn table_answers_for_its_list()
    ensures { TableAnswers }
{}

/// The rows that [`TableRows`](crate::TableRows) writes of sorted entries, with the list's own tag, are the table of the
/// list.
pub fn rows_are_the_table()
    ensures { RowsAreTable }
{}

//! The laws of the workload, each on a function that does nothing.

ghost use Rattle.load_laws.specs.Laws.{LoadEnds, TableIsFull};
ghost use Rattle.load_laws.specs.Parts.{RowsAreChanged, RowsAreInserted, RowsMeet, ScriptsAreBatches, StepsAreRead, TablesAreMade};

/// Each text of the workload asks what it says.
pub fn law_of_reading()
    ensures { StepsAreRead }
{}

/// Each session's lines are batches of statements, which write keys of its own.
pub fn law_of_scripts()
    ensures { ScriptsAreBatches }
{}

/// What each statement makes of the table.
pub fn law_of_statements()
    ensures made { TablesAreMade }
    ensures inserted { RowsAreInserted }
    ensures changed { RowsAreChanged }
{}

/// A COMMIT takes the rows that others wrote since the start, under other keys, and its own.
pub fn law_of_commits()
    ensures { RowsMeet }
{}

/// Whatever order the workload's moments take, no statement is refused by a rule, and the table has every row with its last value.
pub fn law_of_load()
    ensures ends { LoadEnds }
    ensures full { TableIsFull }
{}

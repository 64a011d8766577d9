#![tactic(auto)]
// The grammar of sheets, that what is read is exactly what the grammar spells, and why a field is refused.
// Each function does nothing: its contract is a theorem about the definitions that the readers' contracts cite.
ghost use Rattle.grammar.specs.Reads.{DuesAreReadAsSpelled, DutiesAreReadAsSpelled, EventsAreReadAsSpelled, LiteralsAreReadAsSpelled, NamesAreToldBySpelling, NumbersAreToldBySpelling, SetsAreReadAsSpelled, StatementsAreReadAsSpelled};
ghost use Rattle.grammar.specs.Shapes.{AStatementIsRefusedByItsFirstCause, AnEventIsRefusedByItsFirstCause};

// A piece is taken for a name, or for a number, exactly where it is spelled as one.
pub fn names_and_numbers_are_told_by_spelling()
    ensures names { NamesAreToldBySpelling }
    ensures numbers { NumbersAreToldBySpelling }
{}

pub fn dues_are_read_as_spelled()
    ensures { DuesAreReadAsSpelled }
{}

pub fn sets_are_read_as_spelled()
    ensures { SetsAreReadAsSpelled }
{}

pub fn literals_are_read_as_spelled()
    ensures { LiteralsAreReadAsSpelled }
{}

pub fn duties_are_read_as_spelled()
    ensures { DutiesAreReadAsSpelled }
{}

pub fn events_are_read_as_spelled()
    ensures { EventsAreReadAsSpelled }
{}

// Effects and conditions.
pub fn statements_are_read_as_spelled()
    ensures { StatementsAreReadAsSpelled }
{}

// No shape, else a number over its limit, else a name that is not declared.
pub fn an_event_is_refused_by_its_first_cause()
    ensures { AnEventIsRefusedByItsFirstCause }
{}

pub fn a_statement_is_refused_by_its_first_cause()
    ensures { AStatementIsRefusedByItsFirstCause }
{}

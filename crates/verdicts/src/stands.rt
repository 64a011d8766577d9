// What loading promises, in the grammar's words.
// Each function does nothing: its contract is a theorem about the definition that `load` answers by.
ghost use Rattle.verdicts.specs.Verdicts.{ARefusalIsTheFirstCause, ATextIsTakenAsWhatItsLinesDeclare, EveryTextHasOneAnswer};

// A text is taken exactly where its lines declare a sheet, and then as that sheet: its tags, points and orders, in their order, and nothing else.
pub fn a_text_is_taken_as_what_its_lines_declare()
    ensures { ATextIsTakenAsWhatItsLinesDeclare }
{}

// A text is refused by the first of its causes: too long; else the first byte that is not plain; else an end with no line feed; else the first line
// that declares nothing beside the lines above it. Each has the number of its line.
// Of that line it is the first cause again: its fields; else no room; else its name, ill-formed or declared before; else the first of its words that
// says nothing, with its field; else the order as a whole.
pub fn a_refusal_is_the_first_cause()
    ensures { ARefusalIsTheFirstCause }
{}

// Every text declares a sheet or is refused, in one way only, and never both.
pub fn every_text_has_one_answer()
    ensures { EveryTextHasOneAnswer }
{}

// What holds of the meaning, whatever a make does.
ghost use Rattle.registers.specs.Determined.{CallsHaveOneOutcome, MembersMakeTheSet};

pub fn members_make_the_set()
    ensures { MembersMakeTheSet }
{}

pub fn calls_have_one_outcome()
    ensures { CallsHaveOneOutcome }
{}

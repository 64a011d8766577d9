// A refusal as numbers: its own, its line and its field. They are the table's, which other programs read; within the program a fault is an enum.
ghost use Rattle.std.specs.Prelude.{◌≡◌};
ghost use Rattle.verdicts.specs.Refusals.{line_refusal, refusal};

use crate::fault::LoadFault;
use fields::Cause;
use lines::LineCause;

fn line_number(cause: LineCause) -> u32
    ensures { result ≡ (line_refusal cause).0 }
{
    match cause {
        LineCause::Fields => 4,
        LineCause::Name => 5,
        LineCause::Repeated => 6,
        LineCause::Full => 7,
        LineCause::Word(word) => match word.cause {
            Cause::Shape => 8,
            Cause::Undeclared => 9,
            Cause::Over => 10,
        },
        LineCause::LiteralWithDuty => 11,
        LineCause::UnboundT => 12,
    }
}

fn line_field(cause: LineCause) -> usize
    ensures { result ≡ (line_refusal cause).1 }
{
    match cause {
        LineCause::Name => 2,
        LineCause::Repeated => 2,
        LineCause::Word(word) => word.field,
        LineCause::LiteralWithDuty => 3,
        _ => 0,
    }
}

impl LoadFault {
    // The refusal's number.
    pub fn number(&self) -> u32
        ensures { result ≡ (refusal self.now).0 }
    {
        match self {
            LoadFault::TooLong => 1,
            LoadFault::Unfinished(_) => 2,
            LoadFault::StrayByte(_) => 3,
            LoadFault::Line(fault) => line_number(fault.cause),
        }
    }

    // The line, counted from 1; 0 for the whole text.
    pub fn line(&self) -> usize
        ensures { result ≡ (refusal self.now).1 }
    {
        match self {
            LoadFault::TooLong => 0,
            LoadFault::Unfinished(line) => *line,
            LoadFault::StrayByte(line) => *line,
            LoadFault::Line(fault) => fault.line,
        }
    }

    // The field, counted from 1; 0 for the whole line.
    pub fn field(&self) -> usize
        ensures { result ≡ (refusal self.now).2 }
    {
        let LoadFault::Line(fault) = self else {
            return 0;
        };
        line_field(fault.cause)
    }
}

// A sheet that is refused: the numbers, what is wrong, the line, and a mark under the faulty field.
use crate::marked::Marked;
use fields::Cause;
use lines::LineCause;
use std::fmt;
use verdicts::LoadFault;

fn line_sentence(cause: LineCause) -> &'static str {
    match cause {
        LineCause::Fields =>
            "a line is `tag` and a name, `point` and a name, or `order`, an event, an effect and up to four conditions, parted by single tabs; this one is not.",
        LineCause::Full =>
            "a sheet has at most 64 tags, 64 points and 128 orders, and this line declares one more.",
        LineCause::Name =>
            "this is no name that can be declared: a name is 1 to 16 bytes, a small letter and then small letters, digits or `_`, and none of now, no, met, failed, scan, reach, hold, tag, point, order.",
        LineCause::Repeated => "this name is declared above, as a tag or as a point.",
        LineCause::Word(word) => match word.cause {
            Cause::Shape =>
                "this field has not its shape: an event is names joined by `+`, or `met` or `failed` and a duty; an effect or a condition is a point, `!` and a point, a duty, or `no` and a duty; a duty is `scan`, `reach` or `hold`, a due, and names joined by `+` or a point.",
            Cause::Undeclared =>
                "a name in this field is not declared above as a tag, where a tag is wanted, or as a point, where a point is.",
            Cause::Over =>
                "a number in this field is over its limit: 1000000000 for a minute, 1000000 for what is added to `now` or `T`.",
        },
        LineCause::LiteralWithDuty =>
            "an order that sets a point may depend on reads and points only, not on a duty in its event or its conditions.",
        LineCause::UnboundT =>
            "T stands in the effect or under `no`, but nothing says which minute it is: `T` must stand in a `met` or `failed` event too, or in a condition that asks for a duty.",
    }
}

fn sentence(fault: LoadFault) -> &'static str {
    match fault {
        LoadFault::TooLong => "the text is over 32768 bytes.",
        LoadFault::Unfinished(_) => "this last line does not end in a line feed.",
        LoadFault::StrayByte(_) =>
            "this line has a byte that no sheet may have: only tabs, line feeds and the printing bytes 32 to 126 may stand in one.",
        LoadFault::Line(line) => line_sentence(line.cause),
    }
}

// The line of a text by its number, counted from 1.
fn find_line(text: &[u8], number: usize) -> &[u8] {
    text.split(|b| *b == b'\n')
        .take(number)
        .last()
        .unwrap_or(text)
}

// Prints the first line, then what is wrong and where.
#[derive(Clone, Copy)]
pub(crate) struct Refused<'a> {
    pub(crate) text: &'a [u8],
    pub(crate) fault: LoadFault,
}

impl fmt::Display for Refused<'_> {
    fn fmt<W: fmt::Write>(&self, f: &mut fmt::Formatter<W>) -> fmt::Result {
        let number = self.fault.number();
        let line = self.fault.line();
        let field = self.fault.field();
        writeln!(f, "refused\t{number}\t{line}\t{field}")?;
        write!(f, "The sheet is refused: ")?;
        match (line, field) {
            (0, _) => {}
            (_, 0) => write!(f, "line {line}: ")?,
            _ => write!(f, "line {line}, field {field}: ")?,
        }
        let sentence = sentence(self.fault);
        writeln!(f, "{sentence}")?;
        if line == 0 {
            return Ok(());
        }
        let line = find_line(self.text, line);
        // The table says field 0 of a line that is refused as a whole.
        let earlier = field.checked_sub(1);
        Marked { line, earlier }.fmt(f)
    }
}

// Why a text is refused.
ghost use Rattle.std.specs.Prelude.{◌≡◌};
ghost use Rattle.verdicts.specs.declared.fault.LoadFault.TheVariants.{Line as InLine};

use lines::LineCause;

// A line's fault, made with the line, counted from 1. No common type with a word's fault: the place has another name in each, and neither has methods.
#[derive(Clone, Copy)]
pub struct LineFault {
    pub line: usize,
    pub cause: LineCause,
}

#[derive(Clone, Copy)]
pub enum LoadFault {
    // The text is over 32,768 bytes.
    TooLong,
    // The last line, this one, has no line feed.
    Unfinished(usize),
    // This line has a byte that no sheet may have.
    StrayByte(usize),
    Line(LineFault),
}

impl From<LineFault> for LoadFault {
    ghost from_gives = { λ e r. r ≡ InLine e };

    fn from(e: LineFault) -> LoadFault {
        LoadFault::Line(e)
    }
}

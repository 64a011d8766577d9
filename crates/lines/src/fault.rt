// What is wrong with a line.
ghost use Rattle.std.specs.Prelude.{◌≡◌};
ghost use Rattle.lines.specs.declared.fault.LineCause.TheVariants.{Word as InWord};

use fields::WordFault;

#[derive(Clone, Copy)]
pub enum LineCause {
    // An unknown first field, or a wrong number of fields.
    Fields,
    // One more tag, point or order than a sheet may have.
    Full,
    // A declared name that is ill-formed or reserved.
    Name,
    // A name that is declared before, as a tag or as a point.
    Repeated,
    // A fault in a word of an order.
    Word(WordFault),
    // A literal effect with a duty event or a duty condition.
    LiteralWithDuty,
    // T in the effect or under `no`, but in no duty event or plain duty condition.
    UnboundT,
}

impl From<WordFault> for LineCause {
    ghost from_gives = { λ e r. r ≡ InWord e };

    fn from(e: WordFault) -> LineCause {
        LineCause::Word(e)
    }
}

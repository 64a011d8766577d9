// The conditions of an order: its fields from the fourth on, four at most.
ghost use Rattle.std.specs.Prelude.{◌≡◌, drop};
ghost use Rattle.lines.specs.Lines.{conditions_of, optional};
ghost use Rattle.text.specs.Pieces.{pieces_left};

use duties::Statement;
use fields::{Declared, WordFault};
use text::Pieces;

// The condition in the next field, if there is one.
fn read_condition(
    field: usize,
    declared: &Declared<'_>,
    left: &mut Pieces<'_>,
) -> Result<Option<Statement>, WordFault>
    ensures condition { result ≡ optional declared.now.tags.names.now declared.now.points.names.now field (pieces_left left.old) }
    ensures left { pieces_left left.new ≡ drop 1 (pieces_left left.old) }
{
    match left.next() {
        Some(condition) => declared.read_statement(field, condition).map(Some),
        None => Ok(None),
    }
}

// One call for each place: a loop over the four would need an invariant about what is left, and is no plainer.
pub(crate) fn read_conditions(
    declared: &Declared<'_>,
    mut left: Pieces<'_>,
) -> Result<[Option<Statement>; 4], WordFault>
    ensures { result ≡ conditions_of declared.now.tags.names.now declared.now.points.names.now (pieces_left left.entry) }
{
    let first = read_condition(4, declared, &mut left)?;
    let second = read_condition(5, declared, &mut left)?;
    let third = read_condition(6, declared, &mut left)?;
    let fourth = read_condition(7, declared, &mut left)?;
    Ok([first, second, third, fourth])
}

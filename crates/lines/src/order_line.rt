// The fields of an order line.
ghost use Rattle.std.specs.Prelude.{◌≡◌, Ok as Good, Err as Bad, MatchResult};
ghost use Rattle.lines.specs.Lines.{checked, order_fields, order_of};
ghost use Rattle.text.specs.Pieces.{pieces_left};
ghost use Rattle.text.specs.Split.{split};
ghost use Rattle.sheets.specs.Sheets.{content};

use crate::conditions::read_conditions;
use crate::fault::LineCause;
use crate::orders::{is_literal_apart, is_t_bound};
use duties::Order;
use fields::{Declared, NameList};
use sheets::Table;
use text::Pieces;

// The order, unless it is put together wrongly.
fn check_order(order: Order) -> Result<Order, LineCause>
    ensures { result ≡ checked order }
{
    if !is_literal_apart(&order) {
        return Err(LineCause::LiteralWithDuty);
    }
    if !is_t_bound(&order) {
        return Err(LineCause::UnboundT);
    }
    Ok(order)
}

// The names that the orders of a table may use.
fn declared_names(table: &Table) -> Declared<'_>
    ensures tags { result.tags.names.now ≡ (content table.now).tags }
    ensures points { result.points.names.now ≡ (content table.now).points }
{
    Declared {
        tags: NameList {
            names: table.tags(),
        },
        points: NameList {
            names: table.points(),
        },
    }
}

// The event, the effect, and the conditions that are left, four at most.
fn split_order(bytes: &[u8]) -> Result<(&[u8], &[u8], Pieces<'_>), LineCause>
    ensures { MatchResult result (λ f. order_fields (split 9 bytes.now) ≡ Good (f.0.now, f.1.now, pieces_left f.2)) (λ e. order_fields (split 9 bytes.now) ≡ Bad e) }
{
    let mut fields = Pieces::of(bytes, b'\t');
    if fields.count() > 6 {
        return Err(LineCause::Fields);
    }
    match (fields.next(), fields.next()) {
        (Some(event), Some(effect)) => Ok((event, effect, fields)),
        _ => Err(LineCause::Fields),
    }
}

pub(crate) fn read_order(table: &Table, bytes: &[u8]) -> Result<Order, LineCause>
    ensures { result ≡ order_of (content table.now) bytes.now }
{
    let (event, effect, conditions) = split_order(bytes)?;
    if table.orders().len() >= 128 {
        return Err(LineCause::Full);
    }
    let declared = declared_names(table);
    let event = declared.read_event(2, event)?;
    let effect = declared.read_statement(3, effect)?;
    let conditions = read_conditions(&declared, conditions)?;
    check_order(Order {
        event,
        effect,
        conditions,
    })
}

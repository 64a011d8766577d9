// How an order may be put together.
ghost use Rattle.std.specs.Prelude.{◌≡◌, ◌||◌};
ghost use Rattle.duties.specs.Ranges.{asks_on_t, denies_on_t, duty_condition, event_on_t, literal_apart, some, statement_on_t, t_bound};

use duties::{Order, Statement};

// The tests of a condition stand apart: written in place, inside `any`, their proofs are not found.
fn is_duty_condition(condition: Option<Statement>) -> bool
    ensures { result ≡ duty_condition condition }
{
    condition.is_some_and(Statement::is_of_duty)
}

fn asks_with_t(condition: Option<Statement>) -> bool
    ensures { result ≡ asks_on_t condition }
{
    matches!(condition, Some(Statement::Duty(duty)) if duty.due.has_t())
}

fn denies_with_t(condition: Option<Statement>) -> bool
    ensures { result ≡ denies_on_t condition }
{
    matches!(condition, Some(Statement::NoDuty(duty)) if duty.due.has_t())
}

// A literal effect comes with a read alone.
pub(crate) fn is_literal_apart(order: &Order) -> bool
    ensures { result ≡ literal_apart order.now }
{
    order.effect.is_of_duty()
        || (!order.event.is_of_duty() && !order.conditions.iter().any(|c| is_duty_condition(*c)))
}

// Whether T stands in the effect or under `no`.
fn needs_t(order: &Order) -> bool
    ensures { result ≡ (statement_on_t order.now.effect || some denies_on_t order.now.conditions) }
{
    order.effect.has_t() || order.conditions.iter().any(|c| denies_with_t(*c))
}

// Whether the event or a plain duty condition has T.
fn binds_t(order: &Order) -> bool
    ensures { result ≡ (event_on_t order.now.event || some asks_on_t order.now.conditions) }
{
    order.event.has_t() || order.conditions.iter().any(|c| asks_with_t(*c))
}

// T in the effect or under `no` is bound by the event or by a plain duty condition.
pub(crate) fn is_t_bound(order: &Order) -> bool
    ensures { result ≡ t_bound order.now }
{
    !needs_t(order) || binds_t(order)
}

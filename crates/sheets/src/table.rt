// What a sheet holds. Its memory is reserved when it is made, so that adding to it cannot fail.
ghost use Rattle.std.specs.Prelude.{◌≤◌, vec_capacity, vec_len};

use duties::Order;
use names::Name;

// At most 64 tags, 64 points and 128 orders, each numbered from 0 as it was declared.
#[derive(Drop)]
pub struct Table {
    pub(crate) tags: Vec<Name>,
    pub(crate) points: Vec<Name>,
    pub(crate) orders: Vec<Order>,
    ghost tags_reserved: { 64 ≤ vec_capacity tags },
    ghost points_reserved: { 64 ≤ vec_capacity points },
    ghost orders_reserved: { 128 ≤ vec_capacity orders },
    ghost tags_few: { vec_len tags ≤ 64 },
    ghost points_few: { vec_len points ≤ 64 },
    ghost orders_few: { vec_len orders ≤ 128 },
}

// Tables, made and built up.
ghost use Rattle.std.specs.Prelude.{◌≡◌, ◌<◌, length, IfOk};
ghost use Rattle.sheets.specs.Sheets.{blank, content, with_order, with_point, with_tag};

use crate::table::Table;
use duties::Order;
use names::Name;
use std::alloc::{AllocError, Global};

// One method for each kind where kinds are read or added to, each a line: a kind as an argument would need a match on it in each.
impl Table {
    // An empty table, with memory for the most that a sheet may hold.
    pub fn new(heap: Global) -> Result<Table, AllocError>
        ensures { IfOk result (λ t. content t ≡ blank) }
    {
        let tags = Vec::with_capacity(heap, 64)?;
        let points = Vec::with_capacity(heap, 64)?;
        let orders = Vec::with_capacity(heap, 128)?;
        Ok(Table {
            tags,
            points,
            orders,
        })
    }

    pub fn tags(&self) -> &[Name]
        ensures { result.now ≡ (content self.now).tags }
    {
        self.tags.as_slice()
    }

    pub fn points(&self) -> &[Name]
        ensures { result.now ≡ (content self.now).points }
    {
        self.points.as_slice()
    }

    pub fn orders(&self) -> &[Order]
        ensures { result.now ≡ (content self.now).orders }
    {
        self.orders.as_slice()
    }

    pub fn clear(&mut self)
        ensures { content self.new ≡ blank }
    {
        self.tags.clear();
        self.points.clear();
        self.orders.clear();
    }

    pub fn add_tag(&mut self, name: Name)
        requires { length (content self.old).tags < 64 }
        ensures { content self.new ≡ with_tag (content self.old) name }
    {
        self.tags.push_reserved(name);
    }

    pub fn add_point(&mut self, name: Name)
        requires { length (content self.old).points < 64 }
        ensures { content self.new ≡ with_point (content self.old) name }
    {
        self.points.push_reserved(name);
    }

    pub fn add_order(&mut self, order: Order)
        requires { length (content self.old).orders < 128 }
        ensures { content self.new ≡ with_order (content self.old) order }
    {
        self.orders.push_reserved(order);
    }
}

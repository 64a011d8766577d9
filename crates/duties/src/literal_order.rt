// The order of literals: by point, a point before its denial. It is written out, since the derived one would have every denial last.
ghost use Rattle.std.specs.Prelude.{◌≡◌};
ghost use Rattle.std.proofs.Common.{rules};
ghost use Rattle.std.specs.Cmp.{partial_order_from_own_ties};
ghost use Rattle.std.specs.Cmp.Rules.{comparing};
ghost use Rattle.std.specs.Ordering.{nat_cmp, bool_cmp, on, then_cmp, as_partial_cmp};
ghost use Rattle.duties.specs.Duties.{point, denied};

use crate::duty::Literal;
use std::cmp::Ordering;

impl Literal {
    // The point, whether it is to hold or not.
    pub fn point(self) -> u8
        ensures { result ≡ point self }
    {
        match self {
            Literal::Is(n) | Literal::Not(n) => n,
        }
    }

    // Whether it is that the point does not hold.
    pub fn is_denied(self) -> bool
        ensures { result ≡ denied self }
    {
        matches!(self, Literal::Not(_))
    }
}

impl Ord for Literal {
    ghost cmp = { then_cmp (on point nat_cmp) (on denied bool_cmp) };

    ghost total = { Prim.search (comparing, rules) };

    ghost matches_partial_cmp = { Prim.search (comparing, rules) };

    ghost matches_eq = { Prim.search (comparing, rules) };

    fn cmp(&self, other: &Literal) -> Ordering {
        self.point()
            .cmp(&other.point())
            .then(self.is_denied().cmp(&other.is_denied()))
    }
}

impl PartialOrd for Literal {
    ghost partial_cmp = { as_partial_cmp (then_cmp (on point nat_cmp) (on denied bool_cmp)) };

    ghost laws = { partial_order_from_own_ties (Prim.search (comparing, rules)) (Prim.search (comparing, rules)) };

    fn partial_cmp(&self, other: &Literal) -> Option<Ordering> {
        Some(self.cmp(other))
    }
}

// The order of positions (01, 'Positions'; the report's definition 2), of which specs/Order.antt is
// the definition and proofs/Ordered.antt the laws: a strict total order.
ghost use Rattle.std.specs.Prelude.{◌≡◌, refl};
ghost use Rattle.std.specs.Cmp.{partial_equiv_from_equiv, partial_order_from_total, eq_by_cmp_equiv};
ghost use Rattle.std.specs.Ordering.{on, eq_by_cmp, as_partial_cmp};
ghost use Rattle.std.proofs.lemmas.Cmp.{on_total};
ghost use Rattle.position.specs.Positions.{ids_of};
ghost use Rattle.position.specs.Order.{order_of};
ghost use Rattle.position.specs.Total.{ordered};

use crate::{Identifier, Position};
use std::cmp::Ordering;

// How p stands to q, for any two values: what `cmp` answers.
pub fn compare(p: &Position, q: &Position) -> Ordering
    ensures { result ≡ order_of (ids_of p.now) (ids_of q.now) }
{
    compare_rest(p.identifiers(), q.identifiers())
}

// How what remains of p stands to what remains of q: it looks at the first identifiers and, where these
// are equal, calls itself on the remaining ones. A position that runs out first is the smaller.
#[tactic(auto, using(crate::proofs::Ordered::steps), unfolding(crate::specs::Order::identifier_order, crate::specs::Order::number_order))]
fn compare_rest(p: &[Identifier], q: &[Identifier]) -> Ordering
    ensures { result ≡ order_of p.now q.now }
{
    match (p, q) {
        ([], []) => Ordering::Equal,
        ([], _) => Ordering::Less,
        (_, []) => Ordering::Greater,
        ([i, p_rest @ ..], [j, q_rest @ ..]) => match i.cmp(j) {
            Ordering::Equal => compare_rest(p_rest, q_rest),
            unequal => unequal,
        },
    }
}

// Positions are compared by their identifiers alone, so a derive, which reads all 8 and `used`, would not do.
// The laws are those of specs/Total.antt.
impl PartialEq for Position {
    ghost eq = { eq_by_cmp (on ids_of order_of) };

    ghost laws = { partial_equiv_from_equiv (eq_by_cmp_equiv (on_total ids_of ordered)) };

    fn eq(&self, other: &Position) -> bool {
        self.cmp(other).is_eq()
    }
}

impl Eq for Position {
    ghost laws = { eq_by_cmp_equiv (on_total ids_of ordered) };
}

impl PartialOrd for Position {
    ghost partial_cmp = { as_partial_cmp (on ids_of order_of) };

    ghost laws = { partial_order_from_total (on_total ids_of ordered) };

    fn partial_cmp(&self, other: &Position) -> Option<Ordering> {
        Some(self.cmp(other))
    }
}

impl Ord for Position {
    ghost cmp = { on ids_of order_of };

    ghost total = { on_total ids_of ordered };

    ghost matches_partial_cmp = { λ p q. refl };

    ghost matches_eq = { λ p q. refl };

    fn cmp(&self, other: &Position) -> Ordering {
        compare(self, other)
    }
}

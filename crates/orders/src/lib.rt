// Buying and selling orders as elements of a queue: price priority, then time priority.
#![tactic(auto)]

ghost use Rattle.orders.specs.Priority.{side_rank};
ghost use Rattle.orders.specs.Laws.{before_irreflexive, before_transitive, before_connected};
ghost use Rattle.std.proofs.Common.{rules};

pub mod order;
pub mod side;

use order::{Order, SideOrder};
use queue::Ranked;
use side::OneSide;
use terms::side::Side;

// A buying order ranks at a higher price first, a selling order at a lower one; then the lower turn ranks first.
// No `Ord`: lots don't count, so the order would not agree with the derived `Eq`.
impl<S: OneSide> Ranked for SideOrder<S> {
    ghost rank = { side_rank S.OneSide.side };

    ghost irreflexive = { λ o. before_irreflexive S.OneSide.side o.0 };

    ghost transitive = { λ o p q. before_transitive S.OneSide.side o.0 p.0 q.0 };

    ghost connected = { λ o p. before_connected S.OneSide.side o.0 p.0 };

    ghost relotted = { Prim.search rules };

    fn number(&self) -> u32 {
        self.0.number
    }

    fn key(&self) -> u32 {
        self.0.turn
    }

    fn lots(&self) -> u32 {
        self.0.lots
    }

    fn ranks_before(&self, other: &SideOrder<S>) -> bool {
        let better = match S::side() {
            Side::Buy => self.0.price > other.0.price,
            Side::Sell => self.0.price < other.0.price,
        };
        better || (self.0.price == other.0.price && self.0.turn < other.0.turn)
    }

    fn with_lots(self, left: u32) -> SideOrder<S> {
        SideOrder::new(Order {
            lots: left,
            ..self.0
        })
    }
}

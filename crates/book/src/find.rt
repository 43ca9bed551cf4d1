// An order that rests on one of the two sides.
ghost use Rattle.std.specs.Prelude.{◌≡◌};
ghost use Rattle.terms.specs.declared.side.Side.{Side as AnySide};
ghost use Rattle.orders.specs.Priority.{rank_of};
ghost use Rattle.queue.specs.Held.{numbered};
ghost use Rattle.rules.specs.Checks.{found_in};

use crate::sides::Sides;
use orders::order::Found;
use terms::side::Side;

// The order with this number, and its side; the buys are asked first.
// The two answers are taken apart by pattern, as docs/DECISIONS.md names it.
pub(crate) fn find_order<D: Sides>(number: u32, sides: &D) -> Option<Found>
    ensures { ((s : AnySide) → D.lawful sides.now s) → result ≡ found_in (numbered (rank_of Side.Buy) (D.held sides.now Side.Buy) number) (numbered (rank_of Side.Sell) (D.held sides.now Side.Sell) number) }
{
    match (
        sides.find(Side::Buy, number),
        sides.find(Side::Sell, number),
    ) {
        (Some(order), _) => Some(Found {
            side: Side::Buy,
            order,
        }),
        (None, Some(order)) => Some(Found {
            side: Side::Sell,
            order,
        }),
        (None, None) => None,
    }
}

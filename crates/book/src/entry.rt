// Order entry.
ghost use Rattle.std.specs.Prelude.{◌≡◌, length, if◌then◌else◌, None, OnErr};
ghost use Rattle.terms.specs.declared.side.Side.{Side as AnySide};
ghost use Rattle.queue.specs.Held.{answer};
ghost use Rattle.rules.specs.Checks.{first_of, is_immediate, place_checks, order_checks};
ghost use Rattle.rules.specs.ByRule.{ByRule, event_of};
ghost use Rattle.rules.specs.Calls as calls;
ghost use Rattle.rules.specs.Keeps.{Keeps};
ghost use Rattle.book.specs.Books.{trading_book, outcome_of};

use crate::checks::{check_lots, check_member, check_price, check_table, check_turns, refuse_if};
use crate::lots::traded_lots;
use crate::matching::{enter, lapses};
use crate::phase::{Book, Trading};
use crate::side::is_full;
use crate::sides::Sides;
use orders::order::Order;
use price_range::PriceRange;
use terms::message::OrderEntry;
use terms::refusal::Refusal;
use terms::side::{Side, TimeInForce};
use terms::trade::{Answer, Trade};

// The own side has a place for an order that may rest, and its turn is free there.
fn check_place<D: Sides>(side: Side, time: TimeInForce, sides: &D, turn: u32) -> Result<(), Refusal>
    ensures { result ≡ answer (first_of (place_checks (is_immediate time) side turn (D.held sides.now side))) }
{
    refuse_if(
        time == TimeInForce::Day && is_full(sides, side),
        Refusal::QueueFull,
    )?;
    refuse_if(sides.is_taken(side, turn, None), Refusal::AlreadyHeld)
}

// The lots of a remainder that rest, and those that are cancelled. Whether it lapses is a flag, as in `enter`.
fn remainder(lapse: bool, left: u32) -> (u128, u128)
    ensures { result ≡ ((if lapse then 0 else left), (if lapse then left else 0)) }
{
    let left = u128::from(left);
    if lapse { (0, left) } else { (left, 0) }
}

impl Book<Trading> {
    // The tests of an order, in their order.
    fn check_order<D: Sides>(
        &self,
        side: Side,
        time: TimeInForce,
        entry: &OrderEntry,
        sides: &D,
        places: usize,
    ) -> Result<(), Refusal>
        ensures { result ≡ answer (first_of (order_checks side time entry.now places (trading_book self.now (D.held sides.now) (λ us. None)))) }
    {
        check_member(entry.member)?;
        check_price(&self.terms, entry.price)?;
        check_lots(entry.lots)?;
        check_table(sides, places)?;
        check_turns(self.next, 1)?;
        check_place(side, time, sides, self.next)
    }

    // Enters an order: it takes the next turn as its number and meets the other side.
    // Sides, range and trades come one by one, since a call takes only what it uses: `cancel` and `end` no range or
    // trades, a change no range to tell.
    pub fn order<D: Sides, R: PriceRange>(
        &mut self,
        side: Side,
        time: TimeInForce,
        entry: OrderEntry,
        sides: &mut D,
        range: &R,
        trades: &mut [Trade],
    ) -> Result<Answer, Refusal>
        ensures refused { OnErr result ((self.new ≡ self.old) × (sides.new ≡ sides.old) × (trades.new ≡ trades.old)) }
        ensures keeps { (s : AnySide) → D.lawful sides.old s → D.lawful sides.new s }
        ensures same { D.same_queues sides.old sides.new }
        ensures by_rule { ((s : AnySide) → D.lawful sides.old s) → ByRule (calls.order side time entry (length trades.old)) (trading_book self.old (D.held sides.old) (R.PriceRange.answers range.now)) (outcome_of result) trades.old trades.new (trading_book self.new (D.held sides.new) (R.PriceRange.answers range.now)) }
        ensures day { ((s : AnySide) → D.lawful sides.old s) → Keeps (trading_book self.old (D.held sides.old) (R.PriceRange.answers range.now)) (event_of (calls.order side time entry (length trades.old)) (outcome_of result) trades.new) (trading_book self.new (D.held sides.new) (R.PriceRange.answers range.now)) }
    {
        self.check_order(side, time, &entry, sides, trades.len())?;
        let number = self.next;
        let band = range.band();
        let lapse = lapses(time, side, entry.price, band);
        let order = Order {
            number,
            member: entry.member,
            price: entry.price,
            lots: entry.lots,
            turn: number,
        };
        let met = enter(side, order, lapse, band, sides, trades);
        self.next = number + 1;
        let count = met.place;
        let (resting, cancelled) = remainder(lapse, met.left);
        Ok(Answer {
            number,
            traded: traded_lots(&trades[0..count]),
            resting,
            cancelled,
            trades: count,
        })
    }
}

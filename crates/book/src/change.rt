// Changes of an order.
ghost use Rattle.std.specs.Prelude.{◌≡◌, ◌-◌, [], length, OnErr};
ghost use Rattle.terms.specs.declared.side.Side.{Side as AnySide};
ghost use Rattle.orders.specs.Priority.{rank_of};
ghost use Rattle.queue.specs.Held.{after_cut};
ghost use Rattle.rules.specs.Book.{Answers, other};
ghost use Rattle.rules.specs.ByRule.{ByRule, event_of};
ghost use Rattle.rules.specs.Calls as calls;
ghost use Rattle.rules.specs.Keeps.{Keeps};
ghost use Rattle.rules.specs.Rules.{changing};
ghost use Rattle.book.specs.Books.{trading_book, halted_book, outcome_of};

use crate::change_checks::{Setting, keeps_place};
use crate::lots::traded_lots;
use crate::matching::enter;
use crate::phase::{Book, Halted, Trading};
use crate::sides::Sides;
use orders::order::{Found, Order};
use price_range::PriceRange;
use terms::message::OrderChange;
use terms::refusal::Refusal;
use terms::trade::{Answer, Trade};

// The order as it is after the change, in its new turn.
fn changed(change: &OrderChange, order: &Order, turn: u32) -> Order
    ensures { result ≡ changing change.now order.now turn }
{
    Order {
        number: change.order,
        member: order.member,
        price: change.price,
        lots: change.lots,
        turn,
    }
}

// What a change answers where so many lots rest after it.
fn change_answer(
    change: &OrderChange,
    found: &Found,
    traded: u128,
    left: u32,
    trades: usize,
) -> Answer
    ensures { result ≡ record { number = change.now.order; traded = traded; resting = left; cancelled = found.now.order.lots - change.now.lots; trades = trades } }
{
    Answer {
        number: change.order,
        traded,
        resting: u128::from(left),
        cancelled: u128::from(found.order.lots.saturating_sub(change.lots)),
        trades,
    }
}

// Takes lots off an order in its place.
fn lower<D: Sides>(change: &OrderChange, found: &Found, sides: &mut D) -> Answer
    ensures keeps { (s : AnySide) → D.lawful sides.old s → D.lawful sides.new s }
    ensures same { D.same_queues sides.old sides.new }
    ensures answers { result ≡ record { number = change.now.order; traded = 0; resting = change.now.lots; cancelled = found.now.order.lots - change.now.lots; trades = 0 } }
    ensures cuts { ((s : AnySide) → D.lawful sides.old s) → (D.held sides.new found.now.side ≡ after_cut (rank_of found.now.side) (D.held sides.old found.now.side) change.now.order (found.now.order.lots - change.now.lots)) × (D.held sides.new (other found.now.side) ≡ D.held sides.old (other found.now.side)) }
{
    let off = found.order.lots.saturating_sub(change.lots);
    let _ = sides.cut(found.side, change.order, off);
    change_answer(change, found, 0, change.lots, 0)
}

impl Book<Trading> {
    // Changes price and lots of what rests of an order.
    // It keeps its place, or takes a new turn and meets like an order.
    pub fn change<D: Sides, R: PriceRange>(
        &mut self,
        change: OrderChange,
        sides: &mut D,
        range: &R,
        trades: &mut [Trade],
    ) -> Result<Answer, Refusal>
        ensures refused { OnErr result ((self.new ≡ self.old) × (sides.new ≡ sides.old) × (trades.new ≡ trades.old)) }
        ensures keeps { (s : AnySide) → D.lawful sides.old s → D.lawful sides.new s }
        ensures same { D.same_queues sides.old sides.new }
        ensures by_rule { ((s : AnySide) → D.lawful sides.old s) → ByRule (calls.change change (length trades.old)) (trading_book self.old (D.held sides.old) (R.PriceRange.answers range.now)) (outcome_of result) trades.old trades.new (trading_book self.new (D.held sides.new) (R.PriceRange.answers range.now)) }
        ensures day { ((s : AnySide) → D.lawful sides.old s) → Keeps (trading_book self.old (D.held sides.old) (R.PriceRange.answers range.now)) (event_of (calls.change change (length trades.old)) (outcome_of result) trades.new) (trading_book self.new (D.held sides.new) (R.PriceRange.answers range.now)) }
    {
        let band = range.band();
        let next = self.next;
        let found = self.check_change(Setting::Trading(band), &change, sides, trades.len())?;
        if keeps_place(&change, &found.order) {
            return Ok(lower(&change, &found, sides));
        }
        let _ = sides.take(found.side, change.order);
        let met = enter(
            found.side,
            changed(&change, &found.order, next),
            false,
            band,
            sides,
            trades,
        );
        self.next = next + 1;
        let count = met.place;
        let traded = traded_lots(&trades[0..count]);
        Ok(change_answer(&change, &found, traded, met.left, count))
    }
}

impl Book<Halted> {
    // Changes price and lots of what rests of an order, which may not rise. It meets nothing.
    // Kept beside the change while trading: one function for both would ask a halt for a table and a range.
    pub fn change<D: Sides>(
        &mut self,
        change: OrderChange,
        sides: &mut D,
    ) -> Result<Answer, Refusal>
        ensures refused { OnErr result ((self.new ≡ self.old) × (sides.new ≡ sides.old)) }
        ensures keeps { (s : AnySide) → D.lawful sides.old s → D.lawful sides.new s }
        ensures same { D.same_queues sides.old sides.new }
        ensures by_rule { ((s : AnySide) → D.lawful sides.old s) → ((range : Answers) → ByRule (calls.change change 0) (halted_book self.old (D.held sides.old) range) (outcome_of result) [] [] (halted_book self.new (D.held sides.new) range)) }
        ensures day { ((s : AnySide) → D.lawful sides.old s) → ((range : Answers) → Keeps (halted_book self.old (D.held sides.old) range) (event_of (calls.change change 0) (outcome_of result) []) (halted_book self.new (D.held sides.new) range)) }
    {
        let next = self.next;
        let found = self.check_change(Setting::Halted, &change, sides, 0)?;
        if keeps_place(&change, &found.order) {
            return Ok(lower(&change, &found, sides));
        }
        let _ = sides.take(found.side, change.order);
        let _ = sides.put(found.side, changed(&change, &found.order, next));
        self.next = next + 1;
        Ok(change_answer(&change, &found, 0, change.lots, 0))
    }
}

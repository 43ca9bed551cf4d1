// Matching: an order against the other side, first order after first order.
ghost use Rattle.std.specs.Prelude.{◌≡◌, ◌<◌, ◌≤◌, false, length, Some};
ghost use Rattle.terms.specs.declared.side.Side.{Side as AnySide};
ghost use Rattle.rules.specs.Book.{other};
ghost use Rattle.rules.specs.Meeting.{beyond, can_meet, nearest as nearest_of, resting_limit, trade as trade_of, lapses as lapsing};
ghost use Rattle.rules.specs.Tables.{Fits, Room, meet_at, enter_at};
ghost use Rattle.book.specs.Matching.{incoming_of};

use crate::sides::Sides;
use orders::order::Order;
use price_range::band::Band;
use terms::side::{Side, TimeInForce};
use terms::trade::Trade;

// An order that comes to the other side, with all its lots.
#[derive(Drop)]
pub(crate) struct Incoming {
    pub side: Side,
    pub number: u32,
    pub limit: u32,
    pub lots: u32,
    // its turn, if it rested before
    pub rested: Option<u32>,
}

// What a meeting leaves: the lots that did not trade, and the next place of the trade table.
#[derive(Drop)]
pub(crate) struct Met {
    pub left: u32,
    pub place: usize,
}

// Whether some price of the band is within both limits.
fn can_meet(band: Option<Band>, side: Side, limit: u32, price: u32) -> bool
    ensures { result ≡ can_meet band side limit price }
{
    band.is_some_and(|band| match side {
        Side::Buy => band.low.max(price) <= band.high.min(limit),
        Side::Sell => band.low.max(limit) <= band.high.min(price),
    })
}

// The price of the band that is nearest to this one.
fn nearest(band: Option<Band>, price: u32) -> u32
    ensures { result ≡ nearest_of band price }
{
    band.map_or(price, |band| band.low.max(band.high.min(price)))
}

// The limit of the one that rested; of two that did, of the one with the lower turn.
fn resting_limit(incoming: &Incoming, resting: &Order) -> u32
    ensures { result ≡ resting_limit incoming.now.rested incoming.now.limit resting.now }
{
    match incoming.rested {
        Some(turn) if turn < resting.turn => incoming.limit,
        _ => resting.price,
    }
}

// A trade of so many lots between the two.
fn trade(band: Option<Band>, incoming: &Incoming, resting: &Order, lots: u32) -> Trade
    ensures { result ≡ trade_of band incoming.now.side (incoming_of incoming.now) resting.now lots }
{
    let price = nearest(band, resting_limit(incoming, resting));
    match incoming.side {
        Side::Buy => Trade {
            buyer: incoming.number,
            seller: resting.number,
            price,
            lots,
        },
        Side::Sell => Trade {
            buyer: resting.number,
            seller: incoming.number,
            price,
            lots,
        },
    }
}

// The other side.
fn other(side: Side) -> Side
    ensures { result ≡ other side }
{
    match side {
        Side::Buy => Side::Sell,
        Side::Sell => Side::Buy,
    }
}

// Meets the first order of the other side again and again, while it can, and writes the trades from `place` on.
pub(crate) fn meet<D: Sides>(
    incoming: &Incoming,
    band: Option<Band>,
    sides: &mut D,
    trades: &mut [Trade],
    place: usize,
) -> Met
    ensures places { (place ≤ result.place) × (place < result.place → result.place ≤ length trades.old) }
    ensures left { result.left ≤ incoming.now.lots }
    ensures keeps { (s : AnySide) → D.lawful sides.old s → D.lawful sides.new s }
    ensures same { D.same_queues sides.old sides.new }
    ensures own { D.held sides.new incoming.now.side ≡ D.held sides.old incoming.now.side }
    ensures capacity { D.lawful sides.old (other incoming.now.side) → (D.held sides.new (other incoming.now.side)).capacity ≡ (D.held sides.old (other incoming.now.side)).capacity }
    ensures meets { D.lawful sides.old (other incoming.now.side) → Fits (D.held sides.old (other incoming.now.side)).elements place trades.old → record { table = trades.new; place = result.place; left = result.left; rest = (D.held sides.new (other incoming.now.side)).elements } ≡ meet_at band incoming.now.side (incoming_of incoming.now) incoming.now.lots (D.held sides.old (other incoming.now.side)).elements place trades.old }
{
    let opposite = other(incoming.side);
    let mut lots = incoming.lots;
    let mut next = place;
    // The form of matching that docs/DECISIONS.md names: left by `break` with the remainder, trades written by index,
    // since the trade table is the caller's fixed memory.
    let left = loop {
        if lots == 0 || next >= trades.len() {
            break lots;
        }
        let Some(resting) = sides.first(opposite) else {
            break lots;
        };
        if !can_meet(band, incoming.side, incoming.limit, resting.price) {
            break lots;
        }
        let dealt = lots.min(resting.lots);
        trades[next] = trade(band, incoming, &resting, dealt);
        next += 1;
        let _ = sides.cut(opposite, resting.number, dealt);
        lots -= dealt;
    };
    Met { left, place: next }
}

// Enters an order with all its lots: it meets the other side, and what is left joins its own, unless it lapses.
// Whether it lapses is one question: an enum of two cases would be this flag under another name.
pub(crate) fn enter<D: Sides>(
    side: Side,
    order: Order,
    lapse: bool,
    band: Option<Band>,
    sides: &mut D,
    trades: &mut [Trade],
) -> Met
    ensures places { result.place ≤ length trades.old }
    ensures left { result.left ≤ order.lots }
    ensures keeps { (s : AnySide) → D.lawful sides.old s → D.lawful sides.new s }
    ensures same { D.same_queues sides.old sides.new }
    ensures enters { ((s : AnySide) → D.lawful sides.old s) → Fits (D.held sides.old (other side)).elements 0 trades.old → (lapse ≡ false → Room side (D.held sides.old side) order) → record { table = trades.new; place = result.place; left = result.left; own = D.held sides.new side; opposite = D.held sides.new (other side) } ≡ enter_at band lapse side order (D.held sides.old side) (D.held sides.old (other side)) trades.old }
{
    let incoming = Incoming {
        side,
        number: order.number,
        limit: order.price,
        lots: order.lots,
        rested: None,
    };
    let met = meet(&incoming, band, sides, trades, 0);
    if met.left > 0 && !lapse {
        let rest = Order {
            lots: met.left,
            ..order
        };
        let _ = sides.put(side, rest);
    }
    met
}

// A buy above the high, or a sell below the low.
pub(crate) fn is_beyond(side: Side, price: u32, band: Band) -> bool
    ensures { result ≡ beyond side price (Some band) }
{
    match side {
        Side::Buy => price > band.high,
        Side::Sell => price < band.low,
    }
}

// Whether the remainder of an order is cancelled: it is immediate, or its price lies beyond the band.
pub(crate) fn lapses(time: TimeInForce, side: Side, price: u32, band: Option<Band>) -> bool
    ensures { result ≡ lapsing time side price band }
{
    time == TimeInForce::Immediate || band.is_some_and(|band| is_beyond(side, price, band))
}

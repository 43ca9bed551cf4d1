// The tests that a call makes before it changes anything.
ghost use Rattle.std.specs.Prelude.{◌≡◌, ◌+◌, nat_lt};
ghost use Rattle.rules.specs.Checks.{bad_member, bad_price, bad_lots, bad_spread, bad_quote_lots, outside};
ghost use Rattle.book.specs.Refusing.{refused_if};

use crate::sides::Sides;
use terms::limits::{LOTS_MAX, MEMBER_MAX, PRICE_MAX, TURN_MAX};
use terms::message::QuoteEntry;
use terms::refusal::Refusal;
use terms::setup::{Instrument, Span};
use terms::side::Side;

// Refuses for this reason where the test holds.
pub(crate) fn refuse_if(test: bool, refusal: Refusal) -> Result<(), Refusal>
    ensures { result ≡ refused_if refusal test }
{
    if test { Err(refusal) } else { Ok(()) }
}

// A member is 1 to 255.
pub(crate) fn check_member(member: u32) -> Result<(), Refusal>
    ensures { result ≡ refused_if Refusal.BadMember (bad_member member) }
{
    let allowed = (1..=MEMBER_MAX).contains(&member);
    refuse_if(!allowed, Refusal::BadMember)
}

// A price is 1 to 100,000, and a multiple of the tick.
pub(crate) fn check_price(terms: &Instrument, price: u32) -> Result<(), Refusal>
    ensures { result ≡ refused_if Refusal.BadPrice (bad_price terms.now price) }
{
    let on_tick = terms.tick != 0 && price % terms.tick == 0;
    let allowed = (1..=PRICE_MAX).contains(&price) && on_tick;
    refuse_if(!allowed, Refusal::BadPrice)
}

// Lots are 1 to 10,000,000.
pub(crate) fn check_lots(lots: u32) -> Result<(), Refusal>
    ensures { result ≡ refused_if Refusal.BadLots (bad_lots lots) }
{
    let allowed = (1..=LOTS_MAX).contains(&lots);
    refuse_if(!allowed, Refusal::BadLots)
}

// Whether a number is below the least or above the greatest.
fn is_outside(span: &Span, n: u32) -> bool
    ensures { result ≡ outside span.now n }
{
    !(span.least..=span.greatest).contains(&n)
}

// A bid is below its ask, by a spread of the instrument.
pub(crate) fn check_spread(terms: &Instrument, entry: &QuoteEntry) -> Result<(), Refusal>
    ensures { result ≡ refused_if Refusal.BadSpread (bad_spread terms.now entry.now) }
{
    let bad = entry.ask_price <= entry.bid_price
        || is_outside(&terms.spread, entry.ask_price - entry.bid_price);
    refuse_if(bad, Refusal::BadSpread)
}

// Both legs have quote lots of the instrument.
pub(crate) fn check_quote_lots(terms: &Instrument, entry: &QuoteEntry) -> Result<(), Refusal>
    ensures { result ≡ refused_if Refusal.BadQuoteLots (bad_quote_lots terms.now entry.now) }
{
    let lots = &terms.quote_lots;
    let bad = is_outside(lots, entry.bid_lots) || is_outside(lots, entry.ask_lots);
    refuse_if(bad, Refusal::BadQuoteLots)
}

// A trade table is no shorter than both capacities together.
pub(crate) fn check_table<D: Sides>(sides: &D, places: usize) -> Result<(), Refusal>
    ensures { result ≡ refused_if Refusal.ShortTradeTable (nat_lt places ((D.held sides.now Side.Buy).capacity + (D.held sides.now Side.Sell).capacity)) }
{
    let (buys, sells) = (sides.capacity(Side::Buy), sides.capacity(Side::Sell));
    let short = (places as u128) < buys as u128 + sells as u128;
    refuse_if(short, Refusal::ShortTradeTable)
}

// As many turns are left as a call takes.
pub(crate) fn check_turns(next: u32, turns: u32) -> Result<(), Refusal>
    ensures { result ≡ refused_if Refusal.TurnsUsedUp (nat_lt 1000001 (next + turns)) }
{
    let used_up = u64::from(next) + u64::from(turns) > u64::from(TURN_MAX) + 1;
    refuse_if(used_up, Refusal::TurnsUsedUp)
}

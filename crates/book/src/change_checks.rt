// The tests of a change.
ghost use Rattle.std.specs.Prelude.{◌≡◌, ◌+◌, ◌≤◌, false, ◌&&◌, IfOk, Some, nat_lt};
ghost use Rattle.terms.specs.declared.side.Side.{Side as AnySide};
ghost use Rattle.queue.specs.Held.{answer};
ghost use Rattle.rules.specs.Checks.{first_of, found as found_of, improves, out_of_reach, keeps_place, taken, is_trading, change_checks, found_checks};
ghost use Rattle.book.specs.Books.{book_of};
ghost use Rattle.book.specs.Changes.{phase_in, band_in, rise_in, Checked};
ghost use Rattle.book.specs.Refusing.{refused_if};

use crate::checks::{check_lots, check_member, check_price, check_table, check_turns, refuse_if};
use crate::find::find_order;
use crate::matching::is_beyond;
use crate::phase::{Book, DayPhase};
use crate::sides::Sides;
use orders::order::{Found, Order};
use price_range::band::Band;
use terms::message::OrderChange;
use terms::refusal::Refusal;
use terms::side::Side;

// Where an order is changed: while trading, at these prices, or in a halt.
// Kept beside the phase types: the band is known at the call and not to the phase; a trait would ask a halt for one.
#[derive(Clone, Copy)]
pub(crate) enum Setting {
    Trading(Option<Band>),
    Halted,
}

// Whether a buy goes up or a sell goes down.
fn is_better(side: Side, was: u32, price: u32) -> bool
    ensures { result ≡ improves side was price }
{
    match side {
        Side::Buy => price > was,
        Side::Sell => price < was,
    }
}

// Whether there is no price, or this one lies beyond them.
fn is_out_of_reach(side: Side, price: u32, band: Option<Band>) -> bool
    ensures { result ≡ out_of_reach side price band }
{
    band.is_none_or(|band| is_beyond(side, price, band))
}

// In a halt neither price nor lots may rise; while trading a better price is within reach.
fn check_rise(setting: Setting, change: &OrderChange, found: &Found) -> Result<(), Refusal>
    ensures { result ≡ answer (rise_in setting change.now found.now) }
{
    let better = is_better(found.side, found.order.price, change.price);
    match setting {
        Setting::Halted => refuse_if(
            better || found.order.lots < change.lots,
            Refusal::HaltedRise,
        ),
        Setting::Trading(band) => refuse_if(
            better && is_out_of_reach(found.side, change.price, band),
            Refusal::BeyondRange,
        ),
    }
}

// The trade table is long enough; a change may trade only while trading.
fn check_places<D: Sides>(setting: Setting, sides: &D, places: usize) -> Result<(), Refusal>
    ensures { result ≡ refused_if Refusal.ShortTradeTable (is_trading (phase_in setting) && nat_lt places ((D.held sides.now Side.Buy).capacity + (D.held sides.now Side.Sell).capacity)) }
{
    match setting {
        Setting::Trading(_) => check_table(sides, places),
        Setting::Halted => Ok(()),
    }
}

// The same price and no more lots: the order keeps its place.
pub(crate) fn keeps_place(change: &OrderChange, order: &Order) -> bool
    ensures { result ≡ keeps_place change.now order.now }
{
    change.price == order.price && change.lots <= order.lots
}

impl<P: DayPhase> Book<P> {
    // The order rests, it is the member's, it does not rise, and the turn that it takes is left and free.
    fn check_found<D: Sides>(
        &self,
        setting: Setting,
        change: &OrderChange,
        sides: &D,
    ) -> Result<Found, Refusal>
        ensures answers { ((s : AnySide) → D.lawful sides.now s) → Checked result (found_of (book_of (phase_in setting) self.now.terms self.now.next (P.last self.now.phase) (D.held sides.now) (λ us. band_in setting)) change.now.order) (first_of (found_checks change.now (found_of (book_of (phase_in setting) self.now.terms self.now.next (P.last self.now.phase) (D.held sides.now) (λ us. band_in setting)) change.now.order) (book_of (phase_in setting) self.now.terms self.now.next (P.last self.now.phase) (D.held sides.now) (λ us. band_in setting)))) }
        ensures turns { IfOk result (λ f. keeps_place change.now f.order ≡ false → self.now.next + 1 ≤ 1000001) }
    {
        let Some(found) = find_order(change.order, sides) else {
            return Err(Refusal::NotResting);
        };
        refuse_if(found.order.member != change.member, Refusal::NotOwner)?;
        check_rise(setting, change, &found)?;
        if !keeps_place(change, &found.order) {
            check_turns(self.next, 1)?;
            let taken = sides.is_taken(found.side, self.next, Some(found.order.number));
            refuse_if(taken, Refusal::AlreadyHeld)?;
        }
        Ok(found)
    }

    // The tests of a change, in their order; the trade table is asked for while trading.
    pub(crate) fn check_change<D: Sides>(
        &self,
        setting: Setting,
        change: &OrderChange,
        sides: &D,
        places: usize,
    ) -> Result<Found, Refusal>
        ensures answers { ((s : AnySide) → D.lawful sides.now s) → Checked result (found_of (book_of (phase_in setting) self.now.terms self.now.next (P.last self.now.phase) (D.held sides.now) (λ us. band_in setting)) change.now.order) (first_of (change_checks change.now places (book_of (phase_in setting) self.now.terms self.now.next (P.last self.now.phase) (D.held sides.now) (λ us. band_in setting)))) }
        ensures turns { IfOk result (λ f. keeps_place change.now f.order ≡ false → self.now.next + 1 ≤ 1000001) }
    {
        check_member(change.member)?;
        check_price(&self.terms, change.price)?;
        check_lots(change.lots)?;
        check_places(setting, sides, places)?;
        self.check_found(setting, change, sides)
    }
}

// What a tape says before its first message.
ghost use Rattle.std.specs.Prelude.{◌≡◌};
ghost use Rattle.terms.specs.Setups.{IsSetupFrom, span_allowed, instrument_allowed, setup_numbers};

use crate::letter::{Make, Market};
use crate::limits::{LOTS_MAX, PRICE_MAX, TICK_MAX};
use crate::refusal::Refusal;
use std::convert::TryFrom;

// A least and a greatest number. Not one type with a band of prices, so that neither is taken for the other.
#[derive(Clone, Copy, Debug, PartialEq, Eq)]
pub struct Span {
    pub least: u32,
    pub greatest: u32,
}

impl Span {
    pub fn new(least: u32, greatest: u32) -> Span
        ensures { result ≡ record { least = least; greatest = greatest } }
    {
        Span { least, greatest }
    }

    // Whether both numbers are 1 to `max`, the least not above the greatest.
    pub fn is_allowed(&self, max: u32) -> bool
        ensures { result ≡ span_allowed max self.now }
    {
        (1..=self.greatest).contains(&self.least) && self.greatest <= max
    }
}

// What a book is opened with: the tick of its prices, and what a quote keeps to.
#[derive(Clone, Copy, Debug, PartialEq, Eq)]
pub struct Instrument {
    pub tick: u32,
    // how far the ask lies above the bid
    pub spread: Span,
    // the lots of each leg
    pub quote_lots: Span,
}

impl Instrument {
    // Whether tick, spreads and quote lots are inside their limits.
    pub fn is_allowed(&self) -> bool
        ensures { result ≡ instrument_allowed self.now }
    {
        (1..=TICK_MAX).contains(&self.tick)
            && self.spread.is_allowed(PRICE_MAX)
            && self.quote_lots.is_allowed(LOTS_MAX)
    }
}

// The set-up of a tape: the instrument, the floor and ceiling of the day, and the kinds of queue and range.
#[derive(Clone, Copy, Debug, PartialEq, Eq)]
pub struct Setup {
    pub instrument: Instrument,
    pub day: Span,
    pub make: Make,
    pub market: Market,
}

// The set-up with these nine numbers, in a tape's order, or a refusal where one is outside its limits.
impl TryFrom<[u32; 9]> for Setup {
    type Error = Refusal;

    ghost try_from_gives = { IsSetupFrom };

    fn try_from(numbers: [u32; 9]) -> Result<Setup, Refusal> {
        let [
            tick,
            least,
            greatest,
            few,
            many,
            floor,
            ceiling,
            make,
            market,
        ] = numbers;
        let instrument = Instrument {
            tick,
            spread: Span::new(least, greatest),
            quote_lots: Span::new(few, many),
        };
        let day = Span::new(floor, ceiling);
        // Flags, since both are questions that callers may ask without refusing.
        if !instrument.is_allowed() || !day.is_allowed(PRICE_MAX) {
            return Err(Refusal::OutsideLimits);
        }
        let make = Make::try_from(make)?;
        let market = Market::try_from(market)?;
        Ok(Setup {
            instrument,
            day,
            make,
            market,
        })
    }
}

// The nine numbers of a set-up, in a tape's order.
impl From<Setup> for [u32; 9] {
    ghost from_gives = { λ setup numbers. numbers ≡ setup_numbers setup };

    fn from(setup: Setup) -> [u32; 9] {
        let Instrument {
            tick,
            spread,
            quote_lots,
        } = setup.instrument;
        let day = setup.day;
        [
            tick,
            spread.least,
            spread.greatest,
            quote_lots.least,
            quote_lots.greatest,
            day.least,
            day.greatest,
            u32::from(setup.make),
            u32::from(setup.market),
        ]
    }
}

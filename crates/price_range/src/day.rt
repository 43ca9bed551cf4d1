// The day range, and day limits over another range.
ghost use Rattle.std.specs.Prelude.{◌≡◌, ◌≤◌, true, false, [], MatchResult, refl};
ghost use Rattle.terms.specs.Setups.{span_allowed};
ghost use Rattle.terms.specs.declared.refusal.Refusal.TheVariants.{OutsideLimits};
ghost use Rattle.price_range.specs.Bands.{day_band, common, Common};
ghost use Rattle.std.proofs.Common.{rules};

use crate::PriceRange;
use crate::band::Band;
use terms::limits::PRICE_MAX;
use terms::refusal::Refusal;
use terms::setup::Span;

// Floor to ceiling; it never moves.
#[derive(Drop)]
pub struct DayRange {
    day: Span,
    ghost proper: { day.least ≤ day.greatest },
}

impl DayRange {
    // Refused where floor and ceiling are outside their limits.
    pub fn new(day: Span) -> Result<DayRange, Refusal>
        ensures { MatchResult result (λ d. (span_allowed 100000 day ≡ true) × (d.day ≡ day)) (λ e. (span_allowed 100000 day ≡ false) × (e ≡ OutsideLimits)) }
    {
        // A flag, since it is a question that callers may ask without refusing.
        if !day.is_allowed(PRICE_MAX) {
            return Err(Refusal::OutsideLimits);
        }
        Ok(DayRange { day })
    }
}

impl PriceRange for DayRange {
    ghost answers = { λ s us. day_band s.day };

    ghost proper = { λ s us. s.proper };

    ghost backwards = { λ s us vs u h. refl };

    fn band(&self) -> Option<Band>
        ensures { result ≡ day_band self.now.day }
    {
        Some(Band::from(self.day))
    }

    fn tell(&mut self, _bid: u32, _ask: u32) {}
}

// The prices common to a day range and the range below, which is told what they are told.
#[derive(Drop)]
pub struct DayLimits<R> {
    range: DayRange,
    below: R,
}

impl<R: PriceRange + Drop> DayLimits<R> {
    // Refused where floor and ceiling are outside their limits.
    pub fn new(day: Span, below: R) -> Result<DayLimits<R>, Refusal>
        ensures { MatchResult result (λ d. (span_allowed 100000 day ≡ true) × (d.range.day ≡ day) × (d.below ≡ below)) (λ e. (span_allowed 100000 day ≡ false) × (e ≡ OutsideLimits)) }
    {
        let range = DayRange::new(day)?;
        Ok(DayLimits { range, below })
    }
}

impl<R: PriceRange> PriceRange for DayLimits<R> {
    ghost answers = { λ s us. common s.range.day (R.PriceRange.answers s.below us) };

    ghost proper = { Prim.search rules };

    ghost backwards = { Prim.search rules };

    fn band(&self) -> Option<Band>
        ensures value { result ≡ common self.now.range.day (R.PriceRange.answers self.now.below []) }
        ensures prices { Common self.now.range.day (R.PriceRange.answers self.now.below []) result }
    {
        let day = self.range.day;
        let band = self.below.band()?;
        let low = band.low.max(day.least);
        let high = band.high.min(day.greatest);
        (low <= high).then_some(Band { low, high })
    }

    fn tell(&mut self, bid: u32, ask: u32) {
        self.below.tell(bid, ask);
    }
}

// The quote range: none until a quote is told, then bid to ask.
ghost use Rattle.std.specs.Prelude.{◌≡◌, ◌≤◌, List, []};
ghost use Rattle.std.specs.Option.{ForSome};
ghost use Rattle.price_range.specs.Bands.{Update, quote_answers, last_quote};
ghost use Rattle.price_range.specs.Quotes.{quote_proper, quote_backwards};

use crate::PriceRange;
use crate::band::Band;

// The prices of the last quote, if there has been one.
#[derive(Drop)]
pub struct QuoteRange {
    last: Option<Band>,
    ghost proper: { ForSome last (λ b. b.low ≤ b.high) },
}

impl QuoteRange {
    // A range that has been told no quote.
    pub fn new() -> QuoteRange
        ensures { (us : List Update) → quote_answers result.last us ≡ last_quote us }
    {
        QuoteRange { last: None }
    }
}

impl PriceRange for QuoteRange {
    ghost answers = { λ s us. quote_answers s.last us };

    ghost proper = { λ s us. quote_proper s.last us s.proper };

    ghost backwards = { λ s us vs u h. quote_backwards _ us vs u h };

    fn band(&self) -> Option<Band>
        ensures { result ≡ quote_answers self.now.last [] }
    {
        self.last
    }

    fn tell(&mut self, bid: u32, ask: u32) {
        if bid <= ask {
            self.last = Some(Band {
                low: bid,
                high: ask,
            });
        }
    }
}

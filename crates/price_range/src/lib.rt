// Price ranges: the interface, and the three that are delivered.
#![tactic(auto)]

ghost use Rattle.std.specs.Prelude.{◌≡◌, ◌<◌, List, [], ◌∷◌, ◌++◌, Option};
ghost use Rattle.price_range.specs.declared.band.Band.{Band as AnyBand};
ghost use Rattle.price_range.specs.Bands.{Update, Proper};

pub mod band;
pub mod day;
pub mod quote;

use band::Band;

// A price range means its answer after each list of quote updates to come.
pub trait PriceRange {
    ghost answers: { Self → List Update → Option AnyBand };

    // The prices at this moment, or none.
    fn band(&self) -> Option<Band>
        ensures { result ≡ answers self.now [] };

    // Tells the range the bid and ask of an accepted quote.
    fn tell(&mut self, bid: u32, ask: u32)
        ensures { (us : List Update) → answers self.new us ≡ answers self.old (record { bid = bid; ask = ask } ∷ us) };

    // Low is never above high.
    ghost proper: { (s : Self) (us : List Update) → Proper (answers s us) };

    // A bid above its ask moves nothing, wherever it comes.
    ghost backwards: { (s : Self) (us vs : List Update) (u : Update) → u.ask < u.bid → answers s (us ++ (u ∷ vs)) ≡ answers s (us ++ vs) };
}

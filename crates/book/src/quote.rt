// The market maker's quote, and its renewal.
ghost use Rattle.std.specs.Prelude.{◌≡◌, ◌+◌, ◌≤◌, List, ◌∷◌, length, IfErr, None, OnErr, OnOk};
ghost use Rattle.terms.specs.declared.side.Side.{Side as AnySide};
ghost use Rattle.queue.specs.Held.{answer};
ghost use Rattle.price_range.specs.Bands.{Update};
ghost use Rattle.rules.specs.ByRule.{ByRule, QuoteReady, QuotePlaced, event_of};
ghost use Rattle.rules.specs.Calls as calls;
ghost use Rattle.rules.specs.Checks.{first_of, bid_of, ask_of, leg_checks, quote_checks, renew_checks};
ghost use Rattle.rules.specs.Rules.{update_of};
ghost use Rattle.rules.specs.Keeps.{Keeps};
ghost use Rattle.book.specs.Books.{book_in, waiting_book, trading_book, outcome_of, quote_outcome, quote_book};

use crate::checks::{
    check_lots, check_price, check_quote_lots, check_spread, check_table, check_turns, refuse_if,
};
use crate::lots::traded_lots;
use crate::phase::{Book, DayPhase, Trading, Waiting};
use crate::side::{holds_leg, is_full_without, lots_under, take_leg};
use crate::sides::Sides;
use crate::sweep::sweep;
use orders::order::Order;
use price_range::PriceRange;
use terms::message::{QuoteEntry, Quoted};
use terms::refusal::Refusal;
use terms::side::Side;
use terms::trade::{Answer, Trade};

// The number of the last quote's bid leg.
fn bid_of(quote: Option<Quoted>) -> Option<u32>
    ensures { result ≡ bid_of quote }
{
    quote.map(|q| q.bid)
}

// The number of its ask leg. Apart from the bid's: each is a word of the rules, and one function of a field no shorter.
fn ask_of(quote: Option<Quoted>) -> Option<u32>
    ensures { result ≡ ask_of quote }
{
    quote.map(|q| q.ask)
}

// A leg of a quote, an order of the market maker, who is member 0 in the rules.
fn leg(number: u32, price: u32, lots: u32) -> Order
    ensures { result ≡ record { number = number; member = 0; price = price; lots = lots; turn = number } }
{
    Order {
        number,
        member: 0,
        price,
        lots,
        turn: number,
    }
}

impl<P: DayPhase> Book<P> {
    // Two turns are left, each side has a place for its leg, and the turns are free; the old legs count as gone.
    fn check_legs<D: Sides>(&self, sides: &D) -> Result<(), Refusal>
        ensures answers { ((s : AnySide) → D.lawful sides.now s) → result ≡ answer (first_of (leg_checks self.now.next (P.last self.now.phase) (D.held sides.now Side.Buy) (D.held sides.now Side.Sell))) }
        ensures turns { OnOk result (self.now.next + 2 ≤ 1000001) }
    {
        check_turns(self.next, 2)?;
        let last = self.phase.last();
        let (bid, ask) = (bid_of(last), ask_of(last));
        refuse_if(
            is_full_without(sides, Side::Buy, bid) || is_full_without(sides, Side::Sell, ask),
            Refusal::QueueFull,
        )?;
        refuse_if(
            sides.is_taken(Side::Buy, self.next, bid)
                || sides.is_taken(Side::Sell, self.next + 1, ask),
            Refusal::AlreadyHeld,
        )
    }

    // The tests of a quote, in their order.
    fn check_quote<D: Sides>(
        &self,
        entry: &QuoteEntry,
        sides: &D,
        places: usize,
    ) -> Result<(), Refusal>
        ensures answers { ((s : AnySide) → D.lawful sides.now s) → result ≡ answer (first_of (quote_checks entry.now places (book_in P.phase P.last self.now (D.held sides.now) (λ us. None)))) }
        ensures turns { OnOk result (self.now.next + 2 ≤ 1000001) }
    {
        check_price(&self.terms, entry.bid_price)?;
        check_price(&self.terms, entry.ask_price)?;
        check_lots(entry.bid_lots)?;
        check_lots(entry.ask_lots)?;
        check_spread(&self.terms, entry)?;
        check_quote_lots(&self.terms, entry)?;
        check_table(sides, places)?;
        self.check_legs(sides)
    }

    // Places a quote: the old legs go, the range is told, both new legs rest, and what can meet does.
    // Says the new quote. That turns are left is asked for, and not kept by the type: each call takes some.
    fn place_quote<D: Sides, R: PriceRange>(
        &mut self,
        entry: QuoteEntry,
        sides: &mut D,
        range: &mut R,
        trades: &mut [Trade],
    ) -> (Quoted, Answer)
        requires { self.old.next + 2 ≤ 1000001 }
        ensures keeps { (s : AnySide) → D.lawful sides.old s → D.lawful sides.new s }
        ensures same { D.same_queues sides.old sides.new }
        ensures told { (us : List Update) → R.PriceRange.answers range.new us ≡ R.PriceRange.answers range.old (update_of entry ∷ us) }
        ensures quoted { result.0 ≡ record { entry = entry; bid = self.old.next; ask = self.old.next + 1 } }
        ensures next { self.new ≡ record self.old { next = self.old.next + 2 } }
        ensures places { ((s : AnySide) → D.lawful sides.old s) → QuoteReady (book_in P.phase P.last self.old (D.held sides.old) (R.PriceRange.answers range.old)) trades.old → QuotePlaced entry (book_in P.phase P.last self.old (D.held sides.old) (R.PriceRange.answers range.old)) result.1 trades.old trades.new (D.held sides.new Side.Buy) (D.held sides.new Side.Sell) }
    {
        let (bid, ask) = (self.next, self.next + 1);
        let old = self.phase.last();
        let cancelled = take_leg(sides, Side::Buy, bid_of(old))
            + take_leg(sides, Side::Sell, ask_of(old));
        range.tell(entry.bid_price, entry.ask_price);
        let _ = sides.put(Side::Buy, leg(bid, entry.bid_price, entry.bid_lots));
        let _ = sides.put(Side::Sell, leg(ask, entry.ask_price, entry.ask_lots));
        let count = sweep(range.band(), sides, trades);
        let resting = lots_under(sides, Side::Buy, bid) + lots_under(sides, Side::Sell, ask);
        self.next = bid + 2;
        let answer = Answer {
            number: bid,
            traded: traded_lots(&trades[0..count]),
            resting,
            cancelled,
            trades: count,
        };
        (Quoted { entry, bid, ask }, answer)
    }
}

impl Book<Waiting> {
    // Enters a quote: accepted, it leads to trading; refused, it hands the waiting book back.
    pub fn quote<D: Sides, R: PriceRange>(
        mut self,
        entry: QuoteEntry,
        sides: &mut D,
        range: &mut R,
        trades: &mut [Trade],
    ) -> Result<(Book<Trading>, Answer), (Book<Waiting>, Refusal)>
        ensures refused { IfErr result (λ e. (e.0 ≡ self) × (sides.new ≡ sides.old) × (range.new ≡ range.old) × (trades.new ≡ trades.old)) }
        ensures keeps { (s : AnySide) → D.lawful sides.old s → D.lawful sides.new s }
        ensures same { D.same_queues sides.old sides.new }
        ensures by_rule { ((s : AnySide) → D.lawful sides.old s) → ByRule (calls.quote entry (length trades.old)) (waiting_book self (D.held sides.old) (R.PriceRange.answers range.old)) (quote_outcome result) trades.old trades.new (quote_book result (D.held sides.new) (R.PriceRange.answers range.new)) }
        ensures day { ((s : AnySide) → D.lawful sides.old s) → Keeps (waiting_book self (D.held sides.old) (R.PriceRange.answers range.old)) (event_of (calls.quote entry (length trades.old)) (quote_outcome result) trades.new) (quote_book result (D.held sides.new) (R.PriceRange.answers range.new)) }
    {
        if let Err(refusal) = self.check_quote(&entry, sides, trades.len()) {
            return Err((self, refusal));
        }
        let (quote, answer) = self.place_quote(entry, sides, range, trades);
        let Book { terms, next, .. } = self;
        let trading = Book {
            terms,
            next,
            phase: Trading { quote },
        };
        Ok((trading, answer))
    }
}

impl Book<Trading> {
    // The tests of a renewal, in their order.
    fn check_renewal<D: Sides>(&self, sides: &D, places: usize) -> Result<(), Refusal>
        ensures answers { ((s : AnySide) → D.lawful sides.now s) → result ≡ answer (first_of (renew_checks places (trading_book self.now (D.held sides.now) (λ us. None)))) }
        ensures turns { OnOk result (self.now.next + 2 ≤ 1000001) }
    {
        check_table(sides, places)?;
        let last = self.phase.last();
        refuse_if(
            holds_leg(sides, Side::Buy, bid_of(last)) && holds_leg(sides, Side::Sell, ask_of(last)),
            Refusal::QuoteRests,
        )?;
        self.check_legs(sides)
    }

    // Enters a quote in the place of the last one.
    pub fn quote<D: Sides, R: PriceRange>(
        &mut self,
        entry: QuoteEntry,
        sides: &mut D,
        range: &mut R,
        trades: &mut [Trade],
    ) -> Result<Answer, Refusal>
        ensures refused { OnErr result ((self.new ≡ self.old) × (sides.new ≡ sides.old) × (range.new ≡ range.old) × (trades.new ≡ trades.old)) }
        ensures keeps { (s : AnySide) → D.lawful sides.old s → D.lawful sides.new s }
        ensures same { D.same_queues sides.old sides.new }
        ensures by_rule { ((s : AnySide) → D.lawful sides.old s) → ByRule (calls.quote entry (length trades.old)) (trading_book self.old (D.held sides.old) (R.PriceRange.answers range.old)) (outcome_of result) trades.old trades.new (trading_book self.new (D.held sides.new) (R.PriceRange.answers range.new)) }
        ensures day { ((s : AnySide) → D.lawful sides.old s) → Keeps (trading_book self.old (D.held sides.old) (R.PriceRange.answers range.old)) (event_of (calls.quote entry (length trades.old)) (outcome_of result) trades.new) (trading_book self.new (D.held sides.new) (R.PriceRange.answers range.new)) }
    {
        self.check_quote(&entry, sides, trades.len())?;
        let (quote, answer) = self.place_quote(entry, sides, range, trades);
        self.phase.quote = quote;
        Ok(answer)
    }

    // Enters the last quote again.
    pub fn renew<D: Sides, R: PriceRange>(
        &mut self,
        sides: &mut D,
        range: &mut R,
        trades: &mut [Trade],
    ) -> Result<Answer, Refusal>
        ensures refused { OnErr result ((self.new ≡ self.old) × (sides.new ≡ sides.old) × (range.new ≡ range.old) × (trades.new ≡ trades.old)) }
        ensures keeps { (s : AnySide) → D.lawful sides.old s → D.lawful sides.new s }
        ensures same { D.same_queues sides.old sides.new }
        ensures by_rule { ((s : AnySide) → D.lawful sides.old s) → ByRule (calls.renew (length trades.old)) (trading_book self.old (D.held sides.old) (R.PriceRange.answers range.old)) (outcome_of result) trades.old trades.new (trading_book self.new (D.held sides.new) (R.PriceRange.answers range.new)) }
        ensures day { ((s : AnySide) → D.lawful sides.old s) → Keeps (trading_book self.old (D.held sides.old) (R.PriceRange.answers range.old)) (event_of (calls.renew (length trades.old)) (outcome_of result) trades.new) (trading_book self.new (D.held sides.new) (R.PriceRange.answers range.new)) }
    {
        self.check_renewal(sides, trades.len())?;
        let entry = self.phase.quote.entry;
        let (quote, answer) = self.place_quote(entry, sides, range, trades);
        self.phase.quote = quote;
        Ok(answer)
    }
}

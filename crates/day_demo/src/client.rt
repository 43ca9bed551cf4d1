// A client of the book: whatever its calls answer, the laws of the day hold of what they leave.
ghost use Rattle.std.specs.Prelude.{IfOk};
ghost use Rattle.terms.specs.declared.side.Side.{Side as AnySide};
ghost use Rattle.rules.specs.Book.{Answers};
ghost use Rattle.book.specs.Books.{waiting_book, closed_book};
ghost use Rattle.book.specs.BySide.{side_held};
ghost use Rattle.day_demo.specs.Shown.{Shown};

use book::phase::{Book, Closed, Waiting};
use book::sides::{Sides, TwoQueues};
use orders::order::{BuyOrder, SellOrder};
use price_range::PriceRange;
use queue::Queue;
use terms::message::{OrderChange, OrderEntry, QuoteEntry};
use terms::refusal::Refusal;
use terms::setup::Instrument;
use terms::side::{Side, TimeInForce};
use terms::trade::Trade;

// Quotes, orders, changes, halts, changes, resumes, quotes, renews and ends. Refused calls are part of the day.
fn trading_day<D: Sides, R: PriceRange>(
    waiting: Book<Waiting>,
    quote: QuoteEntry,
    order: OrderEntry,
    change: OrderChange,
    sides: &mut D,
    range: &mut R,
    trades: &mut [Trade],
) -> Result<Book<Closed>, Refusal>
    ensures same { D.same_queues sides.old sides.new }
    ensures day { IfOk result (λ c. ((s : AnySide) → D.lawful sides.old s) → (ρ : Answers) → Shown ρ (waiting_book waiting (D.held sides.old) (R.PriceRange.answers range.old)) → Shown ρ (closed_book c (D.held sides.new) (R.PriceRange.answers range.new))) }
{
    // By match here and below: a refused quote hands the waiting book back, and this client lets it go.
    let mut trading = match waiting.quote(quote, sides, range, trades) {
        Ok((trading, _)) => trading,
        Err((_, refusal)) => return Err(refusal),
    };
    let _ = trading.order(Side::Buy, TimeInForce::Day, order, sides, range, trades);
    let _ = trading.change(change, sides, range, trades);
    let mut halted = trading.halt();
    let _ = halted.change(change, sides);
    let mut trading = match halted.resume().quote(quote, sides, range, trades) {
        Ok((trading, _)) => trading,
        Err((_, refusal)) => return Err(refusal),
    };
    let _ = trading.renew(sides, range, trades);
    let (closed, _) = trading.end(sides);
    Ok(closed)
}

// Opens a book on two empty queues, and goes through such a day. Both queues stay the caller's.
pub fn short_day<B: Queue<BuyOrder>, S: Queue<SellOrder>, R: PriceRange>(
    terms: Instrument,
    quote: QuoteEntry,
    order: OrderEntry,
    change: OrderChange,
    buys: &mut B,
    sells: &mut S,
    range: &mut R,
    trades: &mut [Trade],
) -> Result<Book<Closed>, Refusal>
    ensures { IfOk result (λ c. Shown (R.PriceRange.answers range.old) (closed_book c (side_held (B.Queue.held buys.new) (S.Queue.held sells.new)) (R.PriceRange.answers range.new))) }
{
    let waiting = Book::open(terms, buys, sells)?;
    let mut sides = TwoQueues { buys, sells };
    trading_day(waiting, quote, order, change, &mut sides, range, trades)
}

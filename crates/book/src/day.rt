// The day from phase to phase: opening, halt, resumption, end.
ghost use Rattle.std.specs.Prelude.{◌≡◌, [], IfOk, IfErr, Some, None, OnOk};
ghost use Rattle.queue.specs.Held.{Held};
ghost use Rattle.terms.specs.declared.side.Side.{Side as AnySide};
ghost use Rattle.orders.specs.declared.order.Order.{Order as AnyOrder};
ghost use Rattle.rules.specs.Book.{Answers};
ghost use Rattle.rules.specs.ByRule.{ByRule, event_of};
ghost use Rattle.rules.specs.Calls as calls;
ghost use Rattle.rules.specs.Keeps.{Keeps};
ghost use Rattle.rules.specs.Laws.{Lawful};
ghost use Rattle.rules.specs.Opening.{opening_refusal, nothing, ended, emptied};
ghost use Rattle.rules.specs.Rules.{Day};
ghost use Rattle.book.specs.Books.{book_in, waiting_book, trading_book, halted_book, closed_book};
ghost use Rattle.book.specs.BySide.{plain_buys, plain_sells, side_held};

use crate::call::NOTHING;
use crate::checks::refuse_if;
use crate::phase::{Book, Closed, DayPhase, Halted, MayEnd, Trading, Waiting};
use crate::side::is_fit;
use crate::sides::Sides;
use orders::order::{BuyOrder, SellOrder};
use queue::Queue;
use terms::refusal::Refusal;
use terms::setup::Instrument;
use terms::side::Side;
use terms::trade::Answer;

impl Book<Waiting> {
    // Opens a book on two empty queues, which it only looks at.
    // The two are taken apart: `TwoQueues` borrows both as `&mut`, which would ask more of who only looks.
    pub fn open<B: Queue<BuyOrder>, S: Queue<SellOrder>>(
        terms: Instrument,
        buys: &B,
        sells: &S,
    ) -> Result<Book<Waiting>, Refusal>
        ensures refused { IfErr result (λ e. opening_refusal terms (plain_buys (B.Queue.held buys.now)) (plain_sells (S.Queue.held sells.now)) ≡ Some e) }
        ensures opens { IfOk result (λ w. (opening_refusal terms (plain_buys (B.Queue.held buys.now)) (plain_sells (S.Queue.held sells.now)) ≡ None) × (w ≡ record { terms = terms; next = 1; phase = record { last = None } })) }
        ensures lawful { OnOk result (B.Queue.lawful buys.now × S.Queue.lawful sells.now) }
        ensures day { IfOk result (λ w. (range : Answers) → Day range [] (waiting_book w (side_held (B.Queue.held buys.now) (S.Queue.held sells.now)) range) × Lawful range [] (waiting_book w (side_held (B.Queue.held buys.now) (S.Queue.held sells.now)) range)) }
    {
        refuse_if(!terms.is_allowed(), Refusal::OutsideLimits)?;
        refuse_if(!is_fit(buys) || !is_fit(sells), Refusal::UnfitQueue)?;
        Ok(Book {
            terms,
            next: 1,
            phase: Waiting { last: None },
        })
    }
}

impl Book<Trading> {
    // Halts trading. The trading phase is gone.
    pub fn halt(self) -> Book<Halted>
        ensures by_rule { (held : AnySide → Held AnyOrder) (range : Answers) → ByRule calls.halt (trading_book self held range) (calls.answered nothing) [] [] (halted_book result held range) }
        ensures day { (held : AnySide → Held AnyOrder) (range : Answers) → Keeps (trading_book self held range) (event_of calls.halt (calls.answered nothing) []) (halted_book result held range) }
    {
        let Book { terms, next, phase } = self;
        let Trading { quote } = phase;
        Book {
            terms,
            next,
            phase: Halted { last: quote },
        }
    }
}

impl Book<Halted> {
    // Resumes the day. The book is kept, and waits for a quote.
    pub fn resume(self) -> Book<Waiting>
        ensures by_rule { (held : AnySide → Held AnyOrder) (range : Answers) → ByRule calls.resume (halted_book self held range) (calls.answered nothing) [] [] (waiting_book result held range) }
        ensures day { (held : AnySide → Held AnyOrder) (range : Answers) → Keeps (halted_book self held range) (event_of calls.resume (calls.answered nothing) []) (waiting_book result held range) }
    {
        let Book { terms, next, phase } = self;
        let Halted { last } = phase;
        Book {
            terms,
            next,
            phase: Waiting { last: Some(last) },
        }
    }
}

// Cancels all that rests.
fn end_day<D: Sides>(sides: &mut D) -> Answer
    ensures keeps { (s : AnySide) → D.lawful sides.old s → D.lawful sides.new s }
    ensures same { D.same_queues sides.old sides.new }
    ensures answers { ((s : AnySide) → D.lawful sides.old s) → result ≡ ended (D.held sides.old Side.Buy) (D.held sides.old Side.Sell) }
    ensures leaves { ((s : AnySide) → D.lawful sides.old s) → (D.held sides.new Side.Buy ≡ emptied (D.held sides.old Side.Buy)) × (D.held sides.new Side.Sell ≡ emptied (D.held sides.old Side.Sell)) }
{
    let cancelled = sides.lots(Side::Buy) + sides.lots(Side::Sell);
    sides.clear(Side::Buy);
    sides.clear(Side::Sell);
    Answer {
        cancelled,
        ..NOTHING
    }
}

impl<P: MayEnd> Book<P> {
    // Ends the day: what rests is cancelled, legs included.
    pub fn end<D: Sides>(self, sides: &mut D) -> (Book<Closed>, Answer)
        ensures keeps { (s : AnySide) → D.lawful sides.old s → D.lawful sides.new s }
        ensures same { D.same_queues sides.old sides.new }
        ensures by_rule { ((s : AnySide) → D.lawful sides.old s) → ((range : Answers) → ByRule calls.end (book_in P.phase P.last self (D.held sides.old) range) (calls.answered result.1) [] [] (closed_book result.0 (D.held sides.new) range)) }
        ensures day { ((s : AnySide) → D.lawful sides.old s) → ((range : Answers) → Keeps (book_in P.phase P.last self (D.held sides.old) range) (event_of calls.end (calls.answered result.1) []) (closed_book result.0 (D.held sides.new) range)) }
    {
        let Book { terms, next, phase } = self;
        let last = phase.last();
        let answer = end_day(sides);
        let closed = Book {
            terms,
            next,
            phase: Closed { last },
        };
        (closed, answer)
    }
}

// Every call on every phase: what the phase does not allow is refused.
ghost use Rattle.std.specs.Prelude.{◌≡◌, true, List, [], length, IsOk, OnErr};
ghost use Rattle.rules.specs.Book.{Answers};
ghost use Rattle.rules.specs.ByRule.{ByRule, event_of};
ghost use Rattle.rules.specs.Calls as calls;
ghost use Rattle.rules.specs.Keeps.{Keeps};
ghost use Rattle.terms.specs.declared.trade.Trade.{Trade as AnyTrade};
ghost use Rattle.book.specs.Books.{book_in, waiting_book, trading_book, halted_book, outcome_of};
ghost use Rattle.book.specs.BySide.{side_held};
ghost use Rattle.terms.specs.declared.side.Side.{Side as AnySide};
ghost use Rattle.book.specs.Dispatch.{call_of, message_of, replied, phase_book, stays};

use crate::phase::{Book, Closed, Halted, MayEnd, Trading, Waiting};
use crate::sides::Sides;
use orders::order::{BuyOrder, SellOrder};
use price_range::PriceRange;
use queue::Queue;
use terms::message::Message;
use terms::refusal::Refusal;
use terms::side::Side::{Buy, Sell};
use terms::side::TimeInForce::{Day, Immediate};
use terms::trade::{Answer, Trade};

// What can be asked of a book.
#[derive(Clone, Copy, Debug, PartialEq, Eq)]
pub enum Call {
    Message(Message),
    Resting,
}

// What comes back: an answer, or the buying and the selling lots that rest.
#[derive(Clone, Copy, Debug, PartialEq, Eq)]
pub enum Reply {
    Answer(Answer),
    Resting(u128, u128),
}

// What a call answers that has nothing to count.
pub(crate) const NOTHING: Answer = Answer {
    number: 0,
    traded: 0,
    resting: 0,
    cancelled: 0,
    trades: 0,
};

// A phase of the day.
#[derive(Drop)]
pub enum Phase {
    Waiting(Book<Waiting>),
    Trading(Book<Trading>),
    Halted(Book<Halted>),
    Closed(Book<Closed>),
}

impl<P: MayEnd> Book<P> {
    // The end of the day as a reply.
    fn ended<D: Sides>(self, sides: &mut D) -> (Phase, Result<Reply, Refusal>)
        ensures answers { IsOk result.1 }
        ensures keeps { (s : AnySide) → D.lawful sides.old s → D.lawful sides.new s }
        ensures same { D.same_queues sides.old sides.new }
        ensures by_rule { ((s : AnySide) → D.lawful sides.old s) → (range : Answers) (table : List AnyTrade) → ByRule calls.end (book_in P.phase P.last self (D.held sides.old) range) (replied result.1) table table (phase_book result.0 (D.held sides.new) range) }
    {
        let (closed, answer) = self.end(sides);
        (Phase::Closed(closed), Ok(Reply::Answer(answer)))
    }
}

impl Book<Waiting> {
    // Any message on this phase. Written for each phase apart, since each allows other messages.
    // Sides, range and trades come one by one, since a call takes only what it uses: `cancel` and `end` no range or
    // trades, a change no range to tell.
    fn message<D: Sides, R: PriceRange>(
        self,
        message: Message,
        sides: &mut D,
        range: &mut R,
        trades: &mut [Trade],
    ) -> (Phase, Result<Reply, Refusal>)
        ensures refused { OnErr result.1 ((result.0 ≡ Phase.Waiting self) × (sides.new ≡ sides.old) × (range.new ≡ range.old) × (trades.new ≡ trades.old)) }
        ensures keeps { (s : AnySide) → D.lawful sides.old s → D.lawful sides.new s }
        ensures same { D.same_queues sides.old sides.new }
        ensures by_rule { ((s : AnySide) → D.lawful sides.old s) → ByRule (message_of message (length trades.old)) (waiting_book self (D.held sides.old) (R.PriceRange.answers range.old)) (replied result.1) trades.old trades.new (phase_book result.0 (D.held sides.new) (R.PriceRange.answers range.new)) }
    {
        match message {
            Message::Quote(entry) => match self.quote(entry, sides, range, trades) {
                Ok((trading, answer)) => (Phase::Trading(trading), Ok(Reply::Answer(answer))),
                Err((waiting, refusal)) => (Phase::Waiting(waiting), Err(refusal)),
            },
            Message::End => self.ended(sides),
            _ => (Phase::Waiting(self), Err(Refusal::WrongPhase)),
        }
    }
}

impl Book<Trading> {
    // A message that leaves the book trading; any other is refused.
    fn trade<D: Sides, R: PriceRange>(
        &mut self,
        message: Message,
        sides: &mut D,
        range: &mut R,
        trades: &mut [Trade],
    ) -> Result<Answer, Refusal>
        ensures refused { OnErr result ((self.new ≡ self.old) × (sides.new ≡ sides.old) × (range.new ≡ range.old) × (trades.new ≡ trades.old)) }
        ensures keeps { (s : AnySide) → D.lawful sides.old s → D.lawful sides.new s }
        ensures same { D.same_queues sides.old sides.new }
        ensures by_rule { ((s : AnySide) → D.lawful sides.old s) → stays message ≡ true → ByRule (message_of message (length trades.old)) (trading_book self.old (D.held sides.old) (R.PriceRange.answers range.old)) (outcome_of result) trades.old trades.new (trading_book self.new (D.held sides.new) (R.PriceRange.answers range.new)) }
    {
        match message {
            // An arm a letter: a message has a case for each, and the four share their body.
            Message::Buy(entry) => self.order(Buy, Day, entry, sides, range, trades),
            Message::Sell(entry) => self.order(Sell, Day, entry, sides, range, trades),
            Message::ImmediateBuy(entry) => self.order(Buy, Immediate, entry, sides, range, trades),
            Message::ImmediateSell(entry) => self.order(
                Sell, Immediate, entry, sides, range, trades,
            ),
            Message::Change(change) => self.change(change, sides, range, trades),
            Message::Cancel(cancel) => self.cancel(cancel, sides),
            Message::Quote(entry) => self.quote(entry, sides, range, trades),
            Message::Renew => self.renew(sides, range, trades),
            Message::Halt | Message::Resume | Message::End => Err(Refusal::WrongPhase),
        }
    }

    // Any message on this phase.
    fn message<D: Sides, R: PriceRange>(
        mut self,
        message: Message,
        sides: &mut D,
        range: &mut R,
        trades: &mut [Trade],
    ) -> (Phase, Result<Reply, Refusal>)
        ensures refused { OnErr result.1 ((result.0 ≡ Phase.Trading self) × (sides.new ≡ sides.old) × (range.new ≡ range.old) × (trades.new ≡ trades.old)) }
        ensures keeps { (s : AnySide) → D.lawful sides.old s → D.lawful sides.new s }
        ensures same { D.same_queues sides.old sides.new }
        ensures by_rule { ((s : AnySide) → D.lawful sides.old s) → ByRule (message_of message (length trades.old)) (trading_book self (D.held sides.old) (R.PriceRange.answers range.old)) (replied result.1) trades.old trades.new (phase_book result.0 (D.held sides.new) (R.PriceRange.answers range.new)) }
    {
        match message {
            Message::Halt => (Phase::Halted(self.halt()), Ok(Reply::Answer(NOTHING))),
            Message::End => self.ended(sides),
            Message::Resume => (Phase::Trading(self), Err(Refusal::WrongPhase)),
            _ => {
                let result = self.trade(message, sides, range, trades);
                (Phase::Trading(self), result.map(Reply::Answer))
            }
        }
    }
}

impl Book<Halted> {
    // Any message on this phase.
    fn message<D: Sides, R: PriceRange>(
        mut self,
        message: Message,
        sides: &mut D,
        range: &mut R,
        trades: &mut [Trade],
    ) -> (Phase, Result<Reply, Refusal>)
        ensures refused { OnErr result.1 ((result.0 ≡ Phase.Halted self) × (sides.new ≡ sides.old) × (range.new ≡ range.old) × (trades.new ≡ trades.old)) }
        ensures keeps { (s : AnySide) → D.lawful sides.old s → D.lawful sides.new s }
        ensures same { D.same_queues sides.old sides.new }
        ensures by_rule { ((s : AnySide) → D.lawful sides.old s) → ByRule (message_of message (length trades.old)) (halted_book self (D.held sides.old) (R.PriceRange.answers range.old)) (replied result.1) trades.old trades.new (phase_book result.0 (D.held sides.new) (R.PriceRange.answers range.new)) }
    {
        match message {
            Message::Change(change) => {
                let result = self.change(change, sides);
                (Phase::Halted(self), result.map(Reply::Answer))
            }
            Message::Cancel(cancel) => {
                let result = self.cancel(cancel, sides);
                (Phase::Halted(self), result.map(Reply::Answer))
            }
            Message::Resume => (Phase::Waiting(self.resume()), Ok(Reply::Answer(NOTHING))),
            Message::End => self.ended(sides),
            _ => (Phase::Halted(self), Err(Refusal::WrongPhase)),
        }
    }
}

impl Phase {
    // Any message on any phase.
    fn message<D: Sides, R: PriceRange>(
        self,
        message: Message,
        sides: &mut D,
        range: &mut R,
        trades: &mut [Trade],
    ) -> (Phase, Result<Reply, Refusal>)
        ensures refused { OnErr result.1 ((result.0 ≡ self) × (sides.new ≡ sides.old) × (range.new ≡ range.old) × (trades.new ≡ trades.old)) }
        ensures keeps { (s : AnySide) → D.lawful sides.old s → D.lawful sides.new s }
        ensures same { D.same_queues sides.old sides.new }
        ensures by_rule { ((s : AnySide) → D.lawful sides.old s) → ByRule (message_of message (length trades.old)) (phase_book self (D.held sides.old) (R.PriceRange.answers range.old)) (replied result.1) trades.old trades.new (phase_book result.0 (D.held sides.new) (R.PriceRange.answers range.new)) }
    {
        match self {
            Phase::Waiting(waiting) => waiting.message(message, sides, range, trades),
            Phase::Trading(trading) => trading.message(message, sides, range, trades),
            Phase::Halted(halted) => halted.message(message, sides, range, trades),
            Phase::Closed(closed) => (Phase::Closed(closed), Err(Refusal::WrongPhase)),
        }
    }

    // The buying lots and the selling lots that rest. It only looks at the two queues.
    // The two are taken apart: `TwoQueues` borrows both as `&mut`, which would ask more of who only looks.
    pub fn resting<B: Queue<BuyOrder>, S: Queue<SellOrder>>(
        &self,
        buys: &B,
        sells: &S,
    ) -> (u128, u128)
        ensures by_rule { B.Queue.lawful buys.now → S.Queue.lawful sells.now → ((range : Answers) → ByRule calls.resting (phase_book self.now (side_held (B.Queue.held buys.now) (S.Queue.held sells.now)) range) (calls.lots result.0 result.1) [] [] (phase_book self.now (side_held (B.Queue.held buys.now) (S.Queue.held sells.now)) range)) }
        ensures day { B.Queue.lawful buys.now → S.Queue.lawful sells.now → ((range : Answers) → Keeps (phase_book self.now (side_held (B.Queue.held buys.now) (S.Queue.held sells.now)) range) (event_of calls.resting (calls.lots result.0 result.1) []) (phase_book self.now (side_held (B.Queue.held buys.now) (S.Queue.held sells.now)) range)) }
    {
        match self {
            // Four arms, since the phases are four types.
            Phase::Waiting(waiting) => waiting.resting(buys, sells),
            Phase::Trading(trading) => trading.resting(buys, sells),
            Phase::Halted(halted) => halted.resting(buys, sells),
            Phase::Closed(closed) => closed.resting(buys, sells),
        }
    }

    // Any call on any phase. What the phase does not allow is refused.
    pub fn call<D: Sides, R: PriceRange>(
        self,
        call: Call,
        sides: &mut D,
        range: &mut R,
        trades: &mut [Trade],
    ) -> (Phase, Result<Reply, Refusal>)
        ensures refused { OnErr result.1 ((result.0 ≡ self) × (sides.new ≡ sides.old) × (range.new ≡ range.old) × (trades.new ≡ trades.old)) }
        ensures keeps { (s : AnySide) → D.lawful sides.old s → D.lawful sides.new s }
        ensures same { D.same_queues sides.old sides.new }
        ensures by_rule { ((s : AnySide) → D.lawful sides.old s) → ByRule (call_of call (length trades.old)) (phase_book self (D.held sides.old) (R.PriceRange.answers range.old)) (replied result.1) trades.old trades.new (phase_book result.0 (D.held sides.new) (R.PriceRange.answers range.new)) }
        ensures day { ((s : AnySide) → D.lawful sides.old s) → Keeps (phase_book self (D.held sides.old) (R.PriceRange.answers range.old)) (event_of (call_of call (length trades.old)) (replied result.1) trades.new) (phase_book result.0 (D.held sides.new) (R.PriceRange.answers range.new)) }
    {
        match call {
            Call::Message(message) => self.message(message, sides, range, trades),
            Call::Resting => {
                let (buying, selling) = (sides.lots(Buy), sides.lots(Sell));
                (self, Ok(Reply::Resting(buying, selling)))
            }
        }
    }
}

// A book, and the phases of its day: moved values of plain numbers.
ghost use Rattle.std.specs.Prelude.{◌≡◌, true, Some, Option as AnyOption, refl};
ghost use Rattle.terms.specs.declared.message.OrderCancel.{OrderCancel as AnyCancel};
ghost use Rattle.terms.specs.declared.message.Quoted.{Quoted as AnyQuoted};
ghost use Rattle.rules.specs.Book.{Phase as AnyPhase, waiting, trading, halted, closed};
ghost use Rattle.rules.specs.Calls as calls;
ghost use Rattle.rules.specs.Checks.{allows};

use terms::message::Quoted;
use terms::setup::Instrument;

// A book in a phase.
#[derive(Drop)]
pub struct Book<P> {
    pub(crate) terms: Instrument,
    // the next turn
    pub(crate) next: u32,
    pub(crate) phase: P,
}

// A phase of the day, and what it knows of the last accepted quote.
pub trait DayPhase: Drop {
    ghost phase: { AnyPhase };

    ghost last: { Self → AnyOption AnyQuoted };

    fn last(&self) -> Option<Quoted>
        ensures { result ≡ last self.now };
}

// A phase in which the day may end.
pub trait MayEnd: DayPhase {
    ghost may_end: { allows Self.phase calls.end ≡ true };
}

// A phase in which what rests of an order may be cancelled.
pub trait MayCancel: DayPhase {
    ghost may_cancel: { (c : AnyCancel) → allows Self.phase (calls.cancel c) ≡ true };
}

// No quote is in force: the book was opened, or resumed after a halt. There may have been a quote.
#[derive(Drop)]
pub struct Waiting {
    pub(crate) last: Option<Quoted>,
}

// A quote was accepted, and trading goes on.
#[derive(Drop)]
pub struct Trading {
    pub(crate) quote: Quoted,
}

// Trading was halted; orders rest. It holds what `Trading` does, and is a type of its own so that the build turns away
// a call that the phase does not allow.
#[derive(Drop)]
pub struct Halted {
    pub(crate) last: Quoted,
}

// The day has ended. A type apart from `Waiting` for that reason too.
#[derive(Drop)]
pub struct Closed {
    pub(crate) last: Option<Quoted>,
}

impl DayPhase for Waiting {
    ghost phase = { waiting };

    ghost last = { λ p. p.last };

    fn last(&self) -> Option<Quoted> {
        self.last
    }
}

impl DayPhase for Trading {
    ghost phase = { trading };

    ghost last = { λ p. Some p.quote };

    fn last(&self) -> Option<Quoted> {
        Some(self.quote)
    }
}

impl DayPhase for Halted {
    ghost phase = { halted };

    ghost last = { λ p. Some p.last };

    fn last(&self) -> Option<Quoted> {
        Some(self.last)
    }
}

impl DayPhase for Closed {
    ghost phase = { closed };

    ghost last = { λ p. p.last };

    fn last(&self) -> Option<Quoted> {
        self.last
    }
}

impl MayEnd for Waiting {
    ghost may_end = { refl };
}

impl MayEnd for Trading {
    ghost may_end = { refl };
}

impl MayEnd for Halted {
    ghost may_end = { refl };
}

impl MayCancel for Trading {
    ghost may_cancel = { λ c. refl };
}

impl MayCancel for Halted {
    ghost may_cancel = { λ c. refl };
}

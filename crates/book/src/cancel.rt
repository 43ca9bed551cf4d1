// Cancellation.
ghost use Rattle.std.specs.Prelude.{◌≡◌, ℕ, true, [], Option as AnyOption, OnErr};
ghost use Rattle.terms.specs.declared.message.Quoted.{Quoted as AnyQuoted};
ghost use Rattle.terms.specs.declared.setup.Instrument.{Instrument as AnyInstrument};
ghost use Rattle.terms.specs.declared.side.Side.{Side as AnySide};
ghost use Rattle.rules.specs.Book.{Answers, Phase as AnyPhase};
ghost use Rattle.rules.specs.ByRule.{ByRule, event_of};
ghost use Rattle.rules.specs.Calls as calls;
ghost use Rattle.rules.specs.Checks.{allows};
ghost use Rattle.rules.specs.Keeps.{Keeps};
ghost use Rattle.book.specs.Books.{book_of, book_in, outcome_of};

use crate::call::NOTHING;
use crate::checks::{check_member, refuse_if};
use crate::find::find_order;
use crate::phase::{Book, MayCancel};
use crate::sides::Sides;
use terms::message::OrderCancel;
use terms::refusal::Refusal;
use terms::trade::Answer;

// Takes out what rests of a member's order.
fn cancel_order<D: Sides>(cancel: OrderCancel, sides: &mut D) -> Result<Answer, Refusal>
    ensures refused { OnErr result ((sides.new ≡ sides.old)) }
    ensures keeps { (s : AnySide) → D.lawful sides.old s → D.lawful sides.new s }
    ensures same { D.same_queues sides.old sides.new }
    ensures cancels { ((s : AnySide) → D.lawful sides.old s) → ((p : AnyPhase) (terms : AnyInstrument) (next : ℕ) (quote : AnyOption AnyQuoted) (range : Answers) → allows p (calls.cancel cancel) ≡ true → ByRule (calls.cancel cancel) (book_of p terms next quote (D.held sides.old) range) (outcome_of result) [] [] (book_of p terms next quote (D.held sides.new) range)) }
{
    check_member(cancel.member)?;
    let Some(found) = find_order(cancel.order, sides) else {
        return Err(Refusal::NotResting);
    };
    refuse_if(found.order.member != cancel.member, Refusal::NotOwner)?;
    let _ = sides.take(found.side, cancel.order);
    Ok(Answer {
        number: cancel.order,
        cancelled: u128::from(found.order.lots),
        ..NOTHING
    })
}

impl<P: MayCancel> Book<P> {
    // Cancels what rests of a member's order.
    pub fn cancel<D: Sides>(&self, cancel: OrderCancel, sides: &mut D) -> Result<Answer, Refusal>
        ensures refused { OnErr result ((sides.new ≡ sides.old)) }
        ensures keeps { (s : AnySide) → D.lawful sides.old s → D.lawful sides.new s }
        ensures same { D.same_queues sides.old sides.new }
        ensures by_rule { ((s : AnySide) → D.lawful sides.old s) → ((range : Answers) → ByRule (calls.cancel cancel) (book_in P.phase P.last self.now (D.held sides.old) range) (outcome_of result) [] [] (book_in P.phase P.last self.now (D.held sides.new) range)) }
        ensures day { ((s : AnySide) → D.lawful sides.old s) → ((range : Answers) → Keeps (book_in P.phase P.last self.now (D.held sides.old) range) (event_of (calls.cancel cancel) (outcome_of result) []) (book_in P.phase P.last self.now (D.held sides.new) range)) }
    {
        cancel_order(cancel, sides)
    }
}

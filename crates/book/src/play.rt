// A list of calls, one after the other.
ghost use Rattle.std.specs.Prelude.{◌≡◌, List, length};
ghost use Rattle.terms.specs.declared.side.Side.{Side as AnySide};
ghost use Rattle.rules.specs.Book.{Answers};
ghost use Rattle.rules.specs.Calls as rules;
ghost use Rattle.rules.specs.Laws.{Lawful};
ghost use Rattle.rules.specs.Rules.{Day, after, table_after, history};
ghost use Rattle.book.specs.Dispatch.{calls_of, phase_book};

use crate::call::{Call, Phase};
use crate::sides::Sides;
use price_range::PriceRange;
use terms::trade::Trade;

// Plays all calls on a book. A refused one changes nothing, and the next follows. The last trades stay in the table.
pub fn play<D: Sides, R: PriceRange>(
    phase: Phase,
    calls: &[Call],
    sides: &mut D,
    range: &mut R,
    trades: &mut [Trade],
) -> Phase
    ensures keeps { (s : AnySide) → D.lawful sides.old s → D.lawful sides.new s }
    ensures same { D.same_queues sides.old sides.new }
    ensures by_rule { ((s : AnySide) → D.lawful sides.old s) → (phase_book result (D.held sides.new) (R.PriceRange.answers range.new) ≡ after (calls_of calls.now (length trades.old)) (phase_book phase (D.held sides.old) (R.PriceRange.answers range.old))) × (trades.new ≡ table_after (calls_of calls.now (length trades.old)) (phase_book phase (D.held sides.old) (R.PriceRange.answers range.old)) trades.old) }
    ensures day { ((s : AnySide) → D.lawful sides.old s) → ((range₀ : Answers) (h : List rules.Event) → Day range₀ h (phase_book phase (D.held sides.old) (R.PriceRange.answers range.old)) → Day range₀ (history (calls_of calls.now (length trades.old)) (phase_book phase (D.held sides.old) (R.PriceRange.answers range.old)) h) (phase_book result (D.held sides.new) (R.PriceRange.answers range.new)) × Lawful range₀ (history (calls_of calls.now (length trades.old)) (phase_book phase (D.held sides.old) (R.PriceRange.answers range.old)) h) (phase_book result (D.held sides.new) (R.PriceRange.answers range.new))) }
{
    let mut phase = phase;
    for call in calls {
        let (after, _) = phase.call(*call, sides, range, trades);
        phase = after;
    }
    phase
}

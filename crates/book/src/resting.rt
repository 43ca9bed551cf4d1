// The resting question: the buying lots and the selling lots, in every phase.
ghost use Rattle.std.specs.Prelude.{◌≡◌, []};
ghost use Rattle.rules.specs.Book.{Answers, resting_lots};
ghost use Rattle.rules.specs.ByRule.{ByRule, event_of};
ghost use Rattle.rules.specs.Calls as calls;
ghost use Rattle.rules.specs.Keeps.{Keeps};
ghost use Rattle.book.specs.Books.{book_in};
ghost use Rattle.book.specs.BySide.{plain_buys, plain_sells, side_held};

use crate::lots::resting_lots;
use crate::phase::{Book, DayPhase};
use orders::order::{BuyOrder, SellOrder};
use queue::Queue;

// The lots that rest on both queues.
// The two are taken apart: `TwoQueues` borrows both as `&mut`, which would ask more of who only looks.
fn both_sides<B: Queue<BuyOrder>, S: Queue<SellOrder>>(buys: &B, sells: &S) -> (u128, u128)
    ensures { B.Queue.lawful buys.now → S.Queue.lawful sells.now → result ≡ (resting_lots (plain_buys (B.Queue.held buys.now)).elements, resting_lots (plain_sells (S.Queue.held sells.now)).elements) }
{
    (resting_lots(buys), resting_lots(sells))
}

impl<P: DayPhase> Book<P> {
    // The buying lots and the selling lots that rest, in every phase. It only looks at the two queues.
    // The two are taken apart: `TwoQueues` borrows both as `&mut`, which would ask more of who only looks.
    pub fn resting<B: Queue<BuyOrder>, S: Queue<SellOrder>>(
        &self,
        buys: &B,
        sells: &S,
    ) -> (u128, u128)
        ensures by_rule { B.Queue.lawful buys.now → S.Queue.lawful sells.now → ((range : Answers) → ByRule calls.resting (book_in P.phase P.last self.now (side_held (B.Queue.held buys.now) (S.Queue.held sells.now)) range) (calls.lots result.0 result.1) [] [] (book_in P.phase P.last self.now (side_held (B.Queue.held buys.now) (S.Queue.held sells.now)) range)) }
        ensures day { B.Queue.lawful buys.now → S.Queue.lawful sells.now → ((range : Answers) → Keeps (book_in P.phase P.last self.now (side_held (B.Queue.held buys.now) (S.Queue.held sells.now)) range) (event_of calls.resting (calls.lots result.0 result.1) []) (book_in P.phase P.last self.now (side_held (B.Queue.held buys.now) (S.Queue.held sells.now)) range)) }
    {
        both_sides(buys, sells)
    }
}

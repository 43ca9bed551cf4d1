// Sums of lots. They are wide enough for any table and any queue.
ghost use Rattle.std.specs.Prelude.{◌≡◌, ◌^◌, ◌<◌, map};
ghost use Rattle.rules.specs.Book.{resting_lots, traded_lots};

use orders::order::SideOrder;
use orders::side::OneSide;
use queue::Queue;
use terms::trade::Trade;

// The lots of these trades.
pub(crate) fn traded_lots(trades: &[Trade]) -> u128
    ensures { result ≡ traded_lots trades.now }
{
    trades.iter().map(|t| u128::from(t.lots)).sum()
}

// The lots that rest in a queue, from the first order to the last.
pub(crate) fn resting_lots<S: OneSide, Q: Queue<SideOrder<S>>>(q: &Q) -> u128
    ensures small { result < 2 ^ 96 }
    ensures lots { Q.Queue.lawful q.now → result ≡ resting_lots (map (λ o. o.0) (Q.Queue.held q.now).elements) }
{
    // Kept: tried as a chain over `successors`, and the proof of its bound and its sum didn't close.
    let mut sum = 0;
    let mut next = q.first();
    for _ in 0..q.count() {
        let Some(e) = next else {
            break;
        };
        sum += u128::from(e.0.lots);
        next = q.first_after(&e);
    }
    sum
}

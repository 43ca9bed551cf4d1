// The element that ranks first of some.
ghost use Rattle.std.specs.Prelude.{◌≡◌, ◌/◌, ◌<◌, length};
ghost use Rattle.queue.specs.Held.{Apart, first};
ghost use Rattle.heap_queue.specs.Heaps.{ranked, above, BestBelow};

use queue::Ranked;

// The first in rank of the elements that `e` ranks before.
pub(crate) fn best_after<E: Ranked>(elements: &[E], e: &E) -> Option<E>
    ensures { Apart E.Ranked.rank.key elements.now → result ≡ first (E.Ranked.rank.before e.now) (ranked E.Ranked.rank.before elements.now) }
{
    elements
        .iter()
        .copied()
        .filter(|f| e.ranks_before(f))
        .reduce(|g, f| if g.ranks_before(&f) { g } else { f })
}

// Of the one or two places below `i`, the one whose element ranks first.
pub(crate) fn best_below<E: Ranked>(heap: &[E], i: usize) -> usize
    requires { i < length heap.now / 2 }
    ensures below { (above result ≡ i) × (i < result) × (result < length heap.now) }
    ensures best { Apart E.Ranked.rank.key heap.now → BestBelow E.Ranked.rank.before heap.now i result }
{
    let left = 2 * i + 1;
    let right = left + 1;
    if right < heap.len() && heap[right].ranks_before(&heap[left]) {
        right
    } else {
        left
    }
}

// The same orders by way of both kinds of queue.
ghost use Rattle.std.specs.Prelude.{◌≡◌, IfOk, string_bytes};
ghost use Rattle.orders.specs.Priority.{buy_rank};
ghost use Rattle.queue.specs.Held.{Sorted};
ghost use Rattle.queue.specs.Through.{SameElements};
ghost use Rattle.queue_demo.specs.Demo.{ranked_in, printed, printed_lines};
ghost use Rattle.queue_demo.specs.Sample.{entered};

use crate::report::push_report;
use crate::sample::sample;
use heap_queue::HeapQueue;
use orders::order::BuyOrder;
use queue::Queue;
use queue::through::rank_through;
use sorted_queue::SortedQueue;
use std::alloc::{AllocError, Global};
use terms::refusal::Refusal;

// The sample in rank order, by way of any kind of queue, which is left as it was.
fn rank_sample<Q: Queue<BuyOrder>>(q: &mut Q) -> Result<[BuyOrder; 5], Refusal>
    ensures gives { result ≡ ranked_in (Q.Queue.held q.old) }
    ensures ranks { IfOk result (λ orders. Sorted buy_rank.before orders × SameElements entered orders) }
    ensures leaves { Q.Queue.held q.new ≡ Q.Queue.held q.old }
{
    let mut orders = sample();
    rank_through(q, &mut orders)?;
    Ok(orders)
}

// What both kinds of queue make of the sample, as text. It fails only for want of memory.
pub fn demo_text(heap: Global) -> Result<String, AllocError>
    ensures prints { IfOk result (λ text. string_bytes text ≡ printed) }
    ensures lines { IfOk result (λ text. string_bytes text ≡ printed_lines) }
{
    // Five places, so that neither queue refuses an order. What stands in them does not matter.
    let mut table = sample();
    let sorted = rank_sample(&mut SortedQueue::new(&mut table)).unwrap();
    let heaped = rank_sample(&mut HeapQueue::new(&mut table)).unwrap();
    let mut text = String::new(heap);
    push_report(&mut text, "sorted queue", &sorted)?;
    push_report(&mut text, "heap queue", &heaped)?;
    Ok(text)
}

// A long pseudo-random run on both kinds side by side: every answer is the same.
use crate::queues::buy;
use heap_queue::HeapQueue;
use orders::order::BuyOrder;
use queue::{Queue, Ranked};
use sorted_queue::SortedQueue;
use terms::refusal::Refusal;

// What a call answered: whether it was refused, and why, or the number of the order that it found.
#[derive(Debug, Drop, PartialEq)]
enum Answer {
    Done(Result<(), Refusal>),
    Found(Option<u32>),
}

// One call, chosen by `x`.
fn call<Q: Queue<BuyOrder>>(q: &mut Q, x: u32) -> Answer {
    let number = x / 8 % 40;
    let e = buy(number, 100 + x / 320 % 7, x / 2_240 % 9, x / 20_160 % 64);
    match x % 8 {
        0..=2 => Answer::Done(q.put(e)),
        3 => Answer::Done(q.cut(number, x / 320 % 9)),
        4 => Answer::Found(q.take(number).map(|o| o.number())),
        5 => Answer::Found(q.first_after(&e).map(|o| o.number())),
        6 => Answer::Found(q.find(number).map(|o| o.number())),
        _ => Answer::Found(q.first().map(|o| o.number())),
    }
}

#[test]
fn same_answers(rt: HostRuntime) {
    let mut left = [buy(0, 0, 0, 0); 16];
    let mut right = left;
    let mut sorted = SortedQueue::new(&mut left);
    let mut heap = HeapQueue::new(&mut right);
    let mut x: u32 = 2_463_534_242;
    for _ in 0..20_000 {
        x ^= x.wrapping_mul(8_192);
        x ^= x / 131_072;
        x ^= x.wrapping_mul(32);
        assert_eq!(rt; call(&mut sorted, x), call(&mut heap, x));
        assert_eq!(rt; sorted.count(), heap.count());
    }
    assert!(rt; sorted.count() > 0);
}

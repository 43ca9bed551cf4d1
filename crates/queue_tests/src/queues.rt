// One scenario a test, the same on a sorted queue and on a heap.
// Refusals are compared by their numbers, which hosts see.
use heap_queue::HeapQueue;
use orders::order::{BuyOrder, Order, SellOrder};
use queue::{Queue, Ranked};
use sorted_queue::SortedQueue;
use std::process::Abort;

pub fn buy(number: u32, price: u32, lots: u32, turn: u32) -> BuyOrder {
    BuyOrder::new(Order {
        number,
        member: 1,
        price,
        lots,
        turn,
    })
}

// Over a table of two places.
fn puts<Q: Queue<BuyOrder>>(rt: &impl Abort, q: &mut Q) {
    assert_eq!(rt; (q.count(), q.capacity()), (0, 2));
    assert_eq!(rt; q.first().map(|o| o.number()), None);
    assert_eq!(rt; q.put(buy(4, 100, 5, 4)), Ok(()));
    assert_eq!(rt; q.put(buy(5, 100, 0, 5)).map_err(u8::from), Err(21));
    assert_eq!(rt; q.put(buy(4, 101, 1, 5)).map_err(u8::from), Err(21));
    assert_eq!(rt; q.put(buy(5, 101, 1, 4)).map_err(u8::from), Err(21));
    assert_eq!(rt; q.put(buy(5, 101, 1, 6)), Ok(()));
    assert_eq!(rt; q.put(buy(7, 100, 1, 7)).map_err(u8::from), Err(20));
    assert_eq!(rt; q.put(buy(4, 100, 0, 4)).map_err(u8::from), Err(20));
    assert_eq!(rt; q.count(), 2);
    assert_eq!(rt; q.first().map(|o| o.number()), Some(5));
}

// Over an empty queue of five places.
fn cuts<Q: Queue<BuyOrder>>(rt: &impl Abort, q: &mut Q) {
    assert_eq!(rt; q.put(buy(1, 100, 5, 1)), Ok(()));
    assert_eq!(rt; q.put(buy(2, 100, 5, 2)), Ok(()));
    assert_eq!(rt; q.cut(1, 0).map_err(u8::from), Err(22));
    assert_eq!(rt; q.cut(1, 6).map_err(u8::from), Err(22));
    assert_eq!(rt; q.cut(3, 1).map_err(u8::from), Err(22));
    assert_eq!(rt; q.cut(1, 2), Ok(()));
    assert_eq!(rt; q.find(1).map(|o| o.lots()), Some(3));
    assert_eq!(rt; q.cut(1, 3), Ok(()));
    assert_eq!(rt; q.count(), 1);
    assert_eq!(rt; q.find(1).map(|o| o.number()), None);
    assert_eq!(rt; q.first().map(|o| o.number()), Some(2));
}

// Over an empty queue of five places.
fn takes<Q: Queue<BuyOrder>>(rt: &impl Abort, q: &mut Q) {
    for (number, price) in [(1, 102), (2, 104), (3, 101), (4, 105), (5, 103)] {
        assert_eq!(rt; q.put(buy(number, price, 1, number)), Ok(()));
    }
    assert_eq!(rt; q.take(5).map(|o| o.number()), Some(5));
    assert_eq!(rt; q.take(4).map(|o| o.number()), Some(4));
    assert_eq!(rt; q.take(3).map(|o| o.number()), Some(3));
    assert_eq!(rt; q.take(3).map(|o| o.number()), None);
    assert_eq!(rt; q.count(), 2);
    assert_eq!(rt; q.first().map(|o| o.number()), Some(2));
    assert_eq!(rt;
        q.first_after(&buy(2, 104, 1, 2)).map(|o| o.number()),
        Some(1)
    );
    assert_eq!(rt; q.first_after(&buy(1, 102, 1, 1)).map(|o| o.number()), None);
    assert!(rt; q.is_taken(2, None) && !q.is_taken(2, Some(2)) && !q.is_taken(4, None));
}

#[test]
fn puts_on_both(rt: HostRuntime) {
    let mut table = [buy(0, 0, 0, 0); 2];
    puts(&rt, &mut SortedQueue::new(&mut table));
    puts(&rt, &mut HeapQueue::new(&mut table));
}

#[test]
fn cuts_on_both(rt: HostRuntime) {
    let mut table = [buy(0, 0, 0, 0); 5];
    cuts(&rt, &mut SortedQueue::new(&mut table));
    cuts(&rt, &mut HeapQueue::new(&mut table));
}

#[test]
fn takes_on_both(rt: HostRuntime) {
    let mut table = [buy(0, 0, 0, 0); 5];
    takes(&rt, &mut SortedQueue::new(&mut table));
    takes(&rt, &mut HeapQueue::new(&mut table));
}

#[test]
fn no_places(rt: HostRuntime) {
    let mut table = [buy(0, 0, 0, 0); 0];
    assert_eq!(rt;
        SortedQueue::new(&mut table)
            .put(buy(1, 1, 1, 1))
            .map_err(u8::from),
        Err(20)
    );
    assert_eq!(rt;
        HeapQueue::new(&mut table)
            .put(buy(1, 1, 1, 1))
            .map_err(u8::from),
        Err(20)
    );
}

#[test]
fn one_place(rt: HostRuntime) {
    let mut table = [buy(0, 0, 0, 0); 1];
    let mut q = SortedQueue::new(&mut table);
    assert_eq!(rt; q.put(buy(1, 1, 1, 1)), Ok(()));
    assert_eq!(rt; q.put(buy(2, 1, 1, 2)).map_err(u8::from), Err(20));
    assert_eq!(rt; q.take(1).map(|o| o.number()), Some(1));
    assert_eq!(rt; q.put(buy(2, 1, 1, 2)), Ok(()));
}

// A buying order ranks first at the higher price, a selling order at the lower one, then the lower turn.
#[test]
fn ranks(rt: HostRuntime) {
    let low = buy(1, 100, 1, 1).0;
    let high = buy(2, 101, 1, 2).0;
    let late = buy(3, 100, 1, 3).0;
    assert!(rt;
        BuyOrder::new(high).ranks_before(&BuyOrder::new(low))
            && !BuyOrder::new(low).ranks_before(&BuyOrder::new(high))
    );
    assert!(rt;
        SellOrder::new(low).ranks_before(&SellOrder::new(high))
            && !SellOrder::new(high).ranks_before(&SellOrder::new(low))
    );
    assert!(rt;
        BuyOrder::new(low).ranks_before(&BuyOrder::new(late))
            && !BuyOrder::new(late).ranks_before(&BuyOrder::new(low))
    );
    assert!(rt;
        SellOrder::new(low).ranks_before(&SellOrder::new(late))
            && !SellOrder::new(low).ranks_before(&SellOrder::new(low))
    );
}

// The two sides of a book as one value, whose orders are plain.
ghost use Rattle.std.specs.Prelude.{◌≡◌, ◌^◌, ◌<◌, length, IfNone, OnErr};
ghost use Rattle.std.proofs.Common.{rules};
ghost use Rattle.terms.specs.declared.side.Side.{Side as AnySide};
ghost use Rattle.queue.specs.Carries.{map_some};
ghost use Rattle.queue.specs.Held.{Held, Sound, head, any, takes, numbered, barred, uncut, answer, after_put, after_cut, after_take};
ghost use Rattle.orders.specs.Priority.{rank_of};
ghost use Rattle.orders.specs.declared.order.Order.{Order as AnyOrder};
ghost use Rattle.rules.specs.Book.{other, resting_lots};
ghost use Rattle.rules.specs.Opening.{emptied};
ghost use Rattle.book.specs.BySide.{side_lawful, side_held};
ghost use Rattle.book.specs.Soundness.{side_sound};

use crate::lots::resting_lots;
use orders::order::{BuyOrder, Order, SellOrder, SideOrder};
use orders::side::OneSide;
use queue::Queue;
use queue::through::clear;
use terms::refusal::Refusal;
use terms::side::Side;

// Two sides, each with its orders in priority. A lawful side is what it should be: its promises rest on that, and every
// call hands it on, and leaves the other side as it was. `keeps` and `same` are said at each call, since a caller uses
// them apart.
pub trait Sides {
    ghost lawful: { Self → AnySide → Type 0 };

    // What rests on a side.
    ghost held: { Self → AnySide → Held AnyOrder };

    // The second value is of the same two queues as the first: so a caller who lent them knows what became of them.
    ghost same_queues: { Self → Self → Type 0 };

    // How many orders rest on a side.
    fn count(&self, side: Side) -> usize
        ensures { result ≡ length (held self.now side).elements };

    // How many there can be.
    fn capacity(&self, side: Side) -> usize
        ensures { result ≡ (held self.now side).capacity };

    // The order that ranks first.
    fn first(&self, side: Side) -> Option<Order>
        ensures { lawful self.now side → result ≡ head (held self.now side).elements };

    // The order with this number.
    fn find(&self, side: Side, number: u32) -> Option<Order>
        ensures { lawful self.now side → result ≡ numbered (rank_of side) (held self.now side) number };

    // Whether an order other than the one numbered `except` has this turn as its number or its own turn.
    fn is_taken(&self, side: Side, turn: u32, except: Option<u32>) -> bool
        ensures { result ≡ any (takes (rank_of side) turn except) (held self.now side).elements };

    // The lots that rest on a side.
    fn lots(&self, side: Side) -> u128
        ensures small { result < 2 ^ 96 }
        ensures lots { lawful self.now side → result ≡ resting_lots (held self.now side).elements };

    // Puts an order on its side.
    fn put(&mut self, side: Side, order: Order) -> Result<(), Refusal>
        ensures answers { lawful self.old side → result ≡ answer (barred (rank_of side) (held self.old side) order) }
        ensures leaves { lawful self.old side → held self.new side ≡ after_put (rank_of side) (held self.old side) order }
        ensures stays { held self.new (other side) ≡ held self.old (other side) }
        ensures keeps { (s : AnySide) → lawful self.old s → lawful self.new s }
        ensures same { same_queues self.old self.new }
        ensures refused { OnErr result (self.new ≡ self.old) };

    // Cuts lots off an order, which leaves where it has no more.
    fn cut(&mut self, side: Side, number: u32, lots: u32) -> Result<(), Refusal>
        ensures answers { lawful self.old side → result ≡ answer (uncut (rank_of side) lots (numbered (rank_of side) (held self.old side) number)) }
        ensures leaves { lawful self.old side → held self.new side ≡ after_cut (rank_of side) (held self.old side) number lots }
        ensures stays { held self.new (other side) ≡ held self.old (other side) }
        ensures keeps { (s : AnySide) → lawful self.old s → lawful self.new s }
        ensures same { same_queues self.old self.new }
        ensures refused { OnErr result (self.new ≡ self.old) };

    // Takes an order out and hands it over.
    fn take(&mut self, side: Side, number: u32) -> Option<Order>
        ensures answers { lawful self.old side → result ≡ numbered (rank_of side) (held self.old side) number }
        ensures leaves { lawful self.old side → held self.new side ≡ after_take (rank_of side) (held self.old side) number }
        ensures stays { held self.new (other side) ≡ held self.old (other side) }
        ensures keeps { (s : AnySide) → lawful self.old s → lawful self.new s }
        ensures same { same_queues self.old self.new }
        ensures refused { IfNone result (self.new ≡ self.old) };

    // Takes every order out.
    fn clear(&mut self, side: Side)
        ensures leaves { lawful self.old side → held self.new side ≡ emptied (held self.old side) }
        ensures stays { held self.new (other side) ≡ held self.old (other side) }
        ensures keeps { (s : AnySide) → lawful self.old s → lawful self.new s }
        ensures same { same_queues self.old self.new };

    ghost same_at_first: { (a : Self) → same_queues a a };

    ghost same_still: { (a b c : Self) → same_queues a b → same_queues b c → same_queues a c };

    // What a lawful side holds is sound.
    ghost sound: { (d : Self) (s : AnySide) → lawful d s → Sound (rank_of s) (held d s) };
}

// A queue of buying and one of selling orders, which stay the caller's.
#[derive(Drop)]
pub struct TwoQueues<'a, B, S> {
    pub buys: &'a mut B,
    pub sells: &'a mut S,
}

// An order of either side as a plain one.
fn plain<S: OneSide>(found: Option<SideOrder<S>>) -> Option<Order>
    ensures { result ≡ map_some (λ o. o.0) found }
{
    found.map(|e| e.0)
}

// The one place that picks a queue by its side: the two have types of their own, so each call has two arms.
impl<'a, B: Queue<BuyOrder>, S: Queue<SellOrder>> Sides for TwoQueues<'a, B, S> {
    ghost lawful = { λ d. side_lawful (B.Queue.lawful d.buys.now) (S.Queue.lawful d.sells.now) };

    ghost held = { λ d. side_held (B.Queue.held d.buys.now) (S.Queue.held d.sells.now) };

    ghost same_queues = { λ d e. (e.buys.ghost_name ≡ d.buys.ghost_name) × (e.sells.ghost_name ≡ d.sells.ghost_name) };

    ghost same_at_first = { Prim.search rules };

    ghost same_still = { Prim.search rules };

    ghost sound = { λ d. side_sound (B.Queue.held d.buys.now) (S.Queue.held d.sells.now) (B.Queue.sound d.buys.now) (S.Queue.sound d.sells.now) };

    fn count(&self, side: Side) -> usize {
        match side {
            Side::Buy => self.buys.count(),
            Side::Sell => self.sells.count(),
        }
    }

    fn capacity(&self, side: Side) -> usize {
        match side {
            Side::Buy => self.buys.capacity(),
            Side::Sell => self.sells.capacity(),
        }
    }

    fn first(&self, side: Side) -> Option<Order> {
        match side {
            Side::Buy => plain(self.buys.first()),
            Side::Sell => plain(self.sells.first()),
        }
    }

    fn find(&self, side: Side, number: u32) -> Option<Order> {
        match side {
            Side::Buy => plain(self.buys.find(number)),
            Side::Sell => plain(self.sells.find(number)),
        }
    }

    fn is_taken(&self, side: Side, turn: u32, except: Option<u32>) -> bool {
        match side {
            Side::Buy => self.buys.is_taken(turn, except),
            Side::Sell => self.sells.is_taken(turn, except),
        }
    }

    fn lots(&self, side: Side) -> u128 {
        match side {
            Side::Buy => resting_lots(&*self.buys),
            Side::Sell => resting_lots(&*self.sells),
        }
    }

    fn put(&mut self, side: Side, order: Order) -> Result<(), Refusal> {
        match side {
            Side::Buy => self.buys.put(BuyOrder::new(order)),
            Side::Sell => self.sells.put(SellOrder::new(order)),
        }
    }

    fn cut(&mut self, side: Side, number: u32, lots: u32) -> Result<(), Refusal> {
        match side {
            Side::Buy => self.buys.cut(number, lots),
            Side::Sell => self.sells.cut(number, lots),
        }
    }

    fn take(&mut self, side: Side, number: u32) -> Option<Order> {
        match side {
            Side::Buy => plain(self.buys.take(number)),
            Side::Sell => plain(self.sells.take(number)),
        }
    }

    fn clear(&mut self, side: Side) {
        match side {
            Side::Buy => clear(&mut *self.buys),
            Side::Sell => clear(&mut *self.sells),
        }
    }
}

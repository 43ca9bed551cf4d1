// Questions to one side's queue, as the rules put them.
ghost use Rattle.std.specs.Prelude.{◌≡◌, ◌<◌, true, ◌&&◌, ◌==◌};
ghost use Rattle.terms.specs.Setups.{within};
ghost use Rattle.terms.specs.declared.side.Side.{Side as AnySide};
ghost use Rattle.queue.specs.Carries.{map_held};
ghost use Rattle.rules.specs.Book.{holding, other};
ghost use Rattle.rules.specs.Opening.{fit};
ghost use Rattle.rules.specs.Checks.{full, full_without, holds, leg_lots, lots_under, without};

use crate::sides::Sides;
use orders::order::SideOrder;
use orders::side::OneSide;
use queue::Queue;
use terms::limits::CAPACITY_MAX;
use terms::side::Side;

// Whether a queue with this count and capacity may be a book's.
fn can_open(count: usize, capacity: usize) -> bool
    ensures { result ≡ (count == 0 && within 1 1024 capacity) }
{
    count == 0 && (1..=CAPACITY_MAX).contains(&capacity)
}

// Whether a book may be opened on this queue: it is empty, and has 1 to 1,024 places. It is lawful then.
pub(crate) fn is_fit<S: OneSide, Q: Queue<SideOrder<S>>>(q: &Q) -> bool
    ensures fits { result ≡ fit (map_held (λ o. o.0) (Q.Queue.held q.now)) }
    ensures lawful { result ≡ true → Q.Queue.lawful q.now }
{
    can_open(q.count(), q.capacity())
}

// Whether there is no place left.
pub(crate) fn is_full<D: Sides>(sides: &D, side: Side) -> bool
    ensures { result ≡ full (D.held sides.now side).capacity (D.held sides.now side).elements }
{
    sides.count(side) >= sides.capacity(side)
}

// Whether the order numbered `leg` rests.
pub(crate) fn holds_leg<D: Sides>(sides: &D, side: Side, leg: Option<u32>) -> bool
    ensures { D.lawful sides.now side → result ≡ holds leg (D.held sides.now side).elements }
{
    leg.is_some_and(|number| sides.find(side, number).is_some())
}

// Whether there is no place left even where the order numbered `leg` counts as gone.
pub(crate) fn is_full_without<D: Sides>(sides: &D, side: Side, leg: Option<u32>) -> bool
    ensures { D.lawful sides.now side → result ≡ full_without leg (D.held sides.now side) }
{
    let (count, capacity) = (sides.count(side), sides.capacity(side));
    if holds_leg(sides, side, leg) {
        count > capacity
    } else {
        count >= capacity
    }
}

// The lots of the order with this number, or 0.
pub(crate) fn lots_under<D: Sides>(sides: &D, side: Side, number: u32) -> u128
    ensures small { result < 4294967296 }
    ensures lots { D.lawful sides.now side → result ≡ lots_under number (D.held sides.now side).elements }
{
    sides
        .find(side, number)
        .map_or(0, |order| u128::from(order.lots))
}

// Takes out the order numbered `leg`, if there is one, and says how many lots it had.
pub(crate) fn take_leg<D: Sides>(sides: &mut D, side: Side, leg: Option<u32>) -> u128
    ensures small { result < 4294967296 }
    ensures keeps { (s : AnySide) → D.lawful sides.old s → D.lawful sides.new s }
    ensures same { D.same_queues sides.old sides.new }
    ensures lots { D.lawful sides.old side → result ≡ leg_lots leg (D.held sides.old side).elements }
    ensures leaves { D.lawful sides.old side → D.held sides.new side ≡ holding (D.held sides.old side) (without leg (D.held sides.old side).elements) }
    ensures stays { D.held sides.new (other side) ≡ D.held sides.old (other side) }
{
    let Some(number) = leg else {
        return 0;
    };
    sides
        .take(side, number)
        .map_or(0, |order| u128::from(order.lots))
}

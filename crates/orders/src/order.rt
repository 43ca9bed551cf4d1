// A resting order. The side is in the type.
ghost use Rattle.std.specs.Prelude.{◌≡◌};

use crate::side::{Buys, Sells};
use std::marker::PhantomData;
use terms::side::Side;

// What a resting order is on either side.
#[derive(Clone, Copy, Debug, PartialEq, Eq)]
pub struct Order {
    // the turn that it got on entering
    pub number: u32,
    // the market maker is member 0; the rules' definitions say so, and clauses would turn an option into that number
    pub member: u32,
    pub price: u32,
    pub lots: u32,
    // its present turn, which gives time priority
    pub turn: u32,
}

// An order of the side S.
#[derive(Clone, Copy, Debug, PartialEq, Eq)]
pub struct SideOrder<S>(pub Order, PhantomData<S>);

pub type BuyOrder = SideOrder<Buys>;

pub type SellOrder = SideOrder<Sells>;

impl<S> SideOrder<S> {
    pub const fn new(order: Order) -> SideOrder<S>
        ensures { result.0 ≡ order }
    {
        SideOrder(order, PhantomData)
    }
}

// An order that was found, and its side.
#[derive(Clone, Copy, Debug, PartialEq, Eq)]
pub struct Found {
    pub side: Side,
    pub order: Order,
}

// The lots at one price.
ghost use Rattle.std.specs.Prelude.{◌≡◌};
ghost use Rattle.queue_demo.specs.Levels.{lots_if, lots_at};

use orders::order::BuyOrder;

// The lots of an order, if it is at this price.
fn lots_if(o: &BuyOrder, price: u32) -> u32
    ensures { result ≡ lots_if price o.now }
{
    if o.0.price == price { o.0.lots } else { 0 }
}

// How many lots there are at this price, all orders together.
pub fn lots_at(orders: &[BuyOrder], price: u32) -> u128
    ensures { result ≡ lots_at price orders.now }
{
    orders.iter().map(|o| u128::from(lots_if(o, price))).sum()
}

// The orders that the demonstration puts through the queues.
ghost use Rattle.std.specs.Prelude.{◌≡◌};
ghost use Rattle.queue_demo.specs.Sample.{buying, entered};

use orders::order::{BuyOrder, Order};

// An order of member 7, numbered by the turn in which it entered.
const fn buy(number: u32, price: u32, lots: u32) -> BuyOrder
    ensures plain { result.0 ≡ record { number = number; member = 7; price = price; lots = lots; turn = number } }
    ensures gives { result ≡ buying number price lots }
{
    BuyOrder::new(Order {
        number,
        member: 7,
        price,
        lots,
        turn: number,
    })
}

// Five orders, as they enter.
pub const fn sample() -> [BuyOrder; 5]
    ensures { result ≡ entered }
{
    [
        buy(1, 102, 40),
        buy(2, 104, 5),
        buy(3, 102, 30),
        buy(4, 103, 7),
        buy(5, 104, 50),
    ]
}

// Orders as text: a title, then a line a price with its lots, and below it a line an order.
ghost use Rattle.std.specs.Prelude.{◌≡◌, ◌++◌, string_bytes, OnOk};
ghost use Rattle.queue_demo.specs.Reports.{price_line, order_line, report};

use crate::levels::lots_at;
use orders::order::{BuyOrder, Order};
use std::alloc::AllocError;

// The line of a price.
fn push_price(text: &mut String, price: u32, lots: u128) -> Result<(), AllocError>
    ensures { OnOk result (string_bytes text.new ≡ string_bytes text.old ++ price_line price lots) }
{
    writeln!(text, "{price}: {lots} lots")
}

// The line of an order.
fn push_order(text: &mut String, o: &BuyOrder) -> Result<(), AllocError>
    ensures { OnOk result (string_bytes text.new ≡ string_bytes text.old ++ order_line o.now) }
{
    let Order { number, lots, .. } = o.0;
    writeln!(text, "  order {number}, {lots} lots")
}

// A title, and the lines of the orders below it.
pub fn push_report(text: &mut String, title: &str, orders: &[BuyOrder]) -> Result<(), AllocError>
    ensures { OnOk result (string_bytes text.new ≡ string_bytes text.old ++ report title.now orders.now) }
{
    writeln!(text, "{title}")?;
    let mut last = None;
    for o in orders {
        let price = o.0.price;
        if last != Some(price) {
            push_price(text, price, lots_at(orders, price))?;
        }
        push_order(text, o)?;
        last = Some(price);
    }
    Ok(())
}

// The bodies of messages as numbers, in a tape's order. Each conversion undoes the other.
ghost use Rattle.std.specs.Prelude.{◌≡◌};
ghost use Rattle.terms.specs.Messages.{order_from, order_numbers, change_from, change_numbers, cancel_from, cancel_numbers, quote_from, quote_numbers};

use crate::message::{OrderCancel, OrderChange, OrderEntry, QuoteEntry};

impl From<[u32; 3]> for OrderEntry {
    ghost from_gives = { λ numbers order. (order ≡ order_from numbers) × (order_numbers order ≡ numbers) };

    fn from(numbers: [u32; 3]) -> OrderEntry {
        let [member, price, lots] = numbers;
        OrderEntry {
            member,
            price,
            lots,
        }
    }
}

impl From<OrderEntry> for [u32; 3] {
    ghost from_gives = { λ order numbers. (numbers ≡ order_numbers order) × (order_from numbers ≡ order) };

    fn from(order: OrderEntry) -> [u32; 3] {
        [order.member, order.price, order.lots]
    }
}

impl From<[u32; 4]> for OrderChange {
    ghost from_gives = { λ numbers change. (change ≡ change_from numbers) × (change_numbers change ≡ numbers) };

    fn from(numbers: [u32; 4]) -> OrderChange {
        let [member, order, price, lots] = numbers;
        OrderChange {
            member,
            order,
            price,
            lots,
        }
    }
}

impl From<OrderChange> for [u32; 4] {
    ghost from_gives = { λ change numbers. (numbers ≡ change_numbers change) × (change_from numbers ≡ change) };

    fn from(change: OrderChange) -> [u32; 4] {
        [change.member, change.order, change.price, change.lots]
    }
}

impl From<[u32; 2]> for OrderCancel {
    ghost from_gives = { λ numbers cancel. (cancel ≡ cancel_from numbers) × (cancel_numbers cancel ≡ numbers) };

    fn from(numbers: [u32; 2]) -> OrderCancel {
        let [member, order] = numbers;
        OrderCancel { member, order }
    }
}

impl From<OrderCancel> for [u32; 2] {
    ghost from_gives = { λ cancel numbers. (numbers ≡ cancel_numbers cancel) × (cancel_from numbers ≡ cancel) };

    fn from(cancel: OrderCancel) -> [u32; 2] {
        [cancel.member, cancel.order]
    }
}

impl From<[u32; 4]> for QuoteEntry {
    ghost from_gives = { λ numbers quote. (quote ≡ quote_from numbers) × (quote_numbers quote ≡ numbers) };

    fn from(numbers: [u32; 4]) -> QuoteEntry {
        let [bid_price, bid_lots, ask_price, ask_lots] = numbers;
        QuoteEntry {
            bid_price,
            bid_lots,
            ask_price,
            ask_lots,
        }
    }
}

impl From<QuoteEntry> for [u32; 4] {
    ghost from_gives = { λ quote numbers. (numbers ≡ quote_numbers quote) × (quote_from numbers ≡ quote) };

    fn from(quote: QuoteEntry) -> [u32; 4] {
        [
            quote.bid_price,
            quote.bid_lots,
            quote.ask_price,
            quote.ask_lots,
        ]
    }
}

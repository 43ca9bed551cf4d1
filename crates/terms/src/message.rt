// A message of a tape: its kind, and the numbers of its body.
ghost use Rattle.std.specs.Prelude.{◌≡◌};
ghost use Rattle.terms.specs.Messages.{letter_for};

use crate::letter::Letter;

// What a member gives for a new order.
#[derive(Clone, Copy, Debug, PartialEq, Eq)]
pub struct OrderEntry {
    pub member: u32,
    pub price: u32,
    pub lots: u32,
}

// The new price and the new lots of what still rests of an order.
#[derive(Clone, Copy, Debug, PartialEq, Eq)]
pub struct OrderChange {
    pub member: u32,
    pub order: u32,
    pub price: u32,
    pub lots: u32,
}

// The order that a member takes out.
#[derive(Clone, Copy, Debug, PartialEq, Eq)]
pub struct OrderCancel {
    pub member: u32,
    pub order: u32,
}

// The two legs of a market maker's quote.
#[derive(Clone, Copy, Debug, PartialEq, Eq)]
pub struct QuoteEntry {
    pub bid_price: u32,
    pub bid_lots: u32,
    pub ask_price: u32,
    pub ask_lots: u32,
}

// An accepted quote, with the order numbers of its legs.
#[derive(Clone, Copy, Debug, PartialEq, Eq)]
pub struct Quoted {
    pub entry: QuoteEntry,
    pub bid: u32,
    pub ask: u32,
}

#[derive(Clone, Copy, Debug, PartialEq, Eq)]
pub enum Message {
    Buy(OrderEntry),
    Sell(OrderEntry),
    ImmediateBuy(OrderEntry),
    ImmediateSell(OrderEntry),
    Change(OrderChange),
    Cancel(OrderCancel),
    Quote(QuoteEntry),
    Renew,
    Halt,
    Resume,
    End,
}

impl Message {
    // The letter that the message begins with on a tape.
    pub fn letter(&self) -> Letter
        ensures { result ≡ letter_for self.now }
    {
        match self {
            Message::Buy(_) => Letter::Buy,
            Message::Sell(_) => Letter::Sell,
            Message::ImmediateBuy(_) => Letter::ImmediateBuy,
            Message::ImmediateSell(_) => Letter::ImmediateSell,
            Message::Change(_) => Letter::Change,
            Message::Cancel(_) => Letter::Cancel,
            Message::Quote(_) => Letter::Quote,
            Message::Renew => Letter::Renew,
            Message::Halt => Letter::Halt,
            Message::Resume => Letter::Resume,
            Message::End => Letter::End,
        }
    }
}

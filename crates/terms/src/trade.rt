// What a call of a book brings about: trades, and the answer.

// Lots that changed hands, with the order numbers of both parties.
#[derive(Clone, Copy, Debug, PartialEq, Eq)]
pub struct Trade {
    pub buyer: u32,
    pub seller: u32,
    pub price: u32,
    pub lots: u32,
}

// What a call answers. The sums are wide enough for any queue.
#[derive(Clone, Copy, Debug, PartialEq, Eq)]
pub struct Answer {
    // the order, the bid leg of a quote, or 0, as a tape's listing prints it
    pub number: u32,
    // lots traded in the call, each trade once
    pub traded: u128,
    // lots that rest under the order, or under both legs
    pub resting: u128,
    pub cancelled: u128,
    // how many trades stand in the trade table
    pub trades: usize,
}

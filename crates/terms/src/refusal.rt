// Why a call is refused: one case for each reason, in the order in which the reasons are tested.
ghost use Rattle.std.specs.Prelude.{◌≡◌};
ghost use Rattle.terms.specs.Values.{refusal_number};

#[derive(Clone, Copy, Debug, PartialEq, Eq)]
pub enum Refusal {
    // the tape has more than 4,096 bytes
    TapeTooLong = 1,
    // the set-up or a message ends early
    EndsEarly = 2,
    // no message begins with this letter
    UnknownLetter = 3,
    // a number has a fifth byte, or is not in its shortest form
    BadNumber = 4,
    // a number of the set-up or of a new range is outside its limits
    OutsideLimits = 5,
    // a queue is not empty, or its capacity is not 1 to 1,024
    UnfitQueue = 6,
    // the phase does not allow this message
    WrongPhase = 7,
    // a member is not 1 to 255
    BadMember = 8,
    // a price is not 1 to 100,000, or is off the tick
    BadPrice = 9,
    // lots are not 1 to 10,000,000
    BadLots = 10,
    // a bid is not below its ask, or their difference is outside the spreads
    BadSpread = 11,
    // the lots of a quote's leg are outside the quote lots
    BadQuoteLots = 12,
    // the trade table is shorter than both capacities together
    ShortTradeTable = 13,
    // the order rests on neither side
    NotResting = 14,
    // the order is another member's
    NotOwner = 15,
    // in a halt a price may not improve and lots may not rise
    HaltedRise = 16,
    // a price improves where there is no range, or beyond the range
    BeyondRange = 17,
    // a renewal while both legs of the quote rest
    QuoteRests = 18,
    // fewer turns are left than the call takes
    TurnsUsedUp = 19,
    // a queue is full
    QueueFull = 20,
    // a number or key is held already, or there are no lots
    AlreadyHeld = 21,
    // a cut of no lots, of more lots than there are, or of an element that is not held
    BadCut = 22,
    // the listing is longer than its buffer
    ListingTooLong = 23,
}

// The number under which a caller sees the refusal.
impl From<Refusal> for u8 {
    ghost from_gives = { λ refusal number. number ≡ refusal_number refusal };

    fn from(refusal: Refusal) -> u8 {
        refusal as u8
    }
}
